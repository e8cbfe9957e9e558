//! Laws of rows modulo m. Each function does nothing: its contract is the law.
ghost use Rattle.std.specs.Prelude.{◌≡◌, ◌≢◌, ℕ, suc, ◌+◌, ◌*◌, ◌<◌, ◌↔◌};
ghost use Rattle.zeta_model.specs.Modular.{Same};
ghost use Rattle.linear_model.specs.Rows.{combination, SameRow, InSpan, SpanWithin, SameSpan};
ghost use Rattle.linear_model.specs.Reduced.{IsLead, IsReduced, IsNormalForm};
ghost use Rattle.linear_model.specs.Forward.{IsForward, IsSwept};

/// Two reduced lists of one span have one count, the same leads, and the same rows modulo `m`.
pub fn reduced_lists_are_unique()
    ensures counts { (m n k : ℕ) (lead other_lead : ℕ → ℕ) (rows others : ℕ → ℕ → ℕ)
        → 1 < m → IsReduced m n lead rows → IsReduced m k other_lead others → SameSpan m n rows k others → n ≡ k }
    ensures leads { (m n k : ℕ) (lead other_lead : ℕ → ℕ) (rows others : ℕ → ℕ → ℕ)
        → 1 < m → IsReduced m n lead rows → IsReduced m k other_lead others → SameSpan m n rows k others
        → (i : ℕ) → i < n → lead i ≡ other_lead i }
    ensures rows { (m n k : ℕ) (lead other_lead : ℕ → ℕ) (rows others : ℕ → ℕ → ℕ)
        → 1 < m → IsReduced m n lead rows → IsReduced m k other_lead others → SameSpan m n rows k others
        → (i : ℕ) → i < n → SameRow m (rows i) (others i) }
{}

/// A row has exactly one normal form by a reduced list, and by a forward list.
/// It is zero exactly where the row lies in the span.
pub fn normal_forms_are_unique()
    ensures reduced { (m n : ℕ) (lead : ℕ → ℕ) (rows : ℕ → ℕ → ℕ) → IsReduced m n lead rows → IsForward m n lead rows }
    ensures exists { (m n : ℕ) (lead : ℕ → ℕ) (rows : ℕ → ℕ → ℕ) → 0 < m → IsForward m n lead rows
        → (p : ℕ → ℕ) → (q : ℕ → ℕ) × IsNormalForm m n lead rows p q }
    ensures unique { (m n : ℕ) (lead : ℕ → ℕ) (rows : ℕ → ℕ → ℕ) → 0 < m → IsForward m n lead rows
        → (p q r : ℕ → ℕ) → IsNormalForm m n lead rows p q → IsNormalForm m n lead rows p r → SameRow m q r }
    ensures zero { (m n : ℕ) (lead : ℕ → ℕ) (rows : ℕ → ℕ → ℕ) → 0 < m → IsForward m n lead rows
        → (p q : ℕ → ℕ) → IsNormalForm m n lead rows p q → InSpan m n rows p ↔ SameRow m q (λ _. 0) }
{}

/// What lies in a span of rows that lie in another span lies there too.
pub fn spans_pass_through()
    ensures rows { (m n : ℕ) (rows : ℕ → ℕ → ℕ) (i : ℕ) → i < n → InSpan m n rows (rows i) }
    ensures spans { (m n k : ℕ) (rows others : ℕ → ℕ → ℕ) → SpanWithin m n rows k others
        → (p : ℕ → ℕ) → InSpan m n rows p → InSpan m k others p }
{}

/// The lead of a row of the span of a reduced list is a lead of the list.
/// Two rows of the span that agree at the leads are one, and two combinations that do have the same coefficients.
pub fn leads_of_a_span()
    ensures lead { (m n : ℕ) (lead : ℕ → ℕ) (rows : ℕ → ℕ → ℕ) → IsReduced m n lead rows
        → (p : ℕ → ℕ) (col : ℕ) → InSpan m n rows p → IsLead m p col → (i : ℕ) × (i < n) × (lead i ≡ col) }
    ensures rows { (m n : ℕ) (lead : ℕ → ℕ) (rows : ℕ → ℕ → ℕ) → 0 < m → IsForward m n lead rows
        → (p q : ℕ → ℕ) → InSpan m n rows p → InSpan m n rows q
        → ((i : ℕ) → i < n → Same m (p (lead i)) (q (lead i))) → SameRow m p q }
    ensures coefficients { (m n : ℕ) (lead : ℕ → ℕ) (rows : ℕ → ℕ → ℕ) → 0 < m → IsForward m n lead rows
        → (c d : ℕ → ℕ) → ((i : ℕ) → i < n → Same m (combination n rows c (lead i)) (combination n rows d (lead i)))
        → (i : ℕ) → i < n → Same m (c i) (d i) }
{}

/// One sweep over a forward list, in its order, leaves the normal form.
pub fn sweeps_leave_normal_forms()
    ensures start { (m : ℕ) (lead : ℕ → ℕ) (rows : ℕ → ℕ → ℕ) (first : ℕ) (c p : ℕ → ℕ)
        → ((i : ℕ) → i < first → c i ≡ 0) → IsSwept m first first lead rows c p p }
    ensures step { (m : ℕ) (lead : ℕ → ℕ) (rows : ℕ → ℕ → ℕ) (n first k : ℕ) (c d p q r : ℕ → ℕ)
        → IsForward m n lead rows → k < n → IsSwept m first k lead rows c p q
        → ((i : ℕ) → i < k → c i ≡ d i) → Same m (q (lead k) + d k) 0 → SameRow m r (λ col. q col + d k * rows k col)
        → IsSwept m first (suc k) lead rows d p r }
    ensures end { (m : ℕ) (lead : ℕ → ℕ) (rows : ℕ → ℕ → ℕ) (n : ℕ) (c p q : ℕ → ℕ)
        → 0 < m → IsSwept m 0 n lead rows c p q → IsNormalForm m n lead rows p q }
{}
