//! The laws of replies by truncated sums. The function does nothing when it is called: what it says is its contract, and the check proves it.
ghost use Rattle.std.specs.Prelude.{◌≡◌, ℕ, Bool, true, List, ◌∷◌, ◌++◌};
ghost use Rattle.zeta_model.specs.declared.Letter.{Letter};
ghost use Rattle.zeta_model.specs.Words.{has_index};
ghost use Rattle.zeta_expr.specs.declared.expr.Factor.{Factor};
ghost use Rattle.zeta_expr.specs.Forms.{TermForm};
ghost use Rattle.probe_replies.specs.Replies.{IsProbeReply};
ghost use Rattle.probe_replies.specs.Stuffles.{with_zetas, stuffled};
ghost use Rattle.probe_replies.specs.Values.{terms_value};

/// Each line has one reply for each modulus and each n. An expression keeps its value where the product of two zetas in a term is
/// replaced by the sum over the words of their stuffle (Hoffman 1997).
pub fn probe_laws()
    ensures some { (m n : ℕ) (line : List ℕ) → (bytes : List ℕ) × IsProbeReply m n line bytes }
    ensures one { (m n : ℕ) (line a b : List ℕ) → IsProbeReply m n line a → IsProbeReply m n line b → a ≡ b }
    ensures stuffle { (m n : ℕ) (u v : List Letter) (negative : Bool) (factors : List Factor) (front behind : List TermForm)
        → has_index u ≡ true → has_index v ≡ true
        → terms_value m n (front ++ with_zetas negative u v factors ∷ behind) ≡ terms_value m n (front ++ stuffled negative u v factors ++ behind) }
{}
