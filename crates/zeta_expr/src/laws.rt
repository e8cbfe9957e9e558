//! That a line has one meaning. The function does nothing: its contract is the theorem.
ghost use Rattle.std.specs.Prelude.{◌≡◌, ℕ, List};
ghost use Rattle.zeta_expr.specs.LineMeaning.{LineMeaning, IsMeaning};

/// Each line has one meaning for each modulus, weight and depth: a sum of words, or its first refusal.
pub fn a_line_has_one_meaning()
    ensures some { (m w d : ℕ) (line : List ℕ) → (a : LineMeaning) × IsMeaning m w d line a }
    ensures one { (m w d : ℕ) (line : List ℕ) (a b : LineMeaning) → IsMeaning m w d line a → IsMeaning m w d line b → a ≡ b }
{}
