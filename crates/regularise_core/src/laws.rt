//! The laws of the regularisation. The function does nothing: its contract is the theorem.
ghost use Rattle.std.specs.Prelude.{◌≡◌, ℕ, ◌<◌, true, List, All, length};
ghost use Rattle.std.specs.Map.{keys_of};
ghost use Rattle.word_sums.specs.Terms.{coefficient_of};
ghost use Rattle.zeta_model.specs.Modular.{Same};
ghost use Rattle.zeta_model.specs.Regularise.{reg_of_sum, IsRegularised};
ghost use Rattle.zeta_model.specs.Sums.{continued, numbered, single};
ghost use Rattle.zeta_model.specs.Words.{ends_with_y, is_admissible};
ghost use Rattle.zeta_model.specs.declared.Letter.{Letter};

use residues::Ring;

/// A sum of admissible words is its own regularisation. The words `y^j x u` are sums of products with powers of y: `y^j x u` is
/// the sum over i = 0..j of `(-1)^i sh(y^(j-i), x sh(y^i, u))`, and its regularisation is the last of these terms. Sums with
/// the same coefficients modulo m have the same regularisation, and that of words of one weight which end with y has
/// admissible words of that weight (Ihara, Kaneko and Zagier 2006).
pub fn reg_laws<R: Ring>()
    ensures admissible { (ring : R) (terms : List (List Letter × R.Elem)) → All (λ w. is_admissible w ≡ true) (keys_of terms) → (t : List Letter)
        → reg_of_sum (R.modulus ring) (numbered (R.value ring) terms) t ≡ coefficient_of (R.value ring) terms t }
    ensures identity { (j : ℕ) (u : List Letter) → IsRegularised j u }
    ensures coefficients { (m : ℕ) (terms others : List (ℕ × List Letter)) → 0 < m
        → ((t : List Letter) → Same m (continued single terms t) (continued single others t))
        → (t : List Letter) → Same m (reg_of_sum m terms t) (reg_of_sum m others t) }
    ensures words { (m k : ℕ) (terms : List (ℕ × List Letter)) → All (λ term. (ends_with_y term.1 ≡ true) × (length term.1 ≡ k)) terms
        → (t : List Letter) → 0 < reg_of_sum m terms t → (is_admissible t ≡ true) × (length t ≡ k) }
{}
