//! What the terms of a sum tell. The function does nothing: its contract is the law.
ghost use Rattle.std.specs.Prelude.{◌≡◌, ◌≢◌, ◌↔◌, List, Contains};
ghost use Rattle.std.specs.List.Sorted.{IsPermutation, IsStrictlySortedBy};
ghost use Rattle.std.specs.Map.{keys_of};
ghost use Rattle.word_sums.specs.Terms.{coefficient_of, IsTerms, AllIn};
ghost use Rattle.zeta_model.specs.declared.Letter.{Letter};
ghost use Rattle.zeta_model.specs.Words.{word_cmp};

use residues::Ring;

/// The words of the terms are those whose coefficient is not zero, and their order tells nothing. Two sums with the same
/// coefficients have one list of terms by increasing word.
pub fn terms_are_known_by_their_coefficients<R: Ring>()
    ensures words { (ring : R) (terms : List (List Letter × R.Elem)) → IsTerms R.zero terms → AllIn (R.has ring) terms
        → (t : List Letter) → Contains (keys_of terms) t ↔ (coefficient_of (R.value ring) terms t ≢ 0) }
    ensures order { (ring : R) (terms others : List (List Letter × R.Elem)) → IsPermutation terms others
        → (t : List Letter) → coefficient_of (R.value ring) others t ≡ coefficient_of (R.value ring) terms t }
    ensures sorted { (ring : R) (p q : List (List Letter × R.Elem)) → IsTerms R.zero p → IsTerms R.zero q
        → AllIn (R.has ring) p → AllIn (R.has ring) q → IsStrictlySortedBy word_cmp (keys_of p) → IsStrictlySortedBy word_cmp (keys_of q)
        → ((t : List Letter) → coefficient_of (R.value ring) p t ≡ coefficient_of (R.value ring) q t) → p ≡ q }
{}
