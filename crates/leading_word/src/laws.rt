//! Laws of leading words. Each function does nothing: its contract is the law.
ghost use Rattle.std.specs.Prelude.{◌≡◌, ℕ, ◌*◌, ◌<◌, ◌≤◌, ◌↔◌, List, ◌∷◌, ◌++◌, length, replicate, flat_map, IsTrue};
ghost use Rattle.zeta_model.specs.declared.Letter.{Letter};
ghost use Rattle.zeta_model.specs.Words.{depth_of, is_admissible};
ghost use Rattle.zeta_model.specs.Product.{SameWords};
ghost use Rattle.zeta_model.specs.Alphabets.{shuffle_of};
ghost use Rattle.zeta_model.specs.Sums.{sum_of};
ghost use Rattle.lyndon_words.specs.Lyndon.{IsBefore, IsFactors, joined};
ghost use Rattle.lyndon_words.specs.Monomials.{IsMonomial, product_of};
ghost use Rattle.leading_word.specs.Shuffles.{words_of, each_shuffled, factorials_of, factorial};
ghost use Rattle.zeta_model.specs.Inverses.{HasInverse};

/// In the shuffle of the Lyndon factors of a word no word is greater than the word, and the number of its places is the product of the
/// factorials of the factors' multiplicities (Radford 1979).
pub fn leading_words()
    ensures greatest { (u : List Letter) (us : List (List Letter)) → IsFactors u us
        → (v : List Letter) → IsBefore u v → sum_of (words_of us) v ≡ 0 }
    ensures places { (u : List Letter) (us : List (List Letter)) → IsFactors u us → sum_of (words_of us) u ≡ factorials_of us }

    // Where the coefficient of the word has no inverse modulo m, some number from 2 to the weight has none.
    ensures no_inverse { (m : ℕ) (u : List Letter) (us : List (List Letter)) → 0 < m → IsFactors u us
        → ¬ (HasInverse m (sum_of (words_of us) u)) → (n : ℕ) × (2 ≤ n) × (n ≤ length u) × ¬ (HasInverse m n) }
{}

/// The product of the factorials: a word that stands n times, before others, gives the factorial of n. The product has an inverse modulo m
/// exactly where each number up to a multiplicity has one.
pub fn multiplicities()
    ensures factorial { (n : ℕ) (u : List Letter) (us : List (List Letter)) → sum_of us u ≡ 0
        → factorials_of (replicate n u ++ us) ≡ factorial n * factorials_of us }
    ensures inverse { (m : ℕ) (us : List (List Letter)) → HasInverse m (factorials_of us)
        ↔ ((w : List Letter) (n : ℕ) → 0 < n → n ≤ sum_of us w → HasInverse m n) }
{}

/// The shuffle of several words does not depend on how they are grouped: the first word may be shuffled with the shuffle of the others,
/// and the words of a product of monomials are those of the shuffles of the words of both.
pub fn products()
    ensures front { (u : List Letter) (us : List (List Letter))
        → SameWords (words_of (u ∷ us)) (flat_map (λ w. shuffle_of u w) (words_of us)) }
    ensures product { (a b : List (List Letter)) → SameWords (words_of (product_of a b)) (each_shuffled (words_of a) (words_of b)) }
{}

/// Monomials and words, by the word that the factors put together make: the words of a monomial have its weight and its depth, and are
/// admissible where it is not empty. None is greater than its own word, whose coefficient has an inverse where each number from 2 to the
/// weight has one. So the conversion of words to monomials is a triangular system.
pub fn conversion()
    ensures weight { (p : List (List Letter)) → IsMonomial p → (v : List Letter) → 0 < sum_of (words_of p) v → length v ≡ length (joined p) }
    ensures depth { (p : List (List Letter)) → IsMonomial p → (v : List Letter) → 0 < sum_of (words_of p) v → depth_of v ≡ depth_of (joined p) }
    ensures admissible { (p : List (List Letter)) → IsMonomial p → 0 < length p
        → (v : List Letter) → 0 < sum_of (words_of p) v → IsTrue (is_admissible v) }
    ensures above { (p : List (List Letter)) → IsMonomial p → (v : List Letter) → IsBefore (joined p) v → sum_of (words_of p) v ≡ 0 }
    ensures diagonal { (p : List (List Letter)) → IsMonomial p → sum_of (words_of p) (joined p) ≡ factorials_of p }
    ensures unit { (m : ℕ) (p : List (List Letter)) → IsMonomial p
        → ((n : ℕ) → 2 ≤ n → n ≤ length (joined p) → HasInverse m n) → HasInverse m (sum_of (words_of p) (joined p)) }
{}
