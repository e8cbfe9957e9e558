//! The laws of the algebra. These functions do nothing when they are called: what each one says is its contract, and the check proves it.
ghost use Rattle.std.specs.Prelude.{◌≡◌, ℕ, ◌+◌, ◌-◌, ◌*◌, ◌<◌, ◌≤◌, ◌↔◌, ◌⊎◌, suc, nat_eq, true, List, [], ◌∷◌, ◌++◌, length, map, count_by, All};
ghost use Rattle.std.specs.List.{Contains};
ghost use Rattle.std.specs.List.Sorted.{IsStrictlySortedBy};
ghost use Rattle.zeta_model.specs.declared.Letter.{Letter};
ghost use Rattle.zeta_model.specs.declared.Letter.TheVariants.{X};
ghost use Rattle.zeta_model.specs.Modular.{Same};
ghost use Rattle.zeta_model.specs.Words.{word_cmp, depth_of, is_admissible, begins_with_x, ends_with_y, has_index};
ghost use Rattle.zeta_model.specs.Duality.{dual_of, representative_of};
ghost use Rattle.zeta_model.specs.Indices.{z_word};
ghost use Rattle.zeta_model.specs.Product.{Alphabet, AlphabetLaws, prod, IsCommutative, IsAssociative, SameWords};
ghost use Rattle.zeta_model.specs.Alphabets.{shuffle_alphabet, stuffle_alphabet, shuffle_of, stuffle_of};
ghost use Rattle.zeta_model.specs.Sums.{sum_of, single, zero_sum, same_word, difference, continued};
ghost use Rattle.zeta_model.specs.WordLists.{admissible_words, admissible_within, binomial, binomial_sum};
ghost use Rattle.zeta_model.specs.Regularise.{y_word, sign_of, reg_of, reg_of_sum, nested_words, IsRegularised};

/// The product of two words does not depend on their order, nor that of three on how they are grouped, for every
/// alphabet that meets its laws on words up to a limit, and for words of that total weight. Shuffle and stuffle meet them
/// for every limit. Each word of a product is covered and has the weights' sum (Hoffman 2000). The words of a shuffle have the
/// depths' sum, and those of a stuffle no more.
pub fn product_laws()
    ensures commutes { (limit : ℕ) (L : Alphabet) → AlphabetLaws limit L → IsCommutative limit L }
    ensures associates { (limit : ℕ) (L : Alphabet) → AlphabetLaws limit L → IsAssociative limit L }
    ensures shuffle { (limit : ℕ) → AlphabetLaws limit shuffle_alphabet }
    ensures stuffle { (limit : ℕ) → AlphabetLaws limit stuffle_alphabet }
    ensures covered { (limit : ℕ) (L : Alphabet) → AlphabetLaws limit L → (u v t : List Letter) → L.covered u ≡ true
        → L.covered v ≡ true → length u + length v ≤ limit → 0 < sum_of (prod L u v) t → L.covered t ≡ true }
    ensures weight { (limit : ℕ) (L : Alphabet) → AlphabetLaws limit L → (u v t : List Letter) → L.covered u ≡ true
        → L.covered v ≡ true → length u + length v ≤ limit → 0 < sum_of (prod L u v) t → length t ≡ length u + length v }
    ensures shuffle_depth { (u v t : List Letter) → 0 < sum_of (shuffle_of u v) t → depth_of t ≡ depth_of u + depth_of v }
    ensures stuffle_depth { (u v t : List Letter) → has_index u ≡ true → has_index v ≡ true → 0 < sum_of (stuffle_of u v) t
        → depth_of t ≤ depth_of u + depth_of v }
{}

/// Shuffle and stuffle by the first letters of their words, as Ihara, Kaneko and Zagier (2006) define them:
/// `sh(a u, b v) = a sh(u, b v) + b sh(a u, v)`, and
/// `st(z_k u, z_l v) = z_k st(u, z_l v) + z_l st(z_k u, v) + z_(k+l) st(u, v)` for words that are empty or end with y. The
/// product with the empty word is the other word.
pub fn letter_laws()
    ensures empty { (L : Alphabet) (v : List Letter) → prod L [] v ≡ v ∷ [] }
    ensures empty_second { (L : Alphabet) (u : List Letter) → prod L u [] ≡ u ∷ [] }
    ensures shuffle { (a b : Letter) (u v : List Letter) → shuffle_of (a ∷ u) (b ∷ v)
        ≡ map (λ w. a ∷ w) (shuffle_of u (b ∷ v)) ++ map (λ w. b ∷ w) (shuffle_of (a ∷ u) v) }
    ensures stuffle { (k l : ℕ) (u v : List Letter) → 0 < k → 0 < l → has_index u ≡ true → has_index v ≡ true
        → stuffle_of (z_word k ++ u) (z_word l ++ v)
        ≡ map (λ w. z_word k ++ w) (stuffle_of u (z_word l ++ v)) ++ map (λ w. z_word l ++ w) (stuffle_of (z_word k ++ u) v)
        ++ map (λ w. z_word (k + l) ++ w) (stuffle_of u v) }
{}

/// The sum of a list counts the places of each word. Two lists hold the same words equally often exactly where their sums
/// are the same. A difference and what was taken away are the sum again, modulo m, and a map continued linearly goes with
/// sums.
pub fn sum_laws()
    ensures places { (ws : List (List Letter)) (t : List Letter) → sum_of ws t ≡ count_by (same_word t) ws }
    ensures same { (us vs : List (List Letter)) → (SameWords us vs ↔ ((t : List Letter) → sum_of us t ≡ sum_of vs t)) }
    ensures difference { (m : ℕ) (s r : List Letter → ℕ) (t : List Letter) → 0 < m → Same m (difference m s r t + r t) (s t) }
    ensures continued { (f : List Letter → List Letter → ℕ) (cs ds : List (ℕ × List Letter)) (t : List Letter)
        → continued f (cs ++ ds) t ≡ continued f cs t + continued f ds t }
{}

/// The identity of the regularisation, for every word u and every number j: `y^j x u` is the sum over i = 0..j of
/// `(-1)^i sh(y^(j-i), x sh(y^i, u))`, and the regularisation of `y^j x u` is the last of these terms. A word that begins
/// with x is its own regularisation, and so is a sum of such words; `y^j` with j at least 1 has none. The
/// words in the regularisation of a word that ends with y are admissible and have its weight (Ihara, Kaneko and Zagier 2006).
pub fn regularisation_laws()
    ensures identity { (j : ℕ) (u : List Letter) → IsRegularised j u }
    ensures last_term { (m j : ℕ) (u t : List Letter) → reg_of m (y_word j ++ X ∷ u) t ≡ sign_of m j * sum_of (nested_words 0 j u) t }
    ensures from_x { (m : ℕ) (w t : List Letter) → begins_with_x w ≡ true → reg_of m w t ≡ single w t }
    ensures from_x_sum { (m : ℕ) (terms : List (ℕ × List Letter)) (t : List Letter)
        → All (λ term. begins_with_x term.1 ≡ true) terms → reg_of_sum m terms t ≡ continued single terms t }
    ensures words { (m : ℕ) (w t : List Letter) → ends_with_y w ≡ true → 0 < reg_of m w t
        → (is_admissible t ≡ true) × (length t ≡ length w) }
    ensures only_y { (m j : ℕ) (t : List Letter) → reg_of m (y_word (suc j)) t ≡ zero_sum t }
    ensures empty { (m : ℕ) (t : List Letter) → reg_of m [] t ≡ single [] t }
{}

/// Duality is an involution that keeps the weight and keeps admissible words admissible, and no others. The depths of a word
/// and its dual add up to the weight. A word and its dual have one representative, which is one of the two.
pub fn duality_laws()
    ensures involution { (w : List Letter) → dual_of (dual_of w) ≡ w }
    ensures weight { (w : List Letter) → length (dual_of w) ≡ length w }
    ensures depth { (w : List Letter) → depth_of (dual_of w) + depth_of w ≡ length w }
    ensures admissible { (w : List Letter) → is_admissible (dual_of w) ≡ is_admissible w }
    ensures representative { (w : List Letter) → representative_of (dual_of w) ≡ representative_of w }
    ensures either { (w : List Letter) → (representative_of w ≡ w) ⊎ (representative_of w ≡ dual_of w) }
{}

/// The list of the admissible words of weight `k` up to depth `d` holds these words and no others, and increases. Of weight k and
/// depth r there are k - 2 over r - 1, so the list has the sum of these numbers for r from 1 to d.
pub fn word_list_laws()
    ensures whole { (k d : ℕ) (w : List Letter) → (Contains (admissible_within k d) w
        ↔ ((is_admissible w ≡ true) × (length w ≡ k) × (depth_of w ≤ d))) }
    ensures increases { (k d : ℕ) → IsStrictlySortedBy word_cmp (admissible_within k d) }
    ensures of_depth { (k r : ℕ) → 2 ≤ k → 1 ≤ r
        → count_by (λ w. nat_eq (depth_of w) r) (admissible_words k) ≡ binomial (k - 2) (r - 1) }
    ensures count { (k d : ℕ) → 2 ≤ k → length (admissible_within k d) ≡ binomial_sum (k - 2) d }
{}
