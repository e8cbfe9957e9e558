//! The laws of truncated sums and of totals. These functions do nothing when they are called: what they say is their contract, and
//! the check proves it.
ghost use Rattle.std.specs.Prelude.{◌≡◌, ℕ, ◌*◌, ◌%◌, ◌<◌, true, cond, List, count_by, map};
ghost use Rattle.truncated_sums.specs.DecreasingLists.{decreasing_lists, is_decreasing, same_list};
ghost use Rattle.truncated_sums.specs.Inverses.{inverse_of};
ghost use Rattle.truncated_sums.specs.Totals.{terms_total};
ghost use Rattle.truncated_sums.specs.TruncatedSums.{word_value, terms_value};
ghost use Rattle.zeta_model.specs.Modular.{Same};
ghost use Rattle.zeta_model.specs.Sums.{SameSum, continued, single, sum_of};
ghost use Rattle.zeta_model.specs.Alphabets.{stuffle_of};
ghost use Rattle.zeta_model.specs.Product.{total};
ghost use Rattle.zeta_model.specs.Words.{has_index};
ghost use Rattle.zeta_model.specs.declared.Letter.{Letter};

/// The lists that a truncated sum goes over are the strictly decreasing ones, each once. The product of the sums of two
/// words is the sum over the words of their stuffle, whatever stands for the inverses (Hoffman 1997), and so is the value of
/// each sum of terms that has the stuffle's coefficients modulo m. A residue whose product with a number is 1 is the inverse
/// of that number.
pub fn truncated_laws()
    ensures lists { (n r : ℕ) (l : List ℕ) → count_by (same_list l) (decreasing_lists n r)
        ≡ cond (is_decreasing n r l) 1 0 }
    ensures product { (inverse : ℕ → ℕ) (n : ℕ) (u v : List Letter) → has_index u ≡ true → has_index v ≡ true
        → word_value inverse n u * word_value inverse n v ≡ total (word_value inverse n) (stuffle_of u v) }
    ensures terms { (m : ℕ) (inverse : ℕ → ℕ) (n : ℕ) (u v : List Letter) (terms : List (ℕ × List Letter)) → has_index u ≡ true → has_index v ≡ true
        → SameSum m (continued single terms) (sum_of (stuffle_of u v))
        → Same m (terms_value inverse n terms) (word_value inverse n u * word_value inverse n v) }
    ensures inverse { (m a b : ℕ) → 1 < m → b < m → a * b % m ≡ 1 → inverse_of m a ≡ b }
{}

/// Terms whose sums are the same modulo m have the same total, for each function of words. A list of words is a sum of
/// terms with the number 1.
pub fn total_laws()
    ensures same { (m : ℕ) (f : List Letter → ℕ) (p q : List (ℕ × List Letter)) → SameSum m (continued single p) (continued single q)
        → Same m (terms_total f p) (terms_total f q) }
    ensures words { (f : List Letter → ℕ) (ws : List (List Letter)) → terms_total f (map (λ w. (1, w)) ws) ≡ total f ws }
    ensures places { (ws : List (List Letter)) (t : List Letter) → continued single (map (λ w. (1, w)) ws) t ≡ sum_of ws t }
{}
