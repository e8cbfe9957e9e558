//! What indices and texts keep. The function does nothing when it is called: what it says is its contract.
ghost use Rattle.std.specs.Prelude.{◌≡◌, ℕ, ◌<◌, ◌≤◌, true, List, length, sum, All};
ghost use Rattle.zeta_model.specs.declared.Letter.{Letter};
ghost use Rattle.zeta_model.specs.Words.{depth_of, has_index};
ghost use Rattle.zeta_model.specs.Indices.{index_of, word_of_index, word_text};

/// An index of positive numbers and its word determine each other, and so do a word that is empty or ends with y and its index. The
/// weight of the word is the sum of the numbers, and its depth is how many there are. Such words of at most 24 letters that have one text
/// are one word.
pub fn index_laws()
    ensures index { (ks : List ℕ) → All (λ k. 0 < k) ks → index_of (word_of_index ks) ≡ ks }
    ensures word { (w : List Letter) → has_index w ≡ true → word_of_index (index_of w) ≡ w }
    ensures positive { (w : List Letter) → All (λ k. 0 < k) (index_of w) }
    ensures weight { (ks : List ℕ) → length (word_of_index ks) ≡ sum ks }
    ensures depth { (ks : List ℕ) → All (λ k. 0 < k) ks → depth_of (word_of_index ks) ≡ length ks }
    ensures text { (u v : List Letter) → length u ≤ 24 → length v ≤ 24 → has_index u ≡ true → has_index v ≡ true
        → word_text u ≡ word_text v → u ≡ v }
{}
