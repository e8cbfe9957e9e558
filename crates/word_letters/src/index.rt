//! The index of a word.
ghost use Rattle.std.specs.Prelude.{◌≡◌, ℕ, ◌+◌, ◌<◌, ◌≤◌, ◌==◌, ◌↔◌, ◌∷◌, List, [], true, length, drop, sum, All, slice_get, IfSome, IfNone, IfOk, OnOk, IsErrOf, Some};
ghost use Rattle.std.specs.List.{position};
ghost use Rattle.zeta_model.specs.Words.{ends_with_y, has_index};
ghost use Rattle.zeta_model.specs.Indices.{index_of, word_of_index};

use crate::fault::IndexFault;
use crate::word::{MAX_WEIGHT, Word};
use std::alloc::{AllocError, Global};
use zeta_model::Letter;

impl Word {
    /// The word `z_k1 .. z_kr` of the index `k1, .., kr`.
    ///
    /// `EmptyIndex` exactly where there is no number; `ZeroIndex(i)` exactly where a number is 0 and `i` is the place
    /// of the first such, from 0; then `TooLong(n)` exactly where the sum `n` of the numbers is over 24.
    pub fn from_index(ks: &[u32]) -> Result<Word, IndexFault>
        ensures word { IfOk result (λ w. w ≡ word_of_index ks.now) }
        ensures fits { OnOk result ((0 < length ks.now) × All (λ k. 0 < k) ks.now × (sum ks.now ≤ 24)) }
        ensures empty_index { IsErrOf result IndexFault.EmptyIndex ↔ (ks.now ≡ []) }
        ensures zero_index { (i : ℕ) →
            IsErrOf result (IndexFault.ZeroIndex i) ↔ (position (λ k. k == 0) ks.now ≡ Some i) }
        ensures too_long { (n : ℕ) →
            IsErrOf result (IndexFault.TooLong n) ↔
            (All (λ k. 0 < k) ks.now × (n ≡ sum ks.now) × (24 < n)) }
    {
        if ks.is_empty() {
            return Err(IndexFault::EmptyIndex);
        }
        if let Some(i) = first_zero(ks) {
            return Err(IndexFault::ZeroIndex(i));
        }
        let weight = total(ks);
        if weight > MAX_WEIGHT as u128 {
            return Err(IndexFault::TooLong(weight));
        }
        Ok(spell(ks))
    }

    /// The first number of the index of a word that ends with y: the letters up to the first y. Without that many letters in front the
    /// word has the numbers that follow.
    pub fn first_number(self) -> u32
        requires { ends_with_y self ≡ true }
        ensures first { index_of self ≡ result ∷ index_of (drop result self) }
        ensures rest { has_index (drop result self) ≡ true }
        ensures some { 0 < result }
        ensures within { result ≤ length self }
    {
        for i in 0..self.weight() {
            match self.letter(i) {
                Letter::X => {}
                Letter::Y => return i + 1,
            }
        }
        unreachable!()
    }

    /// The index of a word that is empty or ends with y: for each y, one more than the letters x just before it.
    pub fn to_index(self, alloc: Global) -> Result<Vec<u32>, AllocError>
        requires { has_index self ≡ true }
        ensures { IfOk result (λ ks. ks.items ≡ index_of self) }
    {
        let mut ks = Vec::new(alloc);
        let mut rest = self;
        while rest.weight() > 0 {
            let k = rest.first_number();
            ks.push(k)?;
            rest = rest.without_front(k);
        }
        Ok(ks)
    }
}

/// The place of the first zero among some numbers.
fn first_zero(ks: &[u32]) -> Option<usize>
    ensures place { result ≡ position (λ k. k == 0) ks.now }
    ensures zero { IfSome result (λ i. slice_get ks.now i ≡ Some 0) }
    ensures positive { IfNone result (All (λ k. 0 < k) ks.now) }
{
    ks.iter().position(|k| *k == 0)
}

/// The sum of some numbers.
fn total(ks: &[u32]) -> u128
    ensures { result ≡ sum ks.now }
{
    let mut total: u128 = 0;
    for k in ks {
        total += *k as u128;
    }
    total
}

/// The word of an index of weight at most 24.
fn spell(ks: &[u32]) -> Word
    requires positive { All (λ k. 0 < k) ks.now }
    requires fits { sum ks.now ≤ 24 }
    ensures { result ≡ word_of_index ks.now }
{
    let mut w = Word::empty();
    let mut i = ks.len();
    while i > 0 {
        i -= 1;
        w = Word::z(ks[i]).followed_by(w);
    }
    w
}
