//! Truncated sums over the numbers from 1 to n.
ghost use Rattle.std.specs.Prelude.{◌≡◌, ℕ, ◌*◌, ◌%◌, ◌≤◌, true, All, List, IfOk, OnOk, IsErrOf};
ghost use Rattle.std.specs.Map.{keys_of};
ghost use Rattle.zeta_model.specs.Sums.{numbered};
ghost use Rattle.truncated_sums.specs.Inverses.{IsFirstWithout, inverse_of};
ghost use Rattle.truncated_sums.specs.TruncatedSums.{truncated_sum, word_value, terms_value};
ghost use Rattle.word_sums.specs.Terms.{AllIn};
ghost use Rattle.zeta_model.specs.Alphabets.{stuffle_of};
ghost use Rattle.zeta_model.specs.Inverses.{HasInverse};
ghost use Rattle.zeta_model.specs.Product.{total};
ghost use Rattle.zeta_model.specs.Words.{has_index};

use crate::SumFault;
use crate::running::running_sum;
use residues::Ring;
use std::alloc::{AllocError, Global};
use std::marker::Model;
use word_letters::Word;
use word_sums::WordSum;

/// The inverses of the numbers from 1 to n modulo m. Contracts see the ring and n.
#[derive(Drop)]
pub struct Truncated<R: Ring> {
    ring: R,
    inverses: Vec<R::Elem>,
}

impl<R: Ring> Model for Truncated<R> {
    ghost use Rattle.std.specs.Prelude.{◌≡◌, ℕ, true, All, length};
    ghost use Rattle.truncated_sums.specs.Inverses.{inverse_of};
    ghost use Rattle.truncated_sums.specs.Running.{AreInverses};

    ghost Value = { R × ℕ };

    ghost view = { λ t. (t.ring, length t.inverses.items) };

    ghost invariant = { λ t. All (λ a. R.has t.ring a ≡ true) t.inverses.items × AreInverses (R.modulus t.ring) (R.value t.ring) (inverse_of (R.modulus t.ring)) t.inverses.items };
}

impl<R: Ring> Truncated<R> {
    /// The sums over the numbers from 1 to `n`.
    ///
    /// `NoInverse` exactly where one of them has no inverse, with the least such and its residue; `Memory` where memory
    /// is wanting.
    pub fn new(alloc: Global, ring: R, n: u32) -> Result<Truncated<R>, SumFault>
        requires from { 1 ≤ n }
        requires most { n ≤ 10000 }
        ensures ok { IfOk result (λ t. t ≡ (ring, n)) }
        ensures fits { OnOk result ((a : ℕ) → 1 ≤ a → a ≤ n → HasInverse (R.modulus ring) a) }
        ensures no_inverse { (value term : ℕ) →
            IsErrOf result (SumFault.NoInverse value term) → IsFirstWithout (R.modulus ring) n value term }
    {
        let mut inverses = Vec::new(alloc);
        for term in 1..n + 1 {
            let value = ring.of(term as u128);
            let inverse = match ring.inverse(value) {
                Some(inverse) => inverse,
                None => {
                    return Err(SumFault::NoInverse {
                        value: ring.value(value),
                        term,
                    });
                }
            };
            match inverses.push(inverse) {
                Ok(()) => {}
                Err(_) => return Err(SumFault::Memory(AllocError)),
            }
        }
        Ok(Truncated { ring, inverses })
    }

    /// The truncated sum of an index.
    pub fn sum(&self, index: &[u32]) -> Result<R::Elem, AllocError>
        ensures has { IfOk result (λ a. R.has self.now.0 a ≡ true) }
        ensures value { IfOk result (λ a. R.value self.now.0 a
            ≡ truncated_sum (inverse_of (R.modulus self.now.0)) self.now.1 index.now % R.modulus self.now.0) }
    {
        running_sum(
            *self.inverses.allocator(),
            &self.ring,
            self.inverses.as_slice(),
            index,
        )
    }

    /// The truncated sum of a word.
    fn sum_word(&self, word: Word) -> Result<R::Elem, AllocError>
        requires { has_index word ≡ true }
        ensures has { IfOk result (λ a. R.has self.now.0 a ≡ true) }
        ensures value { IfOk result (λ a. R.value self.now.0 a
            ≡ word_value (inverse_of (R.modulus self.now.0)) self.now.1 word % R.modulus self.now.0) }
    {
        let index = word.to_index(*self.inverses.allocator())?;
        self.sum(index.as_slice())
    }

    /// The truncated sum of a sum of words, each times its residue.
    pub fn sum_of(&self, s: &WordSum<R>) -> Result<R::Elem, AllocError>
        requires indices { All (λ w. has_index w ≡ true) (keys_of s.now) }
        requires in_ring { AllIn (R.has self.now.0) s.now }
        ensures has { IfOk result (λ a. R.has self.now.0 a ≡ true) }
        ensures value { IfOk result (λ a. R.value self.now.0 a
            ≡ terms_value (inverse_of (R.modulus self.now.0)) self.now.1 (numbered (R.value self.now.0) s.now) % R.modulus self.now.0) }
    {
        let mut sum = self.ring.zero();
        for (word, residue) in s.iter() {
            let value = self.sum_word(*word)?;
            sum = self.ring.add(sum, self.ring.mul(*residue, value));
        }
        Ok(sum)
    }

    /// The product of the truncated sums of two words, which is the sum over the words of their stuffle.
    pub fn sum_product(&self, u: Word, v: Word) -> Result<R::Elem, AllocError>
        requires index_u { has_index u ≡ true }
        requires index_v { has_index v ≡ true }
        ensures has { IfOk result (λ a. R.has self.now.0 a ≡ true) }
        ensures product { IfOk result (λ a. R.value self.now.0 a
            ≡ word_value (inverse_of (R.modulus self.now.0)) self.now.1 u * word_value (inverse_of (R.modulus self.now.0)) self.now.1 v % R.modulus self.now.0) }
        ensures stuffle { IfOk result (λ a. R.value self.now.0 a
            ≡ total (word_value (inverse_of (R.modulus self.now.0)) self.now.1) (stuffle_of u v) % R.modulus self.now.0) }
    {
        let left = self.sum_word(u)?;
        let right = self.sum_word(v)?;
        Ok(self.ring.mul(left, right))
    }
}
