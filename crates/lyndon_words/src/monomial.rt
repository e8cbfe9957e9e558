//! A monomial: a product of admissible Lyndon words.
ghost use Rattle.std.specs.Prelude.{◌≡◌, ℕ, ◌+◌, ◌<◌, ◌≤◌, ◌↔◌, List, [], ◌∷◌, ◌++◌, length, slice_get, take, drop, Some, IsTrue, IfOk, IfErr, OnOk, IsErr};
ghost use Rattle.std.specs.List.{insert};
ghost use Rattle.smallvec.specs.SmallVec.{HasRoomFor};
ghost use Rattle.zeta_model.specs.declared.Letter.{Letter};
ghost use Rattle.zeta_model.specs.Words.{depth_of, is_admissible};
ghost use Rattle.lyndon_words.specs.Lyndon.{joined, IsFactors};
ghost use Rattle.lyndon_words.specs.Monomials.{IsMonomial, IsProduct, put, product_of};

use crate::words::join;
use smallvec::SmallVec;
use std::alloc::Global;
use std::marker::Model;
use word_letters::{MAX_WEIGHT, TooLong, Word};

/// Admissible Lyndon words that do not increase, of weight at most 24 together (Radford 1979). They are at most 12, so that no call on a
/// monomial takes memory.
#[derive(Drop)]
pub struct Monomial {
    pub(crate) factors: SmallVec<Word, 12>,
}

impl Model for Monomial {
    ghost use Rattle.std.specs.Prelude.{◌≡◌, List};
    ghost use Rattle.std.specs.Coded.{coded_list};
    ghost use Rattle.zeta_model.specs.declared.Letter.{Letter};
    ghost use Rattle.zeta_model.specs.Words.{word_code};
    ghost use Rattle.lyndon_words.specs.Monomials.{IsMonomial};

    ghost Value = { List (List Letter) };

    ghost coded = { coded_list word_code };

    ghost view = { λ p. p.factors.items };

    ghost invariant = { λ p. IsMonomial p.factors.items × (p.factors.capacity ≡ 12) };
}

impl Monomial {
    /// How many factors there are, 0 to 12, each as often as it stands there.
    pub fn len(&self) -> usize
        ensures length { result ≡ length self.now }
        ensures within { result ≤ 12 }
        ensures monomial { IsMonomial self.now }
    {
        self.factors.len()
    }

    /// The factor at place `i`, from 0 for the greatest.
    pub fn factor(&self, i: usize) -> Word
        requires { i < length self.now }
        ensures { slice_get self.now i ≡ Some result }
    {
        self.factors.as_slice()[i]
    }

    /// The word that the factors put together make, the greatest in front. No other monomial has this word.
    pub fn word(&self) -> Word
        ensures joined { result ≡ joined self.now }
        ensures factors { IsFactors result self.now }
        ensures admissible { 0 < length self.now → IsTrue (is_admissible result) }
        ensures unique { (p : List (List Letter)) → IsMonomial p → joined p ≡ result → p ≡ self.now }
    {
        join(self.factors.as_slice())
    }

    /// The sum of the factors' weights, 0 to 24.
    pub fn weight(&self) -> u32
        ensures length { result ≡ length (joined self.now) }
        ensures within { result ≤ 24 }
    {
        self.word().weight()
    }

    /// The sum of the factors' depths, 0 to 24.
    pub fn depth(&self) -> u32
        ensures { result ≡ depth_of (joined self.now) }
    {
        self.word().depth()
    }

    /// The product: the factors of both, each as often as in both. `TooLong(n)` exactly where the sum `n` of the two weights is over 24.
    pub fn times(&self, other: &Monomial) -> Result<Monomial, TooLong>
        ensures product { IfOk result (IsProduct self.now other.now) }
        ensures ok { IfOk result (λ p. p ≡ product_of self.now other.now) }
        ensures fits { OnOk result (length (joined self.now) + length (joined other.now) ≤ 24) }
        ensures too_long { IsErr result ↔ (24 < length (joined self.now) + length (joined other.now)) }
        ensures weight { IfErr result (λ fault. fault.0 ≡ length (joined self.now) + length (joined other.now)) }
    {
        let weight = self.weight() + other.weight();
        if weight > MAX_WEIGHT {
            return Err(TooLong(weight));
        }
        Ok(Monomial {
            factors: product(
                *self.factors.allocator(),
                self.factors.as_slice(),
                other.factors.as_slice(),
            ),
        })
    }
}

/// The words of a put into b, one after the other.
fn product(alloc: Global, a: &[Word], b: &[Word]) -> SmallVec<Word, 12>
    requires { length a.now + length b.now ≤ 12 }
    ensures items { result.items ≡ product_of a.now b.now }
    ensures capacity { result.capacity ≡ 12 }
{
    let mut factors = SmallVec::new(alloc);
    for word in b {
        factors.push_reserved(*word);
    }
    for word in a {
        put_in_place(&mut factors, *word);
    }
    factors
}

/// Puts a word behind those that are not less.
fn put_in_place(factors: &mut SmallVec<Word, 12>, word: Word)
    requires { HasRoomFor factors.old 1 }
    ensures items { factors.new.items ≡ put word factors.old.items }
    ensures capacity { factors.new.capacity ≡ factors.old.capacity }
{
    let place = place_of(factors.as_slice(), word);
    match factors.insert(place, word) {
        Ok(()) => {}
        Err(_) => unreachable!(),
    }
}

/// The place of the first word that is less, or the end.
fn place_of(factors: &[Word], word: Word) -> usize
    ensures within { result ≤ length factors.now }
    ensures place { insert factors.now result word ≡ put word factors.now }
{
    for (i, factor) in factors.iter().enumerate() {
        if *factor < word {
            return i;
        }
    }
    factors.len()
}
