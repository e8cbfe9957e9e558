//! A sum of words.
ghost use Rattle.std.specs.Prelude.{◌≡◌, ℕ, ◌+◌, ◌*◌, ◌%◌, ◌<◌, ◌^◌, true, List, [], length, IfOk, OnOk, OnErr};
ghost use Rattle.std.specs.List.Sorted.{IsPermutation, IsStrictlySortedBy};
ghost use Rattle.std.specs.Map.{keys_of};
ghost use Rattle.std.specs.Map.Iter.{ShowsInOrder, deref_pair};
ghost use Rattle.word_sums.specs.Sums.{IsSum};
ghost use Rattle.word_sums.specs.Terms.{coefficient_of, IsTerms, AllIn};
ghost use Rattle.zeta_model.specs.declared.Letter.{Letter};
ghost use Rattle.zeta_model.specs.Sums.{single};
ghost use Rattle.zeta_model.specs.Words.{word_cmp};

use indexmap::IndexMap;
use indexmap::map::Iter;
use residues::Ring;
use std::alloc::{AllocError, Global};
use std::marker::Model;
use word_letters::Word;

/// A finite map from words to residues that are not zero.
///
/// A sum holds no ring: a call that reckons is given the ring whose elements the sum has.
#[derive(Drop)]
pub struct WordSum<R: Ring> {
    terms: IndexMap<Word, R::Elem>,
}

impl<R: Ring> Model for WordSum<R> {
    ghost use Rattle.std.specs.Prelude.{List};
    ghost use Rattle.word_sums.specs.Terms.{IsTerms};
    ghost use Rattle.zeta_model.specs.declared.Letter.{Letter};

    ghost Value = { List (List Letter × R.Elem) };

    ghost view = { λ s. s.terms.entries };

    ghost invariant = { λ s. IsTerms R.zero s.terms.entries };
}

impl<R: Ring> WordSum<R> {
    /// The sum without words. It takes no memory.
    pub fn new(alloc: Global) -> WordSum<R>
        ensures { result ≡ [] }
    {
        WordSum {
            terms: IndexMap::new(alloc),
        }
    }

    /// The sum without words, with room for so many of them.
    pub fn with_capacity(alloc: Global, words: usize) -> Result<WordSum<R>, AllocError>
        ensures { IfOk result (λ s. s ≡ []) }
    {
        Ok(WordSum {
            terms: IndexMap::with_capacity(alloc, words)?,
        })
    }

    /// How many words have a residue that is not zero.
    pub fn len(&self) -> usize
        ensures len { result ≡ length self.now }
        ensures terms { IsTerms R.zero self.now }
    {
        self.terms.len()
    }

    /// The terms, words with residues, in an order that adding and removing may change.
    pub fn iter(&self) -> Iter<'_, Word, R::Elem>
        ensures rest { result ≡ self.now }
        ensures terms { IsTerms R.zero self.now }
        ensures runs { ShowsInOrder (deref_pair {K = List Letter} {X = R.Elem}) }
        ensures small { length self.now < 2 ^ 63 }
    {
        self.terms.iter()
    }

    /// The residue of a word, zero where the sum does not have it.
    pub fn coefficient(&self, ring: &R, word: Word) -> R::Elem
        requires in_ring { AllIn (R.has ring.now) self.now }
        ensures has { R.has ring.now result ≡ true }
        ensures value { R.value ring.now result ≡ coefficient_of (R.value ring.now) self.now word }
    {
        match self.terms.get(&word) {
            Some(residue) => *residue,
            None => ring.zero(),
        }
    }

    /// Adds `residue` times the word.
    pub fn add_term(&mut self, ring: &R, word: Word, residue: R::Elem) -> Result<(), AllocError>
        requires self_in_ring { AllIn (R.has ring.now) self.old }
        requires has { R.has ring.now residue ≡ true }
        ensures ok { OnOk result ((t : List Letter) → coefficient_of (R.value ring.now) self.new t
            ≡ (coefficient_of (R.value ring.now) self.old t + R.value ring.now residue * single word t) % R.modulus ring.now) }
        ensures in_ring { AllIn (R.has ring.now) self.new }
        ensures terms { IsTerms R.zero self.new }
        ensures err { OnErr result (self.new ≡ self.old) }
    {
        let terms = &mut self.terms;
        if R::is_zero(residue) {
            return Ok(());
        }
        // A word that is new, as most are, is looked up but once.
        let old = match terms.insert(word, residue) {
            Ok(Some(old)) => old,
            Ok(None) => return Ok(()),
            Err(_) => return Err(AllocError),
        };
        let sum = ring.add(old, residue);
        if R::is_zero(sum) {
            terms.swap_remove(&word);
            return Ok(());
        }
        match terms.insert(word, sum) {
            Ok(_) => {}
            Err(_) => unreachable!(),
        }
        Ok(())
    }

    /// Adds `c` times another sum of the same ring.
    pub fn add_scaled(&mut self, ring: &R, c: R::Elem, other: &WordSum<R>) -> Result<(), AllocError>
        requires self_in_ring { AllIn (R.has ring.now) self.old }
        requires other_in_ring { AllIn (R.has ring.now) other.now }
        requires has_c { R.has ring.now c ≡ true }
        ensures ok { OnOk result ((t : List Letter) → coefficient_of (R.value ring.now) self.new t
            ≡ (coefficient_of (R.value ring.now) self.old t + R.value ring.now c * coefficient_of (R.value ring.now) other.now t) % R.modulus ring.now) }
        ensures in_ring { AllIn (R.has ring.now) self.new }
        ensures terms { OnOk result (IsTerms R.zero self.new) }
        ensures err { OnErr result (self.new ≡ self.old) }
    {
        let mut sum = self.scaled(ring, ring.one())?;
        sum.add_each(ring, c, other)?;
        *self = sum;
        Ok(())
    }

    /// The sum times `c`.
    pub fn scaled(&self, ring: &R, c: R::Elem) -> Result<WordSum<R>, AllocError>
        requires in_ring { AllIn (R.has ring.now) self.now }
        requires has_c { R.has ring.now c ≡ true }
        ensures ok { IfOk result (λ sum. (t : List Letter) → coefficient_of (R.value ring.now) sum t
            ≡ R.value ring.now c * coefficient_of (R.value ring.now) self.now t % R.modulus ring.now) }
        ensures in_ring { IfOk result (λ sum. AllIn (R.has ring.now) sum) }
        ensures terms { IfOk result (λ sum. IsTerms R.zero sum) }
    {
        let mut sum = WordSum::new(*self.terms.allocator());
        sum.add_each(ring, c, self)?;
        Ok(sum)
    }

    /// The terms by increasing word.
    pub fn sorted(&self) -> Result<Vec<(Word, R::Elem)>, AllocError>
        ensures sorted { IfOk result (λ terms. IsStrictlySortedBy word_cmp (keys_of terms.items)) }
        ensures terms { IfOk result (λ terms. IsPermutation self.now terms.items) }
    {
        let mut terms = Vec::new(*self.terms.allocator());
        for (word, residue) in self.terms.iter() {
            terms.push((*word, *residue))?;
        }
        terms.sort_unstable_by_key(|term| term.0);
        Ok(terms)
    }

    /// Adds `c` times each term of another sum in turn. After want of memory only some of them are added.
    fn add_each(&mut self, ring: &R, c: R::Elem, other: &WordSum<R>) -> Result<(), AllocError>
        requires sum { IsSum R.zero (R.has ring.now) self.old }
        requires other_in_ring { AllIn (R.has ring.now) other.now }
        requires has_c { R.has ring.now c ≡ true }
        ensures ok { OnOk result ((t : List Letter) → coefficient_of (R.value ring.now) self.new t
            ≡ (coefficient_of (R.value ring.now) self.old t + R.value ring.now c * coefficient_of (R.value ring.now) other.now t) % R.modulus ring.now) }
        ensures sum { IsSum R.zero (R.has ring.now) self.new }
    {
        for (word, residue) in other.terms.iter() {
            self.add_term(ring, *word, ring.mul(c, *residue))?;
        }
        Ok(())
    }
}
