//! A sum that is added to, scaled and sorted, against a calculation by hand.
ghost use Rattle.std.specs.Prelude.{IfOk};
ghost use Rattle.word_sums.specs.Terms.{AllIn};

use residues::{Ring, WordMod};
use std::alloc::{AllocError, Global};
use std::test::Fail;
use word_letters::Word;
use word_sums::{WordSum, WordTest, terms_are_known_by_their_coefficients};

/// The word of an index of one number.
fn word(k: u32) -> Word {
    match Word::from_index(&[k]) {
        Ok(w) => w,
        Err(_) => Word::empty(),
    }
}

/// Words of at least four letters pass.
struct Long;

impl WordTest for Long {
    ghost use Rattle.std.specs.Prelude.{length, nat_le};

    ghost passes = { λ test w. nat_le 4 (length w) };

    fn passes(&self, w: Word) -> bool {
        4 <= w.weight()
    }
}

/// The sum 2 xy + 4 xxy + xxxy + 3 xy, which is 4 xxy + xxxy modulo 5.
fn gathered(alloc: Global, ring: &WordMod) -> Result<WordSum<WordMod>, AllocError>
    ensures in_ring { IfOk result (AllIn (⟦<WordMod as Ring>⟧.has ring.now)) }
{
    let mut sum = WordSum::<WordMod>::with_capacity(alloc, 3)?;
    sum.add_term(ring, word(2), ring.of(2))?;
    sum.add_term(ring, word(3), ring.of(4))?;
    sum.add_term(ring, word(4), ring.of(1))?;
    sum.add_term(ring, word(2), ring.of(3))?;
    Ok(sum)
}

#[test]
fn terms_are_gathered_and_sorted(rt: HostRuntime) -> Result<(), Fail> {
    let ring = WordMod::new(5)?;
    let sum = gathered(rt.alloc(), &ring)?;
    assert_eq!(rt; sum.len(), 2);
    assert_eq!(rt; sum.iter().count(), 2);
    // xxxy comes before xxy
    let sorted = sum.sorted()?;
    assert!(rt; sorted.as_slice() == [(word(4), 1), (word(3), 4)].as_slice());
    assert!(rt; sum.least_failing(&Long) == Some(word(3)));
    Ok(())
}

#[test]
fn multiples_are_added(rt: HostRuntime) -> Result<(), Fail> {
    terms_are_known_by_their_coefficients::<WordMod>();
    let ring = WordMod::new(5)?;
    let sum = gathered(rt.alloc(), &ring)?;
    // twice the sum, and once: 12 xxy + 3 xxxy
    let mut thrice = sum.scaled(&ring, ring.of(2))?;
    thrice.add_scaled(&ring, ring.one(), &sum)?;
    for (k, number) in [(2, 0), (3, 2), (4, 3)] {
        assert_eq!(rt; thrice.coefficient(&ring, word(k)), number);
    }
    Ok(())
}
