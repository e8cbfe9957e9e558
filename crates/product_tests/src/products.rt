//! Worked products, calculated by hand: of words modulo 101, of sums modulo 5, and a refusal of each.
use quasi_product::{
    Letters, ProductFault, ShuffleLetters, StuffleLetters, covers_sum, product, product_laws,
    product_sums,
};
use residues::{Ring, WordMod};
use std::alloc::Global;
use std::test::Fail;
use word_letters::Word;
use word_sums::WordSum;

fn word(ks: &[u32]) -> Word {
    match Word::from_index(ks) {
        Ok(w) => w,
        Err(_) => Word::empty(),
    }
}

/// Whether the product of xy with itself has just two words, those of these indices, and so many of each.
fn squares<L: Letters>(
    alloc: Global,
    first: (u64, &[u32]),
    second: (u64, &[u32]),
) -> Result<bool, Fail> {
    let ring = WordMod::new(101)?;
    let u = word(&[2]);
    if !L::covers(u) {
        return Ok(false);
    }
    let sum = product::<L, WordMod>(alloc, &ring, u, u)?;
    Ok(
        sum.len() == 2
            && sum.coefficient(&ring, word(first.1)) == first.0
            && sum.coefficient(&ring, word(second.1)) == second.0,
    )
}

#[test]
fn words_are_multiplied(rt: HostRuntime) -> Result<(), Fail> {
    product_laws::<ShuffleLetters>();
    product_laws::<StuffleLetters>();
    assert!(rt; squares::<ShuffleLetters>(rt.alloc(), (4, &[3, 1]), (2, &[2, 2]))?);
    assert!(rt; squares::<StuffleLetters>(rt.alloc(), (1, &[4]), (2, &[2, 2]))?);
    Ok(())
}

#[test]
fn a_product_over_weight_24_is_refused(rt: HostRuntime) -> Result<(), Fail> {
    let ring = WordMod::new(101)?;
    let shuffle = product::<ShuffleLetters, WordMod>(rt.alloc(), &ring, word(&[12]), word(&[13]));
    assert!(rt; matches!(&shuffle, Err(ProductFault::TooLong(25))));
    Ok(())
}

/// Whether (xy + 4 xxy) xy has so many words modulo 5, and so many xyxxy.
fn multiplies_sums<L: Letters>(alloc: Global, len: usize, number: u64) -> Result<bool, Fail> {
    let ring = WordMod::new(5)?;
    let mut a = WordSum::<WordMod>::new(alloc);
    a.add_term(&ring, word(&[2]), ring.one())?;
    let mut b = a.scaled(&ring, ring.one())?;
    b.add_term(&ring, word(&[3]), ring.of(4))?;
    if !covers_sum::<L, WordMod>(&a) || !covers_sum::<L, WordMod>(&b) {
        return Ok(false);
    }
    let sum = product_sums::<L, WordMod>(alloc, &ring, &b, &a)?;
    Ok(sum.len() == len && sum.coefficient(&ring, word(&[2, 3])) == number)
}

#[test]
fn sums_are_multiplied(rt: HostRuntime) -> Result<(), Fail> {
    // 4 xxyy + 2 xyxy + 4 (6 xxxyy + 3 xxyxy + xyxxy)
    assert!(rt; multiplies_sums::<ShuffleLetters>(rt.alloc(), 5, 4)?);
    // xxxy + 2 xyxy + 4 (xyxxy + xxyxy + xxxxy)
    assert!(rt; multiplies_sums::<StuffleLetters>(rt.alloc(), 5, 4)?);
    Ok(())
}
