//! Values by kept products beside values made anew, with room for all of them and with little.
use kept_products::{KeptProducts, value_kept};
use quasi_product::ProductFault;
use relation_list::{RelName, is_name, listing, value};
use residues::{Ring, WordMod};
use std::alloc::{AllocError, Global};
use std::test::Fail;
use word_letters::Word;

fn word(ks: &[u32]) -> Word {
    match Word::from_index(ks) {
        Ok(w) => w,
        Err(_) => Word::empty(),
    }
}

/// The place of the first name whose two values differ, None where all agree.
fn first_other(
    alloc: Global,
    ring: &WordMod,
    kept: &mut KeptProducts<WordMod>,
    names: &[RelName],
) -> Result<Option<usize>, AllocError> {
    for (i, name) in names.iter().enumerate() {
        if !is_name(name) {
            return Ok(Some(i));
        }
        let found = value_kept(kept, name)?.sorted()?;
        let made = value(alloc, ring, name)?.sorted()?;
        if found.as_slice() != made.as_slice() {
            return Ok(Some(i));
        }
    }
    Ok(None)
}

#[test]
fn kept_values_of_weight_7_are_the_values(rt: HostRuntime) -> Result<(), Fail> {
    let ring = WordMod::new(101)?;
    let names = listing(rt.alloc(), 7, 6)?;
    let mut kept = KeptProducts::new(rt.alloc(), ring);
    assert_eq!(rt;
        first_other(rt.alloc(), &ring, &mut kept, names.as_slice())?,
        None
    );
    assert!(rt; kept.terms() > 50);
    Ok(())
}

#[test]
fn values_are_the_same_where_50_terms_are_kept(rt: HostRuntime) -> Result<(), Fail> {
    let ring = WordMod::new(101)?;
    let names = listing(rt.alloc(), 7, 6)?;
    let mut kept = KeptProducts::with_limit(rt.alloc(), ring, 50);
    assert_eq!(rt;
        first_other(rt.alloc(), &ring, &mut kept, names.as_slice())?,
        None
    );
    assert!(rt; kept.terms() > 0);
    assert!(rt; kept.terms() <= 50);
    Ok(())
}

#[test]
fn one_product_is_kept_in_both_orders(rt: HostRuntime) -> Result<(), Fail> {
    let mut kept = KeptProducts::new(rt.alloc(), WordMod::new(101)?);
    // xxy and xy: 6 xxxyy + 3 xxyxy + xyxxy
    assert_eq!(rt; kept.shuffle(word(&[3]), word(&[2]))?.len(), 3);
    assert_eq!(rt; kept.shuffle(word(&[2]), word(&[3]))?.len(), 3);
    assert_eq!(rt; kept.terms(), 3);
    let fault = kept.shuffle(word(&[12]), word(&[13]));
    assert!(rt; matches!(&fault, Err(ProductFault::TooLong(25))));
    Ok(())
}
