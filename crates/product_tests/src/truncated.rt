//! Values by hand: sums over two numbers modulo 101, and a number without inverse.
use quasi_product::{StuffleLetters, covers_sum, product};
use residues::{Ring, WordMod};
use std::test::Fail;
use truncated_sums::{SumFault, Truncated, truncated_laws};
use word_letters::Word;

#[test]
fn sums_over_two_numbers(rt: HostRuntime) -> Result<(), Fail> {
    truncated_laws();
    let ring = WordMod::new(101)?;
    let two = Truncated::new(rt.alloc(), ring, 2)?;
    for (index, value) in [
        (&[][..], 1),
        (&[2], 77),
        (&[1], 52),
        (&[4], 20),
        (&[2, 2], 76),
        (&[3, 1], 38),
        (&[1, 1, 1], 0),
    ] {
        let sum = two.sum(index)?;
        assert_eq!(rt; ring.value(sum), value, "value {value}");
    }
    let z2 = Word::from_index(&[2])?;
    let product_value = two.sum_product(z2, z2)?;
    assert_eq!(rt; ring.value(product_value), 71);
    let stuffle = product::<StuffleLetters, WordMod>(rt.alloc(), &ring, z2, z2)?;
    assert!(rt;
        covers_sum::<StuffleLetters, WordMod>(&stuffle),
        "each word ends with y"
    );
    let stuffle_value = two.sum_of(&stuffle)?;
    assert_eq!(rt; ring.value(stuffle_value), 71);
    Ok(())
}

#[test]
fn no_list_goes_below_one(rt: HostRuntime) -> Result<(), Fail> {
    let ring = WordMod::new(101)?;
    let one = Truncated::new(rt.alloc(), ring, 1)?;
    let sum = one.sum(&[2, 1])?;
    assert_eq!(rt; ring.value(sum), 0);
    Ok(())
}

#[test]
fn the_least_number_without_inverse_is_told(rt: HostRuntime) -> Result<(), Fail> {
    let ring = WordMod::new(15)?;
    match Truncated::new(rt.alloc(), ring, 5) {
        Err(SumFault::NoInverse { value, term }) => {
            assert_eq!(rt; value, 3);
            assert_eq!(rt; term, 3);
        }
        _ => assert!(rt; false, "3 has an inverse modulo 15"),
    }
    Ok(())
}
