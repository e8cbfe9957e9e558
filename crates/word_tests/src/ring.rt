//! Values from outside: the moduli that are refused, inverses, and sums of products at the greatest modulus.
use residues::{BadModulus, Ring, WordMod, dot_product, ring_laws};
use std::test::Fail;

const GREATEST: u64 = (1 << 63) - 1;

#[test]
fn moduli_are_taken_from_three_to_the_greatest(rt: HostRuntime) -> Result<(), Fail> {
    for m in [0, 1, 2, 1 << 63, u64::MAX] {
        assert_eq!(rt; WordMod::new(m), Err(BadModulus(m)), "modulus {m}");
    }
    for m in [3, 4, 101, GREATEST] {
        assert_eq!(rt; WordMod::new(m)?.modulus(), m, "modulus {m}");
    }
    Ok(())
}

#[test]
fn a_refused_modulus_is_told(rt: HostRuntime) -> Result<(), Fail> {
    let text = format!(in rt.alloc(); "{}", BadModulus(2))?;
    assert_eq!(rt; text.as_str(), "modulus 2 is outside 3..2^63-1");
    Ok(())
}

#[test]
fn products_are_reduced(rt: HostRuntime) -> Result<(), Fail> {
    for (m, a, b, sum, product) in [
        (3, 2, 2, 1, 1),
        (101, 100, 100, 99, 1),
        (101, 51, 2, 53, 1),
        (GREATEST, GREATEST - 1, GREATEST - 1, GREATEST - 2, 1),
        (GREATEST, 1 << 62, 2, (1 << 62) + 2, 1),
        (GREATEST, 1 << 32, 1 << 32, 1 << 33, 2),
    ] {
        let ring = WordMod::new(m)?;
        let (x, y) = (ring.of(a as u128), ring.of(b as u128));
        assert_eq!(rt; ring.value(ring.add(x, y)), sum, "{a} + {b} modulo {m}");
        assert_eq!(rt; ring.value(ring.mul(x, y)), product, "{a} {b} modulo {m}");
        assert_eq!(rt;
            ring.add(x, ring.neg(x)),
            ring.zero(),
            "{a} and its opposite modulo {m}"
        );
    }
    Ok(())
}

#[test]
fn units_have_inverses(rt: HostRuntime) -> Result<(), Fail> {
    for (m, a, inverse) in [
        (15, 0, None),
        (15, 1, Some(1)),
        (15, 2, Some(8)),
        (15, 5, None),
        (15, 7, Some(13)),
        (15, 14, Some(14)),
        (101, 50, Some(99)),
        (GREATEST, 2, Some(1 << 62)),
        (GREATEST, 7, None),
        (GREATEST, 11, Some(2515465100960393402)),
        (GREATEST, GREATEST - 1, Some(GREATEST - 1)),
    ] {
        let ring = WordMod::new(m)?;
        assert_eq!(rt; ring.inverse(ring.of(a as u128)), inverse, "{a} modulo {m}");
    }
    Ok(())
}

// The third product of the greatest residue passes the modulus times 2^64.
#[test]
fn sums_of_products_are_reduced_on_the_way(rt: HostRuntime) -> Result<(), Fail> {
    ring_laws::<WordMod>();
    for (m, a, b, sum) in [
        (GREATEST, GREATEST - 1, GREATEST - 1, 4),
        (GREATEST, GREATEST - 1, 1, GREATEST - 4),
        (101, 100, 50, 2),
        (3, 2, 1, 2),
    ] {
        let ring = WordMod::new(m)?;
        let (x, y) = (ring.of(a as u128), ring.of(b as u128));
        let total = dot_product(&ring, &[x, x, x, x], &[y, y, y, y]);
        assert_eq!(rt; ring.value(total), sum, "four times {a} {b} modulo {m}");
    }
    Ok(())
}
