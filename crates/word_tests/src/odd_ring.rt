//! Montgomery's form beside plain residues.
use odd_residues::{OddMod, ResidueRing};
use residues::{BadModulus, Ring, WordMod, ring_laws};
use std::test::Fail;

const MODULI: [u64; 5] = [3, 77, 101, (1 << 61) - 1, (1 << 63) - 1];

/// The values of the sum and the product of `a` and `b`, of `a b + a a + b b`, of the opposite and of the inverse of `a`.
fn results<R: Ring>(ring: &R, a: u64, b: u64) -> [Option<u64>; 5] {
    let (x, y) = (ring.of(a as u128), ring.of(b as u128));
    let mut sum = ring.start_sum();
    sum = ring.add_product(sum, x, y);
    sum = ring.add_product(sum, x, x);
    sum = ring.add_product(sum, y, y);
    let inverse = match ring.inverse(x) {
        Some(z) => Some(ring.value(z)),
        None => None,
    };
    [
        Some(ring.value(ring.add(x, y))),
        Some(ring.value(ring.mul(x, y))),
        Some(ring.value(ring.close_sum(sum))),
        Some(ring.value(ring.neg(x))),
        inverse,
    ]
}

#[test]
fn even_moduli_are_refused(rt: HostRuntime) {
    for m in [0, 1, 2, 8, 1 << 62, 1 << 63, u64::MAX] {
        assert_eq!(rt; OddMod::new(m), Err(BadModulus(m)), "modulus {m}");
    }
}

#[test]
fn units_modulo_77_have_inverses(rt: HostRuntime) -> Result<(), Fail> {
    ring_laws::<OddMod>();
    let ring = OddMod::new(77)?;
    assert_eq!(rt; ring.modulus(), 77);
    assert_eq!(rt; results(&ring, 7, 0)[4], None);
    assert_eq!(rt; results(&ring, 5, 0)[4], Some(31));
    // 2^64 is 16 modulo 77.
    assert_eq!(rt; ring.one(), 16);
    Ok(())
}

// The numbers are those of Knuth's MMIX generator from 1 on.
#[test]
fn both_forms_reckon_alike(rt: HostRuntime) -> Result<(), Fail> {
    for m in MODULI {
        let (odd, plain) = (OddMod::new(m)?, WordMod::new(m)?);
        let mut b = 1u64;
        for _i in 0..200u32 {
            let a = b;
            b = a
                .wrapping_mul(6364136223846793005)
                .wrapping_add(1442695040888963407);
            assert_eq!(rt;
                results(&odd, a, b),
                results(&plain, a, b),
                "{a} and {b} modulo {m}"
            );
        }
        assert_eq!(rt;
            results(&odd, m - 1, m - 1),
            results(&plain, m - 1, m - 1),
            "modulus {m}"
        );
        assert_eq!(rt;
            results(&odd, 0, 1),
            results(&plain, 0, 1),
            "0 and 1 modulo {m}"
        );
    }
    Ok(())
}

#[test]
fn the_ring_of_a_modulus_is_chosen(rt: HostRuntime) -> Result<(), Fail> {
    for (m, odd, sum) in [(12, false, 3), (15, true, 0)] {
        let (form, results) = match ResidueRing::new(m)? {
            ResidueRing::Odd(ring) => (true, results(&ring, 7, 8)),
            ResidueRing::Even(ring) => (false, results(&ring, 7, 8)),
        };
        assert_eq!(rt; form, odd, "modulus {m}");
        assert_eq!(rt; results[0], Some(sum), "7 + 8 modulo {m}");
    }
    assert_eq!(rt; ResidueRing::new(1 << 63), Err(BadModulus(1 << 63)));
    Ok(())
}
