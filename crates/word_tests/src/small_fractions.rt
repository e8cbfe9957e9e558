//! Fractions from another system.
use fractions::{Fraction, fraction, fraction_laws};
use std::test::Fail;

#[test]
fn a_residue_has_its_fraction(rt: HostRuntime) -> Result<(), Fail> {
    fraction_laws();
    for (m, c, negative, top, bottom) in [
        (1009, 499, true, 11, 2),
        (101, 61, false, 2, 5),
        (3, 2, true, 1, 1),
        (3, 0, false, 0, 1),
        (1009, 101, false, 1, 10),
        ((1 << 63) - 1, 1 << 62, false, 1, 2),
        ((1 << 63) - 1, (1 << 63) - 2, true, 1, 1),
    ] {
        assert_eq!(rt;
            fraction(m, c),
            Some(Fraction {
                negative,
                top,
                bottom
            }),
            "{c} modulo {m}"
        );
    }
    Ok(())
}

#[test]
fn a_residue_without_a_fraction_has_none(rt: HostRuntime) -> Result<(), Fail> {
    for (m, c) in [(101, 91), (101, 45)] {
        assert_eq!(rt; fraction(m, c), None, "{c} modulo {m}");
    }
    Ok(())
}
