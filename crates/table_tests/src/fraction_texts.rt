//! Rows whose residues are printed as fractions: texts from another system.
use crate::printed::columns_of;
use column_order::Columns;
use fraction_print::{fractions_text_laws, print_fractions, rows_are_known_by_their_fractions};
use poly_print::parse;
use residues::WordMod;
use std::alloc::Global;
use std::test::Fail;

/// The row of a text of residues, printed with fractions, and nothing where there is no such row.
fn printed(alloc: Global, columns: &Columns, modulus: u64, text: &str) -> Result<String, Fail> {
    let ring = WordMod::new(modulus)?;
    match parse(alloc, &ring, columns, text.as_bytes())? {
        Some(row) => Ok(print_fractions(alloc, &ring, columns, &row)?),
        None => Ok(String::new(alloc)),
    }
}

#[test]
fn residues_are_printed_as_fractions(rt: HostRuntime) -> Result<(), Fail> {
    fractions_text_laws();
    rows_are_known_by_their_fractions::<WordMod>();
    let columns = columns_of(rt.alloc(), 4, 3)?;
    for (modulus, text, wanted) in [
        (101, "0", "0"),
        (101, "61*z(2)^2", "2/5*z(2)^2"),
        (101, "91*z(2)^2", "91*z(2)^2"),
        (1009, "101*z(2)^2", "1/10*z(2)^2"),
        (1009, "505*z(2)^2", "1/2*z(2)^2"),
        (1009, "499*z(2)^2", "-11/2*z(2)^2"),
    ] {
        let made = printed(rt.alloc(), &columns, modulus, text)?;
        assert_eq!(rt; made.as_str(), wanted, "{text} modulo {modulus}");
    }
    Ok(())
}

#[test]
fn terms_have_their_signs(rt: HostRuntime) -> Result<(), Fail> {
    let columns = columns_of(rt.alloc(), 5, 4)?;
    for (text, wanted) in [
        ("2*z(5)+100*z(2)*z(3)", "2*z(5)-1*z(2)*z(3)"),
        ("45*z(5)+3*z(2)*z(3)", "45*z(5)+3*z(2)*z(3)"),
        ("100*z(5)+61*z(2)*z(3)", "-1*z(5)+2/5*z(2)*z(3)"),
    ] {
        let made = printed(rt.alloc(), &columns, 101, text)?;
        assert_eq!(rt; made.as_str(), wanted, "{text}");
    }
    Ok(())
}
