//! Texts of rows, by hand and from another program: those that are printed, and others.
ghost use Rattle.std.specs.Prelude.{◌<◌, ◌≤◌};

use column_order::{Columns, Mode, Preference, Preferred, RankRule, rank};
use poly_print::{parse, print, row_text_laws, rows_are_known_by_their_texts};
use residues::{Ring, WordMod};
use std::alloc::Global;
use std::test::Fail;
use word_letters::Word;

/// The columns of weight `w` and depth at most `d`, the lead order being that of the words.
pub(crate) fn columns_of(alloc: Global, w: u32, d: u32) -> Result<Columns, Fail>
    requires least { 2 ≤ w }
    requires most { w ≤ 24 }
    requires some { 1 ≤ d }
    requires below { d < w }
{
    let preference = Preference {
        mode: Mode::Lex,
        words: Preferred::none(),
    };
    let ranked = preference;
    let rule = RankRule::new(preference, move |word: Word| rank(&ranked, word));
    Ok(Columns::new(alloc, w, d, &rule)?)
}

/// What is printed of the row of a text, and nothing where there is no such row.
fn printed(alloc: Global, columns: &Columns, modulus: u64, text: &str) -> Result<String, Fail> {
    let ring = WordMod::new(modulus)?;
    match parse(alloc, &ring, columns, text.as_bytes())? {
        Some(row) => Ok(print(alloc, &ring, columns, &row)?),
        None => Ok(String::new(alloc)),
    }
}

/// Whether the text is that of the row with the residue 1 at column 1 and nothing else.
fn is_one_at_1(alloc: Global, columns: &Columns, text: &str) -> Result<bool, Fail> {
    let ring = WordMod::new(5)?;
    match parse(alloc, &ring, columns, text.as_bytes())? {
        Some(row) => match row.lead() {
            Some((col, residue)) => {
                Ok(col == 1 && residue == ring.one() && row.entries().len() == 1)
            }
            None => Ok(false),
        },
        None => Ok(false),
    }
}

#[test]
fn a_row_is_known_by_its_text(rt: HostRuntime) -> Result<(), Fail> {
    row_text_laws();
    rows_are_known_by_their_texts::<WordMod>();
    let columns = columns_of(rt.alloc(), 3, 2)?;
    assert!(rt; is_one_at_1(rt.alloc(), &columns, "1*z(3)")?);
    assert!(rt; !is_one_at_1(rt.alloc(), &columns, "01*z(3)")?);
    assert!(rt; !is_one_at_1(rt.alloc(), &columns, "0")?);
    Ok(())
}

#[test]
fn texts_of_rows_are_read_and_printed(rt: HostRuntime) -> Result<(), Fail> {
    let columns = columns_of(rt.alloc(), 5, 4)?;
    for text in [
        "0",
        "1*z(2,1,1,1)",
        "2*z(5)",
        "2*z(5)+100*z(2)*z(3)",
        "2*z(2,1)*z(2)",
    ] {
        assert_eq!(rt; printed(rt.alloc(), &columns, 101, text)?.as_str(), text);
    }
    Ok(())
}

#[test]
fn other_texts_are_of_no_row(rt: HostRuntime) -> Result<(), Fail> {
    let columns = columns_of(rt.alloc(), 5, 4)?;
    for text in [
        "",
        "00",
        "0*z(5)",
        "02*z(5)",
        "101*z(5)",
        "2*z(5)+",
        "2*z(5)+2*z(5)",
        "100*z(2)*z(3)+2*z(5)",
        "1*z(4)",
    ] {
        assert_eq!(rt;
            printed(rt.alloc(), &columns, 101, text)?.as_str(),
            "",
            "{text}"
        );
    }
    Ok(())
}

#[test]
fn powers_are_printed_once(rt: HostRuntime) -> Result<(), Fail> {
    let columns = columns_of(rt.alloc(), 6, 5)?;
    for text in ["3*z(2)^3", "3*z(3)^2"] {
        assert_eq!(rt; printed(rt.alloc(), &columns, 101, text)?.as_str(), text);
    }
    for text in [
        "3*z(2)*z(2)*z(2)",
        "3*z(2)^2*z(2)",
        "3*z(2)^03",
        "1*z(2)*z(4)^1",
    ] {
        assert_eq!(rt;
            printed(rt.alloc(), &columns, 101, text)?.as_str(),
            "",
            "{text}"
        );
    }
    Ok(())
}
