//! The reduced rows of small tables: one by hand, the others as an independent program has them.
ghost use Rattle.std.specs.Prelude.{◌<◌, ◌≤◌};

use column_order::{Columns, Mode, Preference, Preferred, RankRule, rank};
use lyndon_polys::LyndonTable;
use residues::WordMod;
use std::alloc::Global;
use std::test::Fail;
use table_rows::{RowsFault, reduced_rows};
use word_letters::Word;

/// The table of a weight, a depth and a modulus in the order of words.
fn table_of(alloc: Global, w: u32, d: u32, m: u64) -> Result<LyndonTable<WordMod>, Fail>
    requires least { 2 ≤ w }
    requires most { w ≤ 24 }
    requires some { 1 ≤ d }
    requires below { d < w }
{
    let preference = Preference {
        mode: Mode::Lex,
        words: Preferred::none(),
    };
    let ranked = preference;
    let rule = RankRule::new(preference, move |word: Word| rank(&ranked, word));
    let columns = Columns::new(alloc, w, d, &rule)?;
    let ring = WordMod::new(m)?;
    Ok(LyndonTable::new(alloc, ring, columns)?)
}

#[test]
fn the_rows_of_weight_3_say_that_two_zetas_are_one(rt: HostRuntime) -> Result<(), Fail> {
    let table = table_of(rt.alloc(), 3, 2, 5)?;
    let made = reduced_rows(rt.alloc(), &table)?;
    assert_eq!(rt; made.rows.len(), 1);
    if made.rows.len() == 1 {
        assert_eq!(rt; made.rows.row(0).entries(), [(0, 1), (1, 4)].as_slice());
    }
    Ok(())
}

#[test]
fn the_rows_of_weight_5_are_six(rt: HostRuntime) -> Result<(), Fail> {
    let table = table_of(rt.alloc(), 5, 4, 101)?;
    let made = reduced_rows(rt.alloc(), &table)?;
    assert_eq!(rt; made.rows.len(), 6);
    Ok(())
}

#[test]
fn the_work_is_broken_at_a_residue_without_inverse(rt: HostRuntime) -> Result<(), Fail> {
    let table = table_of(rt.alloc(), 4, 3, 15)?;
    let made = reduced_rows(rt.alloc(), &table);
    assert!(rt; matches!(&made, Err(RowsFault::NoInverse { value: 5, n: 1 })));
    Ok(())
}
