//! Words to columns and back, by hand.
ghost use Rattle.std.specs.Prelude.{◌≡◌, ◌<◌, ◌≤◌, length, IfOk};
ghost use Rattle.sparse_rows.specs.Entries.{AllIn, IsBelow};
ghost use Rattle.word_sums.specs.Terms.{AllIn as AllTermsIn};

use column_order::{Columns, Mode, Preference, Preferred, RankRule, rank};
use lyndon_polys::{LyndonFault, LyndonTable, OutFault, conversion_is_one_to_one};
use residues::{Ring, WordMod};
use sparse_rows::Row;
use std::alloc::{AllocError, Global};
use std::test::Fail;
use word_letters::Word;
use word_sums::WordSum;

/// The columns of a weight and a depth in the order of words.
fn columns_of(alloc: Global, w: u32, d: u32) -> Result<Columns, Fail>
    requires least { 2 ≤ w }
    requires most { w ≤ 24 }
    requires some { 1 ≤ d }
    requires below { d < w }
{
    let preference = Preference {
        mode: Mode::Lex,
        words: Preferred::none(),
    };
    let ranked = preference;
    let rule = RankRule::new(preference, move |word: Word| rank(&ranked, word));
    Ok(Columns::new(alloc, w, d, &rule)?)
}

/// The first word less the second one.
fn difference(
    alloc: Global,
    ring: &WordMod,
    u: Word,
    v: Word,
) -> Result<WordSum<WordMod>, AllocError>
    ensures { IfOk result (AllTermsIn (⟦<WordMod as Ring>⟧.has ring.now)) }
{
    let mut sum = WordSum::<WordMod>::new(alloc);
    sum.add_term(ring, u, ring.one())?;
    sum.add_term(ring, v, ring.neg(ring.one()))?;
    Ok(sum)
}

/// The row of the one column.
fn unit(alloc: Global, table: &LyndonTable<WordMod>, col: u16) -> Result<Row<WordMod>, AllocError>
    requires { col < length table.now.columns.list }
    ensures in_ring { IfOk result (AllIn (⟦<WordMod as Ring>⟧.has table.now.ring)) }
    ensures below { IfOk result (IsBelow (λ k. k) (length table.now.columns.list)) }
{
    let mut row = Row::<WordMod>::zero(alloc);
    let residue = table.ring().one();
    if !WordMod::is_zero(residue) {
        row.push(col, residue)?;
    }
    Ok(row)
}

/// Whether the words of the column have that column as their row.
fn comes_back(alloc: Global, table: &LyndonTable<WordMod>, col: u16) -> Result<bool, Fail>
    requires { col < length table.now.columns.list }
{
    let row = unit(alloc, table, col)?;
    let words = table.to_words(&row)?;
    let back = table.to_columns(&words)?;
    Ok(back.entries() == row.entries())
}

#[test]
fn a_coefficient_without_an_inverse_is_told(rt: HostRuntime) -> Result<(), Fail> {
    let word = Word::parse(b"z(2,2)")?;
    let columns = columns_of(rt.alloc(), 4, 3)?;
    let refused = LyndonTable::new(rt.alloc(), WordMod::new(100)?, columns);
    assert!(rt;
        matches!(&refused, Err(LyndonFault::NoInverse { value: 2, word: told }) if *told == word)
    );
    let columns = columns_of(rt.alloc(), 4, 3)?;
    let made = LyndonTable::new(rt.alloc(), WordMod::new(15)?, columns);
    assert!(rt; made.is_ok());
    let fault = LyndonFault::NoInverse { value: 2, word };
    assert_eq!(rt;
        format!(in rt.alloc(); "{fault}")?.as_str(),
        "the word z(2,2) has the coefficient 2 in the shuffle of its factors, which has no inverse"
    );
    Ok(())
}

#[test]
fn a_sum_has_a_row_and_a_strange_word_none(rt: HostRuntime) -> Result<(), Fail> {
    let columns = columns_of(rt.alloc(), 3, 2)?;
    let table = LyndonTable::new(rt.alloc(), WordMod::new(5)?, columns)?;
    let (u, v) = (Word::parse(b"z(3)")?, Word::parse(b"z(2,1)")?);
    let sum = difference(rt.alloc(), table.ring(), u, v)?;
    assert_eq!(rt;
        table.to_columns(&sum)?.entries(),
        [(0, 4), (1, 1)].as_slice()
    );
    let long = Word::parse(b"z(4)")?;
    let sum = difference(rt.alloc(), table.ring(), u, long)?;
    let refused = table.to_columns(&sum);
    assert!(rt; matches!(&refused, Err(OutFault::OutOfTable(told)) if *told == long));
    let fault = OutFault::OutOfTable(long);
    assert_eq!(rt;
        format!(in rt.alloc(); "{fault}")?.as_str(),
        "the word z(4) of the sum is not of the table"
    );
    Ok(())
}

#[test]
fn the_empty_sum_has_the_zero_row(rt: HostRuntime) -> Result<(), Fail> {
    let columns = columns_of(rt.alloc(), 3, 2)?;
    let table = LyndonTable::new(rt.alloc(), WordMod::new(5)?, columns)?;
    let row = table.to_columns(&WordSum::new(rt.alloc()))?;
    assert!(rt; row.entries().is_empty());
    Ok(())
}

#[test]
fn each_column_comes_back_from_its_words(rt: HostRuntime) -> Result<(), Fail> {
    conversion_is_one_to_one::<WordMod>();
    let columns = columns_of(rt.alloc(), 5, 4)?;
    let table = LyndonTable::new(rt.alloc(), WordMod::new(101)?, columns)?;
    assert_eq!(rt; table.columns().len(), 8);
    for col in 0..8u16 {
        if (col as u32) < table.columns().len() {
            assert!(rt; comes_back(rt.alloc(), &table, col)?, "column {col}");
        }
    }
    Ok(())
}
