//! Rows with their combinations, over the table of weight 3 and depth 2 modulo 5: worked rows of another program.
//!
//! The first listed relation has the value 4 z(2,1) + z(3), and the reduced row is 4 times that.
ghost use Rattle.std.specs.Prelude.{◌≡◌, ℕ, ◌<◌, ◌^◌, length, IfOk};
ghost use Rattle.sparse_rows.specs.Entries.{AllIn, IsBelow};
ghost use Rattle.cert_checker.specs.Verdicts.{AreWithin};
ghost use Rattle.relation_list.specs.Listings.{listing_of};

use crate::elimination::row_of;
use crate::printed::columns_of;
use cert_checker::{CompletenessFault, check_row, check_rows};
use lyndon_polys::LyndonTable;
use page_codec::{CombData, RowData};
use relation_list::{is_name, listing};
use residues::{Ring, WordMod};
use sparse_rows::{Combination, Row};
use std::alloc::{AllocError, Global};
use std::test::Fail;

/// Whether the row of the first numbers is that combination of the first listed relation.
fn is_certified(alloc: Global, row: &[(u16, u64)], combination: &[(u32, u64)]) -> Result<bool, Fail>
    requires columns { IsBelow (λ k. k) 2 row.now }
    requires numbers { IsBelow (λ k. k) 1 combination.now }
{
    let ring = WordMod::new(5)?;
    let columns = columns_of(alloc, 3, 2)?;
    let names = listing(alloc, 3, 2)?;
    if columns.len() != 2 || names.is_empty() || !is_name(&names[0]) {
        return Err(Fail::new("there are other columns or names"));
    }
    let row = RowData::from_vec(row.to_vec(alloc)?);
    let combination = CombData::from_vec(combination.to_vec(alloc)?);
    Ok(check_row(alloc, &ring, &columns, &[names[0]], &row, &combination)?)
}

#[test]
fn a_row_is_what_its_combination_gives(rt: HostRuntime) -> Result<(), Fail> {
    assert!(rt; is_certified(rt.alloc(), &[(0, 1), (1, 4)], &[(0, 4)])?);
    assert!(rt; !is_certified(rt.alloc(), &[(0, 1), (1, 4)], &[(0, 3)])?);
    assert!(rt; !is_certified(rt.alloc(), &[(0, 1), (1, 3)], &[(0, 4)])?);
    assert!(rt; !is_certified(rt.alloc(), &[(0, 1)], &[(0, 4)])?);
    assert!(rt; is_certified(rt.alloc(), &[(0, 2), (1, 3)], &[(0, 3)])?);
    assert!(rt; is_certified(rt.alloc(), &[], &[])?);
    Ok(())
}

/// The first listed relation, so many times.
fn combination_of(
    alloc: Global,
    ring: &WordMod,
    number: u64,
) -> Result<Combination<WordMod>, AllocError>
    ensures in_ring { IfOk result (AllIn (⟦<WordMod as Ring>⟧.has ring.now)) }
    ensures below { IfOk result (IsBelow (λ k. k) 2) }
{
    let mut combination = Combination::<WordMod>::zero(alloc);
    let residue = ring.of(number as u128);
    if !WordMod::is_zero(residue) {
        combination.push(0, residue)?;
    }
    Ok(combination)
}

/// What is found of rows with their combinations, as text.
fn found(
    alloc: Global,
    table: &LyndonTable<WordMod>,
    rows: Vec<Row<WordMod>>,
    combinations: &[Combination<WordMod>],
) -> Result<String, AllocError>
    requires few { length rows.items < 2 ^ 32 }
    requires as_many { length combinations.now ≡ length rows.items }
    requires rows { AreWithin ⟦<WordMod as Ring>⟧.zero (⟦<WordMod as Ring>⟧.has table.now.ring) (length table.now.columns.list) rows.items }
    requires combinations { AreWithin ⟦<WordMod as Ring>⟧.zero (⟦<WordMod as Ring>⟧.has table.now.ring)
        (length (listing_of table.now.columns.weight table.now.columns.depth)) combinations.now }
{
    match &check_rows(alloc, table, rows, combinations) {
        Ok(list) => format!(in alloc; "rows {}", list.len()),
        Err(CompletenessFault::BadRow(i)) => format!(in alloc; "bad row {i}"),
        Err(CompletenessFault::NotReduced(i)) => format!(in alloc; "not reduced {i}"),
        Err(CompletenessFault::Missing { n, .. }) => format!(in alloc; "missing {n}"),
        Err(CompletenessFault::Memory(_)) => Err(AllocError),
    }
}

/// The table, which has two columns and two listed relations.
fn small_table(alloc: Global) -> Result<LyndonTable<WordMod>, Fail>
    ensures columns { IfOk result (λ table. length table.columns.list ≡ 2) }
    ensures relations { IfOk result (λ table. length (listing_of table.columns.weight table.columns.depth) ≡ 2) }
{
    let table = LyndonTable::new(alloc, WordMod::new(5)?, columns_of(alloc, 3, 2)?)?;
    let columns = table.columns();
    let names = listing(alloc, columns.weight(), columns.depth())?;
    if columns.len() != 2 {
        return Err(Fail::new("there are other columns"));
    }
    if names.len() != 2 {
        return Err(Fail::new("there are other names"));
    }
    Ok(table)
}

/// What is found of one row with its combination.
fn found_of_one(alloc: Global, numbers: [u64; 2], number: u64) -> Result<String, Fail> {
    let table = small_table(alloc)?;
    let mut rows = Vec::new(alloc);
    rows.push(row_of(alloc, table.ring(), &numbers)?)?;
    let mut combinations = Vec::new(alloc);
    combinations.push(combination_of(alloc, table.ring(), number)?)?;
    Ok(found(alloc, &table, rows, &combinations)?)
}

/// What is found of the row twice, each with the combination.
fn found_of_two(alloc: Global, numbers: [u64; 2], number: u64) -> Result<String, Fail> {
    let table = small_table(alloc)?;
    let mut rows = Vec::new(alloc);
    rows.push(row_of(alloc, table.ring(), &numbers)?)?;
    rows.push(row_of(alloc, table.ring(), &numbers)?)?;
    let mut combinations = Vec::new(alloc);
    combinations.push(combination_of(alloc, table.ring(), number)?)?;
    combinations.push(combination_of(alloc, table.ring(), number)?)?;
    Ok(found(alloc, &table, rows, &combinations)?)
}

#[test]
fn the_first_test_that_rows_fail_is_told(rt: HostRuntime) -> Result<(), Fail> {
    for (numbers, number, wanted) in [
        ([1, 4], 4, "rows 1"),
        ([1, 4], 3, "bad row 0"),
        ([1, 3], 4, "bad row 0"),
        ([2, 3], 3, "not reduced 0"),
    ] {
        let text = found_of_one(rt.alloc(), numbers, number)?;
        assert_eq!(rt; text.as_str(), wanted, "{number} times the relation");
    }
    let text = found_of_two(rt.alloc(), [1, 4], 4)?;
    assert_eq!(rt; text.as_str(), "not reduced 0");
    Ok(())
}

#[test]
fn what_no_rows_leave_is_told(rt: HostRuntime) -> Result<(), Fail> {
    let table = small_table(rt.alloc())?;
    let checked = check_rows(rt.alloc(), &table, Vec::new(rt.alloc()), &[]);
    match &checked {
        Err(CompletenessFault::Missing { n, rest }) => {
            assert_eq!(rt; *n, 0);
            // 4*z(2,1)+1*z(3)
            assert_eq!(rt; rest.as_slice(), [(0, 4), (1, 1)].as_slice());
        }
        _ => assert!(rt; false),
    }
    Ok(())
}
