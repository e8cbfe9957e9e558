//! Rows and combinations by hand, as pages hold them, and back.
ghost use Rattle.std.specs.Prelude.{IfOk};
ghost use Rattle.sparse_rows.specs.Entries.{AllIn};

use crate::elimination::row_of;
use page_rows::{
    combination_of_data, data_of_combination, data_of_row, row_of_data,
    rows_are_known_by_what_is_written,
};
use residues::{Ring, WordMod};
use sparse_rows::{Combination, Row};
use std::alloc::{AllocError, Global};
use std::test::Fail;

/// Whether pages hold these pairs of a row, and the row comes back.
fn is_held(
    alloc: Global,
    ring: &WordMod,
    row: &Row<WordMod>,
    wanted: &[(u16, u64)],
) -> Result<bool, AllocError>
    requires { AllIn (⟦<WordMod as Ring>⟧.has ring.now) row.now }
{
    rows_are_known_by_what_is_written::<u16, WordMod>();
    let data = data_of_row(alloc, ring, row)?;
    let back = row_of_data(alloc, ring, &data)?;
    Ok(data.as_slice() == wanted && back.entries() == row.entries())
}

/// Whether pages hold these pairs of a combination, and the combination comes back.
fn is_combination_held(
    alloc: Global,
    ring: &WordMod,
    combination: &Combination<WordMod>,
    wanted: &[(u32, u64)],
) -> Result<bool, AllocError>
    requires { AllIn (⟦<WordMod as Ring>⟧.has ring.now) combination.now }
{
    rows_are_known_by_what_is_written::<u32, WordMod>();
    let data = data_of_combination(alloc, ring, combination)?;
    let back = combination_of_data(alloc, ring, &data)?;
    Ok(data.as_slice() == wanted && back.entries() == combination.entries())
}

/// The relation with this number, three times, and the next one once.
fn combination_of(alloc: Global, ring: &WordMod, n: u16) -> Result<Combination<WordMod>, AllocError>
    ensures { IfOk result (AllIn (⟦<WordMod as Ring>⟧.has ring.now)) }
{
    let mut combination = Combination::<WordMod>::zero(alloc);
    let three = ring.of(3);
    if WordMod::is_zero(three) {
        return Ok(combination);
    }
    combination.push(u32::from(n), three)?;
    let one = ring.one();
    if !WordMod::is_zero(one) {
        combination.push(u32::from(n) + 1, one)?;
    }
    Ok(combination)
}

#[test]
fn pages_hold_the_residues_of_a_row(rt: HostRuntime) -> Result<(), Fail> {
    let ring = WordMod::new(5)?;
    let row = row_of(rt.alloc(), &ring, &[1, 9])?;
    assert!(rt; is_held(rt.alloc(), &ring, &row, &[(0, 1), (1, 4)])?);
    let row = row_of(rt.alloc(), &ring, &[])?;
    assert!(rt; is_held(rt.alloc(), &ring, &row, &[])?);
    let ring = WordMod::new(101)?;
    let row = row_of(rt.alloc(), &ring, &[0, 61, 101, 302])?;
    assert!(rt; is_held(rt.alloc(), &ring, &row, &[(1, 61), (3, 100)])?);
    assert!(rt; !is_held(rt.alloc(), &ring, &row, &[(1, 61), (3, 99)])?);
    Ok(())
}

#[test]
fn pages_hold_the_residues_of_a_combination(rt: HostRuntime) -> Result<(), Fail> {
    for m in [5, 101] {
        let ring = WordMod::new(m)?;
        let combination = combination_of(rt.alloc(), &ring, 65535)?;
        assert!(rt;
            is_combination_held(rt.alloc(), &ring, &combination, &[(65535, 3), (65536, 1)])?,
            "modulo {m}"
        );
    }
    Ok(())
}
