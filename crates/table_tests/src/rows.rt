//! Worked values: rows that are scaled and added, against sums column by column from another program.
ghost use Rattle.std.specs.Prelude.{◌≤◌, length, IfOk};
ghost use Rattle.sparse_rows.specs.Entries.{AllIn};

use residues::{Ring, WordMod};
use sparse_rows::{Combination, Row, rows_are_known_by_their_entries};
use std::alloc::{AllocError, Global};
use std::test::Fail;

/// The row of these numbers, at the columns from 0 on.
fn row_of(alloc: Global, ring: &WordMod, numbers: &[u64]) -> Result<Row<WordMod>, AllocError>
    requires { length numbers.now ≤ 24 }
    ensures { IfOk result (λ row. AllIn (⟦<WordMod as Ring>⟧.has ring.now) row) }
{
    let mut row = Row::<WordMod>::zero(alloc);
    for (col, number) in numbers.iter().enumerate() {
        let residue = ring.of(*number as u128);
        if WordMod::is_zero(residue) {
            continue;
        }
        row.push(col as u16, residue)?;
    }
    Ok(row)
}

#[test]
fn rows_are_scaled(rt: HostRuntime) -> Result<(), Fail> {
    let ring = WordMod::new(15)?;
    for (c, numbers, want) in [
        (4, [0, 4, 14, 0], [0, 1, 11, 0]),
        (5, [3, 4, 14, 6], [0, 5, 10, 0]),
        (0, [3, 4, 14, 6], [0, 0, 0, 0]),
    ] {
        let mut row = row_of(rt.alloc(), &ring, &numbers)?;
        row.scale(&ring, ring.of(c));
        let wanted = row_of(rt.alloc(), &ring, &want)?;
        assert_eq!(rt; row.entries(), wanted.entries(), "{c} times {numbers:?}");
    }
    Ok(())
}

#[test]
fn a_row_begins_at_its_lead(rt: HostRuntime) -> Result<(), Fail> {
    rows_are_known_by_their_entries::<u16, WordMod>();
    let ring = WordMod::new(15)?;
    for (numbers, lead) in [
        ([0, 4, 14, 0], Some((1, 4))),
        ([0, 0, 0, 7], Some((3, 7))),
        ([0, 0, 0, 0], None),
    ] {
        let row = row_of(rt.alloc(), &ring, &numbers)?;
        assert_eq!(rt; row.lead(), lead, "{numbers:?}");
        let copy = row.copy()?;
        assert_eq!(rt; copy.entries(), row.entries(), "a copy of {numbers:?}");
        for (col, number) in numbers.iter().enumerate() {
            assert_eq!(rt;
                row.entry(&ring, col as u16),
                *number,
                "column {col} of {numbers:?}"
            );
        }
        assert_eq!(rt; row.entry(&ring, 4), 0, "behind {numbers:?}");
    }
    Ok(())
}

#[test]
fn rows_are_added(rt: HostRuntime) -> Result<(), Fail> {
    let large = (1 << 61) - 1;
    for (m, c, left, right, want) in [
        (
            77,
            5,
            [0, 0, 9, 0, 0, 7],
            [7, 0, 28, 50, 0, 37],
            [35, 0, 72, 19, 0, 38],
        ),
        (
            77,
            1,
            [0, 0, 23, 0, 8, 70],
            [33, 0, 0, 0, 33, 70],
            [33, 0, 23, 0, 41, 63],
        ),
        (
            77,
            7,
            [7, 0, 0, 53, 14, 22],
            [0, 0, 0, 11, 14, 22],
            [7, 0, 0, 53, 35, 22],
        ),
        (
            77,
            76,
            [0, 0, 0, 16, 0, 63],
            [0, 0, 48, 0, 0, 63],
            [0, 0, 29, 16, 0, 0],
        ),
        (
            large,
            801025758588407164,
            [
                1424071925184979066,
                2016490113087754422,
                0,
                0,
                143533707058440326,
                784110335499191033,
            ],
            [0, 0, 0, 0, 0, 1462848887944865693],
            [
                1424071925184979066,
                2016490113087754422,
                0,
                0,
                143533707058440326,
                1596912469252503083,
            ],
        ),
        (
            large,
            1193593638872798001,
            [
                1957515269308403395,
                1107715691622634967,
                0,
                610487835749230693,
                1218078632182261005,
                0,
            ],
            [
                1748158638568784301,
                1195341776724455944,
                0,
                0,
                760155715438428299,
                923915252058178711,
            ],
            [
                1086266509607263585,
                1902792092476081646,
                0,
                610487835749230693,
                1455894905551275826,
                496714454634067719,
            ],
        ),
        (
            large,
            large - 1,
            [
                1905803409929277935,
                359509573296737938,
                0,
                1498047796684743516,
                449190764714036089,
                0,
            ],
            [
                1905803409929277935,
                598054500648093954,
                815770414749550618,
                1498047796684743516,
                2012552689221228429,
                9067683597925559,
            ],
            [
                0,
                2067298081862337935,
                1490072594464143333,
                0,
                742481084706501611,
                2296775325615768392,
            ],
        ),
    ] {
        let ring = WordMod::new(m)?;
        let mut sum = row_of(rt.alloc(), &ring, &left)?;
        let other = row_of(rt.alloc(), &ring, &right)?;
        sum.add_scaled(&ring, ring.of(c as u128), &other)?;
        let wanted = row_of(rt.alloc(), &ring, &want)?;
        assert_eq!(rt;
            sum.entries(),
            wanted.entries(),
            "{left:?} and {c} times {right:?} modulo {m}"
        );
    }
    Ok(())
}

#[test]
fn combinations_have_numbers_of_relations(rt: HostRuntime) -> Result<(), Fail> {
    let mut combination = Combination::<WordMod>::zero(rt.alloc());
    combination.push(70000, 4)?;
    assert_eq!(rt; combination.lead(), Some((70000, 4)));
    Ok(())
}
