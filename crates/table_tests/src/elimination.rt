//! Worked values, and rows that look random: offered in three orders, they give the same reduced rows.
ghost use Rattle.std.specs.Prelude.{◌≡◌, ◌≤◌, ◌<◌, ℕ, [], length, get_or, IfOk};
ghost use Rattle.sparse_rows.specs.Entries.{AllIn, IsBelow};

use echelon::{
    Echelon, Finished, OfferFault, Offered, ReducedFault, ReducedRows, RestoreFault, RowEchelon,
};
use residues::{Ring, WordMod};
use sparse_rows::{Combination, Row};
use std::alloc::{AllocError, Global};
use std::test::Fail;

/// The row of these numbers, at the columns from 0 on.
pub(crate) fn row_of(
    alloc: Global,
    ring: &WordMod,
    numbers: &[u64],
) -> Result<Row<WordMod>, AllocError>
    requires { length numbers.now ≤ 64 }
    ensures in_ring { IfOk result (AllIn (⟦<WordMod as Ring>⟧.has ring.now)) }
    ensures below { IfOk result (IsBelow (λ k. k) (length numbers.now)) }
{
    let mut row = Row::<WordMod>::zero(alloc);
    for (col, number) in numbers.iter().enumerate() {
        let residue = ring.of(*number as u128);
        if WordMod::is_zero(residue) {
            continue;
        }
        row.push(col as u16, residue)?;
    }
    Ok(row)
}

/// The combination of one relation.
fn single(
    alloc: Global,
    ring: &WordMod,
    n: u32,
    number: u64,
) -> Result<Combination<WordMod>, AllocError>
    ensures in_ring { IfOk result (AllIn (⟦<WordMod as Ring>⟧.has ring.now)) }
{
    let mut combination = Combination::<WordMod>::zero(alloc);
    let residue = ring.of(number as u128);
    if !WordMod::is_zero(residue) {
        combination.push(n, residue)?;
    }
    Ok(combination)
}

#[test]
fn a_row_is_kept_and_a_lead_has_no_inverse(rt: HostRuntime) -> Result<(), Fail> {
    let ring = WordMod::new(15)?;
    let mut echelon = Echelon::new(rt.alloc(), ring, 4);
    let first = row_of(rt.alloc(), &ring, &[0, 4, 14, 0])?;
    match echelon.offer(0, &first)? {
        Offered::Accepted { row, combination } => {
            assert_eq!(rt; row.entries(), [(1, 1), (2, 11)].as_slice());
            assert_eq!(rt; combination.entries(), [(0, 4)].as_slice());
        }
        Offered::Zero => assert!(rt; false),
    }
    let second = row_of(rt.alloc(), &ring, &[0, 1, 1, 7])?;
    match echelon.offer(1, &second) {
        Err(OfferFault::NoInverse { value, n }) => {
            assert_eq!(rt; value, 5);
            assert_eq!(rt; n, 1);
        }
        _ => assert!(rt; false),
    }
    Ok(())
}

#[test]
fn a_forward_row_is_put_back(rt: HostRuntime) -> Result<(), Fail> {
    let ring = WordMod::new(5)?;
    let mut echelon = Echelon::new(rt.alloc(), ring, 2);
    let four = single(rt.alloc(), &ring, 0, 4)?;
    let wrong = row_of(rt.alloc(), &ring, &[2, 1])?;
    match echelon.restore(0, &wrong, &four) {
        Err(RestoreFault::NotForward) => {}
        _ => assert!(rt; false),
    }
    let row = row_of(rt.alloc(), &ring, &[1, 4])?;
    echelon.restore(0, &row, &four)?;
    let finished = echelon.finish()?;
    assert_eq!(rt; finished.rows.len(), 1);
    assert_eq!(rt; finished.combinations.len(), 1);
    if finished.rows.len() > 0 && finished.combinations.len() > 0 {
        assert_eq!(rt; finished.rows.row(0).entries(), row.entries());
        assert_eq!(rt; finished.combinations[0].entries(), four.entries());
    }
    Ok(())
}

#[test]
fn a_lead_column_is_not_zero_in_the_row_before(rt: HostRuntime) -> Result<(), Fail> {
    let ring = WordMod::new(5)?;
    let mut rows = Vec::new(rt.alloc());
    rows.push(row_of(rt.alloc(), &ring, &[1, 1])?)?;
    rows.push(row_of(rt.alloc(), &ring, &[0, 1])?)?;
    match ReducedRows::new(&ring, rows) {
        Err(ReducedFault::NotReduced(i)) => assert_eq!(rt; i, 1),
        _ => assert!(rt; false),
    }
    Ok(())
}

/// A number that looks random.
fn mixed(seed: u64, i: u64, col: u64) -> u64 {
    let mut n = seed.wrapping_mul(0x9E3779B97F4A7C15);
    n = n.wrapping_add(i.wrapping_mul(64)).wrapping_add(col);
    n = (n ^ (n >> 30)).wrapping_mul(0xBF58476D1CE4E5B9);
    n = (n ^ (n >> 27)).wrapping_mul(0x94D049BB133111EB);
    n >> 32
}

/// Row `i` of five: four that look random, and a sum of the first two of these.
fn random_row(alloc: Global, ring: &WordMod, seed: u64, i: u64) -> Result<Row<WordMod>, AllocError>
    ensures in_ring { IfOk result (AllIn (⟦<WordMod as Ring>⟧.has ring.now)) }
    ensures below { IfOk result (IsBelow (λ k. k) 40) }
{
    let mut row = Row::<WordMod>::zero(alloc);
    for col in 0..40 {
        let number = if i < 4 {
            mixed(seed, i, col)
        } else {
            mixed(seed, 0, col).wrapping_add(mixed(seed, 1, col).wrapping_mul(2))
        };
        let residue = ring.of(number as u128);
        if WordMod::is_zero(residue) {
            continue;
        }
        row.push(col as u16, residue)?;
    }
    Ok(row)
}

/// What the five rows, each with its residue, add up to. Row `n` is that which was offered with that number.
fn evaluated(
    alloc: Global,
    ring: &WordMod,
    seed: u64,
    step: u64,
    combination: &Combination<WordMod>,
) -> Result<Row<WordMod>, AllocError>
    requires { AllIn (⟦<WordMod as Ring>⟧.has ring.now) combination.now }
{
    let mut sum = Row::<WordMod>::zero(alloc);
    for n in 0..5 {
        let row = random_row(alloc, ring, seed, (n as u64).wrapping_mul(step) % 5)?;
        sum.add_scaled(ring, combination.entry(ring, n), &row)?;
    }
    Ok(sum)
}

/// The five rows, offered in an order, and finished.
fn finished(alloc: Global, ring: WordMod, seed: u64, step: u64) -> Result<Finished<WordMod>, Fail>
    ensures in_ring { IfOk result (λ made. (i : ℕ) → i < length made.combinations.items → AllIn (⟦<WordMod as Ring>⟧.has ring) (get_or made.combinations.items i [])) }
{
    let mut echelon = Echelon::<WordMod>::new(alloc, ring, 40);
    for n in 0..5 {
        let row = random_row(alloc, &ring, seed, (n as u64).wrapping_mul(step) % 5)?;
        echelon.offer(n, &row)?;
    }
    let made = echelon.finish()?;
    Ok(made)
}

#[test]
fn the_order_of_the_offers_does_not_matter(rt: HostRuntime) -> Result<(), Fail> {
    for (m, seed) in [(15, 164), (77, 1), (101, 1), ((1 << 61) - 1, 1)] {
        let ring = WordMod::new(m)?;
        let first = finished(rt.alloc(), ring, seed, 1)?;
        assert_eq!(rt; first.rows.len(), 4, "modulo {m}");
        for step in 1..4 {
            let made = finished(rt.alloc(), ring, seed, step)?;
            assert_eq!(rt; made.rows.len(), first.rows.len(), "modulo {m}");
            assert_eq!(rt; made.combinations.len(), 4, "modulo {m}");
            for i in 0..4 {
                if i < made.combinations.len()
                    && i < first.rows.len() as usize
                    && i < made.rows.len() as usize
                {
                    let value = evaluated(rt.alloc(), &ring, seed, step, &made.combinations[i])?;
                    assert_eq!(rt;
                        made.rows.row(i as u32).entries(),
                        value.entries(),
                        "row {i} modulo {m}"
                    );
                    assert_eq!(rt;
                        made.rows.row(i as u32).entries(),
                        first.rows.row(i as u32).entries(),
                        "row {i} modulo {m}"
                    );
                }
            }
        }
    }
    Ok(())
}

/// The five rows, offered one after the other.
fn kept(alloc: Global, ring: WordMod, seed: u64) -> Result<RowEchelon<WordMod>, Fail>
    ensures { IfOk result (λ echelon. echelon.ring ≡ ring) }
{
    let mut echelon = RowEchelon::<WordMod>::new(alloc, ring, 40);
    for n in 0..5 {
        let row = random_row(alloc, &ring, seed, n as u64)?;
        echelon.offer(n, &row)?;
    }
    Ok(echelon)
}

#[test]
fn the_rows_alone_are_those_of_the_finish(rt: HostRuntime) -> Result<(), Fail> {
    let ring = WordMod::new(77)?;
    let echelon = kept(rt.alloc(), ring, 1)?;
    let finished = echelon.finish()?;
    let rows = echelon.reduced()?;
    assert_eq!(rt; rows.len(), 4);
    assert_eq!(rt; finished.rows.len(), 4);
    for i in 0..4 {
        if i < rows.len() && i < finished.rows.len() {
            assert_eq!(rt;
                rows.row(i).entries(),
                finished.rows.row(i).entries(),
                "row {i}"
            );
        }
    }
    let sum = random_row(rt.alloc(), &ring, 1, 4)?;
    let left = rows.nf(&ring, &sum)?;
    assert_eq!(rt; left.entries().len(), 0);
    Ok(())
}
