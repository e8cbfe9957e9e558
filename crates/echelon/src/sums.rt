//! Rows that are being summed, one accumulator for each column.
ghost use Rattle.std.specs.Prelude.{◌≡◌, ℕ, ◌+◌, ◌*◌, ◌%◌, ◌<◌, ◌≤◌, true, List, length, IfOk, All};
ghost use Rattle.zeta_model.specs.Modular.{Same};
ghost use Rattle.linear_model.specs.Rows.{SameRow};
ghost use Rattle.sparse_rows.specs.Entries.{AllIn, IsRow, IsBelow};
ghost use Rattle.echelon.specs.Lists.{entries_of, lead_of, FitsColumns};
ghost use Rattle.echelon.specs.Inner.{numbers_of};

use residues::Ring;
use sparse_rows::Row;
use std::alloc::{AllocError, Global};

/// Accumulators of no products.
pub fn no_sums<R: Ring>(
    alloc: Global,
    ring: &R,
    columns: usize,
) -> Result<Vec<R::Accumulator>, AllocError>
    ensures all { IfOk result (λ sums. All (R.is_sum ring.now) sums.items) }
    ensures len { IfOk result (λ sums. length sums.items ≡ columns) }
    ensures zero { IfOk result (λ sums. (q : ℕ) → numbers_of (R.total ring.now) sums.items q ≡ 0) }
{
    let mut sums = Vec::with_capacity(alloc, columns)?;
    for _ in 0..columns {
        sums.push(ring.start_sum())?;
    }
    Ok(sums)
}

/// Adds `c` times the entries.
pub fn add_entries<R: Ring>(
    ring: &R,
    sums: &mut [R::Accumulator],
    c: R::Elem,
    entries: &[(u16, R::Elem)],
)
    requires below { IsBelow (λ k. k) (length sums.old) entries.now }
    requires all { All (R.is_sum ring.now) sums.old }
    requires in_ring { AllIn (R.has ring.now) entries.now }
    requires has_c { R.has ring.now c ≡ true }
    ensures all { All (R.is_sum ring.now) sums.new }
    ensures sum { SameRow (R.modulus ring.now) (numbers_of (R.total ring.now) sums.new)
        (λ q. numbers_of (R.total ring.now) sums.old q + R.value ring.now c * entries_of (R.value ring.now) entries.now q) }
{
    let mut rest = entries;
    while let Some((entry, behind)) = rest.split_first() {
        let column = usize::from(entry.0);
        sums[column] = ring.add_product(sums[column], c, entry.1);
        rest = behind;
    }
}

/// Adds the multiple of a forward row that leaves zero at its lead, and answers the factor.
pub fn cancel<R: Ring>(ring: &R, row: &Row<R>, sums: &mut [R::Accumulator]) -> R::Elem
    requires fits { FitsColumns (R.has ring.now) R.zero (length sums.old) row.now }
    requires all { All (R.is_sum ring.now) sums.old }
    ensures all { All (R.is_sum ring.now) sums.new }
    ensures has { R.has ring.now result ≡ true }
    ensures undone { Same (R.modulus ring.now) (numbers_of (R.total ring.now) sums.old (lead_of row.now) + R.value ring.now result) 0 }
    ensures sum { SameRow (R.modulus ring.now) (numbers_of (R.total ring.now) sums.new)
        (λ q. numbers_of (R.total ring.now) sums.old q + R.value ring.now result * entries_of (R.value ring.now) row.now q) }
{
    let entries = row.entries();
    let lead = usize::from(entries[0].0);
    let residue = ring.close_sum(sums[lead]);
    if R::is_zero(residue) {
        return residue;
    }
    let factor = ring.neg(residue);
    add_entries(ring, sums, factor, entries);
    factor
}

/// The row that the accumulators stand for.
pub fn gathered<R: Ring>(
    alloc: Global,
    ring: &R,
    sums: &[R::Accumulator],
) -> Result<Row<R>, AllocError>
    requires few { length sums.now ≤ 65536 }
    requires all { All (R.is_sum ring.now) sums.now }
    ensures row { IfOk result (IsRow (λ k. k) R.zero 0) }
    ensures below { IfOk result (IsBelow (λ k. k) (length sums.now)) }
    ensures in_ring { IfOk result (AllIn (R.has ring.now)) }
    ensures entries { IfOk result (λ row. (q : ℕ) → entries_of (R.value ring.now) row q ≡ numbers_of (R.total ring.now) sums.now q % R.modulus ring.now) }
{
    let mut row = Row::zero(alloc);
    for (column, sum) in sums.iter().enumerate() {
        let residue = ring.close_sum(*sum);
        if !R::is_zero(residue) {
            row.push(column as u16, residue)?;
        }
    }
    Ok(row)
}
