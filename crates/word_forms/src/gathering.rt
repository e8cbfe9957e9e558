//! Rows that are being summed, one accumulator for each column.
ghost use Rattle.std.specs.Prelude.{◌≡◌, ℕ, ◌+◌, ◌*◌, ◌%◌, ◌<◌, ◌≤◌, true, List, length, IfOk, All};
ghost use Rattle.linear_model.specs.Rows.{SameRow};
ghost use Rattle.sparse_rows.specs.Entries.{AllIn, IsRow, IsBelow};
ghost use Rattle.lyndon_polys.specs.Tables.{entries_of};
ghost use Rattle.word_forms.specs.Inner.{numbers_of};

use residues::Ring;
use sparse_rows::Row;
use std::alloc::{AllocError, Global};

/// Accumulators of no products.
pub(crate) fn no_sums<R: Ring>(
    alloc: Global,
    ring: &R,
    columns: usize,
) -> Result<Vec<R::Accumulator>, AllocError>
    ensures all { IfOk result (λ sums. All (R.is_sum ring.now) sums.items) }
    ensures len { IfOk result (λ sums. length sums.items ≡ columns) }
    ensures zero { IfOk result (λ sums. (q : ℕ) → numbers_of (R.total ring.now) sums.items q ≡ 0) }
{
    let mut sums = Vec::new(alloc);
    sums.resize(columns, ring.start_sum())?;
    Ok(sums)
}

/// Adds `c` times the entries.
pub(crate) fn add_entries<R: Ring>(
    ring: &R,
    sums: &mut [R::Accumulator],
    c: R::Elem,
    entries: &[(u16, R::Elem)],
)
    requires below { IsBelow (λ k. k) (length sums.old) entries.now }
    requires all { All (R.is_sum ring.now) sums.old }
    requires in_ring { AllIn (R.has ring.now) entries.now }
    requires has_c { R.has ring.now c ≡ true }
    ensures len { length sums.new ≡ length sums.old }
    ensures all { All (R.is_sum ring.now) sums.new }
    ensures sum { SameRow (R.modulus ring.now) (numbers_of (R.total ring.now) sums.new)
        (λ q. numbers_of (R.total ring.now) sums.old q + R.value ring.now c * entries_of (R.value ring.now) entries.now q) }
{
    let mut rest = entries;
    while let Some((entry, behind)) = rest.split_first() {
        let column = usize::from(entry.0);
        sums[column] = ring.add_product(sums[column], c, entry.1);
        rest = behind;
    }
}

/// The row that the accumulators stand for.
pub(crate) fn gathered<R: Ring>(
    alloc: Global,
    ring: &R,
    sums: &[R::Accumulator],
) -> Result<Row<R>, AllocError>
    requires few { length sums.now ≤ 65536 }
    requires all { All (R.is_sum ring.now) sums.now }
    ensures row { IfOk result (IsRow (λ k. k) R.zero 0) }
    ensures below { IfOk result (IsBelow (λ k. k) (length sums.now)) }
    ensures in_ring { IfOk result (AllIn (R.has ring.now)) }
    ensures entries { IfOk result (λ row. (q : ℕ) → entries_of (R.value ring.now) row q ≡ numbers_of (R.total ring.now) sums.now q % R.modulus ring.now) }
{
    let mut row = Row::zero(alloc);
    for (column, sum) in sums.iter().enumerate() {
        let residue = ring.close_sum(*sum);
        if !R::is_zero(residue) {
            row.push(column as u16, residue)?;
        }
    }
    Ok(row)
}
