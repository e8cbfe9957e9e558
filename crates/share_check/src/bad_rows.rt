//! Rows of a share that are not what a combination of its relations gives.
ghost use Rattle.std.specs.Prelude.{◌≡◌, ℕ, ◌<◌, ◌^◌, length, IfOk, MatchOption};
ghost use Rattle.relation_list.specs.Listings.{listing_of};
ghost use Rattle.echelon.specs.Lists.{row_at};
ghost use Rattle.table_model.specs.ListedSpan.{count_of};
ghost use Rattle.table_model.specs.Faults.{IsFirstWithout};
ghost use Rattle.cert_checker.specs.Verdicts.{AreWithin};
ghost use Rattle.share_model.specs.Dealing.{AllOfShare, IsRowOfShare};
ghost use Rattle.share_check.specs.Inner.{lesser};

use crate::share_numbers::first_foreign;
use cert_checker::bad_row;
use lyndon_polys::LyndonTable;
use relation_list::RelName;
use residues::Ring;
use share_model::ShareId;
use sparse_rows::{Combination, Row};
use std::alloc::{AllocError, Global};

/// The least row that is not what its combination gives, or whose combination has a number of another share; `None` where there is none.
pub(crate) fn first_bad_row<R: Ring>(
    alloc: Global,
    table: &LyndonTable<R>,
    names: &[RelName],
    id: ShareId,
    rows: &[Row<R>],
    combinations: &[Combination<R>],
) -> Result<Option<u32>, AllocError>
    requires some { 0 < id.of }
    requires few { length rows.now < 2 ^ 32 }
    requires as_many { length combinations.now ≡ length rows.now }
    requires listed { names.now ≡ listing_of table.now.columns.weight table.now.columns.depth }
    requires rows { AreWithin R.zero (R.has table.now.ring) (length table.now.columns.list) rows.now }
    requires combinations { AreWithin R.zero (R.has table.now.ring) (count_of table.now.columns) combinations.now }
    ensures { IfOk result (λ bad. MatchOption bad
        (AllOfShare (R.modulus table.now.ring) table.now.columns id.index id.of (length rows.now) (row_at (R.value table.now.ring) rows.now)
        (row_at (R.value table.now.ring) combinations.now))
        (λ i. IsFirstWithout (λ k. IsRowOfShare (R.modulus table.now.ring) table.now.columns id.index id.of (row_at (R.value table.now.ring) rows.now k)
        (row_at (R.value table.now.ring) combinations.now k)) (length rows.now) i)) }
{
    let foreign = first_foreign(id, combinations);
    let wrong = bad_row(alloc, table, names, rows, combinations)?;
    Ok(lesser(foreign, wrong))
}

/// The lesser of two places, where both are there.
fn lesser(a: Option<u32>, b: Option<u32>) -> Option<u32>
    ensures { result ≡ lesser a b }
{
    match (a, b) {
        (Some(i), Some(j)) => Some(if i < j { i } else { j }),
        (Some(i), None) => Some(i),
        (None, b) => b,
    }
}
