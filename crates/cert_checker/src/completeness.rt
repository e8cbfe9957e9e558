//! Rows with their combinations over a table, and whether they are complete.
ghost use Rattle.std.specs.Prelude.{◌≡◌, ℕ, ◌<◌, ◌^◌, [], List, length, get_or, All, IsTrue, IfOk, OnOk, IsErrOf, MatchOption};
ghost use Rattle.sparse_rows.specs.Entries.{IsBelow};
ghost use Rattle.relation_list.specs.Names.{is_name_of};
ghost use Rattle.relation_list.specs.Listings.{listing_of};
ghost use Rattle.echelon.specs.Lists.{lead_at, row_at};
ghost use Rattle.page_rows.specs.Written.{AreResidues};
ghost use Rattle.table_model.specs.ListedSpan.{count_of};
ghost use Rattle.table_model.specs.Complete.{Evaluates};
ghost use Rattle.table_model.specs.Faults.{IsFirstWithout, AllEvaluate, LeavesNothing, Whole, BadRow, NotReduced, Missing};
ghost use Rattle.cert_checker.specs.Certified.{residues_at};
ghost use Rattle.cert_checker.specs.Verdicts.{AreWithin, IsVerdictOf};
ghost use Rattle.cert_checker.specs.Inner.{IsTold};

use crate::fault::CompletenessFault;
use crate::leaving::first_missing;
use crate::rows_check::first_bad_row;
use echelon::{ReducedFault, ReducedRows};
use lyndon_polys::LyndonTable;
use page_codec::RowData;
use page_rows::data_of_row;
use relation_list::{RelName, listing};
use residues::Ring;
use sparse_rows::{Combination, Row};
use std::alloc::{AllocError, Global};

/// The rows as a reduced list, where they are complete over the table: each is what its combination of listed relations gives,
/// they are reduced, and they leave nothing of any listed relation.
///
/// `BadRow(i)` for the least row that is not what its combination gives; else `NotReduced(i)` for the least row that does not fit a
/// reduced list; else `Missing { n, rest }` for the least relation of which the rows leave something, and what they leave: columns that
/// increase, with residues from 1 to below the modulus. `Memory` where memory is wanting.
pub fn check_rows<R: Ring>(
    alloc: Global,
    table: &LyndonTable<R>,
    rows: Vec<Row<R>>,
    combinations: &[Combination<R>],
) -> Result<ReducedRows<R>, CompletenessFault>
    requires few { length rows.items < 2 ^ 32 }
    requires as_many { length combinations.now ≡ length rows.items }
    requires rows { AreWithin R.zero (R.has table.now.ring) (length table.now.columns.list) rows.items }
    requires combinations { AreWithin R.zero (R.has table.now.ring) (count_of table.now.columns) combinations.now }
    ensures ring { IfOk result (λ list. list.ring ≡ table.now.ring) }
    ensures rows { IfOk result (λ list. list.rows ≡ rows.items) }
    ensures complete { OnOk result (IsVerdictOf (R.modulus table.now.ring) (R.value table.now.ring) table.now.columns rows.items combinations.now Whole) }
    ensures bad_row { (i : ℕ) → IsErrOf result (CompletenessFault.BadRow i)
        → IsVerdictOf (R.modulus table.now.ring) (R.value table.now.ring) table.now.columns rows.items combinations.now (BadRow i) }
    ensures not_reduced { (i : ℕ) → IsErrOf result (CompletenessFault.NotReduced i)
        → IsVerdictOf (R.modulus table.now.ring) (R.value table.now.ring) table.now.columns rows.items combinations.now (NotReduced i) }
    ensures missing { (n : ℕ) (rest : List (ℕ × ℕ)) → IsErrOf result (CompletenessFault.Missing n rest)
        → IsVerdictOf (R.modulus table.now.ring) (R.value table.now.ring) table.now.columns rows.items combinations.now (Missing n (residues_at rest)) }
    ensures rest_residues { (n : ℕ) (rest : List (ℕ × ℕ)) → IsErrOf result (CompletenessFault.Missing n rest)
        → AreResidues (λ k. k) (R.modulus table.now.ring) rest }
    ensures rest_columns { (n : ℕ) (rest : List (ℕ × ℕ)) → IsErrOf result (CompletenessFault.Missing n rest)
        → IsBelow (λ k. k) (length table.now.columns.list) rest }
{
    let _columns = table.columns();
    let names = match listed(alloc, table) {
        Ok(names) => names,
        Err(fault) => return Err(CompletenessFault::Memory(fault)),
    };
    match bad_row(alloc, table, &names, &rows, combinations) {
        Ok(None) => {}
        Ok(Some(i)) => return Err(CompletenessFault::BadRow(i)),
        Err(fault) => return Err(CompletenessFault::Memory(fault)),
    }
    let list = match ReducedRows::new(table.ring(), rows) {
        Ok(list) => list,
        Err(ReducedFault::NotReduced(i)) => return Err(CompletenessFault::NotReduced(i)),
        Err(ReducedFault::Memory(fault)) => return Err(CompletenessFault::Memory(fault)),
    };
    match told_missing(alloc, table, &names, &list) {
        Ok(None) => Ok(list),
        Ok(Some((n, rest))) => Err(CompletenessFault::Missing { n, rest }),
        Err(fault) => Err(CompletenessFault::Memory(fault)),
    }
}

/// The names of the listed relations of the table.
fn listed<R: Ring>(alloc: Global, table: &LyndonTable<R>) -> Result<Vec<RelName>, AllocError>
    ensures { IfOk result (λ names. names.items ≡ listing_of table.now.columns.weight table.now.columns.depth) }
{
    let columns = table.columns();
    listing(alloc, columns.weight(), columns.depth())
}

/// The least row that is not what its combination of listed relations gives, `None` where each is.
///
/// `names` are those of the table's listing, and the combinations have their numbers. Memory may be wanting.
pub fn bad_row<R: Ring>(
    alloc: Global,
    table: &LyndonTable<R>,
    names: &[RelName],
    rows: &[Row<R>],
    combinations: &[Combination<R>],
) -> Result<Option<u32>, AllocError>
    requires few { length rows.now < 2 ^ 32 }
    requires as_many { length combinations.now ≡ length rows.now }
    requires listed { names.now ≡ listing_of table.now.columns.weight table.now.columns.depth }
    requires rows { AreWithin R.zero (R.has table.now.ring) (length table.now.columns.list) rows.now }
    requires combinations { AreWithin R.zero (R.has table.now.ring) (count_of table.now.columns) combinations.now }
    ensures { IfOk result (λ bad. MatchOption bad
        (AllEvaluate (R.modulus table.now.ring) table.now.columns (length rows.now) (row_at (R.value table.now.ring) rows.now)
        (row_at (R.value table.now.ring) combinations.now))
        (λ i. IsFirstWithout (λ k. Evaluates (R.modulus table.now.ring) table.now.columns (row_at (R.value table.now.ring) rows.now k)
        (row_at (R.value table.now.ring) combinations.now k)) (length rows.now) i)) }
{
    first_bad_row(
        alloc,
        table.ring(),
        table.columns(),
        names,
        rows,
        combinations,
    )
}

/// The least relation of which the rows leave something, with what they leave of it as pages hold it.
fn told_missing<R: Ring>(
    alloc: Global,
    table: &LyndonTable<R>,
    names: &[RelName],
    list: &ReducedRows<R>,
) -> Result<Option<(u32, RowData)>, AllocError>
    requires listed { names.now ≡ listing_of table.now.columns.weight table.now.columns.depth }
    requires list_ring { list.now.ring ≡ table.now.ring }
    requires below { (i : ℕ) → i < length list.now.rows → IsBelow (λ k. k) (length table.now.columns.list) (get_or list.now.rows i []) }
    ensures { IfOk result (λ missing. MatchOption missing
        ((n : ℕ) → n < count_of table.now.columns → LeavesNothing (R.modulus table.now.ring) table.now.columns (length list.now.rows) (lead_at list.now.rows)
        (row_at (R.value table.now.ring) list.now.rows) n)
        (λ m. IsTold (R.modulus table.now.ring) table.now.columns (length list.now.rows) (lead_at list.now.rows)
        (row_at (R.value table.now.ring) list.now.rows) m.0 m.1)) }
{
    match first_missing(alloc, table, names, list)? {
        Some((n, rest)) => {
            let pairs = data_of_row(alloc, table.ring(), &rest)?;
            Ok(Some((n, pairs)))
        }
        None => Ok(None),
    }
}
