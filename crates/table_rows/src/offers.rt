//! Sums that are offered one after the other, but for those that are known to add nothing.
ghost use Rattle.std.specs.Prelude.{◌≡◌, ℕ, ◌+◌, ◌<◌, ◌≤◌, IfOk, OnOk, IsErrOf, [], false, length, All};
ghost use Rattle.std.specs.Map.{keys_of};
ghost use Rattle.word_sums.specs.Terms.{coefficient_of, AllIn as AllTermsIn};
ghost use Rattle.sparse_rows.specs.Entries.{AllIn, IsBelow};
ghost use Rattle.lyndon_polys.specs.Tables.{entries_of};
ghost use Rattle.linear_model.specs.Rows.{SpanWithin};
ghost use Rattle.echelon.specs.Lists.{row_at};
ghost use Rattle.table_model.specs.Conversion.{IsTableWord, IsCols};
ghost use Rattle.table_model.specs.ListedSpan.{values_of};
ghost use Rattle.table_model.specs.ReducedRows.{BreaksFirst};
ghost use Rattle.known_sums.specs.Known.{IsNothing, IsCurrent, AreFresh};
ghost use Rattle.table_rows.specs.Inner.{HasOffered, HasTaken, IsValue};

use crate::fault::RowsFault;
use echelon::{OfferFault, RowEchelon, Traced};
use known_sums::{KnownSums, TableForms};
use lyndon_polys::{LyndonTable, OutFault};
use residues::Ring;
use sparse_rows::Row;
use std::alloc::{AllocError, Global};
use word_sums::WordSum;

/// Forward rows of the sums that were taken in, and what is known to add nothing to them.
#[derive(Drop)]
pub(crate) struct Offers<R: Ring> {
    pub(crate) echelon: RowEchelon<R>,
    pub(crate) known: KnownSums<R>,
}

impl<R: Ring> Offers<R> {
    /// No rows yet.
    pub(crate) fn new(alloc: Global, ring: R, columns: u32) -> Offers<R>
        requires { columns ≤ 2048 }
        ensures echelon { result.echelon ≡ record { ring = ring; columns = columns; above = 0; numbers = []; rows = [] } }
        ensures known { IsNothing result.known }
    {
        Offers {
            echelon: RowEchelon::new(alloc, ring, columns),
            known: KnownSums::new(alloc),
        }
    }
}

/// Takes in the value of relation `n`: offers its row, where it is not known to add nothing.
pub(crate) fn take_sum<R: Ring>(
    offers: &mut Offers<R>,
    table: &LyndonTable<R>,
    n: u32,
    sum: &WordSum<R>,
) -> Result<(), RowsFault>
    requires so_far { HasTaken (R.modulus table.now.ring) (R.has table.now.ring) (R.value table.now.ring) table.now n offers.old.echelon offers.old.known }
    requires current { IsCurrent (R.modulus table.now.ring) (R.has table.now.ring) (R.value table.now.ring) table.now R.zero offers.old.echelon.rows
        offers.old.known }
    requires value { IsValue (R.modulus table.now.ring) (R.has table.now.ring) (R.value table.now.ring) table.now.columns
        (values_of (R.modulus table.now.ring) table.now.columns n) sum.now }
    ensures ok { OnOk result (HasTaken (R.modulus table.now.ring) (R.has table.now.ring) (R.value table.now.ring) table.now (n + 1) offers.new.echelon
        offers.new.known) }
    ensures current { OnOk result (IsCurrent (R.modulus table.now.ring) (R.has table.now.ring) (R.value table.now.ring) table.now R.zero offers.new.echelon.rows
        offers.new.known) }
    ensures no_inverse { (lead k : ℕ) → IsErrOf result (RowsFault.NoInverse lead k)
        → (k ≡ n) × BreaksFirst (R.modulus table.now.ring) table.now.columns (values_of (R.modulus table.now.ring) table.now.columns) n lead }
{
    match offers.known.passes(table, sum) {
        Ok(true) => return Ok(()),
        Ok(false) => {}
        Err(fault) => return Err(RowsFault::Memory(fault)),
    }
    let is_new = match offer_sum(&mut offers.echelon, table, n, sum) {
        Ok(is_new) => is_new,
        Err(fault) => return Err(fault),
    };
    match offers.known.note(table, &offers.echelon, is_new) {
        Ok(()) => Ok(()),
        Err(fault) => Err(RowsFault::Memory(fault)),
    }
}

/// Offers the row of the value of relation `n`, and answers whether it was new.
fn offer_sum<R: Ring>(
    echelon: &mut RowEchelon<R>,
    table: &LyndonTable<R>,
    n: u32,
    sum: &WordSum<R>,
) -> Result<bool, RowsFault>
    requires so_far { HasOffered (R.modulus table.now.ring) (R.value table.now.ring) table.now n echelon.old }
    requires value { IsValue (R.modulus table.now.ring) (R.has table.now.ring) (R.value table.now.ring) table.now.columns
        (values_of (R.modulus table.now.ring) table.now.columns n) sum.now }
    ensures ok { OnOk result (HasOffered (R.modulus table.now.ring) (R.value table.now.ring) table.now (n + 1) echelon.new) }
    ensures within { OnOk result (SpanWithin (R.modulus table.now.ring) (length echelon.old.rows) (row_at (R.value table.now.ring) echelon.old.rows)
        (length echelon.new.rows) (row_at (R.value table.now.ring) echelon.new.rows)) }
    ensures same { IfOk result (λ is_new. is_new ≡ false → echelon.new.rows ≡ echelon.old.rows) }
    ensures no_inverse { (lead k : ℕ) → IsErrOf result (RowsFault.NoInverse lead k)
        → (k ≡ n) × BreaksFirst (R.modulus table.now.ring) table.now.columns (values_of (R.modulus table.now.ring) table.now.columns) n lead }
{
    let row = match row_of_value(table, sum) {
        Ok(row) => row,
        Err(fault) => return Err(RowsFault::Memory(fault)),
    };
    match echelon.offer(n, &row) {
        Ok(traced) => Ok(is_accepted(&traced)),
        Err(OfferFault::NoInverse { value, n }) => Err(RowsFault::NoInverse { value, n }),
        Err(OfferFault::Memory(fault)) => Err(RowsFault::Memory(fault)),
    }
}

/// The row of a sum of words of the table.
fn row_of_value<R: Ring>(table: &LyndonTable<R>, sum: &WordSum<R>) -> Result<Row<R>, AllocError>
    requires in_ring { AllTermsIn (R.has table.now.ring) sum.now }
    requires words { All (IsTableWord table.now.columns.weight table.now.columns.depth) (keys_of sum.now) }
    ensures cols { IfOk result (λ row. IsCols (R.modulus table.now.ring) table.now.columns (coefficient_of (R.value table.now.ring) sum.now)
        (entries_of (R.value table.now.ring) row)) }
    ensures below { IfOk result (IsBelow (λ k. k) (length table.now.columns.list)) }
    ensures in_ring { IfOk result (AllIn (R.has table.now.ring)) }
{
    match table.to_columns(sum) {
        Ok(row) => Ok(row),
        Err(OutFault::OutOfTable(_)) => unreachable!(),
        Err(OutFault::Memory(fault)) => Err(fault),
    }
}

/// Whether an offered row was kept.
fn is_accepted<R: Ring>(traced: &Traced<R>) -> bool
    ensures { result ≡ false → traced.now ≡ Traced.Zero }
{
    match traced {
        Traced::Zero => false,
        Traced::Accepted { .. } => true,
    }
}

/// The reduced list of all rows that were kept, and the forms by it.
pub(crate) fn forms_of_all<R: Ring>(
    offers: Offers<R>,
    table: &LyndonTable<R>,
) -> Result<TableForms<R>, AllocError>
    requires ring { offers.echelon.ring ≡ table.now.ring }
    requires columns { offers.echelon.columns ≡ length table.now.columns.list }
    requires current { IsCurrent (R.modulus table.now.ring) (R.has table.now.ring) (R.value table.now.ring) table.now R.zero offers.echelon.rows
        offers.known }
    ensures { IfOk result (λ made. AreFresh (R.modulus table.now.ring) (R.has table.now.ring) (R.value table.now.ring) table.now R.zero offers.echelon.rows
        made.rows made.forms) }
{
    let Offers { echelon, known } = offers;
    known.into_forms(table, &echelon)
}
