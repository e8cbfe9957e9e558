//! The rows of the listed relations, by their values one after the other.
ghost use Rattle.std.specs.Prelude.{◌≡◌, ℕ, ◌+◌, ◌<◌, ◌≤◌, IsTrue, IfOk, OnOk, IsErrOf, Some, length, slice_get};
ghost use Rattle.relation_list.specs.Names.{is_name_of, weight_of_name, depth_of_name};
ghost use Rattle.relation_list.specs.Listings.{listing_of};
ghost use Rattle.relation_list.specs.Values.{value_of};
ghost use Rattle.echelon.specs.Lists.{lead_at, row_at};
ghost use Rattle.echelon.specs.States.{IsRowList};
ghost use Rattle.table_model.specs.ListedSpan.{values_of, count_of};
ghost use Rattle.table_model.specs.ReducedRows.{IsReducedRows, IsUnbroken, BreaksFirst};
ghost use Rattle.word_forms.specs.Forms.{AreForms};
ghost use Rattle.known_sums.specs.Known.{IsCurrent};
ghost use Rattle.table_rows.specs.Inner.{HasTaken, IsValue};

use crate::fault::RowsFault;
use crate::offers::{Offers, forms_of_all, take_sum};
use kept_products::{KeptProducts, value_kept};
use known_sums::TableForms;
use lyndon_polys::LyndonTable;
use relation_list::{RelName, listing};
use residues::Ring;
use std::alloc::{AllocError, Global};
use word_sums::WordSum;

/// The reduced rows of all listed relations of the table's weight and depth, over its columns and its ring, and the normal form by
/// these of the word of each column.
///
/// `NoInverse { value, n }` exactly where the work is broken, and first at relation `n`: what the earlier relations leave of it leads
/// with the residue `value`, which has no inverse. `Memory` where memory is wanting for the rows or the forms.
pub fn reduced_rows<R: Ring>(
    alloc: Global,
    table: &LyndonTable<R>,
) -> Result<TableForms<R>, RowsFault>
    ensures ok { IfOk result (λ made. IsReducedRows (R.modulus table.now.ring) table.now.columns (values_of (R.modulus table.now.ring) table.now.columns)
        (count_of table.now.columns) (length made.rows.rows) (lead_at made.rows.rows) (row_at (R.value table.now.ring) made.rows.rows)) }
    ensures width { IfOk result (λ made. IsRowList (R.modulus table.now.ring) (R.has table.now.ring) (R.value table.now.ring) R.zero
        (length table.now.columns.list) made.rows.rows) }
    ensures ring { IfOk result (λ made. (made.rows.ring ≡ table.now.ring) × (made.forms.ring ≡ table.now.ring)) }
    ensures forms { IfOk result (λ made. AreForms (R.modulus table.now.ring) (R.has table.now.ring) (R.value table.now.ring) table.now.columns
        made.rows.rows made.forms.forms) }
    ensures no_inverse { (lead n : ℕ) → IsErrOf result (RowsFault.NoInverse lead n)
        → (n < count_of table.now.columns) × BreaksFirst (R.modulus table.now.ring) table.now.columns (values_of (R.modulus table.now.ring) table.now.columns) n lead }
    ensures fits { OnOk result (IsUnbroken (R.modulus table.now.ring) table.now.columns (values_of (R.modulus table.now.ring) table.now.columns) (count_of table.now.columns)) }
{
    let columns = table.columns();
    let names = match listing(alloc, columns.weight(), columns.depth()) {
        Ok(names) => names,
        Err(fault) => return Err(RowsFault::Memory(fault)),
    };
    let mut kept = KeptProducts::new(alloc, *table.ring());
    let mut offers = Offers::new(alloc, *table.ring(), columns.len());
    for (n, name) in names.iter().enumerate() {
        if let Err(fault) = take_value(&mut offers, table, &mut kept, n as u32, name) {
            return Err(fault);
        }
    }
    match forms_of_all(offers, table) {
        Ok(made) => Ok(made),
        Err(fault) => Err(RowsFault::Memory(fault)),
    }
}

/// Takes in the value of relation `n`, whose name it is. Its products are kept for later values.
fn take_value<R: Ring>(
    offers: &mut Offers<R>,
    table: &LyndonTable<R>,
    kept: &mut KeptProducts<R>,
    n: u32,
    name: &RelName,
) -> Result<(), RowsFault>
    requires kept_ring { kept.old.ring ≡ table.now.ring }
    requires so_far { HasTaken (R.modulus table.now.ring) (R.has table.now.ring) (R.value table.now.ring) table.now n offers.old.echelon offers.old.known }
    requires current { IsCurrent (R.modulus table.now.ring) (R.has table.now.ring) (R.value table.now.ring) table.now R.zero offers.old.echelon.rows
        offers.old.known }
    requires named { slice_get (listing_of table.now.columns.weight table.now.columns.depth) n ≡ Some name.now }
    ensures keeps_ring { kept.new.ring ≡ kept.old.ring }
    ensures ok { OnOk result (HasTaken (R.modulus table.now.ring) (R.has table.now.ring) (R.value table.now.ring) table.now (n + 1) offers.new.echelon
        offers.new.known) }
    ensures current { OnOk result (IsCurrent (R.modulus table.now.ring) (R.has table.now.ring) (R.value table.now.ring) table.now R.zero offers.new.echelon.rows
        offers.new.known) }
    ensures no_inverse { (lead k : ℕ) → IsErrOf result (RowsFault.NoInverse lead k)
        → (k ≡ n) × BreaksFirst (R.modulus table.now.ring) table.now.columns (values_of (R.modulus table.now.ring) table.now.columns) n lead }
{
    match value_sum(table, kept, name) {
        Ok(sum) => take_sum(offers, table, n, &sum),
        Err(fault) => Err(RowsFault::Memory(fault)),
    }
}

/// The value of a name of the table's weight and depth.
fn value_sum<R: Ring>(
    table: &LyndonTable<R>,
    kept: &mut KeptProducts<R>,
    name: &RelName,
) -> Result<WordSum<R>, AllocError>
    requires kept_ring { kept.old.ring ≡ table.now.ring }
    requires is_name { IsTrue (is_name_of name.now) }
    requires weight { weight_of_name name.now ≡ table.now.columns.weight }
    requires depth { depth_of_name name.now ≤ table.now.columns.depth }
    ensures keeps_ring { kept.new.ring ≡ kept.old.ring }
    ensures value { IfOk result (IsValue (R.modulus table.now.ring) (R.has table.now.ring) (R.value table.now.ring) table.now.columns
        (value_of (R.modulus table.now.ring) name.now)) }
{
    let sum = value_kept(kept, name)?;
    Ok(sum)
}
