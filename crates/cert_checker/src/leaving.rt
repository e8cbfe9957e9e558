//! What reduced rows leave of the listed relations.
ghost use Rattle.std.specs.Prelude.{◌≡◌, ℕ, ◌<◌, ◌≤◌, [], length, get_or, IsTrue, IfOk, MatchOption};
ghost use Rattle.sparse_rows.specs.Entries.{AllIn, IsRow, IsBelow};
ghost use Rattle.relation_list.specs.Names.{is_name_of, weight_of_name, depth_of_name};
ghost use Rattle.relation_list.specs.Listings.{listing_of};
ghost use Rattle.relation_list.specs.Values.{value_of};
ghost use Rattle.echelon.specs.Lists.{AreReduced, entries_of, lead_at, row_at};
ghost use Rattle.table_model.specs.ListedSpan.{count_of};
ghost use Rattle.table_model.specs.Complete.{IsPolynomial};
ghost use Rattle.table_model.specs.Faults.{LeavesNothing};
ghost use Rattle.cert_checker.specs.Inner.{IsMissing};

use echelon::ReducedRows;
use kept_products::{KeptProducts, value_kept};
use lyndon_polys::{LyndonTable, OutFault};
use relation_list::RelName;
use residues::Ring;
use sparse_rows::Row;
use std::alloc::{AllocError, Global};

/// The least relation of which the rows leave something, with what they leave of it; None where they leave nothing of any.
pub(crate) fn first_missing<R: Ring>(
    alloc: Global,
    table: &LyndonTable<R>,
    names: &[RelName],
    list: &ReducedRows<R>,
) -> Result<Option<(u32, Row<R>)>, AllocError>
    requires listed { names.now ≡ listing_of table.now.columns.weight table.now.columns.depth }
    requires list_ring { list.now.ring ≡ table.now.ring }
    requires below { (i : ℕ) → i < length list.now.rows → IsBelow (λ k. k) (length table.now.columns.list) (get_or list.now.rows i []) }
    ensures { IfOk result (λ missing. MatchOption missing
        ((n : ℕ) → n < count_of table.now.columns → LeavesNothing (R.modulus table.now.ring) table.now.columns (length list.now.rows) (lead_at list.now.rows)
        (row_at (R.value table.now.ring) list.now.rows) n)
        (λ m. IsMissing (R.modulus table.now.ring) (R.has table.now.ring) (R.value table.now.ring) table.now.columns R.zero list.now.rows m.0 m.1)) }
{
    let columns = table.columns();
    let _few = columns.len();
    let mut products = KeptProducts::new(alloc, *table.ring());
    for n in 0..names.len() {
        let rest = rest_of(table, &mut products, list, &names[n])?;
        if rest.entries().len() > 0 {
            return Ok(Some((n as u32, rest)));
        }
    }
    Ok(None)
}

/// What the rows leave of the value of a name of the table.
fn rest_of<R: Ring>(
    table: &LyndonTable<R>,
    products: &mut KeptProducts<R>,
    list: &ReducedRows<R>,
    name: &RelName,
) -> Result<Row<R>, AllocError>
    requires kept_ring { products.old.ring ≡ table.now.ring }
    requires list_ring { list.now.ring ≡ table.now.ring }
    requires is_name { IsTrue (is_name_of name.now) }
    requires weight { weight_of_name name.now ≡ table.now.columns.weight }
    requires depth { depth_of_name name.now ≤ table.now.columns.depth }
    ensures keeps_ring { products.new.ring ≡ products.old.ring }
    ensures polynomial { IfOk result (λ rest. IsPolynomial (R.modulus table.now.ring) table.now.columns (length list.now.rows) (lead_at list.now.rows)
        (row_at (R.value table.now.ring) list.now.rows) (value_of (R.modulus table.now.ring) name.now) (entries_of (R.value table.now.ring) rest)) }
    ensures in_ring { IfOk result (AllIn (R.has table.now.ring)) }
    ensures row { IfOk result (IsRow (λ k. k) R.zero 0) }
    ensures reduced { IfOk result (λ rest. AreReduced (R.modulus table.now.ring) (R.value table.now.ring) list.now.rows) }
{
    let sum = value_kept(products, name)?;
    match table.to_columns(&sum) {
        Ok(row) => {
            let rest = list.nf(table.ring(), &row)?;
            let _entries = rest.entries();
            Ok(rest)
        }
        Err(OutFault::OutOfTable(_)) => unreachable!(),
        Err(OutFault::Memory(fault)) => Err(fault),
    }
}
