//! What reduced rows leave of the relations of a share.
ghost use Rattle.std.specs.Prelude.{◌≡◌, ℕ, ◌<◌, List, [], length, get_or, IsTrue, IfOk, MatchOption};
ghost use Rattle.sparse_rows.specs.Entries.{AllIn, IsRow, IsBelow};
ghost use Rattle.relation_list.specs.Names.{is_name_of};
ghost use Rattle.relation_list.specs.Listings.{listing_of};
ghost use Rattle.relation_list.specs.Values.{value_of};
ghost use Rattle.echelon.specs.Lists.{AreReduced, entries_of, lead_at, row_at};
ghost use Rattle.table_model.specs.Conversion.{IsTableSum};
ghost use Rattle.table_model.specs.ListedSpan.{count_of};
ghost use Rattle.table_model.specs.Complete.{IsPolynomial};
ghost use Rattle.word_forms.specs.Forms.{AreForms};
ghost use Rattle.share_model.specs.Dealing.{LeavesNothingOfShare};
ghost use Rattle.share_check.specs.Inner.{IsTold};

use crate::share_numbers::is_in_share;
use echelon::ReducedRows;
use kept_products::{KeptProducts, value_kept};
use lyndon_polys::LyndonTable;
use page_codec::RowData;
use page_rows::data_of_row;
use relation_list::RelName;
use residues::Ring;
use share_model::ShareId;
use sparse_rows::Row;
use std::alloc::{AllocError, Global};
use word_forms::WordForms;

/// The least relation of the share of which the rows leave something, with what they leave of it as pages hold it; `None` where they leave
/// nothing of any.
pub(crate) fn first_missing<R: Ring>(
    alloc: Global,
    table: &LyndonTable<R>,
    names: &[RelName],
    id: ShareId,
    list: &ReducedRows<R>,
) -> Result<Option<(u32, RowData)>, AllocError>
    requires some { 0 < id.of }
    requires listed { names.now ≡ listing_of table.now.columns.weight table.now.columns.depth }
    requires list_ring { list.now.ring ≡ table.now.ring }
    requires reduced { AreReduced (R.modulus table.now.ring) (R.value table.now.ring) list.now.rows }
    requires below { (i : ℕ) → i < length list.now.rows → IsBelow (λ k. k) (length table.now.columns.list) (get_or list.now.rows i []) }
    ensures { IfOk result (λ missing. MatchOption missing
        ((n : ℕ) → n < count_of table.now.columns → LeavesNothingOfShare (R.modulus table.now.ring) table.now.columns id.index id.of
        (length list.now.rows) (lead_at list.now.rows) (row_at (R.value table.now.ring) list.now.rows) n)
        (λ m. IsTold (R.modulus table.now.ring) table.now.columns id.index id.of (length list.now.rows) (lead_at list.now.rows)
        (row_at (R.value table.now.ring) list.now.rows) m.0 m.1)) }
{
    let columns = table.columns();
    let _few = columns.len();
    let forms = WordForms::new(alloc, table, list)?;
    let mut products = KeptProducts::new(alloc, *table.ring());
    for n in 0..names.len() {
        let number = n as u32;
        if !is_in_share(id, number) {
            continue;
        }
        let rest = rest_of(table, &forms, &mut products, &names[n])?;
        if !rest.entries().is_empty() {
            let pairs = data_of_row(alloc, table.ring(), &rest)?;
            return Ok(Some((number, pairs)));
        }
    }
    Ok(None)
}

/// What rows leave of the value of a name, by the forms of words.
fn rest_of<R: Ring>(
    table: &LyndonTable<R>,
    forms: &WordForms<R>,
    products: &mut KeptProducts<R>,
    name: &RelName,
) -> Result<Row<R>, AllocError>
    requires kept_ring { products.old.ring ≡ table.now.ring }
    requires forms_ring { forms.now.ring ≡ table.now.ring }
    requires columns { length forms.now.forms ≡ length table.now.columns.list }
    requires is_name { IsTrue (is_name_of name.now) }
    ensures keeps_ring { products.new.ring ≡ products.old.ring }
    ensures polynomial { IfOk result (λ rest. (rows : List (List (ℕ × R.Elem)))
        → AreForms (R.modulus table.now.ring) (R.has table.now.ring) (R.value table.now.ring) table.now.columns rows forms.now.forms
        → IsTableSum (R.modulus table.now.ring) table.now.columns (value_of (R.modulus table.now.ring) name.now)
        → IsPolynomial (R.modulus table.now.ring) table.now.columns (length rows) (lead_at rows) (row_at (R.value table.now.ring) rows)
        (value_of (R.modulus table.now.ring) name.now) (entries_of (R.value table.now.ring) rest)) }
    ensures row { IfOk result (IsRow (λ k. k) R.zero 0) }
    ensures below { IfOk result (IsBelow (λ k. k) (length table.now.columns.list)) }
    ensures in_ring { IfOk result (AllIn (R.has table.now.ring)) }
{
    let sum = value_kept(products, name)?;
    let rest = forms.row_of_sum(table.columns(), &sum)?;
    Ok(rest)
}
