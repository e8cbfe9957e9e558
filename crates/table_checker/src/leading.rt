//! Where the product of a lead of one table and a monomial leads in a table of higher weight.
ghost use Rattle.std.specs.Prelude.{◌≡◌, ◌≢◌, ℕ, ◌<◌, Some, length, slice_get, MatchOption};
ghost use Rattle.lyndon_words.specs.Monomials.{product_of};
ghost use Rattle.column_order.specs.Columns.{IsColumn};
ghost use Rattle.echelon.specs.Lists.{lead_at};
ghost use Rattle.table_model.specs.Conversion.{IsTable};
ghost use Rattle.leading_products.specs.Cofactors.{IsLower, IsCofactor};
ghost use Rattle.table_checker.specs.CheckedTables.{AreCompleteRows, leading_monomial};

use crate::table_check::Checked;
use column_order::Columns;
use echelon::ReducedRows;
use leading_products::leading_products;
use lyndon_words::Monomial;
use residues::Ring;

/// The place of the row of the higher table that leads with the product of `q` and the lead of row `i` of the lower one, from 0.
///
/// Both tables are complete, with one modulus, one order and one list of preferred words. The lower weight is at least 3, and at least 2 below
/// the higher one; `q` has the weight and at most the depth that are left. There is always such a row, and only one. It takes no memory.
pub fn product_lead<R: Ring>(low: &Checked<R>, high: &Checked<R>, i: u32, q: &Monomial) -> u32
    requires modulus { R.modulus low.now.table.ring ≡ R.modulus high.now.table.ring }
    requires lower { IsLower low.now.table.columns high.now.table.columns }
    requires cofactor { IsCofactor low.now.table.columns high.now.table.columns q.now }
    requires low_complete { AreCompleteRows (R.modulus low.now.table.ring) (R.value low.now.table.ring) low.now.table.columns low.now.rows.rows }
    requires high_complete { AreCompleteRows (R.modulus high.now.table.ring) (R.value high.now.table.ring) high.now.table.columns high.now.rows.rows }
    requires row { i < length low.now.rows.rows }
    ensures row { result < length high.now.rows.rows }
    ensures lead { leading_monomial high.now.table.columns high.now.rows.rows result
        ≡ product_of (leading_monomial low.now.table.columns low.now.rows.rows i) q.now }
    ensures only { (j : ℕ) → j < length high.now.rows.rows
        → leading_monomial high.now.table.columns high.now.rows.rows j
        ≡ product_of (leading_monomial low.now.table.columns low.now.rows.rows i) q.now → j ≡ result }
{
    leading_products();
    let columns = low.table.columns();
    let p = columns.at(lead_column(&low.rows, i));
    let col = product_column(columns, high.table.columns(), p, q);
    match row_leading_at(&high.rows, col) {
        Some(j) => j,
        None => unreachable!(),
    }
}

/// The column at which row `i` leads.
fn lead_column<R: Ring>(rows: &ReducedRows<R>, i: u32) -> u32
    requires { i < length rows.now.rows }
    ensures { result ≡ lead_at rows.now.rows i }
{
    match rows.row(i).lead() {
        Some((col, _)) => u32::from(col),
        None => unreachable!(),
    }
}

/// The place of the product of a lower column and a monomial among the higher columns.
fn product_column(low: &Columns, high: &Columns, p: &Monomial, q: &Monomial) -> u32
    requires tables { (m : ℕ) × IsTable m low.now × IsTable m high.now }
    requires lower { IsLower low.now high.now }
    requires column { IsColumn low.now.weight low.now.depth p.now }
    requires cofactor { IsCofactor low.now high.now q.now }
    ensures { slice_get high.now.list result ≡ Some (product_of p.now q.now) }
{
    match p.times(q) {
        Ok(product) => match high.place(&product) {
            Some(col) => col,
            None => unreachable!(),
        },
        Err(_) => unreachable!(),
    }
}

/// The first row that leads at the column, None where no row does.
fn row_leading_at<R: Ring>(rows: &ReducedRows<R>, col: u32) -> Option<u32>
    ensures { MatchOption result ((j : ℕ) → j < length rows.now.rows → lead_at rows.now.rows j ≢ col)
        (λ j. (j < length rows.now.rows) × (lead_at rows.now.rows j ≡ col)) }
{
    for j in 0..rows.len() {
        if lead_column(rows, j) == col {
            return Some(j);
        }
    }
    None
}
