//! The normal form of a row, by one sweep over the rows of a table.
ghost use Rattle.std.specs.Prelude.{◌≡◌, ℕ, ◌+◌, ◌*◌, ◌%◌, ◌<◌, ◌↔◌, IsTrue, length, slice_index};
ghost use Rattle.zeta_model.specs.Modular.{Same};
ghost use Rattle.linear_model.specs.Rows.{SameRow, InSpan};
ghost use Rattle.linear_model.specs.Tables.{entry_of};
ghost use Rattle.linear_model.specs.Reduced.{IsNormalForm};
ghost use Rattle.linear_model.specs.Forward.{IsForward};

use crate::combine::add_product;
use crate::rows::{entry, number_at, same_row};

/// Adds `factor` times row `i` of a table to a row of as many entries, each taken modulo `m`.
fn add_row(m: u64, width: usize, table: &[u64], i: usize, factor: u64, row: &mut [u64])
    requires modulus { 0 < m }
    requires fits { length row.old ≡ width }
    ensures sum { SameRow m (slice_index row.new) (λ col. slice_index row.old col + factor * entry_of width table.now i col) }
    ensures fits { length row.new ≡ width }
{
    for col in 0..row.len() {
        row[col] = add_product(m, row[col], factor, entry(width, table, i, col));
    }
}

/// Makes a row its normal form by the rows of a table, which are a forward list with these leads.
///
/// Numbers are read modulo `m`, which is at least 1; the row has `width` entries, as the rows of the table have.
pub fn normal_form(m: u64, width: usize, leads: &[usize], table: &[u64], row: &mut [u64])
    requires modulus { 0 < m }
    requires fits { length row.old ≡ width }
    requires forward { IsForward m (length leads.now) (slice_index leads.now) (entry_of width table.now) }
    ensures normal_form { IsNormalForm m (length leads.now) (slice_index leads.now) (entry_of width table.now)
        (slice_index row.old) (slice_index row.new) }
    ensures fits { length row.new ≡ width }
{
    for k in 0..leads.len() {
        let opposite = add_product(m, 0, number_at(row, leads[k]), m - 1);
        add_row(m, width, table, k, opposite, row);
    }
}

/// Whether a row lies in the span of the rows of a table, which are a forward list with these leads.
///
/// The row is made its normal form, which is zero exactly then. Numbers are read as in `normal_form`.
pub fn is_in_span(m: u64, width: usize, leads: &[usize], table: &[u64], row: &mut [u64]) -> bool
    requires modulus { 0 < m }
    requires fits { length row.old ≡ width }
    requires forward { IsForward m (length leads.now) (slice_index leads.now) (entry_of width table.now) }
    ensures in_span { IsTrue result ↔ InSpan m (length leads.now) (entry_of width table.now) (slice_index row.old) }
    ensures normal_form { IsNormalForm m (length leads.now) (slice_index leads.now) (entry_of width table.now)
        (slice_index row.old) (slice_index row.new) }
{
    normal_form(m, width, leads, table, row);
    same_row(m, row, &[])
}
