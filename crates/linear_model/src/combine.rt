//! Combinations of the rows of a table, by their definition.
ghost use Rattle.std.specs.Prelude.{◌≡◌, ℕ, ◌+◌, ◌*◌, ◌%◌, ◌<◌, length, slice_index};
ghost use Rattle.linear_model.specs.Rows.{combination};
ghost use Rattle.linear_model.specs.Tables.{entry_of};

use crate::rows::entry;

/// The residue modulo `m`, which is at least 1, of a number plus a product.
pub fn add_product(m: u64, sum: u64, a: u64, b: u64) -> u64
    requires { 0 < m }
    ensures { result ≡ (sum + a * b) % m }
{
    let product = a as u128 * b as u128 % m as u128;
    ((sum as u128 + product) % m as u128) as u64
}

/// What the combination of the first rows of a table, one for each coefficient, has at column `col`: a residue modulo
/// `m`, which is at least 1. The rows of the table have `width` entries each.
pub fn combination(m: u64, width: usize, table: &[u64], coefficients: &[u64], col: usize) -> u64
    requires { 0 < m }
    ensures { result ≡ combination (length coefficients.now) (entry_of width table.now) (slice_index coefficients.now) col % m }
{
    let mut sum = 0;
    for (i, c) in coefficients.iter().enumerate() {
        sum = add_product(m, sum, *c, entry(width, table, i, col));
    }
    sum
}
