//! Rows as lists and as rows of a table, with zeros past their ends.
ghost use Rattle.std.specs.Prelude.{◌≡◌, ◌%◌, ◌<◌, ◌↔◌, IsTrue, slice_index};
ghost use Rattle.zeta_model.specs.Modular.{Same};
ghost use Rattle.linear_model.specs.Rows.{SameRow};
ghost use Rattle.linear_model.specs.Tables.{entry_of};

/// The number at a place of a list, and 0 past its end.
pub fn number_at(numbers: &[u64], place: usize) -> u64
    ensures { result ≡ slice_index numbers.now place }
{
    match numbers.get(place) {
        Some(number) => *number,
        None => 0,
    }
}

/// What row `i` of a table has at column `col`: the rows have `width` entries each, and 0 stands past the end of
/// the row or of the table.
pub fn entry(width: usize, table: &[u64], i: usize, col: usize) -> u64
    ensures { result ≡ entry_of width table.now i col }
{
    if col >= width {
        return 0;
    }
    let Some(start) = i.checked_mul(width) else {
        return 0;
    };
    let Some(place) = start.checked_add(col) else {
        return 0;
    };
    number_at(table, place)
}

/// Whether two numbers are equal modulo `m`, which is at least 1.
pub fn same(m: u64, a: u64, b: u64) -> bool
    requires { 0 < m }
    ensures { IsTrue result ↔ Same m a b }
{
    a % m == b % m
}

/// Whether two rows, with zeros past their ends, are equal at every column modulo `m`, which is at least 1.
pub fn same_row(m: u64, p: &[u64], q: &[u64]) -> bool
    requires { 0 < m }
    ensures { IsTrue result ↔ SameRow m (slice_index p.now) (slice_index q.now) }
{
    let end = if p.len() < q.len() { q.len() } else { p.len() };
    for col in 0..end {
        if !same(m, number_at(p, col), number_at(q, col)) {
            return false;
        }
    }
    true
}
