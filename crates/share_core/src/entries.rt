//! Which entries may stand in a share.
ghost use Rattle.std.specs.Prelude.{◌≡◌, ◌↔◌, ℕ, IsTrue};
ghost use Rattle.std.specs.List.{AllByRecursion};
ghost use Rattle.column_order.specs.Columns.{column_count};
ghost use Rattle.page_codec.specs.Bounds.{IsPair, ArePairs, IsRowData, IsCombData, IsFinalEntry};
ghost use Rattle.page_codec.specs.Places.{AreBelow, FinalInTable};

use page_codec::{FinalEntry, Params};

/// Whether the key is from `low` on and below `high`, and the residue from 1 to 2^63 - 2.
fn is_pair(low: u64, high: u64, key: u64, residue: u64) -> bool
    ensures { IsTrue result ↔ IsPair low high (key, residue) }
{
    low <= key && key < high && 0 < residue && residue < (1 << 63) - 1
}

fn are_column_pairs(pairs: &[(u16, u64)]) -> bool
    ensures { IsTrue result ↔ ArePairs 2048 pairs.now }
{
    let mut low: u64 = 0;
    for pair in pairs {
        if !is_pair(low, 2048, pair.0 as u64, pair.1) {
            return false;
        }
        low = pair.0 as u64 + 1;
    }
    true
}

fn are_number_pairs(pairs: &[(u32, u64)]) -> bool
    ensures { IsTrue result ↔ ArePairs 4294967296 pairs.now }
{
    let mut low: u64 = 0;
    for pair in pairs {
        if !is_pair(low, 1 << 32, pair.0 as u64, pair.1) {
            return false;
        }
        low = pair.0 as u64 + 1;
    }
    true
}

/// Whether it can stand on a page as a row: 1 to 2,048 columns that increase, with residues, the first of them 1.
fn is_row(pairs: &[(u16, u64)]) -> bool
    ensures { IsTrue result ↔ IsRowData pairs.now }
{
    let Some(first) = pairs.first() else {
        return false;
    };
    first.1 == 1 && pairs.len() <= 2048 && are_column_pairs(pairs)
}

fn is_combination(pairs: &[(u32, u64)]) -> bool
    ensures { IsTrue result ↔ IsCombData pairs.now }
{
    1 <= pairs.len() && pairs.len() <= 2048 && are_number_pairs(pairs)
}

fn is_final_entry(entry: &FinalEntry) -> bool
    ensures { IsTrue result ↔ IsFinalEntry entry.now }
{
    is_row(entry.row.as_slice()) && is_combination(entry.combination.as_slice())
}

/// Whether each entry can stand on a Final page.
pub(crate) fn are_final(entries: &[FinalEntry]) -> bool
    ensures { IsTrue result ↔ AllByRecursion IsFinalEntry entries.now }
{
    for entry in entries {
        if !is_final_entry(entry) {
            return false;
        }
    }
    true
}

fn are_columns_below(high: u64, m: u64, pairs: &[(u16, u64)]) -> bool
    ensures { IsTrue result ↔ AreBelow high m pairs.now }
{
    pairs.iter().all(|e| (e.0 as u64) < high && e.1 < m)
}

fn are_numbers_below(high: u64, m: u64, pairs: &[(u32, u64)]) -> bool
    ensures { IsTrue result ↔ AreBelow high m pairs.now }
{
    pairs.iter().all(|e| (e.0 as u64) < high && e.1 < m)
}

fn is_in_table(p: &Params, relations: u64, columns: u64, entry: &FinalEntry) -> bool
    requires { columns ≡ column_count p.now.weight p.now.depth }
    ensures { IsTrue result ↔ FinalInTable p.now relations entry.now }
{
    are_columns_below(columns, p.modulus, entry.row.as_slice())
        && are_numbers_below(relations, p.modulus, entry.combination.as_slice())
}

/// Whether each entry has columns, numbers and residues of the table.
pub(crate) fn are_in_table(p: &Params, relations: u64, columns: u64, entries: &[FinalEntry]) -> bool
    requires { columns ≡ column_count p.now.weight p.now.depth }
    ensures { IsTrue result ↔ AllByRecursion (FinalInTable p.now relations) entries.now }
{
    for entry in entries {
        if !is_in_table(p, relations, columns, entry) {
            return false;
        }
    }
    true
}
