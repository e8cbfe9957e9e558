//! Which rows may stand in a share.
ghost use Rattle.std.specs.Prelude.{◌≡◌, ◌≤◌, ◌↔◌, ℕ, length, IfOk, IsTrue};
ghost use Rattle.std.specs.List.{AllByRecursion};
ghost use Rattle.column_order.specs.Columns.{column_count};
ghost use Rattle.page_codec.specs.Bounds.{IsParams};
ghost use Rattle.page_codec.specs.Places.{AreBelow, FinalInTable};
ghost use Rattle.table_model.specs.ListedSpan.{relation_count};
ghost use Rattle.share_file.specs.Inner.{Follows};

use column_order::count;
use page_codec::{FinalEntry, FinalPage, Params};
use relation_list::listing;
use std::alloc::{AllocError, Global};

/// How many relations the table of the parameters has.
pub(crate) fn relation_count(alloc: Global, params: &Params) -> Result<u32, AllocError>
    requires { IsParams params.now }
    ensures { IfOk result (λ n. n ≡ relation_count params.now.weight params.now.depth) }
{
    let names = listing(alloc, params.weight, params.depth)?;
    Ok(names.len() as u32)
}

fn are_columns_below(high: u64, m: u64, pairs: &[(u16, u64)]) -> bool
    ensures { IsTrue result ↔ AreBelow high m pairs.now }
{
    pairs.iter().all(|e| (e.0 as u64) < high && e.1 < m)
}

fn are_numbers_below(high: u64, m: u64, pairs: &[(u32, u64)]) -> bool
    ensures { IsTrue result ↔ AreBelow high m pairs.now }
{
    pairs.iter().all(|e| (e.0 as u64) < high && e.1 < m)
}

fn is_in_table(p: &Params, relations: u32, columns: u64, entry: &FinalEntry) -> bool
    requires { columns ≡ column_count p.now.weight p.now.depth }
    ensures { IsTrue result ↔ FinalInTable p.now relations entry.now }
{
    are_columns_below(columns, p.modulus, entry.row.as_slice())
        && are_numbers_below(relations as u64, p.modulus, entry.combination.as_slice())
}

fn are_in_table(p: &Params, relations: u32, columns: u64, entries: &[FinalEntry]) -> bool
    requires { columns ≡ column_count p.now.weight p.now.depth }
    ensures { IsTrue result ↔ AllByRecursion (FinalInTable p.now relations) entries.now }
{
    for entry in entries {
        if !is_in_table(p, relations, columns, entry) {
            return false;
        }
    }
    true
}

/// Whether the page may stand behind so many rows, in a share of a table with so many relations.
pub(crate) fn follows(p: &Params, relations: u32, rows: usize, page: &FinalPage) -> bool
    requires params { IsParams p.now }
    requires within { rows ≤ column_count p.now.weight p.now.depth }
    ensures { IsTrue result ↔ Follows p.now relations rows page.now }
{
    let columns = count(p.weight, p.depth);
    let entries = page.entries.as_slice();
    page.first as usize == rows
        && entries.len() as u64 <= columns - rows as u64
        && are_in_table(p, relations, columns, entries)
}
