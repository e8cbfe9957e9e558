//! Copies of rows, since pages keep theirs.
ghost use Rattle.std.specs.Prelude.{◌≡◌, ◌++◌, IfOk, OnOk};

use page_codec::{CombData, FinalEntry, RowData};
use std::alloc::{AllocError, Global};

fn copy(alloc: Global, entry: &FinalEntry) -> Result<FinalEntry, AllocError>
    ensures { IfOk result (λ e. e ≡ entry.now) }
{
    let row = entry.row.as_slice().to_vec(alloc)?;
    let combination = entry.combination.as_slice().to_vec(alloc)?;
    Ok(FinalEntry {
        row: RowData::from_vec(row),
        combination: CombData::from_vec(combination),
    })
}

/// Puts copies of the entries behind the rows that are there.
pub(crate) fn append_copies(
    alloc: Global,
    rows: &mut Vec<FinalEntry>,
    entries: &[FinalEntry],
) -> Result<(), AllocError>
    ensures { OnOk result (rows.new.items ≡ rows.old.items ++ entries.now) }
{
    for entry in entries {
        rows.push(copy(alloc, entry)?)?;
    }
    Ok(())
}
