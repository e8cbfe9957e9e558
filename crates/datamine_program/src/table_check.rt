//! The table in a file, checked before anything is done with it.
ghost use Rattle.std.specs.Prelude.{◌≡◌, ◌≤◌, IsTrue, Some, length, IfOk, IfErr, IfSome};
ghost use Rattle.outside_io.specs.Causes.{Rose};
ghost use Rattle.echelon.specs.Lists.{lead_at, row_at};
ghost use Rattle.page_codec.specs.Bounds.{IsParams};
ghost use Rattle.page_file.specs.Notes.{Suits};
ghost use Rattle.table_model.specs.ListedSpan.{count_of};
ghost use Rattle.table_rewrite.specs.Replies.{AreOver};
ghost use Rattle.datamine_program.specs.Inner.{IsWholeTable, IsCheckFault};

use outside_io::Disk;
use page_codec::Params;
use page_file::PageFile;
use residues::Ring;
use std::alloc::Global;
use table_checker::{CheckFault, Checked, check_table};

// The table in a file with this header, over a ring of its modulus, where it is whole.
pub(crate) fn checked_table<R: Ring, D: Disk>(
    alloc: Global,
    ring: R,
    file: &mut PageFile,
    params: &Params,
    disk: &mut D,
) -> Result<Checked<R>, CheckFault>
    requires live { IsTrue file.old.is_live }
    requires suits { IfSome (D.trace disk.old) (λ t. Suits file.old t.now.contents) }
    requires header { file.old.params ≡ Some params.now }
    requires params { IsParams params.now }
    requires ring { R.modulus ring ≡ params.now.modulus }
    ensures whole { IfOk result (λ checked. IsWholeTable (D.trace disk.old) params.now checked.table.columns (length checked.rows.rows) (lead_at checked.rows.rows)
        (row_at (R.value ring) checked.rows.rows)) }
    ensures relations { IfOk result (λ checked. checked.relations ≡ count_of checked.table.columns) }
    ensures over { IfOk result (λ checked. AreOver (length checked.table.columns.list) checked.rows.rows) }
    ensures table_ring { IfOk result (λ checked. checked.table.ring ≡ ring) }
    ensures rows_ring { IfOk result (λ checked. checked.rows.ring ≡ ring) }
    ensures err { IfErr result (IsCheckFault (Rose (D.faults disk.old) (D.faults disk.new)) (D.trace disk.old) params.now) }
    ensures same { D.trace disk.new ≡ D.trace disk.old }
    ensures faults { D.faults disk.old ≤ D.faults disk.new }
{
    match check_table(alloc, ring, file, disk) {
        Ok(checked) => Ok(checked),
        Err(fault) => Err(fault),
    }
}
