//! What gives lines their replies over the table in a file, once that is checked.
ghost use Rattle.std.specs.Prelude.{◌≡◌, ◌≤◌, IsTrue, Ok, Some, IfOk, IfErr, IfSome};
ghost use Rattle.outside_io.specs.Causes.{Rose};
ghost use Rattle.page_codec.specs.Bounds.{IsParams};
ghost use Rattle.page_file.specs.Notes.{Suits};
ghost use Rattle.whole_runs.specs.declared.command.Command.TheVariants.{Rewrite, Rational};
ghost use Rattle.whole_runs.specs.Works.Work.{Replies};
ghost use Rattle.datamine_program.specs.Inner.{IsFileWork, IsCheckFault};

use crate::table_check::checked_table;
use fraction_replies::FractionReplies;
use line_loop::Replier;
use outside_io::Disk;
use page_codec::Params;
use page_file::PageFile;
use residues::Ring;
use std::alloc::Global;
use table_checker::{CheckFault, Checked};
use table_replies::TableReplies;

// The replies by the table in a file with this header, over a ring of its modulus.
pub(crate) fn table_replies<R: Ring, D: Disk>(
    alloc: Global,
    ring: R,
    file: &mut PageFile,
    params: &Params,
    disk: &mut D,
) -> Result<TableReplies<R>, CheckFault>
    requires live { IsTrue file.old.is_live }
    requires suits { IfSome (D.trace disk.old) (λ t. Suits file.old t.now.contents) }
    requires header { file.old.params ≡ Some params.now }
    requires params { IsParams params.now }
    requires ring { R.modulus ring ≡ params.now.modulus }
    ensures replies { IfOk result (λ replies. IsFileWork (Ok Rewrite) (D.trace disk.old) (Replies (⟦<TableReplies<R> as Replier>⟧.reply_to replies))) }
    ensures err { IfErr result (IsCheckFault (Rose (D.faults disk.old) (D.faults disk.new)) (D.trace disk.old) params.now) }
    ensures same { D.trace disk.new ≡ D.trace disk.old }
    ensures faults { D.faults disk.old ≤ D.faults disk.new }
{
    let checked = match checked_table(alloc, ring, file, params, disk) {
        Ok(checked) => checked,
        Err(fault) => return Err(fault),
    };
    let Checked { table, rows, .. } = checked;
    match TableReplies::new(alloc, table, &rows) {
        Ok(replies) => Ok(replies),
        Err(fault) => Err(CheckFault::Memory(fault)),
    }
}

// The same with small fractions for residues.
pub(crate) fn fraction_replies<R: Ring, D: Disk>(
    alloc: Global,
    ring: R,
    file: &mut PageFile,
    params: &Params,
    disk: &mut D,
) -> Result<FractionReplies<R>, CheckFault>
    requires live { IsTrue file.old.is_live }
    requires suits { IfSome (D.trace disk.old) (λ t. Suits file.old t.now.contents) }
    requires header { file.old.params ≡ Some params.now }
    requires params { IsParams params.now }
    requires ring { R.modulus ring ≡ params.now.modulus }
    ensures replies { IfOk result (λ replies. IsFileWork (Ok Rational) (D.trace disk.old) (Replies (⟦<FractionReplies<R> as Replier>⟧.reply_to replies))) }
    ensures err { IfErr result (IsCheckFault (Rose (D.faults disk.old) (D.faults disk.new)) (D.trace disk.old) params.now) }
    ensures same { D.trace disk.new ≡ D.trace disk.old }
    ensures faults { D.faults disk.old ≤ D.faults disk.new }
{
    let checked = match checked_table(alloc, ring, file, params, disk) {
        Ok(checked) => checked,
        Err(fault) => return Err(fault),
    };
    let Checked { table, rows, .. } = checked;
    match FractionReplies::new(alloc, table, &rows) {
        Ok(replies) => Ok(replies),
        Err(fault) => Err(CheckFault::Memory(fault)),
    }
}
