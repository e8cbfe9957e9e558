//! The command `migrate`: a version 1 file from the source goes page by page into a file where nothing stands.
ghost use Rattle.std.specs.Prelude.{◌≡◌, ◌≤◌, ◌<◌, [], ℕ, List, Option, Ok, IfSome, length};
ghost use Rattle.outside_io.specs.Causes.{Rose};
ghost use Rattle.outside_io.specs.Traces.{Trace};
ghost use Rattle.page_codec.specs.Bounds.{IsParams};
ghost use Rattle.whole_runs.specs.declared.command.Command.TheVariants.{Migrate};
ghost use Rattle.whole_runs.specs.FileTexts.{migrated_line};
ghost use Rattle.whole_runs.specs.Outcomes.{Has, Outcome, contents_of};
ghost use Rattle.whole_runs.specs.Works.Work.{Writes};
ghost use Rattle.datamine_program.specs.Inner.{EndsAs, EndsCopy, copy_end, IsCopyFault};
ghost use Rattle.datamine_program.specs.Leaving.{MigrateLeaves};

use crate::file_refusals::refuse_number;
use crate::writing::write_and_end;
use outside_io::{Disk, Sink, Source};
use std::alloc::Global;
use table_migration::{MigrateFault, Migrated, migrate};
use table_texts::migrated_text;
use whole_runs::Status;

// Tells what was copied.
fn tell_migrated<K: Sink>(alloc: Global, migrated: &Migrated, sink: &mut K) -> Status
    requires { IsParams migrated.now.params }
    ensures which { EndsAs Status.Done result }
    ensures has { (left : Option (List ℕ))
        → Has (Writes (migrated_line migrated.now.params migrated.now.pages) Status.Done) left (K.taken sink.old) (K.taken sink.new) result }
    ensures write_fault_only { result ≡ Status.WriteFault → Rose (K.faults sink.old) (K.faults sink.new) }
{
    match migrated_text(alloc, &migrated.params, migrated.pages) {
        Ok(text) => write_and_end(sink, text.as_bytes(), Status::Done),
        Err(_) => Status::Memory,
    }
}

// Tells why a file was not copied to its end, and writes nothing where memory was wanting or a call of the disk or of the source failed.
fn refuse_migrate<K: Sink>(fault: MigrateFault, sink: &mut K) -> Status
    ensures which { EndsAs (copy_end fault) result }
    ensures outcome { (told : Option Trace) (left : Option (List ℕ)) → IsCopyFault told left fault
        → Outcome (Ok Migrate) (contents_of told) left (K.taken sink.old) (K.taken sink.new) result }
    ensures write_fault_only { result ≡ Status.WriteFault → Rose (K.faults sink.old) (K.faults sink.new) }
{
    match fault {
        MigrateFault::DiskFault => Status::DiskFault,
        MigrateFault::ReadFault => Status::ReadFault,
        MigrateFault::Exists(bytes) => {
            let text = b"not a table: exists ";
            refuse_number(sink, text, bytes, b"\n", Status::NotATable)
        }
        MigrateFault::BadPage(page) => {
            let text = b"not a table: page ";
            refuse_number(sink, text, page, b" unreadable\n", Status::NotATable)
        }
        MigrateFault::Misfit(page) => {
            let text = b"not a table: page ";
            refuse_number(sink, text, page, b" misplaced\n", Status::NotATable)
        }
        MigrateFault::NotDone(pages) => {
            let text = b"not complete: pages ";
            refuse_number(sink, text, pages, b", not done\n", Status::NotComplete)
        }
        MigrateFault::Memory(_) => Status::Memory,
    }
}

// Copies a version 1 file from the source to the disk, and prints one line.
pub(crate) fn run_migrate<D: Disk, S: Source, K: Sink>(
    alloc: Global,
    disk: &mut D,
    source: &mut S,
    sink: &mut K,
) -> Status
    ensures which { EndsCopy result }
    ensures outcome { Outcome (Ok Migrate) (contents_of (D.trace disk.old)) (S.left source.old) (K.taken sink.old) (K.taken sink.new) result }
    ensures leaves { MigrateLeaves (S.left source.old) result (D.trace disk.old) (D.trace disk.new) }
    ensures untaken { IfSome (D.trace disk.old) (λ t. 0 < length t.now.contents → source.new ≡ source.old) }
    ensures empty { result ≡ Status.ReadFault → IfSome (D.trace disk.old) (λ t. t.now.contents ≡ []) }
    ensures disk_fault_only { result ≡ Status.DiskFault → Rose (D.faults disk.old) (D.faults disk.new) }
    ensures read_fault_only { result ≡ Status.ReadFault → Rose (S.faults source.old) (S.faults source.new) }
    ensures write_fault_only { result ≡ Status.WriteFault → Rose (K.faults sink.old) (K.faults sink.new) }
    ensures faults { D.faults disk.old ≤ D.faults disk.new }
{
    match migrate(alloc, source, disk) {
        Ok(migrated) => tell_migrated(alloc, &migrated, sink),
        Err(fault) => refuse_migrate(fault, sink),
    }
}
