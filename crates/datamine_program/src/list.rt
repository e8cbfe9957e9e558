//! The command `list`: the names of the relations that a table is built from.
ghost use Rattle.std.specs.Prelude.{◌≡◌, ◌≢◌, ◌⊎◌, ◌++◌, ◌≤◌, ◌<◌, All, List, ℕ, Option, IfOk, OnOk, Ok, IsTrue, string_bytes};
ghost use Rattle.outside_io.specs.Causes.{Rose};
ghost use Rattle.relation_list.specs.Listings.{listing_of};
ghost use Rattle.relation_list.specs.Names.{is_name_of};
ghost use Rattle.whole_runs.specs.Outcomes.{Outcome};
ghost use Rattle.whole_runs.specs.Texts.{name_line, name_lines};
ghost use Rattle.whole_runs.specs.declared.command.Command.TheVariants.{List as ListOf};

use crate::writing::write_and_end;
use outside_io::Sink;
use relation_list::{RelName, listing, push_text};
use std::alloc::{AllocError, Global};
use std::fmt::Write;
use whole_runs::Status;

// Puts the line of a name at the end of the lines.
fn push_line(lines: &mut String, number: usize, name: &RelName) -> Result<(), AllocError>
    requires { IsTrue (is_name_of name.now) }
    ensures { OnOk result (string_bytes lines.new ≡ string_bytes lines.old ++ name_line number name.now) }
{
    write!(lines, "{number} ")?;
    push_text(lines, name)?;
    lines.push_str("\n")
}

// The lines of the names, numbered from 0.
fn lines_of(alloc: Global, names: &[RelName]) -> Result<String, AllocError>
    requires { All (λ n. IsTrue (is_name_of n)) names.now }
    ensures { IfOk result (λ lines. string_bytes lines ≡ name_lines 0 names.now) }
{
    let mut lines = String::new(alloc);
    for (number, name) in names.iter().enumerate() {
        push_line(&mut lines, number, name)?;
    }
    Ok(lines)
}

fn listing_lines(alloc: Global, weight: u32, depth: u32) -> Result<String, AllocError>
    requires least { 2 ≤ weight }
    requires most { weight ≤ 24 }
    requires some { 1 ≤ depth }
    requires below { depth < weight }
    ensures { IfOk result (λ lines. string_bytes lines ≡ name_lines 0 (listing_of weight depth)) }
{
    let names = listing(alloc, weight, depth)?;
    lines_of(alloc, &names)
}

// Prints the listing, in one write.
pub(crate) fn run_list<K: Sink>(alloc: Global, weight: u32, depth: u32, sink: &mut K) -> Status
    requires least { 2 ≤ weight }
    requires most { weight ≤ 24 }
    requires some { 1 ≤ depth }
    requires below { depth < weight }
    ensures which { (result ≡ Status.Done) ⊎ (result ≡ Status.Memory) ⊎ (result ≡ Status.WriteFault) }
    ensures outcome { (contents left : Option (List ℕ)) → Outcome (Ok (ListOf weight depth)) contents left (K.taken sink.old) (K.taken sink.new) result }
    ensures write_fault_only { result ≡ Status.WriteFault → Rose (K.faults sink.old) (K.faults sink.new) }
{
    let Ok(lines) = listing_lines(alloc, weight, depth) else {
        return Status::Memory;
    };
    write_and_end(sink, lines.as_bytes(), Status::Done)
}
