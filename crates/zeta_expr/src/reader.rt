//! The expression of a line.
ghost use Rattle.std.specs.Prelude.{ℕ, ◌^◌, ◌<◌, ◌≤◌, ◌↔◌, All, length, IfOk, IfErr, IsErrOf};
ghost use Rattle.line_tokens.specs.Prefixes.{IsStop};
ghost use Rattle.zeta_expr.specs.Grammar.{IsLine};
ghost use Rattle.zeta_expr.specs.Readings.{IsReading};
ghost use Rattle.std.specs.List.{AllByRecursion};
ghost use Rattle.zeta_expr.specs.Meaning.{IsFormed};
ghost use Rattle.zeta_expr.specs.Weights.{weight_of, depth_of};
ghost use Rattle.zeta_expr.specs.Faults.{IsReadFault};

use crate::draft::Draft;
use crate::expr::Expr;
use crate::fault::LineFault;
use crate::place::Place;
use line_tokens::{made_of, stop_of};
use std::alloc::Global;

/// The expression that a line spells: an optional sign, a term, then any number of a sign and a term.
///
/// `LineTooLong` exactly where the line has over 4,096 bytes; `Syntax(at)` exactly where it is no longer and no line of the grammar,
/// `at` the length of its longest prefix that begins some line, however long; `Memory` where memory is wanting.
pub fn read(alloc: Global, line: &[u8]) -> Result<Expr, LineFault>
    ensures ok { IfOk result (IsReading line.now) }
    ensures formed { IfOk result (λ e. AllByRecursion (λ t. AllByRecursion IsFormed t.factors) e) }
    ensures weights { IfOk result (λ e. All (λ t. weight_of t < 2 ^ 64) e) }
    ensures depths { IfOk result (λ e. All (λ t. depth_of t < 2 ^ 64) e) }
    ensures fits { IfOk result (λ e. length line.now ≤ 4096) }
    ensures line_too_long { IsErrOf result LineFault.LineTooLong ↔ (4096 < length line.now) }
    ensures syntax { (at : ℕ) → IsErrOf result (LineFault.Syntax at) ↔ ((length line.now ≤ 4096) × IsStop IsLine line.now at) }
    ensures err { IfErr result (IsReadFault line.now) }
{
    if line.len() > 4096 {
        return Err(LineFault::LineTooLong);
    }
    if let Some(at) = stop_of(Place::Start, line) {
        return Err(LineFault::Syntax(at));
    }
    match made_of(alloc, Place::Start, Draft::new(alloc), line) {
        Ok(draft) => Ok(draft.into_expr()),
        Err(e) => Err(LineFault::Memory(e)),
    }
}
