//! The columns of the parameters of a table, and the table.
ghost use Rattle.std.specs.Prelude.{◌≡◌, IfOk, IfErr};
ghost use Rattle.page_codec.specs.Bounds.{IsParams};
ghost use Rattle.table_model.specs.Conversion.{Converts};
ghost use Rattle.file_model.specs.TableOf.{IsTableOf};
ghost use Rattle.share_model.specs.declared.share.ShareId.{ShareId};
ghost use Rattle.share_build.specs.Refusals.{IsBuildRefusal};
ghost use Rattle.share_build.specs.Inner.{table_fault};

use column_order::{Columns, ColumnsFault, RankRule, rank};
use lyndon_polys::{LyndonFault, LyndonTable};
use page_codec::Params;
use residues::Ring;
use share_model::ShareFault;
use std::alloc::{AllocError, Global};
use word_letters::Word;

/// The columns of the parameters, in their order.
fn columns_of(alloc: Global, params: &Params) -> Result<Columns, AllocError>
    requires { IsParams params.now }
    ensures { IfOk result (IsTableOf params.now) }
{
    let preference = params.preference();
    let ranked = preference;
    let rule = RankRule::new(preference, move |word: Word| rank(&ranked, word));
    match Columns::new(alloc, params.weight, params.depth, &rule) {
        Ok(columns) => Ok(columns),
        Err(ColumnsFault::TooManyColumns(_)) => unreachable!(),
        Err(ColumnsFault::Memory(fault)) => Err(fault),
    }
}

/// The table of the parameters.
pub(crate) fn table_of<R: Ring>(
    alloc: Global,
    ring: R,
    params: &Params,
) -> Result<LyndonTable<R>, ShareFault>
    requires modulus { R.modulus ring ≡ params.now.modulus }
    requires params { IsParams params.now }
    ensures ring { IfOk result (λ table. table.ring ≡ ring) }
    ensures columns { IfOk result (λ table. IsTableOf params.now table.columns) }
    ensures converts { IfOk result (λ table. Converts params.now.modulus table.columns) }
    ensures fault { (id : ShareId) → IfErr result (IsBuildRefusal params.now id) }
{
    let columns = match columns_of(alloc, params) {
        Ok(columns) => columns,
        Err(fault) => return Err(ShareFault::Memory(fault)),
    };
    match LyndonTable::new(alloc, ring, columns) {
        Ok(table) => Ok(table),
        Err(fault) => Err(table_fault(fault)),
    }
}

/// Why the table was not made.
fn table_fault(fault: LyndonFault) -> ShareFault
    ensures { result ≡ table_fault fault }
{
    match fault {
        LyndonFault::NoInverse { value, word } => ShareFault::NoInverseWord { value, word },
        LyndonFault::Memory(fault) => ShareFault::Memory(fault),
    }
}
