//! The columns of the parameters of a table.
ghost use Rattle.std.specs.Prelude.{IfOk};
ghost use Rattle.page_codec.specs.Bounds.{IsParams};
ghost use Rattle.file_model.specs.TableOf.{IsTableOf};

use column_order::{Columns, ColumnsFault, RankRule, rank};
use page_codec::Params;
use std::alloc::{AllocError, Global};
use word_letters::Word;

// The columns of the parameters, in their order.
pub(crate) fn columns_of(alloc: Global, params: &Params) -> Result<Columns, AllocError>
    requires { IsParams params.now }
    ensures { IfOk result (IsTableOf params.now) }
{
    let preference = params.preference();
    let ranked = preference;
    let rule = RankRule::new(preference, move |word: Word| rank(&ranked, word));
    match Columns::new(alloc, params.weight, params.depth, &rule) {
        Ok(columns) => Ok(columns),
        Err(ColumnsFault::TooManyColumns(_)) => unreachable!(),
        Err(ColumnsFault::Memory(fault)) => Err(fault),
    }
}
