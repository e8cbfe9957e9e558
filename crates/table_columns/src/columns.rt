//! The columns of the parameters of a table, and how many relations their listing has.
ghost use Rattle.std.specs.Prelude.{◌≡◌, IfOk};
ghost use Rattle.page_codec.specs.Bounds.{IsParams};
ghost use Rattle.file_model.specs.TableOf.{IsTableOf};
ghost use Rattle.table_model.specs.ListedSpan.{relation_count};

use column_order::{Columns, ColumnsFault, RankRule, rank};
use page_codec::Params;
use relation_list::listing;
use std::alloc::{AllocError, Global};
use word_letters::Word;

/// The columns of the parameters, in their order. Memory may be wanting.
pub fn columns_of(alloc: Global, params: &Params) -> Result<Columns, AllocError>
    requires { IsParams params.now }
    ensures { IfOk result (IsTableOf params.now) }
{
    let preference = params.preference();
    let ranked = preference;
    let rule = RankRule::new(preference, move |word: Word| rank(&ranked, word));
    match Columns::new(alloc, params.weight, params.depth, &rule) {
        Ok(columns) => Ok(columns),
        Err(ColumnsFault::TooManyColumns(_)) => unreachable!(),
        Err(ColumnsFault::Memory(fault)) => Err(fault),
    }
}

/// How many relations the listing of the parameters has. Memory may be wanting: the listing is made.
pub fn relation_count(alloc: Global, params: &Params) -> Result<u32, AllocError>
    requires { IsParams params.now }
    ensures { IfOk result (λ n. n ≡ relation_count params.now.weight params.now.depth) }
{
    let names = listing(alloc, params.weight, params.depth)?;
    Ok(names.len() as u32)
}
