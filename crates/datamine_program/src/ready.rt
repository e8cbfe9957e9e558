//! What gives lines their replies over the table of parameters, once that stands.
ghost use Rattle.std.specs.Prelude.{◌≡◌, IfOk, IfErr};
ghost use Rattle.page_codec.specs.Bounds.{IsParams};
ghost use Rattle.datamine_program.specs.Inner.{AreTableReplies, IsFaultOf};

use crate::table::{MadeTable, TableFault, table_of};
use line_loop::Replier;
use page_codec::Params;
use residues::Ring;
use std::alloc::Global;
use table_replies::TableReplies;

// The replies, and how many rows and columns they are by.
#[derive(Drop)]
pub(crate) struct Ready<R: Ring> {
    pub(crate) replies: TableReplies<R>,
    pub(crate) rows: u32,
    pub(crate) columns: u32,
}

// The replies over the table of the parameters, in a ring of their modulus.
pub(crate) fn make_ready<R: Ring>(
    alloc: Global,
    ring: R,
    params: &Params,
) -> Result<Ready<R>, TableFault>
    requires params { IsParams params.now }
    requires ring { R.modulus ring ≡ params.now.modulus }
    ensures replies { IfOk result (λ ready. AreTableReplies params.now ready.rows ready.columns (⟦<TableReplies<R> as Replier>⟧.reply_to ready.replies)) }
    ensures fault { IfErr result (IsFaultOf params.now) }
{
    let made = match table_of(alloc, ring, params) {
        Ok(made) => made,
        Err(fault) => return Err(fault),
    };
    let MadeTable {
        table,
        rows: reduced,
        forms,
    } = made;
    let rows = reduced.len();
    let columns = table.columns().len();
    Ok(Ready {
        replies: TableReplies::of(alloc, table, forms),
        rows,
        columns,
    })
}
