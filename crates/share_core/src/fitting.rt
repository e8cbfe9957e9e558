//! Whether a share is one of a coordinator's.
ghost use Rattle.std.specs.Prelude.{◌≡◌, ◌↔◌, IsTrue};
ghost use Rattle.page_codec.specs.Bounds.{IsParams};
ghost use Rattle.share_core.specs.Steps.{Fits};
ghost use Rattle.share_core.specs.Inner.{AreRows};

use crate::entries::{are_final, are_in_table};
use crate::same_params::are_same;
use crate::setting::TableSetting;
use column_order::count;
use page_codec::{FinalEntry, Params};
use residues::Ring;
use share_model::Share;

/// Whether it is a share of the table's parameters, one of as many as the setting says.
pub(crate) fn fits<R: Ring>(setting: &TableSetting<R>, share: &Share) -> bool
    ensures { IsTrue result ↔ Fits setting.now share.now }
{
    let params = setting.params();
    let of = setting.of();
    if !are_same(&share.params, params) {
        return false;
    }
    if share.id.of != of {
        return false;
    }
    if share.id.index >= of {
        return false;
    }
    are_rows(params, setting.names().len() as u64, share.rows.as_slice())
}

/// Whether the entries may be the rows of a share, where the table of the parameters has so many relations.
fn are_rows(p: &Params, relations: u64, entries: &[FinalEntry]) -> bool
    requires { IsParams p.now }
    ensures { IsTrue result ↔ AreRows p.now relations entries.now }
{
    let columns = count(p.weight, p.depth);
    entries.len() as u64 <= columns
        && are_final(entries)
        && are_in_table(p, relations, columns, entries)
}
