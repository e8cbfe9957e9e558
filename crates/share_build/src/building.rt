//! Building a share.
ghost use Rattle.std.specs.Prelude.{◌≡◌, IfOk, IfErr, OnOk};
ghost use Rattle.page_codec.specs.Bounds.{IsParams};
ghost use Rattle.share_model.specs.Shares.{IsShareId, IsShare, IsResult};
ghost use Rattle.share_build.specs.Refusals.{GoesThrough, IsBuildRefusal};

use crate::finishing::finish;
use crate::offering::offered;
use crate::table::table_of;
use page_codec::Params;
use residues::Ring;
use share_model::{Share, ShareFault, ShareId};
use std::alloc::Global;

/// The share of the table: the relations of the share alone are eliminated, and each row of the result comes with its combination of them.
///
/// `NoInverseWord` where the table does not convert, with the first word at which it does not. `NoInverseRelation` where the work on the
/// relations of the share is broken, with the first relation at which it is. `Memory` where memory is wanting. No other fault comes.
pub fn build_share<R: Ring>(
    alloc: Global,
    ring: R,
    params: &Params,
    id: ShareId,
) -> Result<Share, ShareFault>
    requires modulus { R.modulus ring ≡ params.now.modulus }
    requires params { IsParams params.now }
    requires id { IsShareId id }
    ensures same { IfOk result (λ s. (s.params ≡ params.now) × (s.id ≡ id)) }
    ensures share { IfOk result IsShare }
    ensures result { IfOk result IsResult }
    ensures unbroken { OnOk result (GoesThrough params.now id) }
    ensures err { IfErr result (IsBuildRefusal params.now id) }
{
    let table = match table_of(alloc, ring, params) {
        Ok(table) => table,
        Err(fault) => return Err(fault),
    };
    let echelon = match offered(alloc, &table, id) {
        Ok(echelon) => echelon,
        Err(fault) => return Err(fault),
    };
    match finish(alloc, table.ring(), &echelon) {
        Ok(rows) => Ok(Share {
            params: *params,
            id,
            rows,
        }),
        Err(fault) => Err(ShareFault::Memory(fault)),
    }
}
