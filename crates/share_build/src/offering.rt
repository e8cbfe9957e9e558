//! The relations of a share, offered in turn.
ghost use Rattle.std.specs.Prelude.{◌≡◌, ℕ, ◌+◌, ◌*◌, ◌<◌, ◌≤◌, IsTrue, IfOk, IfErr, OnOk, length};
ghost use Rattle.sparse_rows.specs.Entries.{AllIn, IsBelow};
ghost use Rattle.relation_list.specs.Names.{is_name_of, weight_of_name, depth_of_name};
ghost use Rattle.relation_list.specs.Listings.{listing_of};
ghost use Rattle.relation_list.specs.Values.{value_of};
ghost use Rattle.echelon.specs.Lists.{entries_of};
ghost use Rattle.table_model.specs.Conversion.{IsCols};
ghost use Rattle.table_model.specs.ReducedRows.{BreaksFirst};
ghost use Rattle.share_model.specs.Dealing.{share_values, share_size};
ghost use Rattle.share_model.specs.Shares.{IsShareId};
ghost use Rattle.share_build.specs.Refusals.{BreaksAt};
ghost use Rattle.share_build.specs.Inner.{HasOffered, HasCause};

use echelon::{Echelon, OfferFault};
use kept_products::{KeptProducts, value_kept};
use lyndon_polys::{LyndonTable, OutFault};
use relation_list::{RelName, listing};
use residues::Ring;
use share_model::{ShareFault, ShareId};
use sparse_rows::Row;
use std::alloc::{AllocError, Global};

/// The elimination after all relations of the share.
pub(crate) fn offered<R: Ring>(
    alloc: Global,
    table: &LyndonTable<R>,
    id: ShareId,
) -> Result<Echelon<R>, ShareFault>
    requires id { IsShareId id }
    ensures ok { IfOk result (HasOffered (R.modulus table.now.ring) (R.has table.now.ring) (R.value table.now.ring) R.zero table.now
        id.index id.of (share_size table.now.columns id.index id.of)) }
    ensures fault { IfErr result (HasCause (λ value n. BreaksAt (R.modulus table.now.ring) table.now.columns id.index id.of n value)) }
{
    let columns = table.columns();
    let names = match listing(alloc, columns.weight(), columns.depth()) {
        Ok(names) => names,
        Err(fault) => return Err(ShareFault::Memory(fault)),
    };
    let mut kept = KeptProducts::new(alloc, *table.ring());
    let mut echelon = Echelon::new(alloc, *table.ring(), columns.len());
    let size = (names.len() as u32 + (id.of - 1 - id.index)) / id.of;
    for k in 0..size {
        if let Err(fault) = offer_relation(&mut echelon, table, &mut kept, &names, id, k) {
            return Err(fault);
        }
    }
    Ok(echelon)
}

/// Offers the row of relation `k` of the share. The products that its value is made of are kept for later values.
fn offer_relation<R: Ring>(
    echelon: &mut Echelon<R>,
    table: &LyndonTable<R>,
    kept: &mut KeptProducts<R>,
    names: &[RelName],
    id: ShareId,
    k: u32,
) -> Result<(), ShareFault>
    requires kept_ring { kept.old.ring ≡ table.now.ring }
    requires names { names.now ≡ listing_of table.now.columns.weight table.now.columns.depth }
    requires few { length names.now ≤ 1179648 }
    requires id { IsShareId id }
    requires inside { id.index + id.of * k < length names.now }
    requires so_far { HasOffered (R.modulus table.now.ring) (R.has table.now.ring) (R.value table.now.ring) R.zero table.now
        id.index id.of k echelon.old }
    ensures keeps_ring { kept.new.ring ≡ kept.old.ring }
    ensures ok { OnOk result (HasOffered (R.modulus table.now.ring) (R.has table.now.ring) (R.value table.now.ring) R.zero table.now
        id.index id.of (k + 1) echelon.new) }
    ensures fault { IfErr result (HasCause (λ value n. (n ≡ id.index + id.of * k)
        × BreaksFirst (R.modulus table.now.ring) table.now.columns (share_values (R.modulus table.now.ring) table.now.columns id.index id.of) k value)) }
{
    let n = id.index + id.of * k;
    let row = match value_row(table, kept, &names[n as usize]) {
        Ok(row) => row,
        Err(fault) => return Err(ShareFault::Memory(fault)),
    };
    match echelon.offer(n, &row) {
        Ok(_) => Ok(()),
        Err(OfferFault::NoInverse { value, n }) => Err(ShareFault::NoInverseRelation { value, n }),
        Err(OfferFault::Memory(fault)) => Err(ShareFault::Memory(fault)),
    }
}

/// The row of the value of a name of the table's weight and depth.
fn value_row<R: Ring>(
    table: &LyndonTable<R>,
    kept: &mut KeptProducts<R>,
    name: &RelName,
) -> Result<Row<R>, AllocError>
    requires kept_ring { kept.old.ring ≡ table.now.ring }
    requires is_name { IsTrue (is_name_of name.now) }
    requires weight { weight_of_name name.now ≡ table.now.columns.weight }
    requires depth { depth_of_name name.now ≤ table.now.columns.depth }
    ensures keeps_ring { kept.new.ring ≡ kept.old.ring }
    ensures cols { IfOk result (λ row. IsCols (R.modulus table.now.ring) table.now.columns (value_of (R.modulus table.now.ring) name.now)
        (entries_of (R.value table.now.ring) row)) }
    ensures below { IfOk result (IsBelow (λ k. k) (length table.now.columns.list)) }
    ensures in_ring { IfOk result (AllIn (R.has table.now.ring)) }
{
    let sum = value_kept(kept, name)?;
    match table.to_columns(&sum) {
        Ok(row) => Ok(row),
        Err(OutFault::OutOfTable(_)) => unreachable!(),
        Err(OutFault::Memory(fault)) => Err(fault),
    }
}
