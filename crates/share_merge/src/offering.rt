//! The rows of shares, offered in turn.
ghost use Rattle.std.specs.Prelude.{◌≡◌, ◌+◌, ◌<◌, IfOk, IfErr, OnOk, length, All};
ghost use Rattle.share_merge.specs.Turns.{AreSharesOf, share_count, counted, turns_of, BreaksAtRow};
ghost use Rattle.share_merge.specs.Inner.{IsOwn, ArePlaces, HasOffered, HasCause};

use crate::fault::MergeFault;
use crate::places::RowPlace;
use echelon::{Echelon, OfferFault};
use lyndon_polys::LyndonTable;
use residues::Ring;
use share_model::CheckedShare;
use std::alloc::Global;

/// The elimination after all rows. The row of turn `t` is offered as number `t`.
pub(crate) fn offered<R: Ring>(
    alloc: Global,
    table: &LyndonTable<R>,
    shares: &[CheckedShare<R>],
    places: &[RowPlace],
) -> Result<Echelon<R>, MergeFault>
    requires shares { AreSharesOf table.now (share_count shares.now) shares.now }
    requires places { ArePlaces R.modulus R.has R.value shares.now (turns_of shares.now) places.now }
    requires checked { All (IsOwn R.modulus R.has R.value) (counted shares.now) }
    ensures ok { IfOk result (HasOffered (R.modulus table.now.ring) (R.has table.now.ring) (R.value table.now.ring) R.zero table.now
        shares.now (length places.now)) }
    ensures fault { IfErr result (HasCause (BreaksAtRow (R.modulus table.now.ring) (R.value table.now.ring) table.now.columns shares.now)) }
{
    let mut echelon = Echelon::new(alloc, *table.ring(), table.columns().len());
    for t in 0..places.len() as u32 {
        if let Err(fault) = offer_row(&mut echelon, table, shares, places, t) {
            return Err(fault);
        }
    }
    Ok(echelon)
}

/// Offers the row of turn `t`.
fn offer_row<R: Ring>(
    echelon: &mut Echelon<R>,
    table: &LyndonTable<R>,
    shares: &[CheckedShare<R>],
    places: &[RowPlace],
    t: u32,
) -> Result<(), MergeFault>
    requires shares { AreSharesOf table.now (share_count shares.now) shares.now }
    requires places { ArePlaces R.modulus R.has R.value shares.now (turns_of shares.now) places.now }
    requires inside { t < length places.now }
    requires so_far { HasOffered (R.modulus table.now.ring) (R.has table.now.ring) (R.value table.now.ring) R.zero table.now
        shares.now t echelon.old }
    ensures ok { OnOk result (HasOffered (R.modulus table.now.ring) (R.has table.now.ring) (R.value table.now.ring) R.zero table.now
        shares.now (t + 1) echelon.new) }
    ensures fault { IfErr result (HasCause (BreaksAtRow (R.modulus table.now.ring) (R.value table.now.ring) table.now.columns shares.now)) }
{
    let place = places[t as usize];
    let share = &shares[place.share];
    let index = share.id().index;
    match echelon.offer(t, share.rows().row(place.row)) {
        Ok(_) => Ok(()),
        Err(OfferFault::NoInverse { value, n: _ }) => Err(MergeFault::NoInverse {
            value,
            share: index,
            row: place.row,
        }),
        Err(OfferFault::Memory(fault)) => Err(MergeFault::Memory(fault)),
    }
}
