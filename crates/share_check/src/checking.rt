//! Shares, and whether their rows are a result of them.
ghost use Rattle.std.specs.Prelude.{◌≡◌, ℕ, List, map, IfOk, OnOk, IsErrOf};
ghost use Rattle.zeta_model.specs.declared.Letter.{Letter};
ghost use Rattle.sparse_rows.specs.Entries.{IsBelow};
ghost use Rattle.column_order.specs.Columns.{column_count};
ghost use Rattle.relation_list.specs.Listings.{listing_of};
ghost use Rattle.page_codec.specs.declared.parts.FinalEntry.{FinalEntry};
ghost use Rattle.page_rows.specs.Written.{written, AreResidues};
ghost use Rattle.table_model.specs.Faults.{Whole, BadRow, NotReduced, Missing};
ghost use Rattle.file_model.specs.TableOf.{IsTableOf};
ghost use Rattle.cert_checker.specs.Certified.{residues_at};
ghost use Rattle.share_model.specs.Shares.{IsShare, IsFoundOf};

use crate::bad_rows::first_bad_row;
use crate::elements::{combinations_of, rows_of};
use crate::missing::first_missing;
use echelon::{ReducedFault, ReducedRows};
use lyndon_polys::LyndonTable;
use relation_list::RelName;
use residues::Ring;
use share_model::{CheckedShare, Share, ShareFault};
use std::alloc::Global;

/// The share, where its rows with their combinations are a result of it: each row is what its combination gives, which has numbers of
/// relations of the share alone, the rows are reduced, and they leave nothing of any relation of the share. The table and the names are
/// those of its parameters; nothing is taken from its maker on trust.
///
/// `BadRow(i)` for the least row that is not what its combination gives, or whose combination has a number of another share; else
/// `NotReduced(i)` for the least row that does not fit a reduced list; else `Missing { n, rest }` for the least relation of the share of
/// which the rows leave something, by its number in the listing, and what they leave: columns that increase, with residues from 1 to below
/// the modulus. `Memory` where memory is wanting. No other fault comes.
pub fn check_share<R: Ring>(
    alloc: Global,
    table: &LyndonTable<R>,
    names: &[RelName],
    share: &Share,
) -> Result<CheckedShare<R>, ShareFault>
    requires table { IsTableOf share.now.params table.now.columns }
    requires modulus { R.modulus table.now.ring ≡ share.now.params.modulus }
    requires names { names.now ≡ listing_of table.now.columns.weight table.now.columns.depth }
    requires share { IsShare share.now }
    ensures same { IfOk result (λ c. (c.params ≡ share.now.params) × (c.id ≡ share.now.id) × (c.list.ring ≡ table.now.ring)) }
    ensures rows { IfOk result (λ c. map (written (R.value table.now.ring)) c.list.rows ≡ map (λ (e : FinalEntry). e.row) share.now.rows) }
    ensures combinations { IfOk result (λ c. map (written (R.value table.now.ring)) c.combinations
        ≡ map (λ (e : FinalEntry). e.combination) share.now.rows) }
    ensures whole { OnOk result (IsFoundOf share.now Whole) }
    ensures bad_row { (i : ℕ) → IsErrOf result (ShareFault.BadRow i) → IsFoundOf share.now (BadRow i) }
    ensures not_reduced { (i : ℕ) → IsErrOf result (ShareFault.NotReduced i) → IsFoundOf share.now (NotReduced i) }
    ensures missing { (n : ℕ) (rest : List (ℕ × ℕ)) → IsErrOf result (ShareFault.Missing n rest) → IsFoundOf share.now (Missing n (residues_at rest)) }
    ensures rest_residues { (n : ℕ) (rest : List (ℕ × ℕ)) → IsErrOf result (ShareFault.Missing n rest)
        → AreResidues (λ k. k) share.now.params.modulus rest }
    ensures rest_columns { (n : ℕ) (rest : List (ℕ × ℕ)) → IsErrOf result (ShareFault.Missing n rest)
        → IsBelow (λ k. k) (column_count share.now.params.weight share.now.params.depth) rest }
    ensures no_word { (value : ℕ) (word : List Letter) → ¬ (IsErrOf result (ShareFault.NoInverseWord value word)) }
    ensures no_relation { (value n : ℕ) → ¬ (IsErrOf result (ShareFault.NoInverseRelation value n)) }
{
    let ring = table.ring();
    let entries = share.rows.as_slice();
    let rows = match rows_of(alloc, ring, entries) {
        Ok(rows) => rows,
        Err(fault) => return Err(ShareFault::Memory(fault)),
    };
    let combinations = match combinations_of(alloc, ring, entries) {
        Ok(combinations) => combinations,
        Err(fault) => return Err(ShareFault::Memory(fault)),
    };
    match first_bad_row(alloc, table, names, share.id, &rows, &combinations) {
        Ok(None) => {}
        Ok(Some(i)) => return Err(ShareFault::BadRow(i)),
        Err(fault) => return Err(ShareFault::Memory(fault)),
    }
    let list = match ReducedRows::new(ring, rows) {
        Ok(list) => list,
        Err(ReducedFault::NotReduced(i)) => return Err(ShareFault::NotReduced(i)),
        Err(ReducedFault::Memory(fault)) => return Err(ShareFault::Memory(fault)),
    };
    match first_missing(alloc, table, names, share.id, &list) {
        Ok(None) => Ok(CheckedShare::of(share.params, share.id, list, combinations)),
        Ok(Some((n, rest))) => Err(ShareFault::Missing { n, rest }),
        Err(fault) => Err(ShareFault::Memory(fault)),
    }
}
