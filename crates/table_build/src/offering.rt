//! The listed relations of a table, and the elimination to which they are offered in turn.
ghost use Rattle.std.specs.Prelude.{◌≡◌, ◌≢◌, ℕ, suc, ◌+◌, ◌*◌, ◌<◌, ◌≤◌, ◌∷◌, ◌++◌, [], true, IsTrue, IsErrOf, IfOk, IfErr, OnOk, length, List, All};
ghost use Rattle.std.specs.Map.{keys_of};
ghost use Rattle.word_sums.specs.Sums.{IsSumOf};
ghost use Rattle.word_sums.specs.Terms.{coefficient_of, AllIn as AllTermsIn};
ghost use Rattle.sparse_rows.specs.Entries.{AllIn, IsBelow};
ghost use Rattle.column_order.specs.Columns.{ColumnList};
ghost use Rattle.relation_list.specs.Names.{is_name_of, weight_of_name, depth_of_name};
ghost use Rattle.relation_list.specs.Values.{value_of};
ghost use Rattle.echelon.specs.Lists.{entries_of, row_at};
ghost use Rattle.echelon.specs.Offers.{used_at};
ghost use Rattle.echelon.specs.Traces.{IfZero, IfAccepted};
ghost use Rattle.table_model.specs.Conversion.{IsTableWord, IsCols};
ghost use Rattle.table_model.specs.ListedSpan.{values_of, count_of};
ghost use Rattle.table_model.specs.ReducedRows.{BreaksFirst};
ghost use Rattle.known_sums.specs.Known.{Knows};
ghost use Rattle.table_build.specs.Faults.{HasCauseIn};
ghost use Rattle.table_build.specs.Inner.{Course, CanOffer, HasOffered, IsMadeOf};

use crate::fault::WorkFault;
use echelon::{OfferFault, RowEchelon, Traced};
use kept_products::{KeptProducts, value_kept};
use known_sums::KnownSums;
use lyndon_polys::{LyndonTable, OutFault};
use relation_list::{RelName, listing};
use residues::Ring;
use sparse_rows::Row;
use std::alloc::{AllocError, Global};
use word_sums::WordSum;

// The names of the listed relations of a table, the products that their values are made of, and the elimination.
#[derive(Drop)]
pub(crate) struct Offering<R: Ring> {
    pub(crate) table: LyndonTable<R>,
    pub(crate) names: Vec<RelName>,
    pub(crate) kept: KeptProducts<R>,
    pub(crate) echelon: RowEchelon<R>,
}

impl<R: Ring> Offering<R> {
    // No relation is offered yet.
    pub(crate) fn new(alloc: Global, table: LyndonTable<R>) -> Result<Offering<R>, AllocError>
        ensures can { IfOk result (λ o. CanOffer o.table o.names.items o.kept.ring o.echelon 0) }
        ensures table { IfOk result (λ o. o.table ≡ table) }
        ensures rows { IfOk result (λ o. (o.echelon.numbers ≡ []) × (o.echelon.rows ≡ [])) }
        ensures count { IfOk result (λ o. (length o.names.items ≡ count_of table.columns) × (length o.names.items ≤ 1179648)) }
    {
        let columns = table.columns();
        let names = listing(alloc, columns.weight(), columns.depth())?;
        let kept = KeptProducts::new(alloc, *table.ring());
        let echelon = RowEchelon::new(alloc, *table.ring(), columns.len());
        Ok(Offering {
            table,
            names,
            kept,
            echelon,
        })
    }

    // Offers the row of the value of relation `n`. A value that is known to add nothing is neither converted nor offered.
    pub(crate) fn offer(&mut self, known: &mut KnownSums<R>, n: u32) -> Result<Traced<R>, WorkFault>
        requires can { CanOffer self.old.table self.old.names.items self.old.kept.ring self.old.echelon n }
        requires within { n < length self.old.names.items }
        requires known { Knows (R.modulus self.old.table.ring) (R.has self.old.table.ring) (R.value self.old.table.ring) self.old.table self.old.echelon.rows known.old }
        ensures can { OnOk result (CanOffer self.new.table self.new.names.items self.new.kept.ring self.new.echelon (suc n)) }
        ensures known { OnOk result (Knows (R.modulus self.old.table.ring) (R.has self.old.table.ring) (R.value self.old.table.ring) self.old.table self.new.echelon.rows known.new) }
        ensures table { (self.new.table ≡ self.old.table) × (self.new.names.items ≡ self.old.names.items) }
        ensures zero { IfOk result (λ traced. IfZero traced ((self.new.echelon.numbers ≡ self.old.echelon.numbers) × (self.new.echelon.rows ≡ self.old.echelon.rows))) }
        ensures accepted { IfOk result (λ traced. IfAccepted traced (λ row scale uses. (self.new.echelon.numbers ≡ self.old.echelon.numbers ++ n ∷ [])
            × (self.new.echelon.rows ≡ self.old.echelon.rows ++ row ∷ []) × (R.has self.old.table.ring scale ≡ true) × (scale ≢ R.zero)
            × AllIn (R.has self.old.table.ring) uses × AllIn (R.has self.old.table.ring) row)) }
        ensures offered { (course : Course) → HasOffered (R.modulus self.old.table.ring) (R.value self.old.table.ring) self.old.table.columns course n self.old.echelon.numbers self.old.echelon.rows
            → OnOk result (HasOffered (R.modulus self.old.table.ring) (R.value self.old.table.ring) self.old.table.columns course (suc n) self.new.echelon.numbers self.new.echelon.rows) }
        ensures made { (course : Course) → HasOffered (R.modulus self.old.table.ring) (R.value self.old.table.ring) self.old.table.columns course n self.old.echelon.numbers self.old.echelon.rows
            → IfOk result (λ traced. IfAccepted traced (λ row scale uses. IsMadeOf (R.modulus self.old.table.ring) self.old.table.columns course.work (suc n) (length self.old.echelon.rows)
            (row_at (R.value self.old.table.ring) self.old.echelon.rows) (entries_of (R.value self.old.table.ring) row)
            (entries_of (R.value self.old.table.ring) ((n, scale) ∷ [])) (used_at (R.value self.old.table.ring) self.old.echelon.numbers uses))) }
        ensures no_disk { ¬ (IsErrOf result WorkFault.DiskFault) }
        ensures fault { (course : Course) → HasOffered (R.modulus self.old.table.ring) (R.value self.old.table.ring) self.old.table.columns course n self.old.echelon.numbers self.old.echelon.rows
            → IfErr result (HasCauseIn ⊥ ⊥ (λ value k. (k ≡ n) × BreaksFirst (R.modulus self.old.table.ring) self.old.table.columns course.work.sums n value)) }
    {
        let sum = match value_sum(&self.table, &mut self.kept, &self.names[n as usize]) {
            Ok(sum) => sum,
            Err(fault) => return Err(WorkFault::Memory(fault)),
        };
        match known.passes(&self.table, &sum) {
            Ok(true) => return Ok(Traced::Zero),
            Ok(false) => {}
            Err(fault) => return Err(WorkFault::Memory(fault)),
        }
        let row = match row_of_value(&self.table, &sum) {
            Ok(row) => row,
            Err(fault) => return Err(WorkFault::Memory(fault)),
        };
        let traced = match self.echelon.offer(n, &row) {
            Ok(traced) => traced,
            Err(OfferFault::NoInverse { value, n }) => return Err(WorkFault::NoInverse {
                value,
                n,
            }),
            Err(OfferFault::Memory(fault)) => return Err(WorkFault::Memory(fault)),
        };
        let is_new = matches!(traced, Traced::Accepted { .. });
        match known.note(&self.table, &self.echelon, is_new) {
            Ok(()) => Ok(traced),
            Err(fault) => Err(WorkFault::Memory(fault)),
        }
    }
}

// The value of a name of the table's weight and depth.
fn value_sum<R: Ring>(
    table: &LyndonTable<R>,
    kept: &mut KeptProducts<R>,
    name: &RelName,
) -> Result<WordSum<R>, AllocError>
    requires kept_ring { kept.old.ring ≡ table.now.ring }
    requires is_name { IsTrue (is_name_of name.now) }
    requires weight { weight_of_name name.now ≡ table.now.columns.weight }
    requires depth { depth_of_name name.now ≤ table.now.columns.depth }
    ensures keeps_ring { kept.new.ring ≡ kept.old.ring }
    ensures value { IfOk result (IsSumOf R.zero (R.has table.now.ring) (R.value table.now.ring) (R.modulus table.now.ring) (value_of (R.modulus table.now.ring) name.now)) }
    ensures words { IfOk result (λ sum. All (IsTableWord table.now.columns.weight table.now.columns.depth) (keys_of sum)) }
{
    let sum = value_kept(kept, name)?;
    Ok(sum)
}

// The row of a sum of words of the table.
fn row_of_value<R: Ring>(table: &LyndonTable<R>, sum: &WordSum<R>) -> Result<Row<R>, AllocError>
    requires in_ring { AllTermsIn (R.has table.now.ring) sum.now }
    requires words { All (IsTableWord table.now.columns.weight table.now.columns.depth) (keys_of sum.now) }
    ensures cols { IfOk result (λ row. IsCols (R.modulus table.now.ring) table.now.columns (coefficient_of (R.value table.now.ring) sum.now)
        (entries_of (R.value table.now.ring) row)) }
    ensures below { IfOk result (IsBelow (λ k. k) (length table.now.columns.list)) }
    ensures in_ring { IfOk result (AllIn (R.has table.now.ring)) }
{
    match table.to_columns(sum) {
        Ok(row) => Ok(row),
        Err(OutFault::OutOfTable(_)) => unreachable!(),
        Err(OutFault::Memory(fault)) => Err(fault),
    }
}
