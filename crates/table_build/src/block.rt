//! The relations of a block, and their forward rows.
ghost use Rattle.std.specs.Prelude.{◌≡◌, ◌≢◌, ℕ, suc, ◌+◌, ◌*◌, ◌<◌, ◌≤◌, ◌∷◌, ◌++◌, [], true, IsErrOf, IfOk, IfErr, OnOk, length, get_or, List};
ghost use Rattle.sparse_rows.specs.Entries.{AllIn};
ghost use Rattle.echelon.specs.Lists.{entries_of, row_at};
ghost use Rattle.echelon.specs.Offers.{used_at};
ghost use Rattle.echelon.specs.Traces.{IfZero, IfAccepted};
ghost use Rattle.table_model.specs.ReducedRows.{BreaksFirst};
ghost use Rattle.known_sums.specs.Known.{Knows};
ghost use Rattle.table_build.specs.Faults.{HasCauseIn};
ghost use Rattle.table_build.specs.Inner.{Course, CanOffer, HasOffered, AreRows, AreSums, AreFresh};

use crate::fault::WorkFault;
use crate::offering::Offering;
use echelon::Traced;
use known_sums::KnownSums;
use residues::Ring;
use sparse_rows::{Combination, Row};
use std::alloc::{AllocError, Global};

// Forward rows by increasing number of their relations, with these numbers.
#[derive(Drop)]
pub(crate) struct KeptRows<R: Ring> {
    pub(crate) numbers: Vec<u32>,
    pub(crate) rows: Vec<Row<R>>,
}

// The forward rows of a block that is not sealed. The combination of a row is its start, plus those of the earlier rows, each as often as its
// uses say.
#[derive(Drop)]
pub(crate) struct Block<R: Ring> {
    pub(crate) kept: KeptRows<R>,
    pub(crate) starts: Vec<Combination<R>>,
    pub(crate) uses: Vec<Combination<R>>,
}

impl<R: Ring> KeptRows<R> {
    // No rows. It takes no memory.
    pub(crate) fn none(alloc: Global) -> KeptRows<R>
        ensures { (result.numbers.items ≡ []) × (result.rows.items ≡ []) }
    {
        KeptRows {
            numbers: Vec::new(alloc),
            rows: Vec::new(alloc),
        }
    }

    // Puts a row behind the others.
    pub(crate) fn push(&mut self, number: u32, row: Row<R>) -> Result<(), AllocError>
        ensures { OnOk result ((self.new.numbers.items ≡ self.old.numbers.items ++ number ∷ []) × (self.new.rows.items ≡ self.old.rows.items ++ row ∷ [])) }
    {
        self.numbers.push(number)?;
        self.rows.push(row)?;
        Ok(())
    }

    // Puts other rows behind these.
    pub(crate) fn append(&mut self, mut others: KeptRows<R>) -> Result<(), AllocError>
        ensures { OnOk result ((self.new.numbers.items ≡ self.old.numbers.items ++ others.numbers.items) × (self.new.rows.items ≡ self.old.rows.items ++ others.rows.items)) }
    {
        self.numbers.append(&mut others.numbers)?;
        self.rows.append(&mut others.rows)?;
        Ok(())
    }
}

impl<R: Ring> Block<R> {
    // No rows. It takes no memory.
    fn none(alloc: Global) -> Block<R>
        ensures { (result.kept.numbers.items ≡ []) × (result.kept.rows.items ≡ []) × (result.starts.items ≡ []) × (result.uses.items ≡ []) }
    {
        Block {
            kept: KeptRows::none(alloc),
            starts: Vec::new(alloc),
            uses: Vec::new(alloc),
        }
    }

    // Takes the forward row of relation `n`, if there is one.
    fn take(&mut self, alloc: Global, n: u32, traced: Traced<R>) -> Result<(), AllocError>
        requires some { IfAccepted traced (λ row scale uses. scale ≢ R.zero) }
        ensures zero { OnOk result (IfZero traced ((self.new.kept.numbers.items ≡ self.old.kept.numbers.items) × (self.new.kept.rows.items ≡ self.old.kept.rows.items)
            × (self.new.starts.items ≡ self.old.starts.items) × (self.new.uses.items ≡ self.old.uses.items))) }
        ensures accepted { OnOk result (IfAccepted traced (λ row scale uses. (self.new.kept.numbers.items ≡ self.old.kept.numbers.items ++ n ∷ [])
            × (self.new.kept.rows.items ≡ self.old.kept.rows.items ++ row ∷ []) × (self.new.starts.items ≡ self.old.starts.items ++ ((n, scale) ∷ []) ∷ [])
            × (self.new.uses.items ≡ self.old.uses.items ++ uses ∷ []))) }
    {
        match traced {
            Traced::Zero => Ok(()),
            Traced::Accepted { row, scale, uses } => {
                let mut start = Combination::zero(alloc);
                start.push(n, scale)?;
                self.kept.push(n, row)?;
                self.starts.push(start)?;
                self.uses.push(uses)?;
                Ok(())
            }
        }
    }
}

// Offers the relations from `first` to below `end`, and answers the forward rows that they give.
pub(crate) fn offer_block<R: Ring>(
    alloc: Global,
    offering: &mut Offering<R>,
    known: &mut KnownSums<R>,
    first: u32,
    end: u32,
) -> Result<Block<R>, WorkFault>
    requires can { CanOffer offering.old.table offering.old.names.items offering.old.kept.ring offering.old.echelon first }
    requires order { first ≤ end }
    requires within { end ≤ length offering.old.names.items }
    requires known { Knows (R.modulus offering.old.table.ring) (R.has offering.old.table.ring) (R.value offering.old.table.ring) offering.old.table offering.old.echelon.rows known.old }
    ensures can { OnOk result (CanOffer offering.new.table offering.new.names.items offering.new.kept.ring offering.new.echelon end) }
    ensures known { OnOk result (Knows (R.modulus offering.old.table.ring) (R.has offering.old.table.ring) (R.value offering.old.table.ring) offering.old.table offering.new.echelon.rows known.new) }
    ensures table { (offering.new.table ≡ offering.old.table) × (offering.new.names.items ≡ offering.old.names.items) }
    ensures numbers { IfOk result (λ block. offering.new.echelon.numbers ≡ offering.old.echelon.numbers ++ block.kept.numbers.items) }
    ensures rows { IfOk result (λ block. offering.new.echelon.rows ≡ offering.old.echelon.rows ++ block.kept.rows.items) }
    ensures sums { IfOk result (λ block. AreSums (R.has offering.old.table.ring) (length block.kept.numbers.items) block.uses.items block.starts.items) }
    ensures placed { IfOk result (λ block. AreRows (R.has offering.old.table.ring) end block.kept.numbers.items block.kept.rows.items) }
    ensures behind { IfOk result (λ block. (i : ℕ) → i < length block.kept.numbers.items → first ≤ get_or block.kept.numbers.items i 0) }
    ensures offered { (course : Course) → HasOffered (R.modulus offering.old.table.ring) (R.value offering.old.table.ring) offering.old.table.columns course first offering.old.echelon.numbers offering.old.echelon.rows
        → OnOk result (HasOffered (R.modulus offering.old.table.ring) (R.value offering.old.table.ring) offering.old.table.columns course end offering.new.echelon.numbers offering.new.echelon.rows) }
    ensures fresh { (course : Course) → HasOffered (R.modulus offering.old.table.ring) (R.value offering.old.table.ring) offering.old.table.columns course first offering.old.echelon.numbers offering.old.echelon.rows
        → IfOk result (λ block. AreFresh (R.modulus offering.old.table.ring) (R.value offering.old.table.ring) offering.old.table.columns course.work
        (length offering.old.echelon.numbers) offering.new.echelon.numbers offering.new.echelon.rows block.uses.items block.starts.items) }
    ensures no_disk { ¬ (IsErrOf result WorkFault.DiskFault) }
    ensures fault { (course : Course) → HasOffered (R.modulus offering.old.table.ring) (R.value offering.old.table.ring) offering.old.table.columns course first offering.old.echelon.numbers offering.old.echelon.rows
        → IfErr result (HasCauseIn ⊥ ⊥ (λ value n. (first ≤ n) × (n < end) × BreaksFirst (R.modulus offering.old.table.ring) offering.old.table.columns course.work.sums n value)) }
{
    let mut block = Block::none(alloc);
    for n in first..end {
        let traced = match offering.offer(known, n) {
            Ok(traced) => traced,
            Err(fault) => return Err(fault),
        };
        if let Err(fault) = block.take(alloc, n, traced) {
            return Err(WorkFault::Memory(fault));
        }
    }
    Ok(block)
}
