//! Elimination with recorded combinations.
ghost use Rattle.std.specs.Prelude.{◌≡◌, ℕ, ◌+◌, ◌*◌, ◌<◌, ◌≤◌, ◌↔◌, ◌∷◌, ◌++◌, true, List, [], length, get_or, IfOk, IfSome, IfNone, OnOk, OnErr, IsErrOf, IsTrue, IsFalse, All};
ghost use Rattle.zeta_model.specs.Modular.{Same};
ghost use Rattle.linear_model.specs.Rows.{SameRow};
ghost use Rattle.sparse_rows.specs.Entries.{AllIn, IsRow, IsBelow};
ghost use Rattle.echelon.specs.Lists.{entries_of, lead_of, row_at, lead_at, FitsColumns};
ghost use Rattle.echelon.specs.States.{Recorded, IsElimination, IsRowList, AllIns};
ghost use Rattle.echelon.specs.Offers.{InSpanOf, HasNoInverse, TakesIn, IsNotForward, IsValueOf, IsCombined};
ghost use Rattle.echelon.specs.Inner.{IsForwardAt, numbers_of, IsFoundRow, IsEvaluated};
ghost use Rattle.echelon.specs.Answers.{WhereZero, WhereAccepted, IsRecorded};
ghost use Rattle.echelon.specs.Finishes.{SameSpanOf, AreRecorded, AreUses};

use crate::combining::combined;
use crate::evaluating::all_evaluated;
use crate::fault::{OfferFault, RestoreFault};
use crate::offering::FoundRow;
use crate::reduced_rows::ReducedRows;
use crate::row_echelon::{RowEchelon, Uses};
use residues::Ring;
use sparse_rows::{Combination, Row};
use std::alloc::{AllocError, Global};
use std::marker::Model;

/// Forward rows in the order in which they were kept, each with the number of its relation and its combination of relations.
#[derive(Drop)]
pub struct Echelon<R: Ring> {
    core: RowEchelon<R>,
    combinations: Vec<Combination<R>>,
}

impl<R: Ring> Model for Echelon<R> {
    ghost use Rattle.std.specs.Prelude.{◌≡◌, length};
    ghost use Rattle.echelon.specs.States.{Recorded, AllIns, recorded_code};

    ghost Value = { Recorded R R.Elem };

    ghost coded = { recorded_code R.code R.Elem.code };

    ghost view = { λ e. record { core = e.core; combinations = e.combinations.items } };

    ghost invariant = { λ e. (length e.combinations.items ≡ length e.core.rows) × AllIns (R.has e.core.ring) e.combinations.items };
}

/// What an offer found.
#[derive(Drop)]
pub enum Offered<R: Ring> {
    /// The row is in the span of those offered before.
    Zero,
    /// The forward row, and the combination of relations whose value it is.
    Accepted {
        row: Row<R>,
        combination: Combination<R>,
    },
}

/// The reduced list of the span, and the combination of relations whose value each row is.
#[derive(Drop)]
pub struct Finished<R: Ring> {
    pub rows: ReducedRows<R>,
    pub combinations: Vec<Combination<R>>,
}

impl<R: Ring> Echelon<R> {
    /// No rows yet. It takes no memory.
    pub fn new(alloc: Global, ring: R, columns: u32) -> Echelon<R>
        requires { columns ≤ 2048 }
        ensures { result ≡ record { core = record { ring = ring; columns = columns; above = 0; numbers = []; rows = [] }; combinations = [] } }
    {
        Echelon {
            core: RowEchelon::new(alloc, ring, columns),
            combinations: Vec::new(alloc),
        }
    }

    /// Offers the row of relation `n`, and keeps its forward row and combination where it is not in the span of those before.
    pub fn offer(&mut self, n: u32, row: &Row<R>) -> Result<Offered<R>, OfferFault>
        requires number { self.old.core.above ≤ n }
        requires below { IsBelow (λ k. k) self.old.core.columns row.now }
        requires in_ring { AllIn (R.has self.old.core.ring) row.now }
        ensures zero { IfOk result (λ offered. WhereZero offered (InSpanOf (R.modulus self.old.core.ring) (R.value self.old.core.ring) self.old.core.rows (entries_of (R.value self.old.core.ring) row.now)
            × (self.new ≡ record self.old { core = record self.old.core { above = n + 1 } }))) }
        ensures accepted { IfOk result (λ offered. WhereAccepted offered (λ forward combination.
            ¬ (InSpanOf (R.modulus self.old.core.ring) (R.value self.old.core.ring) self.old.core.rows (entries_of (R.value self.old.core.ring) row.now))
            × IsRecorded (R.modulus self.old.core.ring) (R.has self.old.core.ring) (R.value self.old.core.ring) R.zero self.old.core.columns self.old.core.rows self.old.combinations n (entries_of (R.value self.old.core.ring) row.now) forward combination
            × (self.new ≡ record {
              core = record self.old.core { above = n + 1; numbers = self.old.core.numbers ++ n ∷ []; rows = self.old.core.rows ++ forward ∷ [] };
              combinations = self.old.combinations ++ combination ∷ [];
            }))) }

        // Where each kept row is the value of its combination, so is the new one.
        ensures value { IfOk result (λ offered. WhereAccepted offered (λ forward combination. (count : ℕ) (relations : ℕ → ℕ → ℕ) → n < count
            → ((i : ℕ) → i < length self.old.core.rows → IsValueOf (R.modulus self.old.core.ring) (R.value self.old.core.ring) count relations (get_or self.old.combinations i []) (row_at (R.value self.old.core.ring) self.old.core.rows i))
            → SameRow (R.modulus self.old.core.ring) (relations n) (entries_of (R.value self.old.core.ring) row.now)
            → IsValueOf (R.modulus self.old.core.ring) (R.value self.old.core.ring) count relations combination (entries_of (R.value self.old.core.ring) forward))) }
        ensures span { OnOk result (TakesIn (R.modulus self.old.core.ring) (R.value self.old.core.ring) self.old.core.rows (entries_of (R.value self.old.core.ring) row.now) self.new.core.rows) }
        ensures no_inverse { (lead k : ℕ) → IsErrOf result (OfferFault.NoInverse lead k)
            → (k ≡ n) × HasNoInverse (R.modulus self.old.core.ring) (R.value self.old.core.ring) self.old.core.rows (entries_of (R.value self.old.core.ring) row.now) lead }
        ensures fits { OnOk result ((lead : ℕ) → ¬ (HasNoInverse (R.modulus self.old.core.ring) (R.value self.old.core.ring) self.old.core.rows (entries_of (R.value self.old.core.ring) row.now) lead)) }
        ensures err { OnErr result (self.new ≡ self.old) }
        ensures elimination { IsElimination (R.modulus self.old.core.ring) (R.has self.old.core.ring) (R.value self.old.core.ring) R.zero self.old.core.columns self.new.core.above self.new.core.numbers self.new.core.rows }
    {
        let Some(found) = self.found(n, row)? else {
            self.skip(n);
            return Ok(Offered::Zero);
        };
        let combination = match self.combined(n, &found) {
            Ok(combination) => combination,
            Err(fault) => return Err(OfferFault::Memory(fault)),
        };
        if let Err(fault) = self.keep(n, &found.row, &combination) {
            return Err(OfferFault::Memory(fault));
        }
        let FoundRow {
            row,
            scale: _,
            factors: _,
        } = found;
        Ok(Offered::Accepted { row, combination })
    }

    /// The forward row of an offered row, None where it is in the span.
    fn found(&self, n: u32, row: &Row<R>) -> Result<Option<FoundRow<R>>, OfferFault>
        requires below { IsBelow (λ k. k) self.now.core.columns row.now }
        requires in_ring { AllIn (R.has self.now.core.ring) row.now }
        ensures zero { IfOk result (λ found. IfNone found (InSpanOf (R.modulus self.now.core.ring) (R.value self.now.core.ring) self.now.core.rows (entries_of (R.value self.now.core.ring) row.now))) }
        ensures found { IfOk result (λ found. IfSome found (λ f. IsFoundRow (R.modulus self.now.core.ring) (R.has self.now.core.ring) (R.value self.now.core.ring) R.zero self.now.core.columns self.now.core.rows (entries_of (R.value self.now.core.ring) row.now) f.row f.scale f.factors.items)) }
        ensures no_inverse { (lead k : ℕ) → IsErrOf result (OfferFault.NoInverse lead k)
            → (k ≡ n) × HasNoInverse (R.modulus self.now.core.ring) (R.value self.now.core.ring) self.now.core.rows (entries_of (R.value self.now.core.ring) row.now) lead }
        ensures elimination { IsElimination (R.modulus self.now.core.ring) (R.has self.now.core.ring) (R.value self.now.core.ring) R.zero self.now.core.columns self.now.core.above self.now.core.numbers self.now.core.rows }
    {
        self.core.found(n, row)
    }

    /// Notes that a row of that number was offered.
    fn skip(&mut self, n: u32)
        requires { self.old.core.above ≤ n }
        ensures skipped { self.new ≡ record self.old { core = record self.old.core { above = n + 1 } } }
        ensures elimination { IsElimination (R.modulus self.old.core.ring) (R.has self.old.core.ring) (R.value self.old.core.ring) R.zero self.old.core.columns self.new.core.above self.new.core.numbers self.new.core.rows }
    {
        self.core.skip(n);
    }

    /// The combination of a forward row.
    fn combined(&self, n: u32, found: &FoundRow<R>) -> Result<Combination<R>, AllocError>
        requires count { length found.now.factors.items ≡ length self.now.core.rows }
        requires in_ring { All (λ a. R.has self.now.core.ring a ≡ true) found.now.factors.items }
        requires has_scale { R.has self.now.core.ring found.now.scale ≡ true }
        ensures combined { IfOk result (IsCombined (R.modulus self.now.core.ring) (R.value self.now.core.ring) self.now.combinations n (R.value self.now.core.ring found.now.scale)
            (λ i. R.value self.now.core.ring found.now.scale * numbers_of (R.value self.now.core.ring) found.now.factors.items i)) }
        ensures in_ring { IfOk result (AllIn (R.has self.now.core.ring)) }
        ensures count { length self.now.combinations ≡ length self.now.core.rows }
    {
        combined(
            *self.combinations.allocator(),
            self.core.ring(),
            &self.combinations,
            n,
            found.scale,
            &found.factors,
        )
    }

    /// Keeps a forward row and its combination behind the others.
    fn keep(&mut self, n: u32, row: &Row<R>, combination: &Combination<R>) -> Result<(), AllocError>
        requires number { self.old.core.above ≤ n }
        requires fits { FitsColumns (R.has self.old.core.ring) R.zero self.old.core.columns row.now }
        requires one { Same (R.modulus self.old.core.ring) (entries_of (R.value self.old.core.ring) row.now (lead_of row.now)) 1 }
        requires clear { (k : ℕ) → k < length self.old.core.rows → Same (R.modulus self.old.core.ring) (entries_of (R.value self.old.core.ring) row.now (lead_at self.old.core.rows k)) 0 }
        requires in_ring { AllIn (R.has self.old.core.ring) combination.now }
        ensures ok { OnOk result (self.new ≡ record {
          core = record self.old.core { above = n + 1; numbers = self.old.core.numbers ++ n ∷ []; rows = self.old.core.rows ++ row.now ∷ [] };
          combinations = self.old.combinations ++ combination.now ∷ [];
        }) }
        ensures err { OnErr result (self.new ≡ self.old) }
        ensures elimination { OnOk result (IsElimination (R.modulus self.old.core.ring) (R.has self.old.core.ring) (R.value self.old.core.ring) R.zero self.old.core.columns self.new.core.above self.new.core.numbers self.new.core.rows) }
    {
        self.combinations.reserve(1)?;
        let copy = combination.copy()?;
        self.core.keep(n, row)?;
        self.combinations.push_reserved(copy);
        Ok(())
    }

    /// Puts a forward row and its combination back.
    pub fn restore(
        &mut self,
        n: u32,
        row: &Row<R>,
        combination: &Combination<R>,
    ) -> Result<(), RestoreFault>
        requires below { IsBelow (λ k. k) self.old.core.columns row.now }
        requires in_ring { AllIn (R.has self.old.core.ring) row.now }
        requires combination_in_ring { AllIn (R.has self.old.core.ring) combination.now }
        ensures ok { OnOk result (self.new ≡ record {
          core = record self.old.core { above = n + 1; numbers = self.old.core.numbers ++ n ∷ []; rows = self.old.core.rows ++ row.now ∷ [] };
          combinations = self.old.combinations ++ combination.now ∷ [];
        }) }
        ensures not_forward { IsErrOf result RestoreFault.NotForward ↔ IsNotForward (R.modulus self.old.core.ring) (R.value self.old.core.ring) self.old.core.above self.old.core.rows n row.now }
        ensures err { OnErr result (self.new ≡ self.old) }
        ensures elimination { IsElimination (R.modulus self.old.core.ring) (R.has self.old.core.ring) (R.value self.old.core.ring) R.zero self.old.core.columns self.new.core.above self.new.core.numbers self.new.core.rows }
    {
        if !self.is_forward(n, row) {
            return Err(RestoreFault::NotForward);
        }
        match self.keep(n, row, combination) {
            Ok(()) => Ok(()),
            Err(fault) => Err(RestoreFault::Memory(fault)),
        }
    }

    /// Whether a row is a forward row behind those kept.
    fn is_forward(&self, n: u32, row: &Row<R>) -> bool
        requires { AllIn (R.has self.now.core.ring) row.now }
        ensures forward { IsTrue result → IsForwardAt (R.value self.now.core.ring) R.zero self.now.core.above self.now.core.rows n row.now }
        ensures not_forward { IsFalse result → IsNotForward (R.modulus self.now.core.ring) (R.value self.now.core.ring) self.now.core.above self.now.core.rows n row.now }
        ensures elimination { IsElimination (R.modulus self.now.core.ring) (R.has self.now.core.ring) (R.value self.now.core.ring) R.zero self.now.core.columns self.now.core.above self.now.core.numbers self.now.core.rows }
    {
        self.core.is_forward(n, row)
    }

    /// The reduced list of the span of the forward rows, and the combination of relations whose value each of its rows is.
    pub fn finish(&self) -> Result<Finished<R>, AllocError>
        ensures ok { IfOk result (λ finished. IsRowList (R.modulus self.now.core.ring) (R.has self.now.core.ring) (R.value self.now.core.ring) R.zero self.now.core.columns finished.rows.rows) }
        ensures ring { IfOk result (λ finished. finished.rows.ring ≡ self.now.core.ring) }
        ensures span { IfOk result (λ finished. SameSpanOf (R.modulus self.now.core.ring) (R.value self.now.core.ring) self.now.core.rows finished.rows.rows) }
        ensures sums { IfOk result (λ finished. AreRecorded (R.modulus self.now.core.ring) (R.has self.now.core.ring) (R.value self.now.core.ring) self.now.core.rows self.now.combinations finished.rows.rows finished.combinations.items) }
    {
        let made = self.uses()?;
        let Uses { rows, uses } = made;
        let combinations = self.evaluated(&uses)?;
        Ok(Finished { rows, combinations })
    }

    /// The reduced list, and of which forward rows each row is the sum.
    fn uses(&self) -> Result<Uses<R>, AllocError>
        ensures ok { IfOk result (λ finished. IsRowList (R.modulus self.now.core.ring) (R.has self.now.core.ring) (R.value self.now.core.ring) R.zero self.now.core.columns finished.rows.rows) }
        ensures ring { IfOk result (λ finished. finished.rows.ring ≡ self.now.core.ring) }
        ensures span { IfOk result (λ finished. SameSpanOf (R.modulus self.now.core.ring) (R.value self.now.core.ring) self.now.core.rows finished.rows.rows) }
        ensures uses { IfOk result (λ finished. AreUses (R.modulus self.now.core.ring) (R.has self.now.core.ring) (R.value self.now.core.ring) self.now.core.numbers self.now.core.rows finished.rows.rows finished.uses.items) }
    {
        self.core.finish()
    }

    /// The combinations of sums of forward rows.
    fn evaluated(&self, uses: &[Combination<R>]) -> Result<Vec<Combination<R>>, AllocError>
        requires in_ring { AllIns (R.has self.now.core.ring) uses.now }
        ensures count { IfOk result (λ sums. length sums.items ≡ length uses.now) }
        ensures sums { IfOk result (λ sums. (j : ℕ) → j < length sums.items → IsEvaluated (R.modulus self.now.core.ring) (R.has self.now.core.ring) (R.value self.now.core.ring) self.now.core.numbers self.now.combinations (get_or uses.now j []) (get_or sums.items j [])) }
    {
        all_evaluated(
            *self.combinations.allocator(),
            self.core.ring(),
            self.core.numbers(),
            &self.combinations,
            uses,
        )
    }
}
