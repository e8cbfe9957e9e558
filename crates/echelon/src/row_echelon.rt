//! Elimination that tells, of each forward row, which earlier forward rows it was made of.
ghost use Rattle.std.specs.Prelude.{◌≡◌, ℕ, ◌+◌, ◌*◌, ◌%◌, ◌<◌, ◌≤◌, ◌↔◌, ◌∷◌, ◌++◌, true, List, [], length, get_or, All, IfOk, IfSome, IfNone, IsTrue, IsFalse, OnOk, OnErr, IsErrOf};
ghost use Rattle.zeta_model.specs.Modular.{Same};
ghost use Rattle.sparse_rows.specs.Entries.{AllIn, IsRow, IsBelow};
ghost use Rattle.echelon.specs.Lists.{entries_of, lead_of, row_at, lead_at, FitsColumns};
ghost use Rattle.echelon.specs.States.{Elimination, IsElimination, IsRowList};
ghost use Rattle.echelon.specs.Offers.{InSpanOf, HasNoInverse, TakesIn, IsNotForward, NamedBy, used_at};
ghost use Rattle.echelon.specs.Inner.{IsForwardAt, numbers_of, IsFoundRow, IsReducing};
ghost use Rattle.echelon.specs.Traces.{IfZero, IfAccepted, IsTrace};
ghost use Rattle.echelon.specs.Finishes.{SameSpanOf, AreUses};

use crate::fault::{OfferFault, RestoreFault};
use crate::finishing::{Reduction, reduced_rows};
use crate::offering::{FoundRow, found_row, is_forward_row, uses_of};
use crate::reduced_rows::ReducedRows;
use crate::reducing::reduced_quickly;
use crate::standing::{nothing_left, standing_rows};
use residues::Ring;
use sparse_rows::{Combination, Row};
use std::alloc::{AllocError, Global};
use std::marker::Model;

// Sweeps that leave nothing before the standing rows are made anew: about what making them costs.
const MANY: u32 = 32;

/// Forward rows in the order in which they were kept, each with the number of its relation.
#[derive(Drop)]
pub struct RowEchelon<R: Ring> {
    ring: R,
    columns: u32,
    above: u64,
    numbers: Vec<u32>,
    rows: Vec<Row<R>>,
    // By these a row of the span is mostly known without a sweep. They may stand for the rows of an earlier time.
    standing: Vec<Row<R>>,
    // The offers that were swept to nothing since they were made.
    wasted: u32,
}

impl<R: Ring> Model for RowEchelon<R> {
    ghost use Rattle.echelon.specs.States.{Elimination, IsElimination, elimination_code};
    ghost use Rattle.echelon.specs.Inner.{AllStand, AreWithin};

    ghost Value = { Elimination R R.Elem };

    ghost coded = { elimination_code R.code R.Elem.code };

    ghost view = { λ e. record { ring = e.ring; columns = e.columns; above = e.above; numbers = e.numbers.items; rows = e.rows.items } };

    ghost invariant = { λ e. IsElimination (R.modulus e.ring) (R.has e.ring) (R.value e.ring) R.zero e.columns e.above e.numbers.items e.rows.items
        × AreWithin (R.has e.ring) e.standing.items × AllStand (R.modulus e.ring) (R.value e.ring) e.rows.items e.standing.items };
}

/// What an offer found.
#[derive(Drop)]
pub enum Traced<R: Ring> {
    /// The row is in the span of those offered before.
    Zero,
    /// The forward row: `scale` times the offered row, plus the earlier forward rows with their residues in `uses`.
    Accepted {
        row: Row<R>,
        scale: R::Elem,
        uses: Combination<R>,
    },
}

/// The reduced list of the span, and of which forward rows each row is the sum.
#[derive(Drop)]
pub struct Uses<R: Ring> {
    pub rows: ReducedRows<R>,
    pub uses: Vec<Combination<R>>,
}

impl<R: Ring> RowEchelon<R> {
    /// No rows yet. It takes no memory.
    pub fn new(alloc: Global, ring: R, columns: u32) -> RowEchelon<R>
        requires { columns ≤ 2048 }
        ensures { result ≡ record { ring = ring; columns = columns; above = 0; numbers = []; rows = [] } }
    {
        RowEchelon {
            ring,
            columns,
            above: 0,
            numbers: Vec::new(alloc),
            rows: Vec::new(alloc),
            standing: Vec::new(alloc),
            wasted: 0,
        }
    }

    /// Offers the row of relation `n`, and keeps its forward row where it is not in the span of those before.
    pub fn offer(&mut self, n: u32, row: &Row<R>) -> Result<Traced<R>, OfferFault>
        requires number { self.old.above ≤ n }
        requires below { IsBelow (λ k. k) self.old.columns row.now }
        requires in_ring { AllIn (R.has self.old.ring) row.now }
        ensures zero { IfOk result (λ traced. IfZero traced (InSpanOf (R.modulus self.old.ring) (R.value self.old.ring) self.old.rows (entries_of (R.value self.old.ring) row.now)
            × (self.new ≡ record self.old { above = n + 1 }))) }
        ensures accepted { IfOk result (λ traced. IfAccepted traced (λ forward scale uses.
            ¬ (InSpanOf (R.modulus self.old.ring) (R.value self.old.ring) self.old.rows (entries_of (R.value self.old.ring) row.now))
            × IsTrace (R.modulus self.old.ring) (R.has self.old.ring) (R.value self.old.ring) R.zero self.old.columns self.old.numbers self.old.rows (entries_of (R.value self.old.ring) row.now) forward scale uses
            × (self.new ≡ record self.old { above = n + 1; numbers = self.old.numbers ++ n ∷ []; rows = self.old.rows ++ forward ∷ [] }))) }
        ensures span { OnOk result (TakesIn (R.modulus self.old.ring) (R.value self.old.ring) self.old.rows (entries_of (R.value self.old.ring) row.now) self.new.rows) }
        ensures no_inverse { (lead k : ℕ) → IsErrOf result (OfferFault.NoInverse lead k)
            → (k ≡ n) × HasNoInverse (R.modulus self.old.ring) (R.value self.old.ring) self.old.rows (entries_of (R.value self.old.ring) row.now) lead }
        ensures fits { OnOk result ((lead : ℕ) → ¬ (HasNoInverse (R.modulus self.old.ring) (R.value self.old.ring) self.old.rows (entries_of (R.value self.old.ring) row.now) lead)) }
        ensures err { OnErr result (self.new ≡ self.old) }
        ensures elimination { IsElimination (R.modulus self.old.ring) (R.has self.old.ring) (R.value self.old.ring) R.zero self.old.columns self.new.above self.new.numbers self.new.rows }
    {
        if self.is_known(row) {
            self.skip(n);
            return Ok(Traced::Zero);
        }
        let Some(found) = self.found(n, row)? else {
            self.renew();
            self.skip(n);
            return Ok(Traced::Zero);
        };
        let uses = match self.uses_of(&found) {
            Ok(uses) => uses,
            Err(fault) => return Err(OfferFault::Memory(fault)),
        };
        if let Err(fault) = self.keep(n, &found.row) {
            return Err(OfferFault::Memory(fault));
        }
        let FoundRow {
            row,
            scale,
            factors: _,
        } = found;
        Ok(Traced::Accepted { row, scale, uses })
    }

    /// Whether a row is known to be in the span, without a sweep.
    fn is_known(&self, row: &Row<R>) -> bool
        requires below { IsBelow (λ k. k) self.now.columns row.now }
        requires in_ring { AllIn (R.has self.now.ring) row.now }
        ensures known { IsTrue result → InSpanOf (R.modulus self.now.ring) (R.value self.now.ring) self.now.rows (entries_of (R.value self.now.ring) row.now) }
        ensures elimination { IsElimination (R.modulus self.now.ring) (R.has self.now.ring) (R.value self.now.ring) R.zero self.now.columns self.now.above self.now.numbers self.now.rows }
    {
        if self.standing.len() != self.columns as usize {
            return false;
        }
        nothing_left(*self.rows.allocator(), &self.ring, &self.standing, row)
    }

    /// Notes that a sweep left nothing, and makes the standing rows anew after many of these.
    fn renew(&mut self)
        ensures same { self.new ≡ self.old }
        ensures elimination { IsElimination (R.modulus self.old.ring) (R.has self.old.ring) (R.value self.old.ring) R.zero self.old.columns self.old.above self.old.numbers self.old.rows }
    {
        self.wasted = self.wasted.saturating_add(1);
        if self.wasted < MANY {
            return;
        }
        self.wasted = 0;
        let made = standing_rows(
            *self.rows.allocator(),
            &self.ring,
            self.columns as usize,
            &self.rows,
        );
        if let Ok(standing) = made {
            self.standing = standing;
        }
    }

    /// The ring.
    pub(crate) fn ring(&self) -> &R
        ensures { result.now ≡ self.now.ring }
    {
        &self.ring
    }

    /// The forward row of an offered row, None where it is in the span.
    pub(crate) fn found(&self, n: u32, row: &Row<R>) -> Result<Option<FoundRow<R>>, OfferFault>
        requires below { IsBelow (λ k. k) self.now.columns row.now }
        requires in_ring { AllIn (R.has self.now.ring) row.now }
        ensures zero { IfOk result (λ found. IfNone found (InSpanOf (R.modulus self.now.ring) (R.value self.now.ring) self.now.rows (entries_of (R.value self.now.ring) row.now))) }
        ensures found { IfOk result (λ found. IfSome found (λ f. IsFoundRow (R.modulus self.now.ring) (R.has self.now.ring) (R.value self.now.ring) R.zero self.now.columns self.now.rows (entries_of (R.value self.now.ring) row.now) f.row f.scale f.factors.items)) }
        ensures no_inverse { (lead k : ℕ) → IsErrOf result (OfferFault.NoInverse lead k)
            → (k ≡ n) × HasNoInverse (R.modulus self.now.ring) (R.value self.now.ring) self.now.rows (entries_of (R.value self.now.ring) row.now) lead }
        ensures elimination { IsElimination (R.modulus self.now.ring) (R.has self.now.ring) (R.value self.now.ring) R.zero self.now.columns self.now.above self.now.numbers self.now.rows }
    {
        found_row(
            *self.rows.allocator(),
            &self.ring,
            self.columns as usize,
            &self.rows,
            n,
            row,
        )
    }

    /// The factors of a forward row times its scale, by the numbers of the rows.
    fn uses_of(&self, found: &FoundRow<R>) -> Result<Combination<R>, AllocError>
        requires count { length found.now.factors.items ≡ length self.now.rows }
        requires in_ring { All (λ a. R.has self.now.ring a ≡ true) found.now.factors.items }
        requires has_scale { R.has self.now.ring found.now.scale ≡ true }
        ensures at { IfOk result (λ uses. (i : ℕ) → i < length self.now.numbers
            → used_at (R.value self.now.ring) self.now.numbers uses i ≡ R.value self.now.ring found.now.scale * numbers_of (R.value self.now.ring) found.now.factors.items i % R.modulus self.now.ring) }
        ensures named { IfOk result (NamedBy (R.value self.now.ring) self.now.numbers) }
        ensures in_ring { IfOk result (AllIn (R.has self.now.ring)) }
    {
        uses_of(
            *self.rows.allocator(),
            &self.ring,
            &self.numbers,
            &found.factors,
            found.scale,
        )
    }

    /// Notes that a row of that number was offered.
    pub(crate) fn skip(&mut self, n: u32)
        requires { self.old.above ≤ n }
        ensures skipped { self.new ≡ record self.old { above = n + 1 } }
        ensures elimination { IsElimination (R.modulus self.old.ring) (R.has self.old.ring) (R.value self.old.ring) R.zero self.old.columns self.new.above self.new.numbers self.new.rows }
    {
        self.above = n as u64 + 1;
    }

    /// Keeps a forward row behind the others.
    pub(crate) fn keep(&mut self, n: u32, row: &Row<R>) -> Result<(), AllocError>
        requires number { self.old.above ≤ n }
        requires fits { FitsColumns (R.has self.old.ring) R.zero self.old.columns row.now }
        requires one { Same (R.modulus self.old.ring) (entries_of (R.value self.old.ring) row.now (lead_of row.now)) 1 }
        requires clear { (k : ℕ) → k < length self.old.rows → Same (R.modulus self.old.ring) (entries_of (R.value self.old.ring) row.now (lead_at self.old.rows k)) 0 }
        ensures ok { OnOk result (self.new ≡ record self.old { above = n + 1; numbers = self.old.numbers ++ n ∷ []; rows = self.old.rows ++ row.now ∷ [] }) }
        ensures err { OnErr result (self.new ≡ self.old) }
        ensures elimination { IsElimination (R.modulus self.old.ring) (R.has self.old.ring) (R.value self.old.ring) R.zero self.old.columns self.new.above self.new.numbers self.new.rows }
    {
        self.numbers.reserve(1)?;
        self.rows.reserve(1)?;
        let copy = row.copy()?;
        self.numbers.push_reserved(n);
        self.rows.push_reserved(copy);
        self.above = n as u64 + 1;
        Ok(())
    }

    /// Puts a forward row back.
    pub fn restore(&mut self, n: u32, row: &Row<R>) -> Result<(), RestoreFault>
        requires below { IsBelow (λ k. k) self.old.columns row.now }
        requires in_ring { AllIn (R.has self.old.ring) row.now }
        ensures ok { OnOk result (self.new ≡ record self.old { above = n + 1; numbers = self.old.numbers ++ n ∷ []; rows = self.old.rows ++ row.now ∷ [] }) }
        ensures not_forward { IsErrOf result RestoreFault.NotForward ↔ IsNotForward (R.modulus self.old.ring) (R.value self.old.ring) self.old.above self.old.rows n row.now }
        ensures err { OnErr result (self.new ≡ self.old) }
        ensures elimination { IsElimination (R.modulus self.old.ring) (R.has self.old.ring) (R.value self.old.ring) R.zero self.old.columns self.new.above self.new.numbers self.new.rows }
    {
        if !self.is_forward(n, row) {
            return Err(RestoreFault::NotForward);
        }
        match self.keep(n, row) {
            Ok(()) => Ok(()),
            Err(fault) => Err(RestoreFault::Memory(fault)),
        }
    }

    /// Whether a row is a forward row behind those kept.
    pub(crate) fn is_forward(&self, n: u32, row: &Row<R>) -> bool
        requires { AllIn (R.has self.now.ring) row.now }
        ensures forward { IsTrue result → IsForwardAt (R.value self.now.ring) R.zero self.now.above self.now.rows n row.now }
        ensures not_forward { IsFalse result → IsNotForward (R.modulus self.now.ring) (R.value self.now.ring) self.now.above self.now.rows n row.now }
        ensures elimination { IsElimination (R.modulus self.now.ring) (R.has self.now.ring) (R.value self.now.ring) R.zero self.now.columns self.now.above self.now.numbers self.now.rows }
    {
        n as u64 >= self.above && is_forward_row(&self.ring, &self.rows, row)
    }

    /// The reduced list of the span of the forward rows, and for each of its rows the forward rows that it is the sum of.
    pub fn finish(&self) -> Result<Uses<R>, AllocError>
        ensures ok { IfOk result (λ finished. IsRowList (R.modulus self.now.ring) (R.has self.now.ring) (R.value self.now.ring) R.zero self.now.columns finished.rows.rows) }
        ensures ring { IfOk result (λ finished. finished.rows.ring ≡ self.now.ring) }
        ensures span { IfOk result (λ finished. SameSpanOf (R.modulus self.now.ring) (R.value self.now.ring) self.now.rows finished.rows.rows) }
        ensures uses { IfOk result (λ finished. AreUses (R.modulus self.now.ring) (R.has self.now.ring) (R.value self.now.ring) self.now.numbers self.now.rows finished.rows.rows finished.uses.items) }
    {
        let made = self.reduction()?;
        let Reduction { rows, uses } = made;
        Ok(Uses {
            rows: ReducedRows::of(*self.ring(), self.columns(), rows),
            uses,
        })
    }

    /// The reduced list of the span of the forward rows, as `finish` gives it.
    pub fn reduced(&self) -> Result<ReducedRows<R>, AllocError>
        ensures ok { IfOk result (λ list. IsRowList (R.modulus self.now.ring) (R.has self.now.ring) (R.value self.now.ring) R.zero self.now.columns list.rows) }
        ensures ring { IfOk result (λ list. list.ring ≡ self.now.ring) }
        ensures span { IfOk result (λ list. SameSpanOf (R.modulus self.now.ring) (R.value self.now.ring) self.now.rows list.rows) }
    {
        if let Some(rows) = self.quick()? {
            return Ok(ReducedRows::of(*self.ring(), self.columns(), rows));
        }
        let made = self.finish()?;
        let Uses { rows, uses: _ } = made;
        Ok(rows)
    }

    /// The reduced rows by rows that stand for columns, None where these are not seen to be a reduced list.
    fn quick(&self) -> Result<Option<Vec<Row<R>>>, AllocError>
        ensures list { IfOk result (λ made. IfSome made (λ list. IsRowList (R.modulus self.now.ring) (R.has self.now.ring) (R.value self.now.ring) R.zero self.now.columns list.items)) }
        ensures span { IfOk result (λ made. IfSome made (λ list. SameSpanOf (R.modulus self.now.ring) (R.value self.now.ring) self.now.rows list.items)) }
    {
        reduced_quickly(
            *self.rows.allocator(),
            &self.ring,
            self.columns as usize,
            &self.rows,
        )
    }

    /// The reduced rows, and of each the forward rows that it is the sum of.
    fn reduction(&self) -> Result<Reduction<R>, AllocError>
        ensures made { IfOk result (λ made. IsReducing (R.modulus self.now.ring) (R.has self.now.ring) (R.value self.now.ring) R.zero self.now.columns self.now.numbers self.now.rows self.now.columns made.rows.items made.uses.items) }
        ensures elimination { IsElimination (R.modulus self.now.ring) (R.has self.now.ring) (R.value self.now.ring) R.zero self.now.columns self.now.above self.now.numbers self.now.rows }
    {
        reduced_rows(
            *self.rows.allocator(),
            &self.ring,
            self.columns as usize,
            &self.numbers,
            &self.rows,
        )
    }

    /// The numbers of the kept rows.
    pub(crate) fn numbers(&self) -> &[u32]
        ensures numbers { result.now ≡ self.now.numbers }
        ensures count { length self.now.numbers ≡ length self.now.rows }
    {
        &self.numbers
    }

    /// The number of columns.
    fn columns(&self) -> u32
        ensures { result ≡ self.now.columns }
    {
        self.columns
    }
}
