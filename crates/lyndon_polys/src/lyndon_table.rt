//! Tables that convert words and columns.
ghost use Rattle.std.specs.Prelude.{◌≡◌, ℕ, ◌+◌, ◌*◌, ◌%◌, ◌<◌, ◌≤◌, ◌↔◌, true, List, length, All, IfOk, OnOk, IsErrOf};
ghost use Rattle.std.specs.Map.{keys_of};
ghost use Rattle.zeta_model.specs.declared.Letter.{Letter};
ghost use Rattle.zeta_model.specs.Inverses.{HasInverse};
ghost use Rattle.word_sums.specs.Terms.{coefficient_of, AllIn as AllTermsIn};
ghost use Rattle.word_sums.specs.Failing.{failing, IsLeast};
ghost use Rattle.word_sums.specs.Sums.{IsSum, IsSumOf};
ghost use Rattle.sparse_rows.specs.Entries.{AllIn, IsRow, IsBelow};
ghost use Rattle.table_model.specs.MonomialWords.{words_of_row};
ghost use Rattle.table_model.specs.Conversion.{IsTable, IsTableWord, Converts, IsCols};
ghost use Rattle.table_model.specs.Faults.{IsNotInvertible};
ghost use Rattle.lyndon_polys.specs.Tables.{entries_of, is_table_word};

use crate::fault::{LyndonFault, OutFault};
use crate::rows_by_word::WordRows;
use crate::shuffles::shuffled;
use crate::table_words::TableWords;
use crate::units::first_fault;
use crate::word_rows::{row_of_sum, word_rows};
use column_order::Columns;
use residues::Ring;
use sparse_rows::Row;
use std::alloc::{AllocError, Global};
use std::marker::Model;
use word_letters::Word;
use word_sums::WordSum;

/// A ring, columns, and the row of each word of their weight and depth.
#[derive(Drop)]
pub struct LyndonTable<R: Ring> {
    ring: R,
    columns: Columns,
    rows: WordRows<R>,
}

impl<R: Ring> Model for LyndonTable<R> {
    ghost use Rattle.lyndon_polys.specs.Tables.{RingTable};
    ghost use Rattle.table_model.specs.Conversion.{IsTable, Converts};
    ghost use Rattle.lyndon_polys.specs.Inner.{AreAllWordRows};

    ghost Value = { RingTable R };

    ghost view = { λ t. record { ring = t.ring; columns = t.columns } };

    ghost invariant = { λ t. IsTable (R.modulus t.ring) t.columns × Converts (R.modulus t.ring) t.columns
        × AreAllWordRows (R.modulus t.ring) (R.has t.ring) (R.value t.ring) t.columns t.rows };
}

impl<R: Ring> LyndonTable<R> {
    /// The table of a ring and columns.
    ///
    /// `NoInverse { value, word }` exactly where the coefficient of `word` in the shuffle of its Lyndon factors is `value` modulo the
    /// modulus and has no inverse, the first such word in increasing order. Then some number from 2 to the weight has none. `Memory`
    /// where memory is wanting.
    pub fn new(alloc: Global, ring: R, columns: Columns) -> Result<LyndonTable<R>, LyndonFault>
        ensures ring { IfOk result (λ table. table.ring ≡ ring) }
        ensures columns { IfOk result (λ table. table.columns ≡ columns) }
        ensures converts { OnOk result (Converts (R.modulus ring) columns) }
        ensures no_inverse { (value : ℕ) (word : List Letter) → IsErrOf result (LyndonFault.NoInverse value word)
            ↔ IsNotInvertible (R.modulus ring) columns word value }
        ensures number { (value : ℕ) (word : List Letter) → IsErrOf result (LyndonFault.NoInverse value word)
            → (n : ℕ) × (2 ≤ n) × (n ≤ columns.weight) × ¬ (HasInverse (R.modulus ring) n) }
    {
        is_table(&ring, &columns);
        if let Some(fault) = first_fault(&ring, &columns) {
            return Err(LyndonFault::NoInverse {
                value: fault.0,
                word: fault.1,
            });
        }
        match word_rows(alloc, &ring, &columns) {
            Ok(rows) => Ok(LyndonTable {
                ring,
                columns,
                rows,
            }),
            Err(fault) => Err(LyndonFault::Memory(fault)),
        }
    }

    /// The ring.
    pub fn ring(&self) -> &R
        ensures { result.now ≡ self.now.ring }
    {
        &self.ring
    }

    /// The columns.
    pub fn columns(&self) -> &Columns
        ensures columns { result.now ≡ self.now.columns }
        ensures table { IsTable (R.modulus self.now.ring) self.now.columns }
        ensures converts { Converts (R.modulus self.now.ring) self.now.columns }
    {
        &self.columns
    }

    /// The row of a sum: the only one with its words.
    ///
    /// `OutOfTable(w)` exactly where a word of the sum is not admissible, has not the weight of the columns or is deeper than they may
    /// be, and `w` is the least such word. `Memory` where memory is wanting.
    pub fn to_columns(&self, s: &WordSum<R>) -> Result<Row<R>, OutFault>
        requires { AllTermsIn (R.has self.now.ring) s.now }
        ensures cols { IfOk result (λ row. IsCols (R.modulus self.now.ring) self.now.columns (coefficient_of (R.value self.now.ring) s.now)
            (entries_of (R.value self.now.ring) row)) }
        ensures row { IfOk result (IsRow (λ k. k) R.zero 0) }
        ensures below { IfOk result (IsBelow (λ k. k) (length self.now.columns.list)) }
        ensures in_ring { IfOk result (AllIn (R.has self.now.ring)) }
        ensures fits { OnOk result (All (IsTableWord self.now.columns.weight self.now.columns.depth) (keys_of s.now)) }
        ensures out_of_table { (w : List Letter) → IsErrOf result (OutFault.OutOfTable w)
            ↔ IsLeast (failing (is_table_word self.now.columns.weight self.now.columns.depth) s.now) w }
    {
        let table_words = TableWords {
            weight: self.columns.weight(),
            depth: self.columns.depth(),
        };
        if let Some(word) = s.least_failing(&table_words) {
            return Err(OutFault::OutOfTable(word));
        }
        let alloc = self.rows.allocator();
        let one = self.ring.one();
        let none = Vec::new(alloc);
        match row_of_sum(alloc, &self.ring, &self.columns, &self.rows, &none, one, s) {
            Ok(row) => Ok(row),
            Err(fault) => Err(OutFault::Memory(fault)),
        }
    }

    /// The words of a row: the sum over the columns of the residue times the shuffle of the column's factors.
    pub fn to_words(&self, row: &Row<R>) -> Result<WordSum<R>, AllocError>
        requires below { IsBelow (λ k. k) (length self.now.columns.list) row.now }
        requires in_ring { AllIn (R.has self.now.ring) row.now }
        ensures value { IfOk result (IsSumOf R.zero (R.has self.now.ring) (R.value self.now.ring) (R.modulus self.now.ring)
            (words_of_row self.now.columns.list (entries_of (R.value self.now.ring) row.now))) }
    {
        let alloc = self.rows.allocator();
        let mut sum = WordSum::new(alloc);
        let mut rest = row.entries();
        while let Some((entry, behind)) = rest.split_first() {
            let words = shuffled(alloc, &self.ring, self.columns.at(entry.0 as u32))?;
            add_multiple(&mut sum, &self.ring, entry.1, &words)?;
            rest = behind;
        }
        Ok(sum)
    }
}

/// Adds `c` times each term of another sum in turn. After want of memory only some of them are added.
fn add_multiple<R: Ring>(
    sum: &mut WordSum<R>,
    ring: &R,
    c: R::Elem,
    other: &WordSum<R>,
) -> Result<(), AllocError>
    requires sum { IsSum R.zero (R.has ring.now) sum.old }
    requires other_in_ring { AllTermsIn (R.has ring.now) other.now }
    requires has_c { R.has ring.now c ≡ true }
    ensures ok { OnOk result ((t : List Letter) → coefficient_of (R.value ring.now) sum.new t
        ≡ (coefficient_of (R.value ring.now) sum.old t + R.value ring.now c * coefficient_of (R.value ring.now) other.now t) % R.modulus ring.now) }
    ensures sum { IsSum R.zero (R.has ring.now) sum.new }
{
    for (word, residue) in other.iter() {
        sum.add_term(ring, *word, ring.mul(c, *residue))?;
    }
    Ok(())
}

/// A ring and columns are those of a table. It does nothing when it is called.
fn is_table<R: Ring>(_ring: &R, columns: &Columns)
    ensures { IsTable (R.modulus _ring.now) columns.now }
{
    let _weight = columns.weight();
    let _depth = columns.depth();
    let _number = columns.len();
}
