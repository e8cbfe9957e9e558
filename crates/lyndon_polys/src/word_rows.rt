//! The rows of words.
ghost use Rattle.std.specs.Prelude.{◌≡◌, ℕ, ◌+◌, ◌*◌, ◌<◌, ◌≤◌, true, List, length, All, Contains, IfOk, IfSome, IfNone};
ghost use Rattle.std.specs.List.Sorted.{IsStrictlySortedBy};
ghost use Rattle.std.specs.Map.{keys_of};
ghost use Rattle.zeta_model.specs.declared.Letter.{Letter};
ghost use Rattle.zeta_model.specs.Modular.{Same};
ghost use Rattle.zeta_model.specs.Sums.{Sum, single};
ghost use Rattle.zeta_model.specs.Words.{word_cmp};
ghost use Rattle.word_sums.specs.Terms.{coefficient_of, AllIn as AllTermsIn};
ghost use Rattle.word_sums.specs.Sums.{IsSum};
ghost use Rattle.sparse_rows.specs.Entries.{AllIn, IsRow, IsBelow};
ghost use Rattle.lyndon_words.specs.Lyndon.{IsBefore, joined};
ghost use Rattle.column_order.specs.Columns.{HasLimits};
ghost use Rattle.table_model.specs.MonomialWords.{words_of_monomial};
ghost use Rattle.table_model.specs.Conversion.{IsTable, IsTableWord, Converts, IsCols};
ghost use Rattle.lyndon_polys.specs.Tables.{entries_of};
ghost use Rattle.lyndon_polys.specs.Inner.{IsRowOf, AreWordRows, AreAllWordRows, leading};

use crate::gathering::{add_entries, gathered, no_sums};
use crate::rows_by_word::WordRows;
use crate::shuffles::shuffled;
use crate::units::leading_inverse;
use column_order::Columns;
use lyndon_words::{Monomial, factors};
use residues::Ring;
use sparse_rows::Row;
use std::alloc::{AllocError, Global};
use word_letters::Word;
use word_sums::WordSum;

/// The rows of all words of the columns' weight and depth.
pub(crate) fn word_rows<R: Ring>(
    alloc: Global,
    ring: &R,
    columns: &Columns,
) -> Result<WordRows<R>, AllocError>
    requires table { IsTable (R.modulus ring.now) columns.now }
    requires converts { Converts (R.modulus ring.now) columns.now }
    ensures { IfOk result (λ rows. AreAllWordRows (R.modulus ring.now) (R.has ring.now) (R.value ring.now) columns.now rows) }
{
    let words = sorted_words(alloc, columns)?;
    let mut rows = WordRows::with_capacity(alloc, columns.len() as usize)?;
    for i in 0..words.len() {
        let made = word_row(alloc, ring, columns, &rows, words[i])?;
        // A copy takes no more memory than it needs, so that the rows lie close together.
        let row = made.copy()?;
        rows.push(words[i], row)?;
    }
    Ok(rows)
}

/// The words of the columns, by increasing word.
fn sorted_words(alloc: Global, columns: &Columns) -> Result<Vec<Word>, AllocError>
    requires { HasLimits columns.now.weight columns.now.depth }
    ensures sorted { IfOk result (λ words. IsStrictlySortedBy word_cmp words.items) }
    ensures each { IfOk result (λ words. All (IsTableWord columns.now.weight columns.now.depth) words.items) }
    ensures whole { IfOk result (λ words. (t : List Letter) → IsTableWord columns.now.weight columns.now.depth t → Contains words.items t) }
{
    let mut words = Vec::with_capacity(alloc, columns.len() as usize)?;
    for i in 0..columns.len() {
        words.push(columns.at(i).word())?;
    }
    words.sort_unstable();
    Ok(words)
}

/// The row of a word where those of all lesser words are at hand: the words of its monomial, less the lesser ones, over its
/// coefficient.
fn word_row<R: Ring>(
    alloc: Global,
    ring: &R,
    columns: &Columns,
    rows: &WordRows<R>,
    word: Word,
) -> Result<Row<R>, AllocError>
    requires table { IsTable (R.modulus ring.now) columns.now }
    requires few { length columns.now.list ≤ 2048 }
    requires converts { Converts (R.modulus ring.now) columns.now }
    requires rows { AreWordRows (R.modulus ring.now) (R.has ring.now) (R.value ring.now) columns.now rows.now }
    requires word { IsTableWord columns.now.weight columns.now.depth word }
    requires lesser { (t : List Letter) → IsTableWord columns.now.weight columns.now.depth t → IsBefore t word → Contains (keys_of rows.now) t }
    ensures { IfOk result (λ row. IsRowOf (R.modulus ring.now) (R.has ring.now) (R.value ring.now) columns.now (single word) row) }
{
    let p = factors(alloc, word);
    let inverse = match leading_inverse(ring, &p) {
        Ok(inverse) => inverse,
        Err(_) => unreachable!(),
    };
    let col = match columns.place(&p) {
        Some(col) => col,
        None => unreachable!(),
    };
    let lesser = lesser_words(alloc, ring, &p)?;
    let mut start = Vec::with_capacity(alloc, 1)?;
    start.push((col as u16, inverse))?;
    let row = row_of_sum(
        alloc,
        ring,
        columns,
        rows,
        &start,
        ring.neg(inverse),
        &lesser,
    )?;
    Ok(row)
}

/// The words of a monomial but its own.
fn lesser_words<R: Ring>(alloc: Global, ring: &R, p: &Monomial) -> Result<WordSum<R>, AllocError>
    ensures value { IfOk result (λ sum. (t : List Letter)
        → Same (R.modulus ring.now) (coefficient_of (R.value ring.now) sum t + leading p.now * single (joined p.now) t)
        (words_of_monomial p.now t)) }
    ensures sum { IfOk result (IsSum R.zero (R.has ring.now)) }
{
    let word = p.word();
    let mut sum = shuffled(alloc, ring, p)?;
    let coefficient = sum.coefficient(ring, word);
    sum.add_term(ring, word, ring.neg(coefficient))?;
    Ok(sum)
}

/// The start, plus the rows of the words of a sum, each `scale` times its residue.
pub(crate) fn row_of_sum<R: Ring>(
    alloc: Global,
    ring: &R,
    columns: &Columns,
    rows: &WordRows<R>,
    start: &[(u16, R::Elem)],
    scale: R::Elem,
    sum: &WordSum<R>,
) -> Result<Row<R>, AllocError>
    requires rows { AreWordRows (R.modulus ring.now) (R.has ring.now) (R.value ring.now) columns.now rows.now }
    requires start_below { IsBelow (λ k. k) (length columns.now.list) start.now }
    requires start_in_ring { AllIn (R.has ring.now) start.now }
    requires has_scale { R.has ring.now scale ≡ true }
    requires sum_in_ring { AllTermsIn (R.has ring.now) sum.now }
    requires known { All (Contains (keys_of rows.now)) (keys_of sum.now) }
    ensures row { IfOk result (λ row. (s : Sum) → IsCols (R.modulus ring.now) columns.now s (entries_of (R.value ring.now) start.now)
        → IsRowOf (R.modulus ring.now) (R.has ring.now) (R.value ring.now) columns.now
        (λ t. s t + R.value ring.now scale * coefficient_of (R.value ring.now) sum.now t) row) }
{
    let mut sums = no_sums(alloc, ring, columns.len() as usize)?;
    // A row waits until the next one is found, so that its entries need not wait for the search.
    let mut waiting = start;
    let mut coefficient = ring.one();
    for (word, residue) in sum.iter() {
        let row = match rows.find(*word) {
            Some(row) => row,
            None => unreachable!(),
        };
        add_entries(ring, &mut sums, coefficient, waiting);
        waiting = row.entries();
        coefficient = ring.mul(scale, *residue);
    }
    add_entries(ring, &mut sums, coefficient, waiting);
    gathered(alloc, ring, &sums)
}
