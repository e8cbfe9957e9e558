//! Rows and their combinations, with sums that are made once.
ghost use Rattle.std.specs.Prelude.{◌≡◌, ℕ, ◌+◌, ◌-◌, ◌*◌, ◌<◌, ◌≤◌, ◌↔◌, [], List, length, get_or, All, IsTrue, IfOk, OnOk};
ghost use Rattle.zeta_model.specs.Modular.{Same};
ghost use Rattle.sparse_rows.specs.Entries.{AllIn, IsBelow};
ghost use Rattle.relation_list.specs.Names.{is_name_of};
ghost use Rattle.echelon.specs.Lists.{entries_of};
ghost use Rattle.table_model.specs.MonomialWords.{words_of_row, sum_combination};
ghost use Rattle.table_model.specs.Conversion.{IsTable};
ghost use Rattle.table_model.specs.ListedSpan.{values_of};
ghost use Rattle.table_model.specs.Complete.{Evaluates};
ghost use Rattle.cert_checker.specs.Inner.{numbers_of, word_at, IsPlaced, AreColumnWords, AreValues};

use crate::gathering::{add_entries, all_zero, no_sums};
use crate::placed::{PlacedSum, placed};
use column_order::Columns;
use kept_products::{KeptProducts, value_kept};
use relation_list::RelName;
use residues::Ring;
use std::alloc::{AllocError, Global};

/// Whether the row's words are the values that its combination names. Values that are made for it are kept.
pub(crate) fn evaluates<R: Ring>(
    alloc: Global,
    columns: &Columns,
    names: &[RelName],
    words: &[PlacedSum<R>],
    products: &mut KeptProducts<R>,
    values: &mut Vec<PlacedSum<R>>,
    row: &[(u16, R::Elem)],
    combination: &[(u32, R::Elem)],
) -> Result<bool, AllocError>
    requires table { IsTable (R.modulus products.old.ring) columns.now }
    requires few { length columns.now.list ≤ 2048 }
    requires names { All (λ name. IsTrue (is_name_of name)) names.now }
    requires words { AreColumnWords (R.modulus products.old.ring) (R.has products.old.ring) (R.value products.old.ring) columns.now words.now }
    requires values { AreValues (R.modulus products.old.ring) (R.has products.old.ring) (R.value products.old.ring) columns.now names.now values.old.items }
    requires row_below { IsBelow (λ k. k) (length columns.now.list) row.now }
    requires row_in_ring { AllIn (R.has products.old.ring) row.now }
    requires combination_below { IsBelow (λ k. k) (length names.now) combination.now }
    requires combination_in_ring { AllIn (R.has products.old.ring) combination.now }
    ensures ring { products.new.ring ≡ products.old.ring }
    ensures values { AreValues (R.modulus products.old.ring) (R.has products.old.ring) (R.value products.old.ring) columns.now names.now values.new.items }
    ensures evaluates { IfOk result (λ evaluates. IsTrue evaluates ↔ Evaluates (R.modulus products.old.ring) columns.now
        (entries_of (R.value products.old.ring) row.now) (entries_of (R.value products.old.ring) combination.now)) }
{
    let ring = *products.ring();
    let mut start = no_sums(alloc, &ring, columns.len() as usize)?;
    let sums = start.as_mut_slice();
    add_words(&ring, columns, words, row, sums);
    take_values(alloc, columns, names, products, values, combination, sums)?;
    Ok(all_zero(&ring, sums))
}

/// Adds the words of a row at their places.
fn add_words<R: Ring>(
    ring: &R,
    columns: &Columns,
    words: &[PlacedSum<R>],
    row: &[(u16, R::Elem)],
    sums: &mut [R::Accumulator],
)
    requires words { AreColumnWords (R.modulus ring.now) (R.has ring.now) (R.value ring.now) columns.now words.now }
    requires row_below { IsBelow (λ k. k) (length columns.now.list) row.now }
    requires row_in_ring { AllIn (R.has ring.now) row.now }
    requires len { length sums.old ≡ length columns.now.list }
    requires all { All (R.is_sum ring.now) sums.old }
    ensures len { length sums.new ≡ length sums.old }
    ensures all { All (R.is_sum ring.now) sums.new }
    ensures sum { (q : ℕ) → q < length columns.now.list → Same (R.modulus ring.now) (numbers_of (R.total ring.now) sums.new q)
        (numbers_of (R.total ring.now) sums.old q + words_of_row columns.now.list (entries_of (R.value ring.now) row.now) (word_at columns.now q)) }
{
    let mut rest = row;
    while let Some((entry, behind)) = rest.split_first() {
        let column = words[usize::from(entry.0)].entries();
        add_entries(ring, sums, entry.1, column);
        rest = behind;
    }
}

/// Takes the values of a combination away at the places of their words. After want of memory only some of them are taken.
fn take_values<R: Ring>(
    alloc: Global,
    columns: &Columns,
    names: &[RelName],
    products: &mut KeptProducts<R>,
    values: &mut Vec<PlacedSum<R>>,
    combination: &[(u32, R::Elem)],
    sums: &mut [R::Accumulator],
) -> Result<(), AllocError>
    requires few { length columns.now.list ≤ 2048 }
    requires names { All (λ name. IsTrue (is_name_of name)) names.now }
    requires values { AreValues (R.modulus products.old.ring) (R.has products.old.ring) (R.value products.old.ring) columns.now names.now values.old.items }
    requires combination_below { IsBelow (λ k. k) (length names.now) combination.now }
    requires combination_in_ring { AllIn (R.has products.old.ring) combination.now }
    requires len { length sums.old ≡ length columns.now.list }
    requires all { All (R.is_sum products.old.ring) sums.old }
    ensures ring { products.new.ring ≡ products.old.ring }
    ensures values { AreValues (R.modulus products.old.ring) (R.has products.old.ring) (R.value products.old.ring) columns.now names.now values.new.items }
    ensures len { length sums.new ≡ length sums.old }
    ensures all { All (R.is_sum products.old.ring) sums.new }
    ensures sum { OnOk result ((q : ℕ) → q < length columns.now.list → Same (R.modulus products.old.ring) (numbers_of (R.total products.old.ring) sums.new q)
        (numbers_of (R.total products.old.ring) sums.old q + (R.modulus products.old.ring - 1) * sum_combination (length names.now)
        (values_of (R.modulus products.old.ring) columns.now) (entries_of (R.value products.old.ring) combination.now) (word_at columns.now q))) }
{
    let ring = *products.ring();
    let mut rest = combination;
    while let Some((entry, behind)) = rest.split_first() {
        make_value(alloc, columns, names, products, values, entry.0)?;
        let value = values[entry.0 as usize].entries();
        add_entries(&ring, sums, ring.neg(entry.1), value);
        rest = behind;
    }
    Ok(())
}

/// Makes the value of relation `n` where it has no pairs yet.
fn make_value<R: Ring>(
    alloc: Global,
    columns: &Columns,
    names: &[RelName],
    products: &mut KeptProducts<R>,
    values: &mut Vec<PlacedSum<R>>,
    n: u32,
) -> Result<(), AllocError>
    requires few { length columns.now.list ≤ 2048 }
    requires inside { n < length names.now }
    requires names { All (λ name. IsTrue (is_name_of name)) names.now }
    requires values { AreValues (R.modulus products.old.ring) (R.has products.old.ring) (R.value products.old.ring) columns.now names.now values.old.items }
    ensures ring { products.new.ring ≡ products.old.ring }
    ensures values { AreValues (R.modulus products.old.ring) (R.has products.old.ring) (R.value products.old.ring) columns.now names.now values.new.items }
    ensures made { OnOk result (IsPlaced (R.modulus products.old.ring) (R.has products.old.ring) (R.value products.old.ring) columns.now
        (values_of (R.modulus products.old.ring) columns.now n) (get_or values.new.items n [])) }
{
    let i = n as usize;
    if values[i].entries().len() > 0 {
        return Ok(());
    }
    let sum = value_kept(products, &names[i])?;
    values[i] = placed(alloc, products.ring(), columns, &sum)?;
    Ok(())
}
