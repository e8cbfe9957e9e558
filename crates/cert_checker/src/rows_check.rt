//! All rows of a table, with their combinations.
ghost use Rattle.std.specs.Prelude.{◌≡◌, ℕ, ◌<◌, ◌≤◌, ◌^◌, [], List, length, get_or, All, IsTrue, IfOk, OnOk, IsErrOf, MatchOption};
ghost use Rattle.sparse_rows.specs.Entries.{AllIn, IsRow, IsBelow};
ghost use Rattle.relation_list.specs.Names.{is_name_of};
ghost use Rattle.relation_list.specs.Listings.{listing_of};
ghost use Rattle.echelon.specs.Lists.{row_at};
ghost use Rattle.table_model.specs.Conversion.{IsTable};
ghost use Rattle.table_model.specs.Complete.{Evaluates};
ghost use Rattle.table_model.specs.Faults.{IsFirstWithout, AllEvaluate};
ghost use Rattle.cert_checker.specs.Verdicts.{AreWithin};
ghost use Rattle.cert_checker.specs.Inner.{AreValues};

use crate::evaluating::evaluates;
use crate::placed::{PlacedSum, all_column_words};
use column_order::Columns;
use kept_products::KeptProducts;
use relation_list::RelName;
use residues::Ring;
use sparse_rows::{Combination, Row};
use std::alloc::{AllocError, Global};

/// The least row that is not what its combination gives, None where each is.
pub(crate) fn first_bad_row<R: Ring>(
    alloc: Global,
    ring: &R,
    columns: &Columns,
    names: &[RelName],
    rows: &[Row<R>],
    combinations: &[Combination<R>],
) -> Result<Option<u32>, AllocError>
    requires table { IsTable (R.modulus ring.now) columns.now }
    requires few { length rows.now < 2 ^ 32 }
    requires as_many { length combinations.now ≡ length rows.now }
    requires listed { names.now ≡ listing_of columns.now.weight columns.now.depth }
    requires names { All (λ name. IsTrue (is_name_of name)) names.now }
    requires rows { AreWithin R.zero (R.has ring.now) (length columns.now.list) rows.now }
    requires combinations { AreWithin R.zero (R.has ring.now) (length names.now) combinations.now }
    ensures { IfOk result (λ bad. MatchOption bad
        (AllEvaluate (R.modulus ring.now) columns.now (length rows.now) (row_at (R.value ring.now) rows.now) (row_at (R.value ring.now) combinations.now))
        (λ i. IsFirstWithout (λ k. Evaluates (R.modulus ring.now) columns.now (row_at (R.value ring.now) rows.now k)
        (row_at (R.value ring.now) combinations.now k)) (length rows.now) i)) }
{
    let _few = columns.len();
    let words = all_column_words(alloc, ring, columns)?;
    let mut products = KeptProducts::new(alloc, *ring);
    let mut values = no_values(alloc, names.len())?;
    for i in 0..rows.len() {
        let row = rows[i].entries();
        let combination = combinations[i].entries();
        let good = evaluates(
            alloc,
            columns,
            names,
            &words,
            &mut products,
            &mut values,
            row,
            combination,
        )?;
        if !good {
            return Ok(Some(i as u32));
        }
    }
    Ok(None)
}

/// So many sums without words.
fn no_values<R: Ring>(alloc: Global, count: usize) -> Result<Vec<PlacedSum<R>>, AllocError>
    ensures count { IfOk result (λ values. length values.items ≡ count) }
    ensures none { IfOk result (λ values. (n : ℕ) → n < length values.items → get_or values.items n [] ≡ []) }
{
    let mut values = Vec::with_capacity(alloc, count)?;
    for _ in 0..count {
        values.push(PlacedSum::none(alloc))?;
    }
    Ok(values)
}
