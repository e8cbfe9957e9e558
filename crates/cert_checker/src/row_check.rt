//! One row and its combination.
ghost use Rattle.std.specs.Prelude.{◌≡◌, ℕ, ◌+◌, ◌<◌, ◌↔◌, List, length, All, IsTrue, IfOk, OnOk};
ghost use Rattle.zeta_model.specs.Sums.{SameSum, difference};
ghost use Rattle.word_sums.specs.Terms.{coefficient_of};
ghost use Rattle.word_sums.specs.Sums.{IsSum};
ghost use Rattle.sparse_rows.specs.Entries.{IsBelow};
ghost use Rattle.relation_list.specs.Names.{is_name_of};
ghost use Rattle.table_model.specs.MonomialWords.{words_of_row, sum_combination};
ghost use Rattle.cert_checker.specs.Certified.{residues_at, named_values, IsCertified};

use crate::column_words::column_words;
use column_order::Columns;
use page_codec::{CombData, RowData};
use relation_list::{RelName, value};
use residues::Ring;
use std::alloc::{AllocError, Global};
use word_sums::WordSum;

/// Whether the words of a row are the values of the names, each times its residue in the combination.
///
/// The row's columns are below the number of columns, the combination's numbers are places of names. Memory may be wanting.
pub fn check_row<R: Ring>(
    alloc: Global,
    ring: &R,
    columns: &Columns,
    names: &[RelName],
    row: &RowData,
    combination: &CombData,
) -> Result<bool, AllocError>
    requires names { All (λ name. IsTrue (is_name_of name)) names.now }
    requires columns { IsBelow (λ k. k) (length columns.now.list) row.now }
    requires numbers { IsBelow (λ k. k) (length names.now) combination.now }
    ensures { IfOk result (λ certified. IsTrue certified
        ↔ IsCertified (R.modulus ring.now) columns.now names.now (residues_at row.now) (residues_at combination.now)) }
{
    let mut sum = WordSum::new(alloc);
    add_columns(alloc, ring, columns, row.as_slice(), &mut sum)?;
    take_values(alloc, ring, names, combination.as_slice(), &mut sum)?;
    Ok(sum.len() == 0)
}

/// Adds the words of a row. After want of memory only those of some columns are added.
fn add_columns<R: Ring>(
    alloc: Global,
    ring: &R,
    columns: &Columns,
    row: &[(u16, u64)],
    sum: &mut WordSum<R>,
) -> Result<(), AllocError>
    requires sum { IsSum R.zero (R.has ring.now) sum.old }
    requires columns { IsBelow (λ k. k) (length columns.now.list) row.now }
    ensures ok { OnOk result (SameSum (R.modulus ring.now) (coefficient_of (R.value ring.now) sum.new)
        (λ t. coefficient_of (R.value ring.now) sum.old t + words_of_row columns.now.list (residues_at row.now) t)) }
    ensures sum { OnOk result (IsSum R.zero (R.has ring.now) sum.new) }
{
    let mut rest = row;
    while let Some((entry, behind)) = rest.split_first() {
        let words = column_words(alloc, ring, columns.at(u32::from(entry.0)))?;
        sum.add_scaled(ring, ring.of(u128::from(entry.1)), &words)?;
        rest = behind;
    }
    Ok(())
}

/// Takes the values of a combination away. After want of memory only some of them are taken.
fn take_values<R: Ring>(
    alloc: Global,
    ring: &R,
    names: &[RelName],
    combination: &[(u32, u64)],
    sum: &mut WordSum<R>,
) -> Result<(), AllocError>
    requires sum { IsSum R.zero (R.has ring.now) sum.old }
    requires names { All (λ name. IsTrue (is_name_of name)) names.now }
    requires numbers { IsBelow (λ k. k) (length names.now) combination.now }
    ensures ok { OnOk result (SameSum (R.modulus ring.now) (coefficient_of (R.value ring.now) sum.new)
        (difference (R.modulus ring.now) (coefficient_of (R.value ring.now) sum.old)
        (sum_combination (length names.now) (named_values (R.modulus ring.now) names.now) (residues_at combination.now)))) }
    ensures sum { OnOk result (IsSum R.zero (R.has ring.now) sum.new) }
{
    let mut rest = combination;
    while let Some((entry, behind)) = rest.split_first() {
        let value = value(alloc, ring, &names[entry.0 as usize])?;
        sum.add_scaled(ring, ring.neg(ring.of(u128::from(entry.1))), &value)?;
        rest = behind;
    }
    Ok(())
}
