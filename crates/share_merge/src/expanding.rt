//! Combinations of turns as combinations of listed relations.
ghost use Rattle.std.specs.Prelude.{◌≡◌, ℕ, ◌<◌, ◌≤◌, ◌^◌, [], length, get_or, IfOk};
ghost use Rattle.zeta_model.specs.Modular.{Same};
ghost use Rattle.column_order.specs.Columns.{column_count};
ghost use Rattle.sparse_rows.specs.Entries.{AllIn};
ghost use Rattle.echelon.specs.Lists.{entries_of, row_at};
ghost use Rattle.table_model.specs.ListedSpan.{count_of};
ghost use Rattle.share_merge.specs.Turns.{AreSharesOf, share_count, turns_of};
ghost use Rattle.share_merge.specs.Inner.{ArePlaces, turn_combination, IsExpanded, AreExpanded};

use crate::places::RowPlace;
use column_order::Columns;
use lyndon_polys::LyndonTable;
use relation_list::listing;
use residues::Ring;
use row_sums::RowSum;
use share_model::CheckedShare;
use sparse_rows::Combination;
use std::alloc::{AllocError, Global};

/// How many relations are listed for the weight and the depth of the columns.
fn relation_count(alloc: Global, columns: &Columns) -> Result<usize, AllocError>
    requires { column_count columns.now.weight columns.now.depth ≤ 2048 }
    ensures count { IfOk result (λ n. n ≡ count_of columns.now) }
    ensures few { IfOk result (λ n. n ≤ 2 ^ 32) }
{
    let names = listing(alloc, columns.weight(), columns.depth())?;
    Ok(names.len())
}

/// Each of the combinations of turns as a combination of listed relations.
pub(crate) fn all_expanded<R: Ring>(
    alloc: Global,
    table: &LyndonTable<R>,
    shares: &[CheckedShare<R>],
    places: &[RowPlace],
    combinations: &[Combination<R>],
) -> Result<Vec<Combination<R>>, AllocError>
    requires shares { AreSharesOf table.now (share_count shares.now) shares.now }
    requires places { ArePlaces R.modulus R.has R.value shares.now (turns_of shares.now) places.now }
    requires few { column_count table.now.columns.weight table.now.columns.depth ≤ 2048 }
    requires in_ring { (i : ℕ) → i < length combinations.now → AllIn (R.has table.now.ring) (get_or combinations.now i []) }
    requires ends { (i q : ℕ) → i < length combinations.now → length places.now ≤ q
        → Same (R.modulus table.now.ring) (row_at (R.value table.now.ring) combinations.now i q) 0 }
    ensures { IfOk result (λ expanded. AreExpanded (R.modulus table.now.ring) (R.has table.now.ring) (R.value table.now.ring) R.zero
        table.now.columns shares.now combinations.now expanded.items) }
{
    let relations = relation_count(alloc, table.columns())?;
    let mut all = Vec::with_capacity(alloc, combinations.len())?;
    for i in 0..combinations.len() {
        all.push(expanded(alloc, table, shares, places, relations, &combinations[i])?)?;
    }
    Ok(all)
}

/// The sum over the turns of a combination: the combination of the row of each turn, times the residue of the turn.
fn expanded<R: Ring>(
    alloc: Global,
    table: &LyndonTable<R>,
    shares: &[CheckedShare<R>],
    places: &[RowPlace],
    relations: usize,
    turns: &Combination<R>,
) -> Result<Combination<R>, AllocError>
    requires shares { AreSharesOf table.now (share_count shares.now) shares.now }
    requires places { ArePlaces R.modulus R.has R.value shares.now (turns_of shares.now) places.now }
    requires count { relations ≡ count_of table.now.columns }
    requires few { relations ≤ 2 ^ 32 }
    requires in_ring { AllIn (R.has table.now.ring) turns.now }
    requires ends { (q : ℕ) → length places.now ≤ q → Same (R.modulus table.now.ring) (entries_of (R.value table.now.ring) turns.now q) 0 }
    ensures { IfOk result (IsExpanded (R.modulus table.now.ring) (R.has table.now.ring) (R.value table.now.ring) R.zero
        table.now.columns shares.now turns.now) }
{
    let ring = table.ring();
    let mut sum = RowSum::zero(alloc, ring, relations)?;
    let mut rest = turns.entries();
    while let Some((turn, behind)) = rest.split_first() {
        let combination = combination_of(shares, places, turn.0);
        sum.add(ring, turn.1, combination.entries());
        rest = behind;
    }
    let made = sum.combination(alloc, ring)?;
    Ok(made)
}

/// The combination of the row of turn `t`.
fn combination_of<'a, R: Ring>(
    shares: &'a [CheckedShare<R>],
    places: &[RowPlace],
    t: u32,
) -> &'a Combination<R>
    requires places { ArePlaces R.modulus R.has R.value shares.now (turns_of shares.now) places.now }
    requires inside { t < length places.now }
    ensures { result.now ≡ turn_combination shares.now t }
{
    let place = places[t as usize];
    shares[place.share].combination(place.row)
}
