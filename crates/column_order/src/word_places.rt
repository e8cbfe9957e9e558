//! The places of the columns of words.
ghost use Rattle.std.specs.Prelude.{◌≡◌, ◌≤◌, List, length, IfOk};
ghost use Rattle.std.specs.List.{Contains};
ghost use Rattle.std.specs.List.Sorted.{IsStrictlySortedBy};
ghost use Rattle.zeta_model.specs.declared.Letter.{Letter};
ghost use Rattle.zeta_model.specs.Words.{word_cmp};
ghost use Rattle.column_order.specs.Inner.{ArePlaces, column_words};

use crate::column::Column;
use std::alloc::{AllocError, Global};
use word_letters::Word;

/// For each of the words, which increase, the place of the column that has it.
pub(crate) fn places_of(
    alloc: Global,
    words: &[Word],
    columns: &[Column],
) -> Result<Vec<u32>, AllocError>
    requires increasing { IsStrictlySortedBy word_cmp words.now }
    requires known { (u : List Letter) → Contains (column_words columns.now) u → Contains words.now u }
    requires found { (u : List Letter) → Contains words.now u → Contains (column_words columns.now) u }
    requires few { length columns.now ≤ 2048 }
    ensures { IfOk result (λ places. ArePlaces words.now (column_words columns.now) places.items) }
{
    let mut places = vec![in alloc; 0u32; words.len()]?;
    for (i, column) in columns.iter().enumerate() {
        match words.binary_search(&column.monomial.word()) {
            Ok(k) => places[k] = i as u32,
            Err(_) => unreachable!(),
        }
    }
    Ok(places)
}
