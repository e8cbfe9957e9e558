//! Products by rows: one word times each suffix of another, from the shortest suffixes on.
ghost use Rattle.std.specs.Prelude.{◌≡◌, ℕ, ◌+◌, ◌<◌, ◌≤◌, ◌-◌, true, All, IfOk, List, [], ◌∷◌, length, slice_index_or};
ghost use Rattle.quasi_product.specs.Inner.{AreSuffixes, IsCell, IsFirstRow, IsHead, IsRow};
ghost use Rattle.zeta_model.specs.Product.{prod, rest};

use crate::Letters;
use crate::merging::{Terms, add_behind, merged};
use crate::products::{cut, join_letters};
use residues::Ring;
use std::alloc::{AllocError, Global};
use word_letters::Word;

/// A suffix of a word, with its first letter. The word without letters has itself for its letter.
#[derive(Drop)]
pub(crate) struct Suffix {
    word: Word,
    letter: Word,
}

/// `c` times the product of `u` and `v`: the distinct words alone, made from the products of their suffixes.
pub(crate) fn product_terms<L: Letters, R: Ring>(
    alloc: Global,
    ring: &R,
    c: R::Elem,
    u: Word,
    v: Word,
) -> Result<Terms<R>, AllocError>
    requires covers_u { L.alphabet.covered u ≡ true }
    requires covers_v { L.alphabet.covered v ≡ true }
    requires fits { length u + length v ≤ 24 }
    requires has_c { R.has ring.now c ≡ true }
    ensures ok { IfOk result (λ terms. IsCell (R.has ring.now) (R.value ring.now) (R.modulus ring.now) (R.value ring.now c) (length u + length v) terms.items (prod L.alphabet u v)) }
{
    let suffixes = suffixes_of::<L>(alloc, v)?;
    let mut row = row_of::<L, R>(alloc, ring, c, u, suffixes.as_slice())?;
    match row.pop() {
        Some(terms) => Ok(terms),
        None => Ok(Vec::new(alloc)),
    }
}

/// The suffixes of a covered word, from the word without letters to the word itself.
fn suffixes_of<L: Letters>(alloc: Global, w: Word) -> Result<Vec<Suffix>, AllocError>
    requires covers { L.alphabet.covered w ≡ true }
    requires fits { length w ≤ 24 }
    ensures suffixes { IfOk result (λ suffixes. AreSuffixes L.alphabet suffixes.items) }
    ensures within { IfOk result (λ suffixes. All (λ s. length s.word ≤ length w) suffixes.items) }
    ensures last { IfOk result (λ suffixes. (s : Suffix) → (slice_index_or suffixes.items (length suffixes.items - 1) s).word ≡ w) }
{
    if w.weight() == 0 {
        let mut suffixes = Vec::new(alloc);
        suffixes.push(Suffix { word: w, letter: w })?;
        return Ok(suffixes);
    }
    let (letter, rest) = cut::<L>(w);
    let mut suffixes = suffixes_of::<L>(alloc, rest)?;
    suffixes.push(Suffix { word: w, letter })?;
    Ok(suffixes)
}

/// `c` times the products of `u` with each of the suffixes.
fn row_of<L: Letters, R: Ring>(
    alloc: Global,
    ring: &R,
    c: R::Elem,
    u: Word,
    suffixes: &[Suffix],
) -> Result<Vec<Terms<R>>, AllocError>
    requires covers { L.alphabet.covered u ≡ true }
    requires fits { All (λ s. length u + length s.word ≤ 24) suffixes.now }
    requires suffixes { AreSuffixes L.alphabet suffixes.now }
    requires has_c { R.has ring.now c ≡ true }
    ensures length { IfOk result (λ row. length row.items ≡ length suffixes.now) }
    ensures row { IfOk result (λ row. IsRow (λ cell. cell.items) (R.has ring.now) (R.value ring.now) (R.modulus ring.now) (R.value ring.now c) L.alphabet u suffixes.now row.items) }
{
    if u.weight() == 0 {
        return first_row::<R>(alloc, c, suffixes);
    }
    let (letter, rest) = cut::<L>(u);
    let below = row_of::<L, R>(alloc, ring, c, rest, suffixes)?;
    next_row::<L, R>(
        alloc,
        ring,
        c,
        &Suffix { word: u, letter },
        suffixes,
        below.as_slice(),
    )
}

/// One term of `c` times each of the words.
fn first_row<R: Ring>(
    alloc: Global,
    c: R::Elem,
    suffixes: &[Suffix],
) -> Result<Vec<Terms<R>>, AllocError>
    ensures length { IfOk result (λ row. length row.items ≡ length suffixes.now) }
    ensures terms { IfOk result (λ row. IsFirstRow (λ cell. cell.items) c suffixes.now row.items) }
{
    let mut row = Vec::with_capacity(alloc, suffixes.len())?;
    for suffix in suffixes {
        row.push(one_term::<R>(alloc, suffix.word, c)?)?;
    }
    Ok(row)
}

/// The one term of `c` times the word.
fn one_term<R: Ring>(alloc: Global, word: Word, c: R::Elem) -> Result<Terms<R>, AllocError>
    ensures { IfOk result (λ terms. terms.items ≡ (word, c) ∷ []) }
{
    let mut terms = Vec::with_capacity(alloc, 1)?;
    terms.push((word, c))?;
    Ok(terms)
}

/// `c` times the products of `u` with each of the suffixes, from those of `u` without its first letter.
fn next_row<L: Letters, R: Ring>(
    alloc: Global,
    ring: &R,
    c: R::Elem,
    u: &Suffix,
    suffixes: &[Suffix],
    below: &[Terms<R>],
) -> Result<Vec<Terms<R>>, AllocError>
    requires head { IsHead L.alphabet u.now }
    requires fits { All (λ s. length u.now.word + length s.word ≤ 24) suffixes.now }
    requires suffixes { AreSuffixes L.alphabet suffixes.now }
    requires has_c { R.has ring.now c ≡ true }
    requires length { length below.now ≡ length suffixes.now }
    requires below { IsRow (λ cell. cell.items) (R.has ring.now) (R.value ring.now) (R.modulus ring.now) (R.value ring.now c) L.alphabet (rest L.alphabet u.now.word) suffixes.now below.now }
    ensures length { IfOk result (λ row. length row.items ≡ length suffixes.now) }
    ensures row { IfOk result (λ row. IsRow (λ cell. cell.items) (R.has ring.now) (R.value ring.now) (R.modulus ring.now) (R.value ring.now c) L.alphabet u.now.word suffixes.now row.items) }
{
    let mut row = Vec::with_capacity(alloc, suffixes.len())?;
    for _i in 0..suffixes.len() {
        let cell = next_cell::<L, R>(alloc, ring, c, u, suffixes, below, row.as_slice())?;
        row.push(cell)?;
    }
    Ok(row)
}

/// `c` times the product of `u` with the first suffix that is not in the row yet, from the products where the one, the other
/// or both are without their first letters.
fn next_cell<L: Letters, R: Ring>(
    alloc: Global,
    ring: &R,
    c: R::Elem,
    u: &Suffix,
    suffixes: &[Suffix],
    below: &[Terms<R>],
    row: &[Terms<R>],
) -> Result<Terms<R>, AllocError>
    requires head { IsHead L.alphabet u.now }
    requires fits { All (λ s. length u.now.word + length s.word ≤ 24) suffixes.now }
    requires suffixes { AreSuffixes L.alphabet suffixes.now }
    requires has_c { R.has ring.now c ≡ true }
    requires length { length below.now ≡ length suffixes.now }
    requires below { IsRow (λ cell. cell.items) (R.has ring.now) (R.value ring.now) (R.modulus ring.now) (R.value ring.now c) L.alphabet (rest L.alphabet u.now.word) suffixes.now below.now }
    requires more { length row.now < length suffixes.now }
    requires row { IsRow (λ cell. cell.items) (R.has ring.now) (R.value ring.now) (R.modulus ring.now) (R.value ring.now c) L.alphabet u.now.word suffixes.now row.now }
    ensures cell { IfOk result (λ cell. (s : Suffix) → IsCell (R.has ring.now) (R.value ring.now) (R.modulus ring.now) (R.value ring.now c)
        (length u.now.word + length (slice_index_or suffixes.now (length row.now) s).word) cell.items (prod L.alphabet u.now.word (slice_index_or suffixes.now (length row.now) s).word)) }
{
    let i = row.len();
    if i == 0 {
        return one_term::<R>(alloc, u.word, c);
    }
    let v = &suffixes[i];
    match join_letters::<L>(u.letter, v.letter) {
        None => merged(
            alloc,
            ring,
            u.letter,
            below[i].as_slice(),
            v.letter,
            row[i - 1].as_slice(),
            0,
        ),
        Some(z) => {
            let both = below[i - 1].as_slice();
            let mut terms = merged(
                alloc,
                ring,
                u.letter,
                below[i].as_slice(),
                v.letter,
                row[i - 1].as_slice(),
                both.len(),
            )?;
            add_behind::<R>(z, both, &mut terms)?;
            Ok(terms)
        }
    }
}
