//! Lists of terms, each with a word in front, merged by their words.
ghost use Rattle.std.specs.Prelude.{◌≡◌, ◌++◌, IfNone, IfSome, IfOk, OnOk, [], map};
ghost use Rattle.quasi_product.specs.Inner.{FitBehind, IsMerged, IsTaken};
ghost use Rattle.word_sums.specs.Terms.{AllIn};

use residues::Ring;
use std::alloc::{AllocError, Global};
use std::cmp::Ordering;
use word_letters::Word;

/// Words with elements of a ring, by decreasing word. No contract speaks of the order: it keeps the lists short.
pub(crate) type Terms<R> = Vec<(Word, <R as Ring>::Elem)>;

/// The terms of `left` with `a` before their words and those of `right` with `b` before theirs, with room for `more` terms.
/// Of two lists by decreasing word one is made in which each word stands once, where neither front begins the other.
pub(crate) fn merged<R: Ring>(
    alloc: Global,
    ring: &R,
    a: Word,
    left: &[(Word, R::Elem)],
    b: Word,
    right: &[(Word, R::Elem)],
    more: usize,
) -> Result<Terms<R>, AllocError>
    requires fits_left { FitBehind 24 a left.now }
    requires fits_right { FitBehind 24 b right.now }
    requires left_in_ring { AllIn (R.has ring.now) left.now }
    requires right_in_ring { AllIn (R.has ring.now) right.now }
    ensures ok { IfOk result (λ terms. IsMerged (R.has ring.now) (R.value ring.now) (R.modulus ring.now) a left.now b right.now terms.items) }
{
    let room = left.len().saturating_add(right.len()).saturating_add(more);
    let mut terms = Vec::with_capacity(alloc, room)?;
    match a.cmp(&b) {
        Ordering::Less => {
            add_behind::<R>(b, right, &mut terms)?;
            add_behind::<R>(a, left, &mut terms)?;
            Ok(terms)
        }
        Ordering::Greater => {
            add_behind::<R>(a, left, &mut terms)?;
            add_behind::<R>(b, right, &mut terms)?;
            Ok(terms)
        }
        Ordering::Equal => {
            add_merged(ring, a, left, right, &mut terms)?;
            Ok(terms)
        }
    }
}

/// Adds the terms of the list with `front` before their words. After want of memory only some of them are added.
pub(crate) fn add_behind<R: Ring>(
    front: Word,
    list: &[(Word, R::Elem)],
    terms: &mut Terms<R>,
) -> Result<(), AllocError>
    requires fits { FitBehind 24 front list.now }
    ensures ok { OnOk result (terms.new.items ≡ terms.old.items ++ map (λ t. (front ++ t.0, t.1)) list.now) }
{
    let mut rest = list;
    while let Some((term, behind)) = rest.split_first() {
        terms.push((front.followed_by(term.0), term.1))?;
        rest = behind;
    }
    Ok(())
}

/// Adds the terms of both lists with `front` before their words to a list without terms. After want of memory only some of
/// them are added.
fn add_merged<R: Ring>(
    ring: &R,
    front: Word,
    left: &[(Word, R::Elem)],
    right: &[(Word, R::Elem)],
    terms: &mut Terms<R>,
) -> Result<(), AllocError>
    requires fits_left { FitBehind 24 front left.now }
    requires fits_right { FitBehind 24 front right.now }
    requires left_in_ring { AllIn (R.has ring.now) left.now }
    requires right_in_ring { AllIn (R.has ring.now) right.now }
    requires none { terms.old.items ≡ [] }
    ensures ok { OnOk result (IsMerged (R.has ring.now) (R.value ring.now) (R.modulus ring.now) front left.now front right.now terms.new.items) }
{
    let mut xs = left;
    let mut ys = right;
    while let Some((term, xs_rest, ys_rest)) = split_greatest(ring, front, xs, ys) {
        terms.push(term)?;
        xs = xs_rest;
        ys = ys_rest;
    }
    Ok(())
}

/// The greater of the first words of two lists, behind the front, with the sum of its elements, and what is left of both.
fn split_greatest<'a, R: Ring>(
    ring: &R,
    front: Word,
    left: &'a [(Word, R::Elem)],
    right: &'a [(Word, R::Elem)],
) -> Option<
    (
        (Word, R::Elem),
        &'a [(Word, R::Elem)],
        &'a [(Word, R::Elem)],
    ),
>
    requires fits_left { FitBehind 24 front left.now }
    requires fits_right { FitBehind 24 front right.now }
    requires left_in_ring { AllIn (R.has ring.now) left.now }
    requires right_in_ring { AllIn (R.has ring.now) right.now }
    ensures none { IfNone result ((left.now ≡ []) × (right.now ≡ [])) }
    ensures taken { IfSome result (λ r. IsTaken (R.has ring.now) (R.value ring.now) (R.modulus ring.now) front left.now front right.now r.0 r.1.now r.2.now) }
{
    match (left.split_first(), right.split_first()) {
        (Some((x, xs)), Some((y, ys))) => match x.0.cmp(&y.0) {
            Ordering::Less => Some(((front.followed_by(y.0), y.1), left, ys)),
            Ordering::Greater => Some(((front.followed_by(x.0), x.1), xs, right)),
            Ordering::Equal => Some(((front.followed_by(x.0), ring.add(x.1, y.1)), xs, ys)),
        },
        (Some((x, xs)), None) => Some(((front.followed_by(x.0), x.1), xs, right)),
        (None, Some((y, ys))) => Some(((front.followed_by(y.0), y.1), left, ys)),
        (None, None) => None,
    }
}
