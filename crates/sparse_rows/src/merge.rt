//! One step of the merge of two rows: the first key of either, and what stands there.
ghost use Rattle.std.specs.Prelude.{◌≡◌, ℕ, ◌+◌, ◌*◌, ◌%◌, ◌<◌, ◌≤◌, true, List, [], ◌∷◌, length, nat_eq, if◌then◌else◌, IfSome, MatchOption};
ghost use Rattle.std.specs.Option.{ForSome};
ghost use Rattle.sparse_rows.specs.Entries.{entry_of, IsRow, AllIn};
ghost use Rattle.sparse_rows.specs.Inner.{begins, IsFirst, value_or_zero};

use crate::key::Key;
use residues::Ring;

/// The first key of either list, and none where both are empty.
pub fn first_key<K: Key, E: Copy>(left: &[(K, E)], right: &[(K, E)]) -> Option<K>
    ensures { MatchOption result ((left.now ≡ []) × (right.now ≡ [])) (λ key. IsFirst K.number (K.number key) left.now right.now) }
{
    match (left.first(), right.first()) {
        (Some(a), Some(b)) => Some(if a.0.number() < b.0.number() {
            a.0
        } else {
            b.0
        }),
        (Some(a), None) => Some(a.0),
        (None, Some(b)) => Some(b.0),
        (None, None) => None,
    }
}

/// The element at `key`, and the pairs behind it, of pairs that do not begin before `key`.
pub fn split_at_key<'a, K: Key, R: Ring>(
    ring: &R,
    key: K,
    pairs: &'a [(K, R::Elem)],
) -> (Option<R::Elem>, &'a [(K, R::Elem)])
    requires row { IsRow K.number R.zero (K.number key) pairs.now }
    requires in_ring { AllIn (R.has ring.now) pairs.now }
    ensures value { (q : ℕ) → entry_of K.number (R.value ring.now) pairs.now q ≡ (if nat_eq (K.number key) q then value_or_zero (R.value ring.now) result.0 else 0) + entry_of K.number (R.value ring.now) result.1.now q }
    ensures has { IfSome result.0 (λ a. R.has ring.now a ≡ true) }
    ensures rest_in_ring { AllIn (R.has ring.now) result.1.now }
    ensures rest { IsRow K.number R.zero (K.number key + 1) result.1.now }
    ensures shorter { length result.1.now + begins K.number (K.number key) pairs.now ≡ length pairs.now }
{
    match pairs.split_first() {
        Some((first, rest)) => {
            if first.0.number() == key.number() {
                (Some(first.1), rest)
            } else {
                (None, pairs)
            }
        }
        None => (None, pairs),
    }
}

/// The element of `a` and `c` times that of `b`, where none is zero.
// Only a product is divided, and only where there is one.
pub fn add_product<R: Ring>(ring: &R, a: Option<R::Elem>, c: R::Elem, b: Option<R::Elem>) -> R::Elem
    requires has_a { ForSome a (λ a. R.has ring.now a ≡ true) }
    requires has_b { ForSome b (λ b. R.has ring.now b ≡ true) }
    requires has_c { R.has ring.now c ≡ true }
    ensures has { R.has ring.now result ≡ true }
    ensures value { R.value ring.now result % R.modulus ring.now ≡ (value_or_zero (R.value ring.now) a + R.value ring.now c * value_or_zero (R.value ring.now) b) % R.modulus ring.now }
{
    match (a, b) {
        (Some(a), Some(b)) => ring.add(a, ring.mul(c, b)),
        (None, Some(b)) => ring.mul(c, b),
        (Some(a), None) => a,
        (None, None) => ring.zero(),
    }
}
