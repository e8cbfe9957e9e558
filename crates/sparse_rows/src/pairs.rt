//! Sparse rows: pairs of a key and a residue that is not zero, by increasing keys.
ghost use Rattle.std.specs.Prelude.{◌≡◌, ◌≢◌, ℕ, ◌+◌, ◌*◌, ◌%◌, ◌<◌, ◌≤◌, ◌↔◌, true, Option, Some, List, [], ◌∷◌, ◌++◌, length, map, filter, not, IsNone, IfSome, IfOk, OnOk, OnErr, slice_get};
ghost use Rattle.sparse_rows.specs.Entries.{entry_of, IsRow, IsBelow, AllIn};

use crate::key::Key;
use crate::merge::{add_product, first_key, split_at_key};
use residues::Ring;
use std::alloc::{AllocError, Global};
use std::marker::Model;

/// Pairs of a key and a residue that is not zero, by increasing keys. Where there is no pair, the residue is 0.
///
/// A row holds no ring: a call that reckons is given the ring whose elements the row has.
#[derive(Drop)]
pub struct Pairs<K: Key, R: Ring> {
    pairs: Vec<(K, R::Elem)>,
}

/// A row of a table: residues by columns.
pub type Row<R> = Pairs<u16, R>;

/// A combination of relations: residues by the numbers of relations.
pub type Combination<R> = Pairs<u32, R>;

impl<K: Key, R: Ring> Model for Pairs<K, R> {
    ghost use Rattle.std.specs.Prelude.{List, ℕ};
    ghost use Rattle.sparse_rows.specs.Entries.{IsRow};

    ghost Value = { List (K × R.Elem) };

    ghost view = { λ r. r.pairs.items };

    ghost invariant = { λ r. IsRow K.number R.zero 0 r.pairs.items };
}

impl<K: Key, R: Ring> Pairs<K, R> {
    /// The row that is zero everywhere. It takes no memory.
    pub fn zero(alloc: Global) -> Pairs<K, R>
        ensures { result ≡ [] }
    {
        Pairs {
            pairs: Vec::new(alloc),
        }
    }

    /// The pairs, by increasing keys.
    pub fn entries(&self) -> &[(K, R::Elem)]
        ensures entries { result.now ≡ self.now }
        ensures row { IsRow K.number R.zero 0 self.now }
    {
        self.pairs.as_slice()
    }

    /// The same row in memory of its own, refused where there is none.
    pub fn copy(&self) -> Result<Pairs<K, R>, AllocError>
        ensures ok { IfOk result (λ row. row ≡ self.now) }
        ensures row { IsRow K.number R.zero 0 self.now }
    {
        let pairs = Vec::from_slice(*self.pairs.allocator(), &self.pairs)?;
        Ok(Pairs { pairs })
    }

    /// The first key at which the row is not zero, with its residue; None for the zero row.
    pub fn lead(&self) -> Option<(K, R::Elem)>
        ensures zero { IsNone result ↔ (self.now ≡ []) }
        ensures first { IfSome result (λ lead. slice_get self.now 0 ≡ Some lead) }
        ensures row { IsRow K.number R.zero 0 self.now }
    {
        match self.pairs.first() {
            Some(lead) => Some(*lead),
            None => None,
        }
    }

    /// Puts a pair behind the others.
    pub fn push(&mut self, key: K, residue: R::Elem) -> Result<(), AllocError>
        requires behind { IsBelow K.number (K.number key) self.old }
        requires nonzero { residue ≢ R.zero }
        ensures ok { OnOk result (self.new ≡ self.old ++ (key, residue) ∷ []) }
        ensures err { OnErr result (self.new ≡ self.old) }
        ensures row { IsRow K.number R.zero 0 self.new }
    {
        self.pairs.push((key, residue))?;
        Ok(())
    }

    /// What the row has at `key`: zero where it has no pair there.
    pub fn entry(&self, ring: &R, key: K) -> R::Elem
        requires in_ring { AllIn (R.has ring.now) self.now }
        ensures has { R.has ring.now result ≡ true }
        ensures value { R.value ring.now result ≡ entry_of K.number (R.value ring.now) self.now (K.number key) }
    {
        let mut rest = self.pairs.as_slice();
        while let Some((first, behind)) = rest.split_first() {
            if first.0.number() == key.number() {
                return first.1;
            }
            rest = behind;
        }
        ring.zero()
    }

    /// Multiplies the row by `c`, and drops what becomes zero. It takes no memory.
    pub fn scale(&mut self, ring: &R, c: R::Elem)
        requires self_in_ring { AllIn (R.has ring.now) self.old }
        requires has_c { R.has ring.now c ≡ true }
        ensures entries { (q : ℕ) → entry_of K.number (R.value ring.now) self.new q
            ≡ R.value ring.now c * entry_of K.number (R.value ring.now) self.old q % R.modulus ring.now }
        ensures in_ring { AllIn (R.has ring.now) self.new }
        ensures row { IsRow K.number R.zero 0 self.new }
    {
        multiply_all(ring, c, &mut self.pairs);
        drop_zeros(ring, &mut self.pairs);
    }

    /// Adds `c` times another row of the same ring.
    pub fn add_scaled(
        &mut self,
        ring: &R,
        c: R::Elem,
        other: &Pairs<K, R>,
    ) -> Result<(), AllocError>
        requires self_in_ring { AllIn (R.has ring.now) self.old }
        requires other_in_ring { AllIn (R.has ring.now) other.now }
        requires has_c { R.has ring.now c ≡ true }
        ensures ok { OnOk result ((q : ℕ) → entry_of K.number (R.value ring.now) self.new q
            ≡ (entry_of K.number (R.value ring.now) self.old q + R.value ring.now c * entry_of K.number (R.value ring.now) other.now q) % R.modulus ring.now) }
        ensures in_ring { AllIn (R.has ring.now) self.new }
        ensures err { OnErr result (self.new ≡ self.old) }
        ensures row { IsRow K.number R.zero 0 self.new }
    {
        let mut sum = Vec::new(*self.pairs.allocator());
        let mut left = self.pairs.as_slice();
        let mut right = other.pairs.as_slice();
        while let Some(key) = first_key(left, right) {
            let (a, left_rest) = split_at_key(ring, key, left);
            let (b, right_rest) = split_at_key(ring, key, right);
            let residue = add_product(ring, a, c, b);
            if !R::is_zero(residue) {
                sum.push((key, residue))?;
            }
            left = left_rest;
            right = right_rest;
        }
        self.pairs = sum;
        Ok(())
    }
}

/// Multiplies each element by `c`.
fn multiply_all<K: Key, R: Ring>(ring: &R, c: R::Elem, pairs: &mut Vec<(K, R::Elem)>)
    requires in_ring { AllIn (R.has ring.now) pairs.old.items }
    requires has_c { R.has ring.now c ≡ true }
    ensures { pairs.new.items ≡ map (λ e. (e.0, R.mul ring.now c e.1)) pairs.old.items }
{
    for pair in pairs.iter_mut() {
        pair.1 = ring.mul(c, pair.1);
    }
}

/// Drops the pairs whose element is zero.
fn drop_zeros<K: Key, R: Ring>(ring: &R, pairs: &mut Vec<(K, R::Elem)>)
    ensures { pairs.new.items ≡ filter (λ e. not (R.Elem.eq e.1 R.zero)) pairs.old.items }
{
    let zero = ring.zero();
    pairs.retain(|pair| pair.1 != zero);
}
