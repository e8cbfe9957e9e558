//! The store of products.
ghost use Rattle.std.specs.Prelude.{◌≡◌, ℕ, ◌+◌, ◌<◌, ◌≤◌, ◌↔◌, true, length, All, IfOk, OnOk, IsErrOf};
ghost use Rattle.std.specs.Map.{keys_of};
ghost use Rattle.word_sums.specs.Sums.{IsSumOf};
ghost use Rattle.zeta_model.specs.Alphabets.{shuffle_of, stuffle_of};
ghost use Rattle.zeta_model.specs.Sums.{sum_of};
ghost use Rattle.zeta_model.specs.Words.{has_index};

use crate::pairs::Kind;
use crate::store::{Store, place_of, product_at};
use indexmap::IndexMap;
use quasi_product::ProductFault;
use residues::Ring;
use std::alloc::Global;
use std::marker::Model;
use word_letters::Word;
use word_sums::WordSum;

/// How many terms are kept at most.
const MAX_TERMS: usize = 1 << 20;

/// A ring, and products of words with coefficients in it, each made once while there is room.
///
/// The products that are kept have at most 1,048,576 terms together. One that does not fit beside them is made in one place,
/// which the next such product replaces.
#[derive(Drop)]
pub struct KeptProducts<R: Ring> {
    pub(crate) ring: R,
    pub(crate) limit: usize,
    pub(crate) store: Store<R>,
}

impl<R: Ring> Model for KeptProducts<R> {
    ghost use Rattle.kept_products.specs.Stores.{Kept};
    ghost use Rattle.kept_products.specs.Inner.{terms_of, AreKept};

    ghost Value = { Kept R };

    ghost view = { λ k. record { ring = k.ring; limit = k.limit; terms = terms_of k.store.products.entries } };

    ghost invariant = { λ k. AreKept R.zero (R.has k.ring) (R.value k.ring) (R.modulus k.ring) k.limit k.store.products.entries k.store.terms };
}

impl<R: Ring> KeptProducts<R> {
    ghost use Rattle.std.specs.Borrow.{sem};
    ghost use Rattle.std.specs.Io.BufRead.{Rests};
    ghost use Rattle.kept_products.specs.contracts.kept.KeptProducts.{the_row};
    ghost use Rattle.kept_products.specs.Stores.{IsSameStore};

    /// A store of products in the ring, of at most 1,048,576 terms. It takes no memory yet.
    pub fn new(alloc: Global, ring: R) -> KeptProducts<R>
        ensures ring { result.ring ≡ ring }
        ensures limit { result.limit ≡ 1048576 }
        ensures empty { result.terms ≡ 0 }
    {
        KeptProducts::with_limit(alloc, ring, MAX_TERMS)
    }

    /// A store of products in the ring, of at most so many terms. It takes no memory yet.
    pub fn with_limit(alloc: Global, ring: R, limit: usize) -> KeptProducts<R>
        ensures ring { result.ring ≡ ring }
        ensures limit { result.limit ≡ limit }
        ensures empty { result.terms ≡ 0 }
    {
        KeptProducts {
            ring,
            limit,
            store: Store {
                alloc,
                products: IndexMap::new(alloc),
                terms: 0,
                last: WordSum::new(alloc),
            },
        }
    }

    /// The ring of the products.
    pub fn ring(&self) -> &R
        ensures { result.now ≡ self.now.ring }
    {
        &self.ring
    }

    /// How many terms the kept products have together.
    pub fn terms(&self) -> usize
        ensures terms { result ≡ self.now.terms }
        ensures within { result ≤ self.now.limit }
    {
        self.store.terms
    }

    /// The shuffle of two words, as `product` of `quasi_product` gives it.
    ///
    /// `TooLong(n)` exactly where the sum `n` of the two weights is over 24; `Memory` where memory is wanting.
    pub fn shuffle(&mut self, u: Word, v: Word) -> Result<&WordSum<R>, ProductFault>
        ensures value { IfOk result (λ sum. IsSumOf R.zero (R.has self.old.ring) (R.value self.old.ring) (R.modulus self.old.ring) (sum_of (shuffle_of u v)) sum.now) }
        ensures* keeps_ring { sem 𝓛 (Rests (the_row R.row R.Elem.row R.Accumulator.row R.Ring R.Elem.PartialEq) self.entry (IsSameStore self.old)) }
        ensures fits { OnOk result (length u + length v ≤ 24) }
        ensures too_long { (n : ℕ) →
            IsErrOf result (ProductFault.TooLong n) ↔ ((n ≡ length u + length v) × (24 < n)) }
    {
        match place_of(&self.ring, self.limit, &mut self.store, Kind::Shuffle, u, v) {
            Ok(place) => Ok(product_at(&self.store, place)),
            Err(fault) => Err(fault),
        }
    }

    /// The stuffle of two words that are empty or end with y, as `product` of `quasi_product` gives it.
    ///
    /// `TooLong(n)` exactly where the sum `n` of the two weights is over 24; `Memory` where memory is wanting.
    pub fn stuffle(&mut self, u: Word, v: Word) -> Result<&WordSum<R>, ProductFault>
        requires covers_u { has_index u ≡ true }
        requires covers_v { has_index v ≡ true }
        ensures value { IfOk result (λ sum. IsSumOf R.zero (R.has self.old.ring) (R.value self.old.ring) (R.modulus self.old.ring) (sum_of (stuffle_of u v)) sum.now) }
        ensures covered { IfOk result (λ sum. All (λ w. has_index w ≡ true) (keys_of sum.now)) }
        ensures* keeps_ring { sem 𝓛 (Rests (the_row R.row R.Elem.row R.Accumulator.row R.Ring R.Elem.PartialEq) self.entry (IsSameStore self.old)) }
        ensures fits { OnOk result (length u + length v ≤ 24) }
        ensures too_long { (n : ℕ) →
            IsErrOf result (ProductFault.TooLong n) ↔ ((n ≡ length u + length v) × (24 < n)) }
    {
        match place_of(&self.ring, self.limit, &mut self.store, Kind::Stuffle, u, v) {
            Ok(place) => Ok(product_at(&self.store, place)),
            Err(fault) => Err(fault),
        }
    }
}
