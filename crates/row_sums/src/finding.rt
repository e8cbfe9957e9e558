//! The residue of a combination at a number.
ghost use Rattle.std.specs.Prelude.{◌≡◌, true};
ghost use Rattle.sparse_rows.specs.Entries.{entry_of, AllIn};

use residues::Ring;
use sparse_rows::Combination;

/// What a combination has at a number, by halves: zero where it has no pair there.
pub fn entry_at<R: Ring>(ring: &R, row: &Combination<R>, number: u32) -> R::Elem
    requires in_ring { AllIn (R.has ring.now) row.now }
    ensures has { R.has ring.now result ≡ true }
    ensures value { R.value ring.now result ≡ entry_of (λ k. k) (R.value ring.now) row.now number }
{
    let entries = row.entries();
    match entries.binary_search_by_key(&number, |entry| entry.0) {
        Ok(place) => entries[place].1,
        Err(_) => ring.zero(),
    }
}
