//! Laws of sparse rows. Each function does nothing: its contract is the law.
ghost use Rattle.std.specs.Prelude.{◌≡◌, ℕ, List, ◌∷◌};
ghost use Rattle.linear_model.specs.Reduced.{IsLead};
ghost use Rattle.sparse_rows.specs.Entries.{entry_of, IsRow, AllIn};

use crate::key::Key;
use residues::Ring;

/// Two rows that agree everywhere are one list of pairs; and the first key of a row is its lead.
pub fn rows_are_known_by_their_entries<K: Key, R: Ring>()
    ensures pairs { (ring : R) (p q : List (K × R.Elem)) → IsRow K.number R.zero 0 p → IsRow K.number R.zero 0 q
        → AllIn (R.has ring) p → AllIn (R.has ring) q
        → ((n : ℕ) → entry_of K.number (R.value ring) p n ≡ entry_of K.number (R.value ring) q n) → p ≡ q }
    ensures lead { (ring : R) (first : K × R.Elem) (behind : List (K × R.Elem)) → IsRow K.number R.zero 0 (first ∷ behind)
        → AllIn (R.has ring) (first ∷ behind)
        → IsLead (R.modulus ring) (entry_of K.number (R.value ring) (first ∷ behind)) (K.number first.0) }
{}
