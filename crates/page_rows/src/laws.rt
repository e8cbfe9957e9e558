//! Laws of what is written of rows. Each function does nothing: its contract is the law.
ghost use Rattle.std.specs.Prelude.{◌≡◌, ℕ, ◌^◌, ◌<◌, ◌≤◌, ◌↔◌, List, length};
ghost use Rattle.sparse_rows.specs.Entries.{entry_of, IsRow, IsBelow, AllIn};
ghost use Rattle.page_codec.specs.Bounds.{ArePairs, IsRowData, IsCombData};
ghost use Rattle.page_codec.specs.Places.{AreBelow};
ghost use Rattle.page_rows.specs.Written.{written, AreResidues};

use residues::Ring;
use sparse_rows::Key;

/// What is written of a row tells the row, has its entries and its bound, and its residues are from 1 to below the modulus.
pub fn rows_are_known_by_what_is_written<K: Key, R: Ring>()
    ensures one { (ring : R) (p q : List (K × R.Elem)) → AllIn (R.has ring) p → AllIn (R.has ring) q
        → written (R.value ring) p ≡ written (R.value ring) q → p ≡ q }
    ensures entries { (ring : R) (p : List (K × R.Elem)) (n : ℕ)
        → entry_of K.number (λ v. v) (written (R.value ring) p) n ≡ entry_of K.number (R.value ring) p n }
    ensures bound { (ring : R) (p : List (K × R.Elem)) (high : ℕ) → IsBelow K.number high (written (R.value ring) p) ↔ IsBelow K.number high p }
    ensures residues { (ring : R) (p : List (K × R.Elem)) → IsRow K.number R.zero 0 p → AllIn (R.has ring) p
        → AreResidues K.number (R.modulus ring) (written (R.value ring) p) }
{}

/// Rows and combinations of pages whose keys and residues have bounds, and lists of residues as pages hold them.
pub fn rows_of_pages()
    ensures row { (high m : ℕ) (row : List (ℕ × ℕ)) → IsRowData row → AreBelow high m row → AreResidues (λ k. k) m row }
    ensures combination { (high m : ℕ) (combination : List (ℕ × ℕ)) → IsCombData combination → AreBelow high m combination
        → AreResidues (λ k. k) m combination }
    ensures bound { (high m : ℕ) (pairs : List (ℕ × ℕ)) → AreBelow high m pairs → IsBelow (λ k. k) high pairs }
    ensures below { (high m : ℕ) (pairs : List (ℕ × ℕ)) → AreResidues (λ k. k) m pairs → IsBelow (λ k. k) high pairs → AreBelow high m pairs }
    ensures pairs { (high m : ℕ) (pairs : List (ℕ × ℕ)) → m < 2 ^ 63 → AreResidues (λ k. k) m pairs → IsBelow (λ k. k) high pairs → ArePairs high pairs }
    ensures few { (high m : ℕ) (pairs : List (ℕ × ℕ)) → AreResidues (λ k. k) m pairs → IsBelow (λ k. k) high pairs → length pairs ≤ high }
{}
