//! The regularisation of a sum.
ghost use Rattle.std.specs.Prelude.{◌≡◌, ◌↔◌, true, List, All, IfOk, OnOk, IsErrOf};
ghost use Rattle.std.specs.Map.{keys_of};
ghost use Rattle.regularise_core.specs.Outside.{outside_h1};
ghost use Rattle.word_sums.specs.Failing.{IsLeast};
ghost use Rattle.word_sums.specs.Sums.{IsSumOf};
ghost use Rattle.word_sums.specs.Terms.{AllIn};
ghost use Rattle.zeta_model.specs.Regularise.{reg_of_sum};
ghost use Rattle.zeta_model.specs.Sums.{numbered};
ghost use Rattle.zeta_model.specs.Words.{has_index};
ghost use Rattle.zeta_model.specs.declared.Letter.{Letter};

use crate::RegFault;
use crate::shuffles::add_regularised;
use residues::Ring;
use std::alloc::Global;
use word_letters::Word;
use word_sums::{WordSum, WordTest};

/// The regularisation of a sum whose words are empty or end with y (Ihara, Kaneko and Zagier 2006): `reg(1) = 1`,
/// `reg(y^j)` is zero for j from 1, and `reg(y^j x u) = (-1)^j x sh(y^j, u)`.
///
/// `NotInH1(w)` exactly where a word of the sum is not empty and ends with x, and `w` is the least such word. `Memory` where
/// memory is wanting.
pub fn reg<R: Ring>(alloc: Global, ring: &R, s: &WordSum<R>) -> Result<WordSum<R>, RegFault>
    requires in_ring { AllIn (R.has ring.now) s.now }
    ensures value { IfOk result (IsSumOf R.zero (R.has ring.now) (R.value ring.now) (R.modulus ring.now)
        (reg_of_sum (R.modulus ring.now) (numbered (R.value ring.now) s.now))) }
    ensures has_index { OnOk result (All (λ w. has_index w ≡ true) (keys_of s.now)) }
    ensures not_in_h1 { (w : List Letter) → IsErrOf result (RegFault.NotInH1 w) ↔ IsLeast (outside_h1 s.now) w }
{
    if let Some(word) = s.least_failing(&HasIndex) {
        return Err(RegFault::NotInH1(word));
    }
    let mut sum = WordSum::new(alloc);
    for (word, residue) in s.iter() {
        add_regularised(alloc, ring, *word, *residue, &mut sum).map_err(RegFault::Memory)?;
    }
    Ok(sum)
}

/// Whether a word is empty or ends with y.
struct HasIndex;

impl WordTest for HasIndex {
    ghost use Rattle.zeta_model.specs.Words.{has_index};

    ghost passes = { λ test w. has_index w };

    fn passes(&self, w: Word) -> bool {
        w.has_index()
    }
}
