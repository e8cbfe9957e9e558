//! The sum of the terms of a line, folded by duality.
ghost use Rattle.std.specs.Prelude.{◌≡◌, ℕ, ◌%◌, true, List, IfOk};
ghost use Rattle.dual_reply.specs.Sums.{sign_number, folded_sum};
ghost use Rattle.word_sums.specs.Terms.{coefficient_of, AllIn};
ghost use Rattle.zeta_model.specs.declared.Letter.{Letter};

use crate::words::Signed;
use duality_map::representative;
use residues::Ring;
use std::alloc::{AllocError, Global};
use word_sums::WordSum;

/// The coefficient of a term: one, or its opposite where the sign is `-`.
fn signed_one<R: Ring>(ring: &R, negative: bool) -> R::Elem
    ensures has { R.has ring.now result ≡ true }
    ensures value { R.value ring.now result ≡ sign_number (R.modulus ring.now) negative }
{
    if negative {
        ring.neg(ring.one())
    } else {
        ring.one()
    }
}

/// The sum of some terms, each word replaced by the lesser of it and its dual.
pub fn folded_sum<R: Ring>(
    alloc: Global,
    ring: &R,
    terms: &[Signed],
) -> Result<WordSum<R>, AllocError>
    ensures in_ring { IfOk result (λ sum. AllIn (R.has ring.now) sum) }
    ensures value { IfOk result (λ sum. (t : List Letter) → coefficient_of (R.value ring.now) sum t
        ≡ folded_sum (R.modulus ring.now) terms.now t % R.modulus ring.now) }
{
    let mut sum = WordSum::new(alloc);
    for term in terms {
        let one = signed_one(ring, term.negative);
        sum.add_term(ring, representative(term.word), one)?;
    }
    Ok(sum)
}
