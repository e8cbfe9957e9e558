//! What replies to lines by truncated sums.
ghost use Rattle.std.specs.Prelude.{◌≡◌, ℕ, ◌%◌, ◌<◌, ◌≤◌, ◌^◌, All, IfOk, OnOk, IsErrOf, string_bytes};
ghost use Rattle.truncated_sums.specs.Inverses.{IsFirstWithout};
ghost use Rattle.zeta_model.specs.Inverses.{HasInverse};
ghost use Rattle.zeta_expr.specs.Weights.{weight_of, depth_of};
ghost use Rattle.probe_replies.specs.Inner.{reply_of};
ghost use Rattle.probe_replies.specs.Replies.{AreProbeReplies, IsProbeReply, value_text};

use crate::numbers::first_without_inverse;
use crate::texts::{number_text, refusal_text};
use crate::values::terms_value;
use line_loop::Replier;
use residues::Ring;
use std::alloc::{AllocError, Global};
use truncated_sums::{SumFault, Truncated};
use zeta_expr::{Expr, LineFault, read};

/// Replies to lines by truncated sums up to n modulo m.
#[derive(Drop)]
pub struct ProbeReplies<R: Ring> {
    alloc: Global,
    ring: R,
    sums: Truncated<R>,
    ghost same: { R.modulus sums.0 ≡ R.modulus ring },
}

impl<R: Ring> ProbeReplies<R> {
    /// Replies by the sums over the numbers from 1 to `n` in a ring.
    ///
    /// `NoInverse` exactly where one of these numbers has no inverse, with the least such and its residue; `Memory` where memory is
    /// wanting.
    pub fn new(alloc: Global, ring: R, n: u32) -> Result<ProbeReplies<R>, SumFault>
        requires from { 1 ≤ n }
        requires most { n ≤ 10000 }
        ensures replies { IfOk result (λ r. AreProbeReplies (R.modulus ring) n (⟦<ProbeReplies<R> as Replier>⟧.reply_to r)) }
        ensures fits { OnOk result ((a : ℕ) → 1 ≤ a → a ≤ n → HasInverse (R.modulus ring) a) }
        ensures no_inverse { (value term : ℕ) →
            IsErrOf result (SumFault.NoInverse value term) → IsFirstWithout (R.modulus ring) n value term }
    {
        match Truncated::new(alloc, ring, n) {
            Ok(sums) => Ok(ProbeReplies { alloc, ring, sums }),
            Err(fault) => Err(fault),
        }
    }

    /// The value of an expression in decimal, or its refusal.
    fn value_text(&self, e: &Expr) -> Result<String, AllocError>
        requires weights { All (λ t. weight_of t < 2 ^ 64) e.now }
        requires depths { All (λ t. depth_of t < 2 ^ 64) e.now }
        ensures { IfOk result (λ text. string_bytes text ≡ value_text (R.modulus self.now.ring) self.now.sums.1 e.now) }
    {
        if let Some(number) = first_without_inverse(&self.ring, e) {
            return refusal_text(self.alloc, LineFault::NoInverse(number));
        }
        let value = terms_value(&self.ring, &self.sums, e.terms.as_slice())?;
        number_text(self.alloc, self.ring.value(value))
    }

    /// The reply to a line.
    fn text(&self, line: &[u8]) -> Result<String, AllocError>
        ensures { IfOk result (λ text. IsProbeReply (R.modulus self.now.ring) self.now.sums.1 line.now (string_bytes text)) }
    {
        match read(self.alloc, line) {
            Ok(e) => self.value_text(&e),
            Err(fault) => refusal_text(self.alloc, fault),
        }
    }
}

impl<R: Ring> Replier for ProbeReplies<R> {
    ghost reply_to = { λ p. reply_of (R.modulus p.ring) p.sums.1 };

    fn reply(&self, line: &[u8], out: &mut Vec<u8>) -> Result<(), AllocError> {
        let text = self.text(line)?;
        out.extend_from_slice(text.as_bytes())?;
        Ok(())
    }
}
