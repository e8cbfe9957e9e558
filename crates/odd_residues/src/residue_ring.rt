//! The ring of a modulus, odd or even.
ghost use Rattle.std.specs.Prelude.{◌≡◌, ◌<◌, ◌≤◌, ◌^◌, ◌↔◌, ◌⊎◌, IsErr, IfOk, IfErr};
ghost use Rattle.odd_residues.specs.Rings.{IsRingOf};

use crate::OddMod;
use residues::{BadModulus, WordMod};

/// The ring of a modulus, chosen once: work that is generic in the ring is called at one of the two types.
#[derive(Clone, Copy, Debug, PartialEq, Eq)]
pub enum ResidueRing {
    /// An odd modulus: residues in Montgomery's form.
    Odd(OddMod),
    /// An even modulus: residues as they are.
    Even(WordMod),
}

impl ResidueRing {
    /// The ring modulo `m`, refused with `m` where that is below 3 or above 2^63 - 1.
    pub fn new(m: u64) -> Result<ResidueRing, BadModulus>
        ensures ok { IfOk result (IsRingOf m) }
        ensures bad_modulus { IsErr result ↔ ((m < 3) ⊎ (2 ^ 63 ≤ m)) }
        ensures number { IfErr result (λ fault. fault.0 ≡ m) }
    {
        if m % 2 == 0 {
            return Ok(ResidueRing::Even(WordMod::new(m)?));
        }
        Ok(ResidueRing::Odd(OddMod::new(m)?))
    }
}
