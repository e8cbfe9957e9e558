//! Residues modulo an odd number, in Montgomery's form.
ghost use Rattle.std.specs.Prelude.{◌≡◌, ◌≢◌, ℕ, ◌+◌, ◌-◌, ◌*◌, ◌%◌, ◌^◌, ◌<◌, ◌≤◌, ◌↔◌, ◌⊎◌, IsErr, IfOk, IfErr, nat_lt, refl};
ghost use Rattle.zeta_model.specs.Modular.{Same};
ghost use Rattle.odd_residues.specs.Montgomery.{residue_of};

use crate::newton::negated_inverse;
use residues::{BadModulus, Ring, WordMod};

/// Elements stand for themselves times the inverse of this number. The high half of an accumulator counts in it too.
const BASE: u128 = 1 << 64;

/// The ring of residues modulo an odd number of 3 to 2^63 - 1. The element `a` stands for `a` times the inverse of 2^64.
#[derive(Clone, Copy, Debug, PartialEq, Eq)]
pub struct OddMod {
    modulus: u64,
    // The number whose product with the modulus is -1 modulo 2^64, and 2^64 and its square modulo the modulus.
    negated: u64,
    one: u64,
    square: u64,
    // Inverses are found among the plain residues.
    plain: WordMod,
    pub ghost from: { 3 ≤ modulus },
    pub ghost below: { modulus < 2 ^ 63 },
    pub ghost odd: { modulus % 2 ≡ 1 },
    pub ghost negated_is: { (modulus * negated + 1) % 2 ^ 64 ≡ 0 },
    pub ghost one_is: { one ≡ 2 ^ 64 % modulus },
    pub ghost square_is: { square ≡ 2 ^ 128 % modulus },
    pub ghost plain_is: { plain.modulus ≡ modulus },
}

impl OddMod {
    /// The ring modulo `m`, refused with `m` where that is below 3, above 2^63 - 1 or even.
    pub fn new(m: u64) -> Result<OddMod, BadModulus>
        ensures ok { IfOk result (λ ring. ⟦<OddMod as Ring>⟧.modulus ring ≡ m) }
        ensures bad_modulus { IsErr result ↔ ((m < 3) ⊎ (2 ^ 63 ≤ m) ⊎ (m % 2 ≡ 0)) }
        ensures number { IfErr result (λ fault. fault.0 ≡ m) }
    {
        let plain = WordMod::new(m)?;
        if m % 2 == 0 {
            return Err(BadModulus(m));
        }
        let one = plain.of(BASE);
        Ok(OddMod {
            modulus: m,
            negated: negated_inverse(m),
            one,
            square: plain.mul(one, one),
            plain,
        })
    }

    /// The element of value `n` modulo the modulus.
    fn form(&self, n: u64) -> u64
        requires { n < 2 ^ 64 }
        ensures below { result < self.now.modulus }
        ensures value { residue_of self.now.modulus result ≡ n % self.now.modulus }
    {
        reduced(self, n as u128 * self.square as u128)
    }
}

/// The sum times the inverse of 2^64, by Montgomery's reduction: a multiple of the modulus is added that makes it a multiple of
/// 2^64.
fn reduced(ring: &OddMod, sum: u128) -> u64
    requires { sum < ring.now.modulus * 2 ^ 64 }
    ensures { result ≡ residue_of ring.now.modulus sum }
{
    let factor = ((sum % BASE) as u64).wrapping_mul(ring.negated);
    let whole = sum + factor as u128 * ring.modulus as u128;
    rest_below_twice((whole / BASE) as u64, ring.modulus)
}

/// The rest of `n` below twice `m` modulo `m`.
// The difference wraps to a number above `n` where `n` is below `m`. A branch on that would be mispredicted half the time.
fn rest_below_twice(n: u64, m: u64) -> u64
    requires twice { n < 2 * m }
    requires below { m < 2 ^ 63 }
    ensures { result ≡ n % m }
{
    n.min(n.wrapping_sub(m))
}

impl Ring for OddMod {
    type Elem = u64;

    // Congruent to the exact sum of the products of the elements. Below the modulus times 2^64, so one more product fits.
    type Accumulator = u128;

    ghost use Rattle.std.proofs.lemmas.Bool.{ltb-true};
    ghost use Rattle.std.proofs.Common.{ap, lit<};
    ghost use Rattle.residues.specs.WordModLaws.{lt-from_three, lt-rest, eq-same};
    ghost use Rattle.odd_residues.specs.MontgomeryLaws.{lt-residue, residue-below, residue-injective, residue-zero, residue-one, residue-rest_add, residue-neg, residue-product};

    ghost modulus = { λ r. r.modulus };

    ghost has = { λ r a. nat_lt a r.modulus };

    ghost value = { λ r a. residue_of r.modulus a };

    ghost zero = { 0 };

    ghost one = { λ r. 2 ^ 64 % r.modulus };

    ghost add = { λ r a b. (a + b) % r.modulus };

    ghost neg = { λ r a. (r.modulus - a) % r.modulus };

    ghost mul = { λ r a b. residue_of r.modulus (a * b) };

    ghost is_sum = { λ r s. s < r.modulus * 2 ^ 64 };

    ghost total = { λ r s. residue_of r.modulus (residue_of r.modulus s) };

    ghost modulus_from = { λ r. r.from };

    ghost modulus_below = { λ r. r.below };

    ghost value_below = { λ r a h. residue-below r.modulus a r.from };

    ghost value_injective = { λ r a b ha hb e. residue-injective r.modulus a b r.odd (ltb-true a r.modulus ha) (ltb-true b r.modulus hb) e };

    ghost has_same = { λ r s e a. ap (λ m. nat_lt a m) e };

    ghost value_same = { λ r s e a. ap (λ m. residue_of m a) e };

    ghost eq_same = { eq-same };

    ghost has_zero = { λ r. lt-from_three 0 r.modulus (lit< tt) r.from };

    ghost value_zero = { λ r. residue-zero r.modulus };

    ghost has_one = { λ r. lt-rest (2 ^ 64) r.modulus r.from };

    ghost value_one = { λ r. residue-one r.modulus r.from r.odd };

    ghost has_add = { λ r a b ha hb. lt-rest (a + b) r.modulus r.from };

    ghost value_add = { λ r a b ha hb. residue-rest_add r.modulus a b };

    ghost has_neg = { λ r a ha. lt-rest (r.modulus - a) r.modulus r.from };

    ghost value_neg = { λ r a ha. residue-neg r.modulus a r.from (ltb-true a r.modulus ha) };

    ghost has_mul = { λ r a b ha hb. lt-residue r.modulus (a * b) r.from };

    ghost value_mul = { λ r a b ha hb. residue-product r.modulus a b };

    fn modulus(&self) -> u64 {
        self.modulus
    }

    fn has(&self, a: u64) -> bool {
        a < self.modulus
    }

    fn is_zero(a: u64) -> bool {
        a == 0
    }

    fn zero(&self) -> u64 {
        0
    }

    fn one(&self) -> u64 {
        self.one
    }

    fn of(&self, n: u128) -> u64 {
        self.form(self.plain.of(n))
    }

    fn value(&self, a: u64) -> u64 {
        reduced(self, a as u128)
    }

    fn add(&self, a: u64, b: u64) -> u64 {
        rest_below_twice(a + b, self.modulus)
    }

    fn neg(&self, a: u64) -> u64 {
        rest_below_twice(self.modulus - a, self.modulus)
    }

    fn mul(&self, a: u64, b: u64) -> u64 {
        reduced(self, a as u128 * b as u128)
    }

    // The inverse of the value, in the form.
    fn inverse(&self, a: u64) -> Option<u64> {
        match self.plain.inverse(reduced(self, a as u128)) {
            Some(n) => Some(self.form(n)),
            None => None,
        }
    }

    fn start_sum(&self) -> u128 {
        0
    }

    #[tactic(auto, using(residues::proofs::Rests::reduced_high_part))]
    fn add_product(&self, sum: u128, a: u64, b: u64) -> u128 {
        let sum = sum + a as u128 * b as u128;
        let high = rest_below_twice((sum / BASE) as u64, self.modulus);
        high as u128 * BASE + sum % BASE
    }

    fn close_sum(&self, sum: u128) -> u64 {
        reduced(self, sum)
    }
}
