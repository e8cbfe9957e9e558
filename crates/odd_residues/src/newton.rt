//! The inverse of an odd number modulo 2^64.
ghost use Rattle.std.specs.Prelude.{◌≡◌, ◌+◌, ◌*◌, ◌%◌, ◌^◌};

/// The number whose product with the odd `m` is -1 modulo 2^64, by Newton's steps.
// It begins right modulo 2, and each step squares the power of 2 modulo which it is right.
pub(crate) fn negated_inverse(m: u64) -> u64
    requires { m % 2 ≡ 1 }
    ensures { (m * result + 1) % 2 ^ 64 ≡ 0 }
{
    let mut inverse = 1u64;
    for _i in 0..6u32 {
        inverse = inverse.wrapping_mul(m.wrapping_mul(inverse).wrapping_add(2));
    }
    inverse
}
