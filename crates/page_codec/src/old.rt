//! The Header of a version 1 file.
ghost use Rattle.std.specs.Prelude.{◌≡◌, [], IfSome, IfNone};
ghost use Rattle.std.specs.Option.{option_map};
ghost use Rattle.page_codec.specs.Bounds.{IsOldParams};
ghost use Rattle.page_codec.specs.Spelling.{BeginsWithOld};
ghost use Rattle.page_codec.specs.Inner.{old_at, old_parts};
ghost use Rattle.page_codec.specs.declared.params.Params.{Params};

use crate::bounds::is_params;
use crate::params::Params;
use crate::reading::{u8_at, u32_at, u64_at};
use column_order::Preferred;

/// `MZVDATA` and the version 1, as a number.
const MARK: u64 = 0x0141_5441_4456_5a4d;

#[tactic(auto, unfolding(crate::specs::Inner::old_at, crate::specs::Inner::both_at, crate::specs::Inner::mark_at, crate::specs::Inner::limits_at))]
fn old_at(bytes: &[u8]) -> Option<(Params, &[u8])>
    ensures read { option_map (λ x. (old_parts x.0, x.1.now)) result ≡ old_at bytes.now }
    ensures none { IfSome result (λ x. x.0.preferred ≡ []) }
{
    let (kind, rest) = u8_at(bytes)?;
    if kind != 1 {
        return None;
    }
    let (size, rest) = u32_at(rest)?;
    if size != 19 {
        return None;
    }
    let (mark, rest) = u64_at(rest)?;
    if mark != MARK {
        return None;
    }
    let (weight, rest) = u8_at(rest)?;
    let (depth, rest) = u8_at(rest)?;
    let (order, rest) = u8_at(rest)?;
    let (modulus, rest) = u64_at(rest)?;
    let params = Params {
        weight: u32::from(weight),
        depth: u32::from(depth),
        modulus,
        order,
        preferred: Preferred::none(),
    };
    Some((params, rest))
}

/// The parameters of the version 1 Header whose spelling stands in front of the bytes, and how long that is.
pub fn decode_old(bytes: &[u8]) -> Option<(Params, usize)>
    ensures found { IfSome result (λ x. IsOldParams x.0 × BeginsWithOld bytes.now x.0 × (x.1 ≡ 24)) }
    ensures none { IfNone result ((p : Params) → IsOldParams p → ¬ (BeginsWithOld bytes.now p)) }
{
    let Some((params, _)) = old_at(bytes) else {
        return None;
    };
    if !is_params(&params) {
        return None;
    }
    Some((params, 24))
}
