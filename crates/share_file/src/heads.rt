//! The head of a share: its mark, and which share it is.
ghost use Rattle.std.specs.Prelude.{◌≡◌, ◌≢◌, ◌++◌, ◌↔◌, ℕ, List, IsTrue, IfSome, IfNone};
ghost use Rattle.std.specs.Option.{option_map};
ghost use Rattle.page_codec.specs.Inner.{number_at};
ghost use Rattle.share_model.specs.declared.share.ShareId.{ShareId};
ghost use Rattle.share_model.specs.Shares.{IsShareId};
ghost use Rattle.share_file.specs.Inner.{head_at, head_spelling};

use byteorder::{ByteOrder, LittleEndian};
use share_model::ShareId;

/// `MZVSHARE` as a number.
const MARK: u64 = 0x4552_4148_5356_5a4d;

fn u32_at(bytes: &[u8]) -> Option<(u32, &[u8])>
    ensures { option_map (λ x. (x.0, x.1.now)) result ≡ number_at 4 bytes.now }
{
    if bytes.len() < 4 {
        return None;
    }
    let (front, rest) = bytes.split_at(4);
    Some((LittleEndian::read_u32(front), rest))
}

fn u64_at(bytes: &[u8]) -> Option<(u64, &[u8])>
    ensures { option_map (λ x. (x.0, x.1.now)) result ≡ number_at 8 bytes.now }
{
    if bytes.len() < 8 {
        return None;
    }
    let (front, rest) = bytes.split_at(8);
    Some((LittleEndian::read_u64(front), rest))
}

#[tactic(auto, unfolding(crate::specs::Inner::head_at, page_codec::specs::Inner::both_at, page_codec::specs::Inner::mark_at))]
fn numbers_at(bytes: &[u8]) -> Option<(u32, u32, &[u8])>
    ensures { option_map (λ x. ((tt, (x.0, x.1)), x.2.now)) result ≡ head_at bytes.now }
{
    let (mark, rest) = u64_at(bytes)?;
    if mark != MARK {
        return None;
    }
    let (index, rest) = u32_at(rest)?;
    let (of, rest) = u32_at(rest)?;
    Some((index, of, rest))
}

fn is_share_id(id: ShareId) -> bool
    ensures { IsTrue result ↔ IsShareId id }
{
    1 <= id.of && id.of <= 256 && id.index < id.of
}

/// The head in front of the bytes, and what stands behind it.
pub(crate) fn head_at(bytes: &[u8]) -> Option<(ShareId, &[u8])>
    ensures some { IfSome result (λ x. IsShareId x.0 × (bytes.now ≡ head_spelling x.0 ++ x.1.now)) }
    ensures none { IfNone result ((id : ShareId) (rest : List ℕ) → IsShareId id → bytes.now ≢ head_spelling id ++ rest) }
{
    let Some((index, of, rest)) = numbers_at(bytes) else {
        return None;
    };
    let id = ShareId { index, of };
    if !is_share_id(id) {
        return None;
    }
    Some((id, rest))
}
