//! Pages read from the front of some bytes.
ghost use Rattle.std.specs.Prelude.{◌≡◌, ◌≤◌, ◌<◌, ◌^◌, ◌%◌, ℕ, List, length, take, IfOk, IfSome, IfNone};
ghost use Rattle.std.specs.Option.{option_map};
ghost use Rattle.page_codec.specs.Inner.{times_at, word_at, preferred_at, header_at, body_at, page_at};
ghost use Rattle.page_codec.specs.Bounds.{IsPage};
ghost use Rattle.page_codec.specs.Spelling.{BeginsWith, spelling_of};
ghost use Rattle.page_codec.specs.declared.page.Page.{Page};

use crate::bounds::is_page;
use crate::page::Page;
use crate::params::Params;
use crate::reading::{final_at, forward_at, u8_at, u16_at, u32_at, u64_at};
use column_order::Preferred;
use std::alloc::{AllocError, Global};
use word_letters::Word;

/// `MZVDATA` and the version 2, as a number.
const MARK: u64 = 0x0241_5441_4456_5a4d;

#[tactic(auto, unfolding(crate::specs::Inner::word_at))]
fn word_at(bytes: &[u8]) -> Option<(Word, &[u8])>
    ensures { option_map (λ x. (x.0, x.1.now)) result ≡ word_at bytes.now }
{
    let (weight, rest) = u8_at(bytes)?;
    let (bits, after) = u32_at(rest)?;
    if weight > 24 || bits >= 1 << weight {
        return None;
    }
    Some((Word::from_bits(u32::from(weight), bits), after))
}

fn words_at(count: u8, bytes: &[u8]) -> Option<(Preferred, &[u8])>
    requires { count ≤ 16 }
    ensures { option_map (λ x. (x.0, x.1.now)) result ≡ times_at word_at count bytes.now }
{
    let mut words = Preferred::none();
    let mut rest = bytes;
    for _ in 0..count {
        let Some(read) = word_at(rest) else {
            return None;
        };
        if !words.push(read.0) {
            return None;
        }
        rest = read.1;
    }
    Some((words, rest))
}

#[tactic(auto, unfolding(crate::specs::Inner::preferred_at, crate::specs::Inner::counted_at))]
fn preferred_at(bytes: &[u8]) -> Option<(Preferred, &[u8])>
    ensures { option_map (λ x. (x.0, x.1.now)) result ≡ preferred_at bytes.now }
{
    let (count, rest) = u8_at(bytes)?;
    if count > 16 {
        return None;
    }
    words_at(count, rest)
}

#[tactic(auto, unfolding(crate::specs::Inner::header_at, crate::specs::Inner::map_at, crate::specs::Inner::both_at, crate::specs::Inner::mark_at, crate::specs::Inner::limits_at))]
fn header_at(bytes: &[u8]) -> Option<(Params, &[u8])>
    ensures { option_map (λ x. (x.0, x.1.now)) result ≡ header_at bytes.now }
{
    let (mark, rest) = u64_at(bytes)?;
    if mark != MARK {
        return None;
    }
    let (weight, rest) = u8_at(rest)?;
    let (depth, rest) = u8_at(rest)?;
    let (order, rest) = u8_at(rest)?;
    let (modulus, rest) = u64_at(rest)?;
    let Some((preferred, rest)) = preferred_at(rest) else {
        return None;
    };
    let params = Params {
        weight: u32::from(weight),
        depth: u32::from(depth),
        modulus,
        order,
        preferred,
    };
    Some((params, rest))
}

#[tactic(auto, unfolding(crate::specs::Inner::body_at, crate::specs::Inner::map_at))]
fn body_at(alloc: Global, kind: u8, bytes: &[u8]) -> Result<Option<(Page, &[u8])>, AllocError>
    ensures { IfOk result (λ o. option_map (λ x. (x.0, x.1.now)) o ≡ body_at kind bytes.now) }
{
    if kind == 1 {
        return match header_at(bytes) {
            Some((params, rest)) => Ok(Some((Page::Header(params), rest))),
            None => Ok(None),
        };
    }
    if kind == 2 {
        return match forward_at(alloc, bytes)? {
            Some((page, rest)) => Ok(Some((Page::Forward(page), rest))),
            None => Ok(None),
        };
    }
    if kind == 3 {
        return match final_at(alloc, bytes)? {
            Some((page, rest)) => Ok(Some((Page::Final(page), rest))),
            None => Ok(None),
        };
    }
    if kind == 4 {
        return match u16_at(bytes) {
            Some((rows, rest)) => Ok(Some((Page::Done { rows }, rest))),
            None => Ok(None),
        };
    }
    Ok(None)
}

#[tactic(auto, unfolding(crate::specs::Inner::page_at))]
fn page_at(alloc: Global, bytes: &[u8]) -> Result<Option<(Page, &[u8])>, AllocError>
    ensures { IfOk result (λ o. option_map (λ x. (x.0, x.1.now)) o ≡ page_at bytes.now) }
{
    let Some((kind, sized)) = u8_at(bytes) else {
        return Ok(None);
    };
    let Some((size, body)) = u32_at(sized) else {
        return Ok(None);
    };
    let Some((page, rest)) = body_at(alloc, kind, body)? else {
        return Ok(None);
    };
    if size as usize + rest.len() != body.len() {
        return Ok(None);
    }
    Ok(Some((page, rest)))
}

/// The page whose spelling stands in front of the bytes, and how long that is.
pub fn decode(alloc: Global, bytes: &[u8]) -> Result<Option<(Page, usize)>, AllocError>
    ensures found { IfOk result (λ o. IfSome o (λ x. IsPage x.0 × BeginsWith bytes.now x.0 × (x.1 ≡ length (spelling_of x.0)))) }
    ensures none { IfOk result (λ o. IfNone o ((page : Page) → IsPage page → ¬ (BeginsWith bytes.now page))) }
{
    let Some((page, rest)) = page_at(alloc, bytes)? else {
        return Ok(None);
    };
    if !is_page(&page) {
        return Ok(None);
    }
    let length = bytes.len() - rest.len();
    Ok(Some((page, length)))
}
