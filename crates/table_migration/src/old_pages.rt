//! The pages of a version 1 file.
ghost use Rattle.std.specs.Prelude.{◌≡◌, ◌≤◌, ◌+◌, ◌++◌, ℕ, List, length, IfOk, IfSome, IfNone};
ghost use Rattle.page_codec.specs.declared.page.Page.{Page};
ghost use Rattle.table_migration.specs.OldFiles.{IsOldPage, old_spelling, NoOldPage};

use byteorder::{ByteOrder, LittleEndian};
use page_codec::{Page, decode, decode_old};
use std::alloc::{AllocError, Global};

/// The kind of a page and the length of its body, in bytes.
pub(crate) const HEAD: usize = 5;

/// The longest body, in bytes.
const LONGEST: u32 = 2_884_101;

/// The page whose spelling in version 1 stands in front of the bytes.
pub(crate) fn old_page(alloc: Global, bytes: &[u8]) -> Result<Option<Page>, AllocError>
    ensures found { IfOk result (λ o. IfSome o (λ page. IsOldPage page × ((rest : List ℕ) × (bytes.now ≡ old_spelling page ++ rest)))) }
    ensures none { IfOk result (λ o. IfNone o (NoOldPage bytes.now)) }
{
    if let Some((params, _)) = decode_old(bytes) {
        return Ok(Some(Page::Header(params)));
    }
    match decode(alloc, bytes)? {
        // Its version is 2.
        Some((Page::Header(_), _)) => Ok(None),
        Some((page, _)) => Ok(Some(page)),
        None => Ok(None),
    }
}

/// How long the body of a page is, by its head; none where no page has such a head.
pub(crate) fn body_length(head: &[u8]) -> Option<usize>
    requires { length head.now ≡ 5 }
    ensures found { IfSome result (λ n. (page : Page) (more rest : List ℕ) → IsOldPage page → head.now ++ more ≡ old_spelling page ++ rest
        → length (old_spelling page) ≡ 5 + n) }
    ensures within { IfSome result (λ n. n ≤ 2884101) }
    ensures none { IfNone result ((more : List ℕ) → NoOldPage (head.now ++ more)) }
{
    let length = LittleEndian::read_u32(&head[1..]);
    if length > LONGEST {
        return None;
    }
    Some(length as usize)
}
