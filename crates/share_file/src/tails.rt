//! The pages of a share: its parameters, and the rows behind them.
ghost use Rattle.std.specs.Prelude.{◌≡◌, ◌≢◌, ◌++◌, ◌↔◌, ℕ, List, [], IsTrue, IfOk, IfSome, IfNone};
ghost use Rattle.page_codec.specs.declared.page.Page.{Page};
ghost use Rattle.page_codec.specs.declared.parts.FinalEntry.{FinalEntry};
ghost use Rattle.page_codec.specs.Bounds.{IsPage, IsParams};
ghost use Rattle.page_codec.specs.Spelling.{BeginsWith, spelling_of};
ghost use Rattle.share_file.specs.Inner.{AreRows, tail_spelling};

use crate::copying::append_copies;
use crate::limits::follows;
use page_codec::{FinalEntry, Page, Params, decode};
use std::alloc::{AllocError, Global};

/// The page in front of the bytes, and what stands behind it.
pub(crate) fn page_at(alloc: Global, bytes: &[u8]) -> Result<Option<(Page, &[u8])>, AllocError>
    ensures found { IfOk result (λ o. IfSome o (λ x. IsPage x.0 × (bytes.now ≡ spelling_of x.0 ++ x.1.now))) }
    ensures none { IfOk result (λ o. IfNone o ((page : Page) → IsPage page → ¬ (BeginsWith bytes.now page))) }
{
    match decode(alloc, bytes)? {
        Some((page, length)) => Ok(Some((page, &bytes[length..]))),
        None => Ok(None),
    }
}

// Whether the last page tells so many rows, and nothing stands behind it.
fn ends(count: u16, rows: usize, behind: &[u8]) -> bool
    ensures { IsTrue result ↔ ((count ≡ rows) × (behind.now ≡ [])) }
{
    count as usize == rows && behind.is_empty()
}

/// The rows whose pages, with the last page behind them, are the bytes. The table has so many relations.
pub(crate) fn rows_at(
    alloc: Global,
    params: &Params,
    relations: u32,
    bytes: &[u8],
) -> Result<Option<Vec<FinalEntry>>, AllocError>
    requires { IsParams params.now }
    ensures some { IfOk result (λ o. IfSome o (λ rows. AreRows params.now relations rows.items × (bytes.now ≡ tail_spelling 0 rows.items))) }
    ensures none { IfOk result (λ o. IfNone o ((rows : List FinalEntry) → AreRows params.now relations rows → bytes.now ≢ tail_spelling 0 rows)) }
{
    let mut rows = Vec::new(alloc);
    let mut rest = bytes;
    'pages: loop {
        let Some((page, behind)) = page_at(alloc, rest)? else {
            return Ok(None);
        };
        match page {
            Page::Final(page) => {
                if !follows(params, relations, rows.len(), &page) {
                    return Ok(None);
                }
                append_copies(alloc, &mut rows, page.entries.as_slice())?;
                rest = behind;
            }
            Page::Done { rows: count } => {
                if !ends(count, rows.len(), behind) {
                    return Ok(None);
                }
                return Ok(Some(rows));
            }
            Page::Header(_) => return Ok(None),
            Page::Forward(_) => return Ok(None),
        }
    }
}
