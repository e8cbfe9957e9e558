//! Shares from bytes.
ghost use Rattle.std.specs.Prelude.{◌≡◌, ◌≢◌, IfOk, IfSome, IfNone};
ghost use Rattle.share_model.specs.declared.share.Share.{Share};
ghost use Rattle.share_model.specs.Shares.{IsShare};
ghost use Rattle.share_file.specs.Spelling.{share_spelling};

use crate::heads::head_at;
use crate::limits::relation_count;
use crate::tails::{page_at, rows_at};
use page_codec::{FinalEntries, Page};
use share_model::Share;
use std::alloc::{AllocError, Global};

/// The share whose spelling the bytes are, `None` exactly where they are that of none. Memory may be wanting.
pub fn decode_share(alloc: Global, bytes: &[u8]) -> Result<Option<Share>, AllocError>
    ensures some { IfOk result (λ found. IfSome found (λ s. IsShare s × (bytes.now ≡ share_spelling s))) }
    ensures none { IfOk result (λ found. IfNone found ((s : Share) → IsShare s → bytes.now ≢ share_spelling s)) }
{
    let Some((id, pages)) = head_at(bytes) else {
        return Ok(None);
    };
    let Some((page, rest)) = page_at(alloc, pages)? else {
        return Ok(None);
    };
    let Page::Header(params) = page else {
        return Ok(None);
    };
    let relations = relation_count(alloc, &params)?;
    let Some(rows) = rows_at(alloc, &params, relations, rest)? else {
        return Ok(None);
    };
    let rows = FinalEntries::from_vec(rows);
    Ok(Some(Share { params, id, rows }))
}
