//! Shares as bytes.
ghost use Rattle.std.specs.Prelude.{◌≡◌, ◌++◌, ◌≤◌, ℕ, length, OnOk};
ghost use Rattle.std.specs.List.{flat_map, AllByRecursion};
ghost use Rattle.page_codec.specs.Bounds.{IsFinalEntry, IsFinalPage};
ghost use Rattle.page_codec.specs.Places.{block_count};
ghost use Rattle.page_codec.specs.Spelling.{spelling_of};
ghost use Rattle.page_codec.specs.declared.page.Page.{Page};
ghost use Rattle.share_model.specs.Shares.{IsShare};
ghost use Rattle.share_file.specs.Spelling.{row_pages, share_spelling};
ghost use Rattle.share_file.specs.Inner.{head_spelling};

use crate::copying::append_copies;
use byteorder::{ByteOrder, LittleEndian};
use page_codec::{FinalEntries, FinalEntry, FinalPage, Page, encode};
use share_model::{Share, ShareId};
use std::alloc::{AllocError, Global};

fn put_head(id: ShareId, out: &mut Vec<u8>) -> Result<(), AllocError>
    ensures { OnOk result (out.new.items ≡ out.old.items ++ head_spelling id) }
{
    let mut index = [0; 4];
    LittleEndian::write_u32(&mut index, id.index);
    let mut of = [0; 4];
    LittleEndian::write_u32(&mut of, id.of);
    out.extend_from_slice(b"MZVSHARE")?;
    out.extend_from_slice(&index)?;
    out.extend_from_slice(&of)
}

// The page of these rows, whose first is the one at place `first`.
fn put_page(
    alloc: Global,
    first: u16,
    rows: &[FinalEntry],
    out: &mut Vec<u8>,
) -> Result<(), AllocError>
    requires { IsFinalPage (record { first = first; entries = rows.now }) }
    ensures { OnOk result (out.new.items ≡ out.old.items ++ spelling_of (Page.Final (record { first = first; entries = rows.now }))) }
{
    let mut copies = Vec::with_capacity(alloc, rows.len())?;
    append_copies(alloc, &mut copies, rows)?;
    let entries = FinalEntries::from_vec(copies);
    encode(&Page::Final(FinalPage { first, entries }), out)
}

fn put_rows(alloc: Global, rows: &[FinalEntry], out: &mut Vec<u8>) -> Result<(), AllocError>
    requires few { length rows.now ≤ 2048 }
    requires entries { AllByRecursion IsFinalEntry rows.now }
    ensures { OnOk result (out.new.items ≡ out.old.items ++ flat_map spelling_of (row_pages (block_count (length rows.now)) 0 rows.now)) }
{
    let pages = (rows.len() + 63) / 64;
    for page in 0..pages {
        let first = 64 * page;
        let (_, behind) = rows.split_at(first);
        let (front, _) = behind.split_at(behind.len().min(64));
        put_page(alloc, first as u16, front, out)?;
    }
    Ok(())
}

/// Puts the share's one spelling behind what is there. After want of memory a first part of it may stand there.
pub fn encode_share(alloc: Global, share: &Share, out: &mut Vec<u8>) -> Result<(), AllocError>
    requires { IsShare share.now }
    ensures { OnOk result (out.new.items ≡ out.old.items ++ share_spelling share.now) }
{
    put_head(share.id, out)?;
    encode(&Page::Header(share.params), out)?;
    let rows = share.rows.as_slice();
    put_rows(alloc, rows, out)?;
    let done = Page::Done {
        rows: rows.len() as u16,
    };
    encode(&done, out)
}
