//! Numbers, pairs and entries, read from the front of some bytes.
ghost use Rattle.std.specs.Prelude.{◌≡◌, IfOk};
ghost use Rattle.std.specs.Option.{option_map};
ghost use Rattle.page_codec.specs.Inner.{number_at, times_at, pair_at, pairs_at, forward_entry_at, final_entry_at, forward_at, final_at};

use crate::parts::{
    CombData, FinalEntries, FinalEntry, FinalPage, ForwardEntries, ForwardEntry, ForwardPage,
    RowData,
};
use byteorder::{ByteOrder, LittleEndian};
use std::alloc::{AllocError, Global};

pub(crate) fn u8_at(bytes: &[u8]) -> Option<(u8, &[u8])>
    ensures { option_map (λ x. (x.0, x.1.now)) result ≡ number_at 1 bytes.now }
{
    if bytes.len() < 1 {
        return None;
    }
    let (front, rest) = bytes.split_at(1);
    Some((front[0], rest))
}

pub(crate) fn u16_at(bytes: &[u8]) -> Option<(u16, &[u8])>
    ensures { option_map (λ x. (x.0, x.1.now)) result ≡ number_at 2 bytes.now }
{
    if bytes.len() < 2 {
        return None;
    }
    let (front, rest) = bytes.split_at(2);
    Some((LittleEndian::read_u16(front), rest))
}

pub(crate) fn u32_at(bytes: &[u8]) -> Option<(u32, &[u8])>
    ensures { option_map (λ x. (x.0, x.1.now)) result ≡ number_at 4 bytes.now }
{
    if bytes.len() < 4 {
        return None;
    }
    let (front, rest) = bytes.split_at(4);
    Some((LittleEndian::read_u32(front), rest))
}

pub(crate) fn u64_at(bytes: &[u8]) -> Option<(u64, &[u8])>
    ensures { option_map (λ x. (x.0, x.1.now)) result ≡ number_at 8 bytes.now }
{
    if bytes.len() < 8 {
        return None;
    }
    let (front, rest) = bytes.split_at(8);
    Some((LittleEndian::read_u64(front), rest))
}

#[tactic(auto, unfolding(crate::specs::Inner::pair_at, crate::specs::Inner::both_at))]
fn column_pair_at(bytes: &[u8]) -> Option<((u16, u64), &[u8])>
    ensures { option_map (λ x. (x.0, x.1.now)) result ≡ pair_at 2 bytes.now }
{
    let (column, rest) = u16_at(bytes)?;
    let (residue, rest) = u64_at(rest)?;
    Some(((column, residue), rest))
}

#[tactic(auto, unfolding(crate::specs::Inner::pair_at, crate::specs::Inner::both_at))]
fn number_pair_at(bytes: &[u8]) -> Option<((u32, u64), &[u8])>
    ensures { option_map (λ x. (x.0, x.1.now)) result ≡ pair_at 4 bytes.now }
{
    let (number, rest) = u32_at(bytes)?;
    let (residue, rest) = u64_at(rest)?;
    Some(((number, residue), rest))
}

fn column_pairs_at(
    alloc: Global,
    count: u16,
    bytes: &[u8],
) -> Result<Option<(Vec<(u16, u64)>, &[u8])>, AllocError>
    ensures { IfOk result (λ o. option_map (λ x. (x.0.items, x.1.now)) o ≡ times_at (pair_at 2) count bytes.now) }
{
    let mut pairs = Vec::with_capacity(alloc, count as usize)?;
    let mut rest = bytes;
    for _ in 0..count {
        let Some((pair, after)) = column_pair_at(rest) else {
            return Ok(None);
        };
        pairs.push(pair)?;
        rest = after;
    }
    Ok(Some((pairs, rest)))
}

fn number_pairs_at(
    alloc: Global,
    count: u16,
    bytes: &[u8],
) -> Result<Option<(Vec<(u32, u64)>, &[u8])>, AllocError>
    ensures { IfOk result (λ o. option_map (λ x. (x.0.items, x.1.now)) o ≡ times_at (pair_at 4) count bytes.now) }
{
    let mut pairs = Vec::with_capacity(alloc, count as usize)?;
    let mut rest = bytes;
    for _ in 0..count {
        let Some((pair, after)) = number_pair_at(rest) else {
            return Ok(None);
        };
        pairs.push(pair)?;
        rest = after;
    }
    Ok(Some((pairs, rest)))
}

#[tactic(auto, unfolding(crate::specs::Inner::pairs_at, crate::specs::Inner::counted_at))]
fn row_at(alloc: Global, bytes: &[u8]) -> Result<Option<(RowData, &[u8])>, AllocError>
    ensures { IfOk result (λ o. option_map (λ x. (x.0, x.1.now)) o ≡ pairs_at 2 bytes.now) }
{
    let Some((count, rest)) = u16_at(bytes) else {
        return Ok(None);
    };
    if count > 2048 {
        return Ok(None);
    }
    match column_pairs_at(alloc, count, rest)? {
        Some((pairs, after)) => Ok(Some((RowData::from_vec(pairs), after))),
        None => Ok(None),
    }
}

#[tactic(auto, unfolding(crate::specs::Inner::pairs_at, crate::specs::Inner::counted_at))]
fn combination_at(alloc: Global, bytes: &[u8]) -> Result<Option<(CombData, &[u8])>, AllocError>
    ensures { IfOk result (λ o. option_map (λ x. (x.0, x.1.now)) o ≡ pairs_at 4 bytes.now) }
{
    let Some((count, rest)) = u16_at(bytes) else {
        return Ok(None);
    };
    if count > 2048 {
        return Ok(None);
    }
    match number_pairs_at(alloc, count, rest)? {
        Some((pairs, after)) => Ok(Some((CombData::from_vec(pairs), after))),
        None => Ok(None),
    }
}

#[tactic(auto, unfolding(crate::specs::Inner::final_entry_at, crate::specs::Inner::both_at, crate::specs::Inner::map_at))]
fn final_entry_at(alloc: Global, bytes: &[u8]) -> Result<Option<(FinalEntry, &[u8])>, AllocError>
    ensures { IfOk result (λ o. option_map (λ x. (x.0, x.1.now)) o ≡ final_entry_at bytes.now) }
{
    let Some((row, rest)) = row_at(alloc, bytes)? else {
        return Ok(None);
    };
    let Some((combination, after)) = combination_at(alloc, rest)? else {
        return Ok(None);
    };
    Ok(Some((FinalEntry { row, combination }, after)))
}

#[tactic(auto, unfolding(crate::specs::Inner::forward_entry_at, crate::specs::Inner::both_at, crate::specs::Inner::map_at))]
fn forward_entry_at(
    alloc: Global,
    bytes: &[u8],
) -> Result<Option<(ForwardEntry, &[u8])>, AllocError>
    ensures { IfOk result (λ o. option_map (λ x. (x.0, x.1.now)) o ≡ forward_entry_at bytes.now) }
{
    let Some((number, rest)) = u32_at(bytes) else {
        return Ok(None);
    };
    let Some((row, behind)) = row_at(alloc, rest)? else {
        return Ok(None);
    };
    let Some((combination, after)) = combination_at(alloc, behind)? else {
        return Ok(None);
    };
    Ok(Some((
        ForwardEntry {
            number,
            row,
            combination,
        },
        after,
    )))
}

fn forward_entries_at(
    alloc: Global,
    count: u8,
    bytes: &[u8],
) -> Result<Option<(Vec<ForwardEntry>, &[u8])>, AllocError>
    ensures { IfOk result (λ o. option_map (λ x. (x.0.items, x.1.now)) o ≡ times_at forward_entry_at count bytes.now) }
{
    let mut entries = Vec::with_capacity(alloc, count as usize)?;
    let mut rest = bytes;
    for _ in 0..count {
        let Some((entry, after)) = forward_entry_at(alloc, rest)? else {
            return Ok(None);
        };
        entries.push(entry)?;
        rest = after;
    }
    Ok(Some((entries, rest)))
}

fn final_entries_at(
    alloc: Global,
    count: u8,
    bytes: &[u8],
) -> Result<Option<(Vec<FinalEntry>, &[u8])>, AllocError>
    ensures { IfOk result (λ o. option_map (λ x. (x.0.items, x.1.now)) o ≡ times_at final_entry_at count bytes.now) }
{
    let mut entries = Vec::with_capacity(alloc, count as usize)?;
    let mut rest = bytes;
    for _ in 0..count {
        let Some((entry, after)) = final_entry_at(alloc, rest)? else {
            return Ok(None);
        };
        entries.push(entry)?;
        rest = after;
    }
    Ok(Some((entries, rest)))
}

#[tactic(auto, unfolding(crate::specs::Inner::forward_at, crate::specs::Inner::both_at, crate::specs::Inner::map_at, crate::specs::Inner::counted_at))]
pub(crate) fn forward_at(
    alloc: Global,
    bytes: &[u8],
) -> Result<Option<(ForwardPage, &[u8])>, AllocError>
    ensures { IfOk result (λ o. option_map (λ x. (x.0, x.1.now)) o ≡ forward_at bytes.now) }
{
    let Some((first, rest)) = u32_at(bytes) else {
        return Ok(None);
    };
    let Some((count, behind)) = u8_at(rest) else {
        return Ok(None);
    };
    if count > 64 {
        return Ok(None);
    }
    let Some((entries, after)) = forward_entries_at(alloc, count, behind)? else {
        return Ok(None);
    };
    let entries = ForwardEntries::from_vec(entries);
    Ok(Some((ForwardPage { first, entries }, after)))
}

#[tactic(auto, unfolding(crate::specs::Inner::final_at, crate::specs::Inner::both_at, crate::specs::Inner::map_at, crate::specs::Inner::counted_at))]
pub(crate) fn final_at(
    alloc: Global,
    bytes: &[u8],
) -> Result<Option<(FinalPage, &[u8])>, AllocError>
    ensures { IfOk result (λ o. option_map (λ x. (x.0, x.1.now)) o ≡ final_at bytes.now) }
{
    let Some((first, rest)) = u16_at(bytes) else {
        return Ok(None);
    };
    let Some((count, behind)) = u8_at(rest) else {
        return Ok(None);
    };
    if count > 64 {
        return Ok(None);
    }
    let Some((entries, after)) = final_entries_at(alloc, count, behind)? else {
        return Ok(None);
    };
    let entries = FinalEntries::from_vec(entries);
    Ok(Some((FinalPage { first, entries }, after)))
}
