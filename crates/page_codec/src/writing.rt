//! Pages spelled behind what is there.
ghost use Rattle.std.specs.Prelude.{◌≡◌, ◌≤◌, ◌+◌, ◌^◌, ◌<◌, ◌++◌, ℕ, List, length, IsOk, OnOk, OnErr, vec_capacity, vec_len};
ghost use Rattle.std.specs.List.{flat_map, AllByRecursion};
ghost use Rattle.byteorder.specs.Endian.{little_bytes};
ghost use Rattle.zeta_model.specs.declared.Letter.{Letter};
ghost use Rattle.page_codec.specs.Bounds.{IsPage, IsParams, IsForwardPage, IsFinalPage};
ghost use Rattle.page_codec.specs.Spelling.{pair_spelling, row_spelling, combination_spelling, forward_entry, final_entry, word_spelling, limits_spelling, header, kind_of, body_of, spelling_of};
ghost use Rattle.page_codec.specs.Inner.{Wrote, HasRoom, IsShort};
ghost use Rattle.page_codec.specs.declared.page.Page.{Page};

use crate::page::Page;
use crate::params::Params;
use crate::parts::{FinalEntry, FinalPage, ForwardEntry, ForwardPage};
use byteorder::{ByteOrder, LittleEndian};
use column_order::Preferred;
use std::alloc::AllocError;
use word_letters::Word;

fn put(out: &mut Vec<u8>, bytes: &[u8])
    requires { HasRoom out.old bytes.now }
    ensures { Wrote out.old out.new bytes.now }
{
    match out.extend_from_slice(bytes) {
        Ok(()) => {}
        Err(_) => unreachable!(),
    }
}

fn put_u8(out: &mut Vec<u8>, n: u8)
    requires { HasRoom out.old (little_bytes 1 n) }
    ensures { Wrote out.old out.new (little_bytes 1 n) }
{
    put(out, &[n]);
}

fn put_u16(out: &mut Vec<u8>, n: u16)
    requires { HasRoom out.old (little_bytes 2 n) }
    ensures { Wrote out.old out.new (little_bytes 2 n) }
{
    let mut bytes = [0; 2];
    LittleEndian::write_u16(&mut bytes, n);
    put(out, &bytes);
}

fn put_u32(out: &mut Vec<u8>, n: u32)
    requires { HasRoom out.old (little_bytes 4 n) }
    ensures { Wrote out.old out.new (little_bytes 4 n) }
{
    let mut bytes = [0; 4];
    LittleEndian::write_u32(&mut bytes, n);
    put(out, &bytes);
}

fn put_u64(out: &mut Vec<u8>, n: u64)
    requires { HasRoom out.old (little_bytes 8 n) }
    ensures { Wrote out.old out.new (little_bytes 8 n) }
{
    let mut bytes = [0; 8];
    LittleEndian::write_u64(&mut bytes, n);
    put(out, &bytes);
}

fn put_column_pair(out: &mut Vec<u8>, column: u16, residue: u64)
    requires { HasRoom out.old (pair_spelling 2 (column, residue)) }
    ensures { Wrote out.old out.new (pair_spelling 2 (column, residue)) }
{
    let mut bytes = [0; 10];
    LittleEndian::write_u16(&mut bytes, column);
    LittleEndian::write_u64(&mut bytes[2..], residue);
    put(out, &bytes);
}

fn put_number_pair(out: &mut Vec<u8>, number: u32, residue: u64)
    requires { HasRoom out.old (pair_spelling 4 (number, residue)) }
    ensures { Wrote out.old out.new (pair_spelling 4 (number, residue)) }
{
    let mut bytes = [0; 12];
    LittleEndian::write_u32(&mut bytes, number);
    LittleEndian::write_u64(&mut bytes[4..], residue);
    put(out, &bytes);
}

fn put_column_pairs(out: &mut Vec<u8>, pairs: &[(u16, u64)])
    requires { HasRoom out.old (flat_map (pair_spelling 2) pairs.now) }
    ensures { Wrote out.old out.new (flat_map (pair_spelling 2) pairs.now) }
{
    for pair in pairs {
        put_column_pair(out, pair.0, pair.1);
    }
}

fn put_number_pairs(out: &mut Vec<u8>, pairs: &[(u32, u64)])
    requires { HasRoom out.old (flat_map (pair_spelling 4) pairs.now) }
    ensures { Wrote out.old out.new (flat_map (pair_spelling 4) pairs.now) }
{
    for pair in pairs {
        put_number_pair(out, pair.0, pair.1);
    }
}

fn put_row(out: &mut Vec<u8>, pairs: &[(u16, u64)])
    requires few { length pairs.now ≤ 2048 }
    requires room { HasRoom out.old (row_spelling pairs.now) }
    ensures { Wrote out.old out.new (row_spelling pairs.now) }
{
    put_u16(out, pairs.len() as u16);
    put_column_pairs(out, pairs);
}

fn put_combination(out: &mut Vec<u8>, pairs: &[(u32, u64)])
    requires few { length pairs.now ≤ 2048 }
    requires room { HasRoom out.old (combination_spelling pairs.now) }
    ensures { Wrote out.old out.new (combination_spelling pairs.now) }
{
    put_u16(out, pairs.len() as u16);
    put_number_pairs(out, pairs);
}

fn put_final_entry(out: &mut Vec<u8>, entry: &FinalEntry)
    requires row { length entry.now.row ≤ 2048 }
    requires combination { length entry.now.combination ≤ 2048 }
    requires room { HasRoom out.old (final_entry entry.now) }
    ensures { Wrote out.old out.new (final_entry entry.now) }
{
    put_row(out, entry.row.as_slice());
    put_combination(out, entry.combination.as_slice());
}

fn put_forward_entry(out: &mut Vec<u8>, entry: &ForwardEntry)
    requires row { length entry.now.row ≤ 2048 }
    requires combination { length entry.now.combination ≤ 2048 }
    requires room { HasRoom out.old (forward_entry entry.now) }
    ensures { Wrote out.old out.new (forward_entry entry.now) }
{
    put_u32(out, entry.number);
    put_row(out, entry.row.as_slice());
    put_combination(out, entry.combination.as_slice());
}

fn put_final_entries(out: &mut Vec<u8>, entries: &[FinalEntry])
    requires short { AllByRecursion (λ e. IsShort e.row e.combination) entries.now }
    requires room { HasRoom out.old (flat_map final_entry entries.now) }
    ensures { Wrote out.old out.new (flat_map final_entry entries.now) }
{
    for entry in entries {
        put_final_entry(out, entry);
    }
}

fn put_forward_entries(out: &mut Vec<u8>, entries: &[ForwardEntry])
    requires short { AllByRecursion (λ e. IsShort e.row e.combination) entries.now }
    requires room { HasRoom out.old (flat_map forward_entry entries.now) }
    ensures { Wrote out.old out.new (flat_map forward_entry entries.now) }
{
    for entry in entries {
        put_forward_entry(out, entry);
    }
}

fn put_word(out: &mut Vec<u8>, word: Word)
    requires most { length word ≤ 24 }
    requires room { HasRoom out.old (word_spelling word) }
    ensures { Wrote out.old out.new (word_spelling word) }
{
    put_u8(out, word.weight() as u8);
    put_u32(out, word.bits());
}

fn put_words(out: &mut Vec<u8>, words: &Preferred)
    requires words { AllByRecursion (λ w. length w ≤ 24) words.now }
    requires room { HasRoom out.old (flat_map word_spelling words.now) }
    ensures { Wrote out.old out.new (flat_map word_spelling words.now) }
{
    for i in 0..words.len() {
        put_word(out, words.at(i));
    }
}

fn put_limits(out: &mut Vec<u8>, p: &Params)
    requires params { IsParams p.now }
    requires room { HasRoom out.old (limits_spelling p.now) }
    ensures { Wrote out.old out.new (limits_spelling p.now) }
{
    put_u8(out, p.weight as u8);
    put_u8(out, p.depth as u8);
    put_u8(out, p.order);
    put_u64(out, p.modulus);
}

fn put_header(out: &mut Vec<u8>, p: &Params)
    requires params { IsParams p.now }
    requires room { HasRoom out.old (header p.now) }
    ensures { Wrote out.old out.new (header p.now) }
{
    put(out, b"MZVDATA\x02");
    put_limits(out, p);
    put_u8(out, p.preferred.len() as u8);
    put_words(out, &p.preferred);
}

fn put_forward(out: &mut Vec<u8>, page: &ForwardPage)
    requires page { IsForwardPage page.now }
    requires room { HasRoom out.old (body_of (Page.Forward page.now)) }
    ensures { Wrote out.old out.new (body_of (Page.Forward page.now)) }
{
    let entries = page.entries.as_slice();
    put_u32(out, page.first);
    put_u8(out, entries.len() as u8);
    put_forward_entries(out, entries);
}

fn put_final(out: &mut Vec<u8>, page: &FinalPage)
    requires page { IsFinalPage page.now }
    requires room { HasRoom out.old (body_of (Page.Final page.now)) }
    ensures { Wrote out.old out.new (body_of (Page.Final page.now)) }
{
    let entries = page.entries.as_slice();
    put_u16(out, page.first);
    put_u8(out, entries.len() as u8);
    put_final_entries(out, entries);
}

fn put_body(out: &mut Vec<u8>, page: &Page)
    requires page { IsPage page.now }
    requires room { HasRoom out.old (body_of page.now) }
    ensures { Wrote out.old out.new (body_of page.now) }
{
    match page {
        Page::Header(params) => put_header(out, params),
        Page::Forward(forward) => put_forward(out, forward),
        Page::Final(rows) => put_final(out, rows),
        Page::Done { rows } => put_u16(out, *rows),
    }
}

fn kind_of(page: &Page) -> u8
    ensures kind { result ≡ kind_of page.now }
    ensures within { result ≤ 4 }
{
    match page {
        Page::Header(_) => 1,
        Page::Forward(_) => 2,
        Page::Final(_) => 3,
        Page::Done { .. } => 4,
    }
}

fn forward_size(entries: &[ForwardEntry]) -> usize
    requires few { length entries.now ≤ 64 }
    requires short { AllByRecursion (λ e. IsShort e.row e.combination) entries.now }
    ensures length { result ≡ length (flat_map forward_entry entries.now) }
    ensures within { result ≤ 2884096 }
{
    let mut size = 0;
    for entry in entries {
        size += 8 + 10 * entry.row.as_slice().len() + 12 * entry.combination.as_slice().len();
    }
    size
}

fn final_size(entries: &[FinalEntry]) -> usize
    requires few { length entries.now ≤ 64 }
    requires short { AllByRecursion (λ e. IsShort e.row e.combination) entries.now }
    ensures length { result ≡ length (flat_map final_entry entries.now) }
    ensures within { result ≤ 2884096 }
{
    let mut size = 0;
    for entry in entries {
        size += 4 + 10 * entry.row.as_slice().len() + 12 * entry.combination.as_slice().len();
    }
    size
}

/// The length of the body of a page, in bytes: at most 2,884,101.
fn body_size(page: &Page) -> usize
    requires { IsPage page.now }
    ensures length { result ≡ length (body_of page.now) }
    ensures within { result ≤ 2884101 }
{
    match page {
        Page::Header(params) => 20 + 5 * params.preferred.len(),
        Page::Forward(forward) => 5 + forward_size(forward.entries.as_slice()),
        Page::Final(rows) => 3 + final_size(rows.entries.as_slice()),
        Page::Done { .. } => 2,
    }
}

/// Puts the page's one spelling behind what is there. It cannot fail where there is room.
pub fn encode(page: &Page, out: &mut Vec<u8>) -> Result<(), AllocError>
    requires { IsPage page.now }
    ensures ok { OnOk result (out.new.items ≡ out.old.items ++ spelling_of page.now) }
    ensures err { OnErr result (out.new.items ≡ out.old.items) }
    ensures fits { vec_len out.old + length (spelling_of page.now) ≤ vec_capacity out.old → IsOk result }
{
    let size = body_size(page);
    out.reserve(5 + size)?;
    put_u8(out, kind_of(page));
    put_u32(out, size as u32);
    put_body(out, page);
    Ok(())
}
