//! Which values are pages.
ghost use Rattle.std.specs.Prelude.{◌≡◌, ◌≤◌, ◌<◌, ◌↔◌, ℕ, List, length, IsTrue};
ghost use Rattle.page_codec.specs.Bounds.{IsPage, IsParams, IsForwardPage, IsFinalPage, IsRowData, IsCombData, ArePairs, AreForward, AreFinal, IsPreferred, IsPreferable, IsEarlier, IsBehind, IsPair, IsForwardEntry, IsFinalEntry};
ghost use Rattle.page_codec.specs.declared.page.Page.{Page};

use crate::page::Page;
use crate::params::Params;
use crate::parts::{FinalEntry, FinalPage, ForwardEntry, ForwardPage};
use column_order::{MAX_COLUMNS, Preferred, count};
use lyndon_words::is_lyndon;
use word_letters::Word;

/// Whether the key is from `low` on and below `high`, and the residue from 1 to 2^63 - 2.
fn is_pair(low: u64, high: u64, key: u64, residue: u64) -> bool
    ensures { IsTrue result ↔ IsPair low high (key, residue) }
{
    low <= key && key < high && 0 < residue && residue < (1 << 63) - 1
}

fn are_column_pairs(pairs: &[(u16, u64)]) -> bool
    ensures { IsTrue result ↔ ArePairs 2048 pairs.now }
{
    let mut low: u64 = 0;
    for pair in pairs {
        if !is_pair(low, 2048, pair.0 as u64, pair.1) {
            return false;
        }
        low = pair.0 as u64 + 1;
    }
    true
}

fn are_number_pairs(pairs: &[(u32, u64)]) -> bool
    ensures { IsTrue result ↔ ArePairs 4294967296 pairs.now }
{
    let mut low: u64 = 0;
    for pair in pairs {
        if !is_pair(low, 1 << 32, pair.0 as u64, pair.1) {
            return false;
        }
        low = pair.0 as u64 + 1;
    }
    true
}

/// Whether it can stand on a page as a row: 1 to 2,048 columns that increase, with residues, the first of them 1.
fn is_row(pairs: &[(u16, u64)]) -> bool
    ensures { IsTrue result ↔ IsRowData pairs.now }
{
    let Some(first) = pairs.first() else {
        return false;
    };
    first.1 == 1 && pairs.len() <= 2048 && are_column_pairs(pairs)
}

fn is_combination(pairs: &[(u32, u64)]) -> bool
    ensures { IsTrue result ↔ IsCombData pairs.now }
{
    1 <= pairs.len() && pairs.len() <= 2048 && are_number_pairs(pairs)
}

fn is_forward_entry(low: u64, high: u64, entry: &ForwardEntry) -> bool
    ensures { IsTrue result ↔ IsForwardEntry low high entry.now }
{
    low <= entry.number as u64
        && (entry.number as u64) < high
        && is_row(entry.row.as_slice())
        && is_combination(entry.combination.as_slice())
}

fn are_forward(first: u64, high: u64, entries: &[ForwardEntry]) -> bool
    ensures { IsTrue result ↔ AreForward first high entries.now }
{
    let mut low = first;
    for entry in entries {
        if !is_forward_entry(low, high, entry) {
            return false;
        }
        low = entry.number as u64 + 1;
    }
    true
}

fn is_final_entry(entry: &FinalEntry) -> bool
    ensures { IsTrue result ↔ IsFinalEntry entry.now }
{
    is_row(entry.row.as_slice()) && is_combination(entry.combination.as_slice())
}

fn are_final(entries: &[FinalEntry]) -> bool
    ensures { IsTrue result ↔ AreFinal entries.now }
{
    for entry in entries {
        if !is_final_entry(entry) {
            return false;
        }
    }
    true
}

fn is_forward_page(page: &ForwardPage) -> bool
    ensures { IsTrue result ↔ IsForwardPage page.now }
{
    let entries = page.entries.as_slice();
    page.first % 64 == 0
        && entries.len() <= 64
        && are_forward(page.first as u64, page.first as u64 + 64, entries)
}

fn is_final_page(page: &FinalPage) -> bool
    ensures { IsTrue result ↔ IsFinalPage page.now }
{
    let entries = page.entries.as_slice();
    page.first % 64 == 0 && 1 <= entries.len() && entries.len() <= 64 && are_final(entries)
}

/// Whether u comes before v by weight, and by the order of words where the weights are equal.
fn is_earlier(u: Word, v: Word) -> bool
    ensures { IsTrue result ↔ IsEarlier u v }
{
    u.weight() < v.weight() || (u.weight() == v.weight() && u < v)
}

fn is_behind(before: Option<Word>, v: Word) -> bool
    ensures { IsTrue result ↔ IsBehind before v }
{
    match before {
        None => true,
        Some(u) => is_earlier(u, v),
    }
}

/// Whether a table of weight `w` and depth `d` may prefer the word behind another.
pub(crate) fn is_preferable(w: u32, d: u32, before: Option<Word>, u: Word) -> bool
    ensures { IsTrue result ↔ IsPreferable w d before u }
{
    u.weight() <= w && u.depth() <= d && u.is_admissible() && is_lyndon(u) && is_behind(before, u)
}

fn is_preferred(w: u32, d: u32, words: &Preferred) -> bool
    ensures { IsTrue result ↔ IsPreferred w d words.now }
{
    let mut before = None;
    for i in 0..words.len() {
        let word = words.at(i);
        if !is_preferable(w, d, before, word) {
            return false;
        }
        before = Some(word);
    }
    true
}

pub(crate) fn is_params(p: &Params) -> bool
    ensures { IsTrue result ↔ IsParams p.now }
{
    2 <= p.weight
        && p.weight <= 24
        && 1 <= p.depth
        && p.depth < p.weight
        && 3 <= p.modulus
        && p.modulus < 1 << 63
        && u64::from(p.weight) < p.modulus
        && p.order <= 1
        && is_preferred(p.weight, p.depth, &p.preferred)
        && count(p.weight, p.depth) <= MAX_COLUMNS
}

/// Whether the page has a spelling.
pub fn is_page(page: &Page) -> bool
    ensures { IsTrue result ↔ IsPage page.now }
{
    match page {
        Page::Header(params) => is_params(params),
        Page::Forward(forward) => is_forward_page(forward),
        Page::Final(rows) => is_final_page(rows),
        Page::Done { rows } => *rows <= 2048,
    }
}
