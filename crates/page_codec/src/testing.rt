//! The test of parameters.
ghost use Rattle.std.specs.Prelude.{◌≡◌, ◌≤◌, ◌<◌, ℕ, List, [], Option, Some, None, length, IfOk, IfErr, IfSome, IfNone};
ghost use Rattle.std.specs.Option.{option_map};
ghost use Rattle.zeta_model.specs.declared.Letter.{Letter};
ghost use Rattle.zeta_model.specs.Indices.{word_text};
ghost use Rattle.page_codec.specs.Bounds.{IsParams, IsPreferable};
ghost use Rattle.page_codec.specs.Tests.{Names, AllName, FailsFirst, AreNamed, FailsText, order_of, IsOrder, PassesNumbers, Passes, Refuses, Cuts, pieces_of};

use crate::bounds::is_preferable;
use crate::fault::ParamFault;
use crate::params::Params;
use column_order::{MAX_COLUMNS, Preferred, count};
use word_letters::Word;

// 0 for `lex`, 1 for `odd`.
fn order_of(name: &str) -> Option<u8>
    ensures some { IfSome result (λ order. order_of name.now order) }
    ensures none { IfNone result (¬ (IsOrder name.now)) }
{
    if name.as_bytes() == b"lex".as_slice() {
        return Some(0);
    }
    if name.as_bytes() == b"odd".as_slice() {
        return Some(1);
    }
    None
}

// The word that piece number `i` names, where it may stand behind another.
fn named(w: u32, d: u32, i: usize, before: Option<Word>, piece: &[u8]) -> Option<Word>
    requires { w ≤ 24 }
    ensures some { IfSome result (λ u. Names w d i before piece.now u) }
    ensures none { IfNone result ((u : List Letter) → ¬ (Names w d i before piece.now u)) }
{
    if i >= 16 {
        return None;
    }
    let Ok(word) = Word::parse(piece) else {
        return None;
    };
    if !is_preferable(w, d, before, word) {
        return None;
    }
    Some(word)
}

impl Params {
    /// The parameters, where each test passes. The refusals are in the order of the variants; it takes no memory.
    pub fn test(
        weight: u64,
        depth: u64,
        modulus: u64,
        order: &str,
        preferred: Option<&str>,
    ) -> Result<Params, ParamFault>
        ensures ok { IfOk result (λ p. Passes weight depth modulus order.now (option_map (λ t. t.now) preferred.entry) p) }
        ensures params { IfOk result IsParams }
        ensures err { IfErr result (λ fault. Refuses weight depth modulus order.now (option_map (λ t. t.now) preferred.entry) fault) }
    {
        if weight < 2 || weight > 24 {
            return Err(ParamFault::Weight(weight));
        }
        if depth < 1 || depth >= weight {
            return Err(ParamFault::Depth(depth));
        }
        if modulus < 3 || modulus >= 1 << 63 {
            return Err(ParamFault::Modulus(modulus));
        }
        if weight >= modulus {
            return Err(ParamFault::NotBelow { weight, modulus });
        }
        let (w, d) = (weight as u32, depth as u32);
        let Some(order) = order_of(order) else {
            return Err(ParamFault::Order);
        };
        let preferred = match preferred_of(w, d, preferred) {
            Ok(words) => words,
            Err(i) => return Err(ParamFault::Preferred(i)),
        };
        let columns = count(w, d);
        if columns > MAX_COLUMNS {
            return Err(ParamFault::Columns(columns));
        }
        Ok(Params {
            weight: w,
            depth: d,
            modulus,
            order,
            preferred,
        })
    }
}

// The words that a text names, or the number of the first piece that names none.
fn preferred_of(w: u32, d: u32, text: Option<&str>) -> Result<Preferred, usize>
    requires { w ≤ 24 }
    ensures ok { IfOk result (λ words. AreNamed w d (option_map (λ t. t.now) text.entry) words) }
    ensures err { IfErr result (λ k. FailsText w d (option_map (λ t. t.now) text.entry) k) }
{
    match text {
        None => Ok(Preferred::none()),
        Some(text) => words_of(w, d, text.as_bytes()),
    }
}

// The words that the pieces of a text name, or the number of the first piece that names none.
fn words_of(w: u32, d: u32, text: &[u8]) -> Result<Preferred, usize>
    requires { w ≤ 24 }
    ensures ok { IfOk result (λ words. AllName w d 0 None (pieces_of text.now) words) }
    ensures err { IfErr result (λ k. FailsFirst w d 0 None (pieces_of text.now) k) }
{
    let mut words = Preferred::none();
    let mut before = None;
    let mut rest = text;
    for i in 0..17usize {
        let (piece, behind) = cut(rest);
        let Some(word) = named(w, d, i, before, piece) else {
            return Err(i);
        };
        let _pushed = words.push(word);
        before = Some(word);
        match behind {
            None => return Ok(words),
            Some(after) => rest = after,
        }
    }
    unreachable!()
}

// The first piece, and what stands behind the + that ends it.
fn cut(text: &[u8]) -> (&[u8], Option<&[u8]>)
    ensures { Cuts text.now result.0.now (option_map (λ t. t.now) result.1) }
{
    for i in 0..text.len() {
        if text[i] == b'+' {
            return (&text[..i], Some(&text[i + 1..]));
        }
    }
    (text, None)
}
