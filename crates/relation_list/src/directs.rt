//! The direct names of a weight and of a depth at most.
ghost use Rattle.std.specs.Prelude.{◌≡◌, ◌+◌, ◌<◌, ◌≤◌, ◌++◌, length, filter, IfOk, OnOk};
ghost use Rattle.relation_list.specs.Listings.{fins_by, fins_from, fins, regs_from, regs, duals, directs};
ghost use Rattle.relation_list.specs.Inner.{direct_within};

use crate::names::{Direct, below_dual, in_order};
use duality_map::dual;
use std::alloc::{AllocError, Global};
use word_letters::{Word, admissible_words};

/// The direct names of weight `w` and depth at most `d`: Fin, Reg, then Dual.
pub(crate) fn directs_within(alloc: Global, w: u32, d: u32) -> Result<Vec<Direct>, AllocError>
    requires { w ≤ 24 }
    ensures { IfOk result (λ names. names.items ≡ filter (direct_within d) (directs w)) }
{
    let mut names = Vec::new(alloc);
    push_fins(alloc, &mut names, w, d)?;
    push_regs(alloc, &mut names, w, d)?;
    push_duals(alloc, &mut names, w, d)?;
    Ok(names)
}

/// Puts the Fin of weight `w` and depth at most `d` at the end of the list.
fn push_fins(alloc: Global, names: &mut Vec<Direct>, w: u32, d: u32) -> Result<(), AllocError>
    requires { w ≤ 24 }
    ensures { OnOk result (names.new.items ≡ names.old.items ++ filter (direct_within d) (fins w)) }
{
    for k in 1..w {
        push_fins_at(alloc, names, w, d, k)?;
    }
    Ok(())
}

/// Puts the Fin of words of `k` and `w - k` letters, of depth at most `d`, at the end of the list.
fn push_fins_at(
    alloc: Global,
    names: &mut Vec<Direct>,
    w: u32,
    d: u32,
    k: u32,
) -> Result<(), AllocError>
    requires lower { k ≤ w }
    requires fits { w ≤ 24 }
    ensures { OnOk result (names.new.items ≡ names.old.items ++ filter (direct_within d) (fins_from w k)) }
{
    let words = admissible_words(alloc, k, d)?;
    for u in &words {
        push_fins_of(alloc, names, w - k, d, *u)?;
    }
    Ok(())
}

/// Puts the Fin of `u` with words of `k` letters, of depth at most `d`, at the end of the list.
fn push_fins_of(
    alloc: Global,
    names: &mut Vec<Direct>,
    k: u32,
    d: u32,
    u: Word,
) -> Result<(), AllocError>
    requires { k ≤ 24 }
    ensures { OnOk result (names.new.items ≡ names.old.items ++ filter (direct_within d) (fins_by k u)) }
{
    let words = admissible_words(alloc, k, d.saturating_sub(u.depth()))?;
    for v in &words {
        if in_order(u, *v) {
            names.push(Direct::Fin { u, v: *v })?;
        }
    }
    Ok(())
}

/// Puts the Reg of weight `w` and depth at most `d` at the end of the list.
fn push_regs(alloc: Global, names: &mut Vec<Direct>, w: u32, d: u32) -> Result<(), AllocError>
    requires { w ≤ 24 }
    ensures { OnOk result (names.new.items ≡ names.old.items ++ filter (direct_within d) (regs w)) }
{
    for m in 1..w {
        push_regs_at(alloc, names, w, d, m)?;
    }
    Ok(())
}

/// Puts the Reg of `m` letters y, of weight `w` and depth at most `d`, at the end of the list.
fn push_regs_at(
    alloc: Global,
    names: &mut Vec<Direct>,
    w: u32,
    d: u32,
    m: u32,
) -> Result<(), AllocError>
    requires lower { m ≤ w }
    requires fits { w ≤ 24 }
    ensures { OnOk result (names.new.items ≡ names.old.items ++ filter (direct_within d) (regs_from w m)) }
{
    let words = admissible_words(alloc, w - m, d.saturating_sub(m))?;
    for v in &words {
        names.push(Direct::Reg { m, v: *v })?;
    }
    Ok(())
}

/// Puts the Dual of weight `w` and depth at most `d` at the end of the list.
fn push_duals(alloc: Global, names: &mut Vec<Direct>, w: u32, d: u32) -> Result<(), AllocError>
    requires { w ≤ 24 }
    ensures { OnOk result (names.new.items ≡ names.old.items ++ filter (direct_within d) (duals w)) }
{
    let words = admissible_words(alloc, w, d)?;
    for u in &words {
        if below_dual(*u) && dual(*u).depth() <= d {
            names.push(Direct::Dual { u: *u })?;
        }
    }
    Ok(())
}
