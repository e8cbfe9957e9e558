//! The listing of the names of a weight and of a depth at most.
ghost use Rattle.std.specs.Prelude.{◌≡◌, ◌+◌, ◌<◌, ◌≤◌, ◌^◌, ◌++◌, length, filter, IfOk, OnOk};
ghost use Rattle.relation_list.specs.Names.{direct_depth_of};
ghost use Rattle.relation_list.specs.Listings.{prods_by, prods_from, listing_of};
ghost use Rattle.relation_list.specs.Inner.{name_within};

use crate::directs::directs_within;
use crate::names::{Direct, RelName, direct_depth};
use std::alloc::{AllocError, Global};
use word_letters::admissible_words;

/// All names of weight `w` and depth at most `d` in their order: Fin by weight of u, u and v; Reg by m and v; Dual by u; Prod by weight and
/// place of r and by u. The number of a relation is its place, from 0.
pub fn listing(alloc: Global, w: u32, d: u32) -> Result<Vec<RelName>, AllocError>
    requires least { 2 ≤ w }
    requires most { w ≤ 24 }
    requires some { 1 ≤ d }
    requires below { d < w }
    ensures { IfOk result (λ names. names.items ≡ listing_of w d) }
{
    let directs = directs_within(alloc, w, d)?;
    let mut names = Vec::new(alloc);
    for r in &directs {
        names.push(RelName::Plain(*r))?;
    }
    for k in 3..w - 1 {
        push_prods_at(alloc, &mut names, w, d, k)?;
    }
    Ok(names)
}

/// Puts the Prod over direct names of weight `k`, of weight `w` and depth at most `d`, at the end of the list.
fn push_prods_at(
    alloc: Global,
    names: &mut Vec<RelName>,
    w: u32,
    d: u32,
    k: u32,
) -> Result<(), AllocError>
    requires lower { k ≤ w }
    requires fits { w ≤ 24 }
    requires depth { d < 2 ^ 32 }
    ensures { OnOk result (names.new.items ≡ names.old.items ++ filter (name_within d) (prods_from w k)) }
{
    let directs = directs_within(alloc, k, d)?;
    for r in &directs {
        push_prods_of(alloc, names, w - k, d, r)?;
    }
    Ok(())
}

/// Puts the Prod of `r` with words of `k` letters, of depth at most `d`, at the end of the list.
fn push_prods_of(
    alloc: Global,
    names: &mut Vec<RelName>,
    k: u32,
    d: u32,
    r: &Direct,
) -> Result<(), AllocError>
    requires fits { k ≤ 24 }
    requires depth { direct_depth_of r.now ≤ d }
    ensures { OnOk result (names.new.items ≡ names.old.items ++ filter (name_within d) (prods_by k r.now)) }
{
    let words = admissible_words(alloc, k, d - direct_depth(r))?;
    for u in &words {
        names.push(RelName::Prod { r: *r, u: *u })?;
    }
    Ok(())
}
