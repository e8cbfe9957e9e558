//! The name of a relation, and what is read of it.
ghost use Rattle.std.specs.Prelude.{◌≡◌, ◌≤◌, ◌<◌, ◌+◌, ◌^◌, IsTrue, length};
ghost use Rattle.zeta_model.specs.Words.{is_admissible};
ghost use Rattle.relation_list.specs.Names.{in_order, below_dual, direct_weight_of, weight_of_name, direct_depth_of, depth_of_name, is_direct, is_name_of};

use duality_map::dual;
use word_letters::{MAX_WEIGHT, Word};

/// The name of a direct relation.
#[derive(Debug, Clone, Copy, PartialEq, Eq)]
pub enum Direct {
    /// The shuffle of `u` and `v` less their stuffle.
    Fin { u: Word, v: Word },
    /// The regularised stuffle of `m` letters y with `v`.
    Reg { m: u32, v: Word },
    /// The word `u` less its dual.
    Dual { u: Word },
}

/// The name of a relation.
#[derive(Debug, Clone, Copy, PartialEq, Eq)]
pub enum RelName {
    /// A direct relation.
    Plain(Direct),
    /// The shuffle of a direct relation with a word.
    Prod { r: Direct, u: Word },
}

/// Whether it is the name of a relation of weight at most 24.
pub fn is_name(name: &RelName) -> bool
    ensures { result ≡ is_name_of name.now }
{
    let formed = match name {
        RelName::Plain(r) => is_direct(r),
        RelName::Prod { r, u } => is_direct(r) && direct_weight(r) >= 3 && u.is_admissible(),
    };
    formed && whole_weight(name) <= MAX_WEIGHT as u64
}

/// The weight of the relation: each word of its value has so many letters.
pub fn weight(name: &RelName) -> u32
    requires { IsTrue (is_name_of name.now) }
    ensures weight { result ≡ weight_of_name name.now }
    ensures within { result ≤ 24 }
{
    whole_weight(name) as u32
}

/// The depth of the relation: no word of its value has more letters y.
pub fn depth(name: &RelName) -> u32
    requires { IsTrue (is_name_of name.now) }
    ensures depth { result ≡ depth_of_name name.now }
    ensures within { result ≤ 24 }
{
    match name {
        RelName::Plain(r) => direct_depth(r),
        RelName::Prod { r, u } => direct_depth(r) + u.depth(),
    }
}

/// Whether it is the name of a direct relation, of any weight.
fn is_direct(r: &Direct) -> bool
    ensures { result ≡ is_direct r.now }
{
    match r {
        Direct::Fin { u, v } => u.is_admissible() && v.is_admissible() && in_order(*u, *v),
        Direct::Reg { m, v } => *m > 0 && v.is_admissible(),
        Direct::Dual { u } => u.is_admissible() && below_dual(*u),
    }
}

/// Whether u does not come after v by weight and then by the order of words.
pub(crate) fn in_order(u: Word, v: Word) -> bool
    ensures { result ≡ in_order u v }
{
    u.weight() < v.weight() || (u.weight() == v.weight() && u <= v)
}

/// Whether the word is less than its dual.
pub(crate) fn below_dual(u: Word) -> bool
    ensures { result ≡ below_dual u }
{
    u < dual(u)
}

/// The weight of a name, of any size.
fn whole_weight(name: &RelName) -> u64
    ensures { result ≡ weight_of_name name.now }
{
    match name {
        RelName::Plain(r) => direct_weight(r),
        RelName::Prod { r, u } => direct_weight(r) + u.weight() as u64,
    }
}

/// The weight of a direct name, of any size.
fn direct_weight(r: &Direct) -> u64
    ensures weight { result ≡ direct_weight_of r.now }
    ensures within { result < 2 ^ 33 }
{
    match r {
        Direct::Fin { u, v } => u.weight() as u64 + v.weight() as u64,
        Direct::Reg { m, v } => *m as u64 + v.weight() as u64,
        Direct::Dual { u } => u.weight() as u64,
    }
}

/// The depth of a direct name.
pub(crate) fn direct_depth(r: &Direct) -> u32
    requires { direct_depth_of r.now < 2 ^ 32 }
    ensures { result ≡ direct_depth_of r.now }
{
    match r {
        Direct::Fin { u, v } => u.depth() + v.depth(),
        Direct::Reg { m, v } => *m + v.depth(),
        Direct::Dual { u } => u.depth().max(dual(*u).depth()),
    }
}
