//! The reply to a line, and what the replies tell.
ghost use Rattle.std.specs.Prelude.{◌≡◌, ℕ, ◌^◌, ◌<◌, ◌≤◌, ◌++◌, length, take, OnOk, OnErr};
ghost use Rattle.dual_reply.specs.Canonical.{TellsSums};
ghost use Rattle.dual_reply.specs.Reply.{reply_of};

use crate::listing::listing;
use crate::reader::terms_of;
use crate::text::{push_refusal, push_text};
use residues::{Ring, WordMod};
use std::alloc::{AllocError, Global};

/// Adds the reply to a line. After want of memory some of its bytes may have been added.
fn push_reply(
    alloc: Global,
    ring: &WordMod,
    line: &[u8],
    out: &mut Vec<u8>,
) -> Result<(), AllocError>
    ensures ok { OnOk result (out.new.items ≡ out.old.items ++ reply_of (⟦<WordMod as Ring>⟧.modulus ring.now) line.now) }
    ensures kept { take (length out.old.items) out.new.items ≡ out.old.items }
{
    match terms_of(alloc, line)? {
        Ok(terms) => {
            let entries = listing(alloc, ring, &terms)?;
            push_text(out, &entries)
        }
        Err(refusal) => push_refusal(out, refusal),
    }
}

/// Adds the reply to a line, by duality modulo the modulus of the ring.
///
/// An accepted line has at most 4,096 bytes and is an optional sign, a zeta, then any number of a sign and a zeta,
/// each zeta with a first index of at least 2 and a weight of at most 24. Each word is replaced by the lesser of it
/// and its dual, coefficients are summed, and the terms are added by weight and then by increasing word, `0` where
/// there is none. To every other line its refusal is added, the first of these: `line too long`; `syntax at`, the
/// length of its longest prefix that begins some line of that form; `not admissible at`, the byte of the first index
/// that is 1 where the first of its zeta stands; `weight k`, that of the first zeta over 24. `replies_are_canonical`
/// says what the replies tell (duality: Ihara, Kaneko, Zagier 2006). After want of memory `out` is as before.
pub fn reply(
    alloc: Global,
    ring: &WordMod,
    line: &[u8],
    out: &mut Vec<u8>,
) -> Result<(), AllocError>
    ensures ok { OnOk result (out.new.items ≡ out.old.items ++ reply_of (⟦<WordMod as Ring>⟧.modulus ring.now) line.now) }
    ensures err { OnErr result (out.new.items ≡ out.old.items) }
{
    let before = out.len();
    let added = push_reply(alloc, ring, line, out);
    if added.is_err() {
        out.truncate(before);
    }
    added
}

/// What the replies tell, for every modulus that a ring may have.
///
/// `canonical`: two accepted lines get the same reply exactly where the difference of their sums of words is a
/// combination, modulo `m`, of the sums of a word less its dual, over admissible words of weight at most 24.
/// `exact`: a line that is refused gets the text of its refusal. `whole`: each line is accepted or refused. `once`: no
/// accepted line is refused, and no line has two refusals. `apart`: the reply to an accepted line begins with a digit,
/// and the text of no refusal does. `folded`: an accepted line gets the text of the listing of its sum with each word
/// replaced by the lesser of it and its dual. `told`: the text of such a listing determines it.
pub fn replies_are_canonical()
    ensures { (m : ℕ) → 3 ≤ m → m < 2 ^ 63 → TellsSums m }
{}
