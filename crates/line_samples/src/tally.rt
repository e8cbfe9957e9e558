//! What has been counted of the replies so far.
ghost use Rattle.std.specs.Prelude.{◌≡◌, ◌+◌, ◌-◌, ◌^◌, ◌<◌, ◌≤◌, ◌++◌, ◌∷◌, [], List, ℕ, length, OnOk, if◌then◌else◌};
ghost use Rattle.line_samples.specs.Counts.{is_zero_text, terms_in};
ghost use Rattle.line_samples.specs.Inner.{IsTallyOf};

use crate::sampled::Sampled;
use std::alloc::{AllocError, Global};
use std::collections::HashSet;

/// The different replies, how many replies are `0`, and how many terms all have together.
#[derive(Drop)]
pub(crate) struct Tally {
    alloc: Global,
    seen: HashSet<Vec<u8>>,
    zero: u64,
    terms: u64,
}

/// Whether the reply is that of the polynomial without terms.
fn is_zero_text(reply: &[u8]) -> bool
    ensures { result ≡ is_zero_text reply.now }
{
    reply == b"0".as_slice()
}

/// How many terms the reply has.
fn terms_in(reply: &[u8]) -> u64
    ensures { result ≡ terms_in reply.now }
{
    if is_zero_text(reply) {
        return 0;
    }
    1 + reply.iter().filter(|b| **b == b'+').count() as u64
}

impl Tally {
    /// What is counted of no replies.
    pub(crate) fn new(alloc: Global) -> Tally
        ensures { IsTallyOf [] result.seen result.zero result.terms }
    {
        Tally {
            alloc,
            seen: HashSet::new(alloc),
            zero: 0,
            terms: 0,
        }
    }

    /// Counts one reply more.
    pub(crate) fn take(&mut self, reply: &[u8]) -> Result<(), AllocError>
        requires { self.old.zero < 2 ^ 64 - 1 }
        ensures ok { OnOk result ((replies : List (List ℕ)) → IsTallyOf replies self.old.seen self.old.zero self.old.terms
            → IsTallyOf (replies ++ reply.now ∷ []) self.new.seen self.new.zero self.new.terms) }
        ensures zero { self.new.zero ≤ self.old.zero + 1 }
    {
        let more = terms_in(reply);
        // A count that passes all numbers of its type would need more memory than there is.
        let Some(terms) = self.terms.checked_add(more) else {
            return Err(AllocError);
        };
        self.terms = terms;
        if is_zero_text(reply) {
            self.zero += 1;
        }
        let kept = Vec::from_slice(self.alloc, reply)?;
        self.seen.insert(kept)?;
        Ok(())
    }

    /// What has been counted.
    pub(crate) fn sampled(&self) -> Sampled
        ensures zero { result.zero ≡ self.now.zero }
        ensures terms { result.terms ≡ self.now.terms }
        ensures distinct { result.distinct ≡ length self.now.seen.keys }
    {
        Sampled {
            zero: self.zero,
            distinct: self.seen.len() as u64,
            terms: self.terms,
        }
    }
}
