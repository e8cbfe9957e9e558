//! The loop over a sample.
ghost use Rattle.std.specs.Prelude.{◌≡◌, ◌<◌, length, map, IfOk};
ghost use Rattle.line_samples.specs.Samples.{sample_lines};
ghost use Rattle.line_samples.specs.Counts.{zero_count, distinct_count, term_count};

use crate::draws::Draws;
use crate::lines::push_line;
use crate::sampled::Sampled;
use crate::tally::Tally;
use line_loop::Replier;
use std::alloc::{AllocError, Global};
use word_letters::Word;

/// What is counted of the replies to so many lines over some words.
///
/// A line has 1 to 4 terms, each a coefficient from 1 to 9 times one of the words, all drawn from the seed. `Err` where memory is wanting,
/// or where the terms are more than a `u64` counts.
pub fn sample_replies<R: Replier>(
    alloc: Global,
    replier: &R,
    words: &[Word],
    seed: u64,
    count: u32,
) -> Result<Sampled, AllocError>
    requires words { 0 < length words.now }
    ensures zero { IfOk result (λ s. s.zero ≡ zero_count (map (R.reply_to replier.now) (sample_lines words.now seed count))) }
    ensures distinct { IfOk result (λ s. s.distinct ≡ distinct_count (map (R.reply_to replier.now) (sample_lines words.now seed count))) }
    ensures terms { IfOk result (λ s. s.terms ≡ term_count (map (R.reply_to replier.now) (sample_lines words.now seed count))) }
{
    let mut draws = Draws::new(seed);
    let mut tally = Tally::new(alloc);
    let mut line = String::new(alloc);
    let mut reply = Vec::new(alloc);
    for i in 0..count {
        line.clear();
        push_line(words, &mut draws, &mut line)?;
        reply.clear();
        replier.reply(line.as_bytes(), &mut reply)?;
        tally.take(&reply)?;
    }
    Ok(tally.sampled())
}
