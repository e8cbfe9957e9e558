//! The terms of a line.
ghost use Rattle.std.specs.Prelude.{◌≡◌, ◌<◌, false, IfOk, Result, Some};
ghost use Rattle.std.specs.Result.{MatchResult};
ghost use Rattle.line_tokens.specs.declared.spots.Spot.TheVariants.{Between};
ghost use Rattle.line_tokens.specs.Machine.{number_after, read};
ghost use Rattle.line_tokens.specs.Prefixes.{Accepted, IsStop};
ghost use Rattle.dual_reply.specs.Inner.{first_one, maker, start, reading_of};
ghost use Rattle.dual_reply.specs.Places.{places};

use crate::draft::Draft;
use crate::ones::first_one;
use crate::place::Place;
use crate::refusal::Refusal;
use crate::words::Signed;
use line_tokens::{Places, Spot, is_digit, mark_of};
use smallvec::SmallVec;
use std::alloc::{AllocError, Global};

/// The value of the last run behind one more byte.
fn number_after(spot: Spot<Place>, number: u32, byte: u8) -> u32
    requires { number < 1000 }
    ensures { result ≡ number_after spot number byte }
{
    if !is_digit(byte) {
        return number;
    }
    let digit = u32::from(byte - b'0');
    match spot {
        Spot::Between(_) => digit,
        Spot::Within(_, _) => 10 * number + digit,
    }
}

/// What is made of a line of the grammar; of any other the length of its longest prefix that begins one.
fn read(alloc: Global, line: &[u8]) -> Result<Result<Draft, usize>, AllocError>
    ensures { IfOk result (λ r. MatchResult r (λ made. read places maker (Between Place.Start) 0 start line.now ≡ Some made) (IsStop (Accepted places Place.Start) line.now)) }
{
    let mut draft = Draft::new(alloc);
    let mut spot = Spot::Between(Place::Start);
    let mut number = 0;
    for (at, byte) in line.iter().enumerate() {
        let Some(next) = spot.step(*byte) else {
            return Ok(Err(at));
        };
        if let Some(mark) = mark_of(*byte) {
            draft.take(mark, number)?;
        }
        number = number_after(spot, number, *byte);
        spot = next;
    }
    if spot.place().ends() {
        Ok(Ok(draft))
    } else {
        Ok(Err(line.len()))
    }
}

/// The byte of the first index of a line that begins with 1, where so much was made of the line.
fn first_one_of(line: &[u8], draft: &Draft) -> Option<usize>
    requires { read places maker (Between Place.Start) 0 start line.now ≡ Some draft.now }
    ensures { result ≡ first_one false line.now }
{
    // An index that begins with 1 has a word that is not admissible, so most lines are not searched.
    if draft.is_plain() {
        None
    } else {
        first_one(line)
    }
}

/// The words of the zetas of a line with their signs, or its refusal.
pub fn terms_of(
    alloc: Global,
    line: &[u8],
) -> Result<Result<SmallVec<Signed, 8>, Refusal>, AllocError>
    ensures { IfOk result (λ r. MatchResult r (λ terms. reading_of line.now ≡ Result.Ok terms.items) (λ refusal. reading_of line.now ≡ Result.Err refusal)) }
{
    if line.len() > 4096 {
        return Ok(Err(Refusal::LineTooLong));
    }
    match read(alloc, line)? {
        Ok(draft) => {
            let one = first_one_of(line, &draft);
            Ok(draft.judged(one))
        }
        Err(at) => Ok(Err(Refusal::Syntax(at))),
    }
}
