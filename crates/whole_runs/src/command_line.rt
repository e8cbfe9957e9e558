//! What the words of the command line ask for.
ghost use Rattle.std.specs.Prelude.{◌≡◌, ◌==◌, Option, None, map, string_bytes, slice_index, codes, bytes_eq, if◌then◌else◌, IfOk};
ghost use Rattle.std.specs.Option.{option_map};
ghost use Rattle.whole_runs.specs.CommandLine.{Asks, AsksForIt, IsInRange, number_word};
ghost use Rattle.whole_runs.specs.CommandLine.{dual_request, list_request, probe_request, reduce_request, sample_request, build_request, resume_request};
ghost use Rattle.whole_runs.specs.CommandLine.{one_word, two_numbers, five_words, six_words};

use crate::command::{Command, WordsFault};
use crate::requests::{
    asked_build, asked_dual, asked_listing, asked_probe, asked_reduce, asked_resume, asked_sample,
};

fn begins_with_plus(word: &[u8]) -> bool
    ensures { result ≡ (slice_index word.now 0 == 43) }
{
    word.first() == Some(&b'+')
}

/// The number that a word writes, where it is one or more ASCII digits and the value fits 64 bits. It takes no memory.
pub fn number_word(word: &str) -> Option<u64>
    ensures { result ≡ number_word word.now }
{
    // What std reads as a number may have a plus before its digits.
    if begins_with_plus(word.as_bytes()) {
        return None;
    }
    word.parse().ok()
}

fn dual_command(modulus: Option<u64>) -> Result<Command, WordsFault>
    ensures asked { AsksForIt (dual_request modulus) result }
    ensures in_range { IfOk result IsInRange }
{
    match modulus {
        Some(modulus) => asked_dual(modulus),
        None => Err(WordsFault::Usage),
    }
}

fn list_command(weight: Option<u64>, depth: Option<u64>) -> Result<Command, WordsFault>
    ensures asked { AsksForIt (list_request weight depth) result }
    ensures in_range { IfOk result IsInRange }
{
    let Some(weight) = weight else {
        return Err(WordsFault::Usage);
    };
    let Some(depth) = depth else {
        return Err(WordsFault::Usage);
    };
    asked_listing(weight, depth)
}

fn probe_command(terms: Option<u64>, modulus: Option<u64>) -> Result<Command, WordsFault>
    ensures asked { AsksForIt (probe_request terms modulus) result }
    ensures in_range { IfOk result IsInRange }
{
    let Some(terms) = terms else {
        return Err(WordsFault::Usage);
    };
    let Some(modulus) = modulus else {
        return Err(WordsFault::Usage);
    };
    asked_probe(terms, modulus)
}

fn reduce_command(
    weight: Option<u64>,
    depth: Option<u64>,
    modulus: Option<u64>,
    order: &str,
    preferred: Option<&str>,
) -> Result<Command, WordsFault>
    ensures asked { AsksForIt (reduce_request weight depth modulus order.now (option_map (λ t. t.now) preferred.entry)) result }
    ensures in_range { IfOk result IsInRange }
{
    let Some(weight) = weight else {
        return Err(WordsFault::Usage);
    };
    let Some(depth) = depth else {
        return Err(WordsFault::Usage);
    };
    let Some(modulus) = modulus else {
        return Err(WordsFault::Usage);
    };
    asked_reduce(weight, depth, modulus, order, preferred)
}

fn build_command(
    weight: Option<u64>,
    depth: Option<u64>,
    modulus: Option<u64>,
    order: &str,
    preferred: Option<&str>,
) -> Result<Command, WordsFault>
    ensures asked { AsksForIt (build_request weight depth modulus order.now (option_map (λ t. t.now) preferred.entry)) result }
    ensures in_range { IfOk result IsInRange }
{
    let Some(weight) = weight else {
        return Err(WordsFault::Usage);
    };
    let Some(depth) = depth else {
        return Err(WordsFault::Usage);
    };
    let Some(modulus) = modulus else {
        return Err(WordsFault::Usage);
    };
    asked_build(weight, depth, modulus, order, preferred)
}

fn resume_command(
    weight: Option<u64>,
    depth: Option<u64>,
    modulus: Option<u64>,
    order: &str,
    preferred: Option<&str>,
) -> Result<Command, WordsFault>
    ensures asked { AsksForIt (resume_request weight depth modulus order.now (option_map (λ t. t.now) preferred.entry)) result }
    ensures in_range { IfOk result IsInRange }
{
    let Some(weight) = weight else {
        return Err(WordsFault::Usage);
    };
    let Some(depth) = depth else {
        return Err(WordsFault::Usage);
    };
    let Some(modulus) = modulus else {
        return Err(WordsFault::Usage);
    };
    asked_resume(weight, depth, modulus, order, preferred)
}

fn sample_command(
    weight: Option<u64>,
    depth: Option<u64>,
    modulus: Option<u64>,
    seed: Option<u64>,
    count: Option<u64>,
) -> Result<Command, WordsFault>
    ensures asked { AsksForIt (sample_request weight depth modulus seed count) result }
    ensures in_range { IfOk result IsInRange }
{
    let Some(weight) = weight else {
        return Err(WordsFault::Usage);
    };
    let Some(depth) = depth else {
        return Err(WordsFault::Usage);
    };
    let Some(modulus) = modulus else {
        return Err(WordsFault::Usage);
    };
    let Some(seed) = seed else {
        return Err(WordsFault::Usage);
    };
    let Some(count) = count else {
        return Err(WordsFault::Usage);
    };
    asked_sample(weight, depth, modulus, seed, count)
}

fn one_word(name: &str, word: &str) -> Result<Command, WordsFault>
    ensures asked { AsksForIt (one_word name.now word.now) result }
    ensures in_range { IfOk result IsInRange }
{
    if name.as_bytes() == b"dual".as_slice() {
        return dual_command(number_word(word));
    }
    if name.as_bytes() == b"show".as_slice() {
        return Ok(Command::Show);
    }
    if name.as_bytes() == b"check".as_slice() {
        return Ok(Command::Check);
    }
    if name.as_bytes() == b"rewrite".as_slice() {
        return Ok(Command::Rewrite);
    }
    if name.as_bytes() == b"rational".as_slice() {
        return Ok(Command::Rational);
    }
    if name.as_bytes() == b"migrate".as_slice() {
        return Ok(Command::Migrate);
    }
    Err(WordsFault::Usage)
}

fn two_numbers(name: &str, first: Option<u64>, second: Option<u64>) -> Result<Command, WordsFault>
    ensures asked { AsksForIt (two_numbers name.now first second) result }
    ensures in_range { IfOk result IsInRange }
{
    if name.as_bytes() == b"list".as_slice() {
        return list_command(first, second);
    }
    if name.as_bytes() == b"probe".as_slice() {
        return probe_command(first, second);
    }
    Err(WordsFault::Usage)
}

fn four_words(
    name: &str,
    weight: Option<u64>,
    depth: Option<u64>,
    modulus: Option<u64>,
    order: &str,
) -> Result<Command, WordsFault>
    ensures asked { AsksForIt (if bytes_eq name.now (codes "reduce") then reduce_request weight depth modulus order.now None else None) result }
    ensures in_range { IfOk result IsInRange }
{
    if name.as_bytes() == b"reduce".as_slice() {
        return reduce_command(weight, depth, modulus, order, None);
    }
    Err(WordsFault::Usage)
}

fn five_words(
    name: &str,
    first: &str,
    second: Option<u64>,
    third: Option<u64>,
    fourth: &str,
    fifth: &str,
) -> Result<Command, WordsFault>
    ensures asked { AsksForIt (five_words name.now first.now second third fourth.now fifth.now) result }
    ensures in_range { IfOk result IsInRange }
{
    if name.as_bytes() == b"reduce".as_slice() {
        return reduce_command(number_word(first), second, third, fourth, Some(fifth));
    }
    if name.as_bytes() == b"build".as_slice() {
        return build_command(second, third, number_word(fourth), fifth, None);
    }
    if name.as_bytes() == b"resume".as_slice() {
        return resume_command(second, third, number_word(fourth), fifth, None);
    }
    if name.as_bytes() == b"sample".as_slice() {
        return sample_command(
            number_word(first),
            second,
            third,
            number_word(fourth),
            number_word(fifth),
        );
    }
    Err(WordsFault::Usage)
}

fn six_words(
    name: &str,
    weight: Option<u64>,
    depth: Option<u64>,
    modulus: Option<u64>,
    order: &str,
    preferred: &str,
) -> Result<Command, WordsFault>
    ensures asked { AsksForIt (six_words name.now weight depth modulus order.now preferred.now) result }
    ensures in_range { IfOk result IsInRange }
{
    if name.as_bytes() == b"build".as_slice() {
        return build_command(weight, depth, modulus, order, Some(preferred));
    }
    if name.as_bytes() == b"resume".as_slice() {
        return resume_command(weight, depth, modulus, order, Some(preferred));
    }
    Err(WordsFault::Usage)
}

/// What the words behind the program's name ask for. It takes no memory.
///
/// `Usage` comes exactly where they fit no command. `Terms`, `Param` and `Count` come exactly where they fit one and a parameter test
/// fails: the first that does. `probe` tests its terms first, and `sample` its count last.
pub fn read_words(words: &[String]) -> Result<Command, WordsFault>
    ensures asked { Asks (map string_bytes words.now) result }
    ensures in_range { IfOk result IsInRange }
{
    match words {
        [name, word] => one_word(name.as_str(), word.as_str()),
        [name, first, second] => two_numbers(
            name.as_str(),
            number_word(first.as_str()),
            number_word(second.as_str()),
        ),
        [name, weight, depth, modulus, order] => four_words(
            name.as_str(),
            number_word(weight.as_str()),
            number_word(depth.as_str()),
            number_word(modulus.as_str()),
            order.as_str(),
        ),
        [name, first, second, third, fourth, fifth] => five_words(
            name.as_str(),
            first.as_str(),
            number_word(second.as_str()),
            number_word(third.as_str()),
            fourth.as_str(),
            fifth.as_str(),
        ),
        [name, _file, weight, depth, modulus, order, preferred] => six_words(
            name.as_str(),
            number_word(weight.as_str()),
            number_word(depth.as_str()),
            number_word(modulus.as_str()),
            order.as_str(),
            preferred.as_str(),
        ),
        _ => Err(WordsFault::Usage),
    }
}
