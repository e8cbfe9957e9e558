//! What each command asks for, once its parameters are tested.
ghost use Rattle.std.specs.Prelude.{◌≡◌, ◌≤◌, ◌<◌, ◌^◌, ◌⊎◌, IfOk, IfErr};
ghost use Rattle.std.specs.Option.{option_map};
ghost use Rattle.whole_runs.specs.CommandLine.{AsksFor, IsInRange, asked_dual, asked_listing, asked_probe};
ghost use Rattle.whole_runs.specs.CommandLine.Request.{ForReduce, ForSample, ForBuild, ForResume};

use crate::command::{Command, WordsFault};
use page_codec::{ParamFault, Params};

// A modulus alone is tested as that of the least table.
fn tested_modulus(modulus: u64) -> Result<u64, ParamFault>
    ensures ok { IfOk result (λ m. (m ≡ modulus) × (3 ≤ modulus) × (modulus < 2 ^ 63)) }
    ensures err { IfErr result (λ fault. (fault ≡ ParamFault.Modulus modulus) × ((modulus < 3) ⊎ (2 ^ 63 ≤ modulus))) }
{
    let params = Params::test(2, 1, modulus, "lex", None)?;
    Ok(params.modulus)
}

pub(crate) fn asked_dual(modulus: u64) -> Result<Command, WordsFault>
    ensures asked { result ≡ asked_dual modulus }
    ensures in_range { IfOk result IsInRange }
{
    match tested_modulus(modulus) {
        Ok(modulus) => Ok(Command::Dual { modulus }),
        Err(fault) => Err(WordsFault::Param(fault)),
    }
}

// The modulus of a table whose words alone are asked for: a prime over every weight.
const ANY_MODULUS: u64 = (1 << 61) - 1;

pub(crate) fn asked_listing(weight: u64, depth: u64) -> Result<Command, WordsFault>
    ensures asked { result ≡ asked_listing weight depth }
    ensures in_range { IfOk result IsInRange }
{
    match Params::test(weight, depth, ANY_MODULUS, "lex", None) {
        Ok(params) => Ok(Command::List {
            weight: params.weight,
            depth: params.depth,
        }),
        Err(fault) => Err(WordsFault::Param(fault)),
    }
}

pub(crate) fn asked_probe(terms: u64, modulus: u64) -> Result<Command, WordsFault>
    ensures asked { result ≡ asked_probe terms modulus }
    ensures in_range { IfOk result IsInRange }
{
    if terms < 1 || terms > 10_000 {
        return Err(WordsFault::Terms(terms));
    }
    match tested_modulus(modulus) {
        Ok(modulus) => Ok(Command::Probe {
            terms: terms as u32,
            modulus,
        }),
        Err(fault) => Err(WordsFault::Param(fault)),
    }
}

pub(crate) fn asked_reduce(
    weight: u64,
    depth: u64,
    modulus: u64,
    order: &str,
    preferred: Option<&str>,
) -> Result<Command, WordsFault>
    ensures asked { AsksFor (ForReduce weight depth modulus order.now (option_map (λ t. t.now) preferred.entry)) result }
    ensures in_range { IfOk result IsInRange }
{
    match Params::test(weight, depth, modulus, order, preferred) {
        Ok(params) => Ok(Command::Reduce { params }),
        Err(fault) => Err(WordsFault::Param(fault)),
    }
}

pub(crate) fn asked_build(
    weight: u64,
    depth: u64,
    modulus: u64,
    order: &str,
    preferred: Option<&str>,
) -> Result<Command, WordsFault>
    ensures asked { AsksFor (ForBuild weight depth modulus order.now (option_map (λ t. t.now) preferred.entry)) result }
    ensures in_range { IfOk result IsInRange }
{
    match Params::test(weight, depth, modulus, order, preferred) {
        Ok(params) => Ok(Command::Build { params }),
        Err(fault) => Err(WordsFault::Param(fault)),
    }
}

pub(crate) fn asked_resume(
    weight: u64,
    depth: u64,
    modulus: u64,
    order: &str,
    preferred: Option<&str>,
) -> Result<Command, WordsFault>
    ensures asked { AsksFor (ForResume weight depth modulus order.now (option_map (λ t. t.now) preferred.entry)) result }
    ensures in_range { IfOk result IsInRange }
{
    match Params::test(weight, depth, modulus, order, preferred) {
        Ok(params) => Ok(Command::Resume { params }),
        Err(fault) => Err(WordsFault::Param(fault)),
    }
}

pub(crate) fn asked_sample(
    weight: u64,
    depth: u64,
    modulus: u64,
    seed: u64,
    count: u64,
) -> Result<Command, WordsFault>
    ensures asked { AsksFor (ForSample weight depth modulus seed count) result }
    ensures in_range { IfOk result IsInRange }
{
    let params = match Params::test(weight, depth, modulus, "lex", None) {
        Ok(params) => params,
        Err(fault) => return Err(WordsFault::Param(fault)),
    };
    if count > 100_000 {
        return Err(WordsFault::Count(count));
    }
    Ok(Command::Sample {
        params,
        seed,
        count: count as u32,
    })
}
