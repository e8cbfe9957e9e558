//! What words ask for.
ghost use Rattle.std.specs.Prelude.{◌≡◌, map, string_bytes, Ok, IfOk};
ghost use Rattle.whole_runs.specs.CommandLine.{number_word};
ghost use Rattle.merge_program.specs.MergeWords.{table_request, seven_words, IsTableTested, asked_share, AsksForTable, AsksForIt, AsksForShare, IsDealt, IsInRange};

use crate::words::{MergeWordsFault, ShareWords, TableWords};
use page_codec::Params;
use share_model::ShareId;
use whole_runs::number_word;

// The tests of a table and of how many shares it is dealt into.
fn tested_table(
    weight: u64,
    depth: u64,
    modulus: u64,
    order: &str,
    shares: u64,
) -> Result<TableWords, MergeWordsFault>
    ensures tested { IsTableTested (record { weight = weight; depth = depth; modulus = modulus; order = order.now; shares = shares }) result }
    ensures in_range { IfOk result IsDealt }
{
    let params = match Params::test(weight, depth, modulus, order, None) {
        Ok(params) => params,
        Err(fault) => return Err(MergeWordsFault::Param(fault)),
    };
    if shares < 1 || shares > 256 {
        return Err(MergeWordsFault::Shares(shares));
    }
    Ok(TableWords {
        params,
        shares: shares as u32,
    })
}

/// The table that the words W D M ORDER S say, dealt into S shares. It takes no memory.
///
/// `Usage` comes exactly where one of the words for W, D, M and S is no number; then `Param` and `Shares` exactly where a test fails, with
/// the first that does. `Share` never comes.
pub fn read_table_words(
    weight: &str,
    depth: &str,
    modulus: &str,
    order: &str,
    shares: &str,
) -> Result<TableWords, MergeWordsFault>
    ensures asked { AsksForTable (table_request (number_word weight.now) (number_word depth.now) (number_word modulus.now) order.now (number_word shares.now)) result }
    ensures in_range { IfOk result IsDealt }
{
    let Some(weight) = number_word(weight) else {
        return Err(MergeWordsFault::Usage);
    };
    let Some(depth) = number_word(depth) else {
        return Err(MergeWordsFault::Usage);
    };
    let Some(modulus) = number_word(modulus) else {
        return Err(MergeWordsFault::Usage);
    };
    let Some(shares) = number_word(shares) else {
        return Err(MergeWordsFault::Usage);
    };
    tested_table(weight, depth, modulus, order, shares)
}

// Share `index` of a table, where it has one of that number.
fn tested_share(table: TableWords, index: u64) -> Result<ShareWords, MergeWordsFault>
    requires { IsDealt table }
    ensures asked { result ≡ asked_share (Ok table) index }
    ensures in_range { IfOk result IsInRange }
{
    if index >= table.shares as u64 {
        return Err(MergeWordsFault::Share(index));
    }
    Ok(ShareWords {
        params: table.params,
        id: ShareId {
            index: index as u32,
            of: table.shares,
        },
    })
}

// The share that seven words ask for.
fn share_words(
    name: &str,
    weight: &str,
    depth: &str,
    modulus: &str,
    order: &str,
    index: &str,
    shares: &str,
) -> Result<ShareWords, MergeWordsFault>
    ensures asked { AsksForIt (seven_words name.now weight.now depth.now modulus.now order.now index.now shares.now) result }
    ensures in_range { IfOk result IsInRange }
{
    if name.as_bytes() != b"share".as_slice() {
        return Err(MergeWordsFault::Usage);
    }
    let Some(index) = number_word(index) else {
        return Err(MergeWordsFault::Usage);
    };
    match read_table_words(weight, depth, modulus, order, shares) {
        Ok(table) => tested_share(table, index),
        Err(fault) => Err(fault),
    }
}

/// The share that the words behind the program's name ask for. It takes no memory.
///
/// `Usage` comes exactly where they are not `share W D M ORDER I S` with numbers for all but ORDER; then `Param`, `Shares` and `Share`
/// exactly where a test fails, with the first that does.
pub fn read_share_words(words: &[String]) -> Result<ShareWords, MergeWordsFault>
    ensures asked { AsksForShare (map string_bytes words.now) result }
    ensures in_range { IfOk result IsInRange }
{
    match words {
        [name, weight, depth, modulus, order, index, shares] => share_words(
            name.as_str(),
            weight.as_str(),
            depth.as_str(),
            modulus.as_str(),
            order.as_str(),
            index.as_str(),
            shares.as_str(),
        ),
        _ => Err(MergeWordsFault::Usage),
    }
}
