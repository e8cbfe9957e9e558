//! What the words of a merge ask for.
ghost use Rattle.std.specs.Prelude.{◌≡◌, ◌&&◌, ◌-◌, nat_le, map, string_bytes, IfOk};
ghost use Rattle.merge_program.specs.MergeWords.{IsDealt};
ghost use Rattle.merge_runs.specs.MergeWords.{AsksForMerge};

use merge_program::{MergeWordsFault, TableWords, read_table_words};

// Whether so many words name 1 to 1,024 files behind the sixth.
fn name_files(words: usize) -> bool
    ensures { result ≡ (nat_le 1 (words - 6) && nat_le (words - 6) 1024) }
{
    7 <= words && words <= 1030
}

/// The table whose shares the words ask to merge. It takes no memory.
///
/// `Usage` comes exactly where they are not `merge W D M ORDER S FILE ..` with 1 to 1,024 files; else `Param` and `Shares` exactly where a test
/// fails, with the first that does. `Share` never comes.
pub(crate) fn read_merge(words: &[String]) -> Result<TableWords, MergeWordsFault>
    ensures asked { AsksForMerge (map string_bytes words.now) result }
    ensures in_range { IfOk result IsDealt }
{
    match words {
        [name, weight, depth, modulus, order, shares, ..] => {
            if name.as_bytes() != b"merge".as_slice() || !name_files(words.len()) {
                return Err(MergeWordsFault::Usage);
            }
            read_table_words(
                weight.as_str(),
                depth.as_str(),
                modulus.as_str(),
                order.as_str(),
                shares.as_str(),
            )
        }
        _ => Err(MergeWordsFault::Usage),
    }
}
