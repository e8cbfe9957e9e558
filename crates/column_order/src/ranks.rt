//! The two orders of columns, with preferred words or without, and the rank of a word in each.
ghost use Rattle.std.specs.Prelude.{◌≡◌, ◌+◌, ◌≤◌};
ghost use Rattle.std.specs.List.{Contains, list_all};
ghost use Rattle.zeta_model.specs.Indices.{index_of};
ghost use Rattle.column_order.specs.Ranks.{is_odd_from_3, mode_rank, rank_of};

use crate::preferred::Preferred;
use word_letters::{Letter, Word};

/// The orders of columns. They differ in the ranks of Lyndon words.
#[derive(Debug, Clone, Copy, PartialEq, Eq)]
pub enum Mode {
    Lex,
    Odd,
}

/// What orders columns: a mode, and the words that are preferred to all others.
#[derive(Clone, Copy, PartialEq, Eq)]
pub struct Preference {
    pub mode: Mode,
    pub words: Preferred,
}

/// The rank of a word, 0 to 2: 0 where it is preferred, else 1 plus its rank in the mode. The mode's rank is 0 for every word in `Lex`; in
/// `Odd` it is 0 where all numbers of the word's index are odd and at least 3, else 1.
pub fn rank(preference: &Preference, w: Word) -> u32
    ensures rank { result ≡ rank_of preference.now w }
    ensures preferred { Contains preference.now.words w → result ≡ 0 }
    ensures other { ¬ (Contains preference.now.words w) → result ≡ 1 + mode_rank preference.now.mode w }
    ensures within { result ≤ 2 }
{
    if preference.words.contains(w) {
        return 0;
    }
    1 + mode_rank(preference.mode, w)
}

/// The rank of a word in the mode, 0 or 1.
fn mode_rank(mode: Mode, w: Word) -> u32
    ensures rank { result ≡ mode_rank mode w }
    ensures within { result ≤ 1 }
{
    match mode {
        Mode::Lex => 0,
        Mode::Odd => { if has_odd_index(w) { 0 } else { 1 } }
    }
}

/// Whether all numbers of the word's index are odd and at least 3.
fn has_odd_index(w: Word) -> bool
    ensures { result ≡ list_all is_odd_from_3 (index_of w) }
{
    let mut run: u32 = 1;
    for i in 0..w.weight() {
        match w.letter(i) {
            Letter::X => run += 1,
            Letter::Y => {
                if !is_odd_from_3(run) {
                    return false;
                }
                run = 1;
            }
        }
    }
    true
}

/// Whether a number is odd and at least 3.
fn is_odd_from_3(k: u32) -> bool
    ensures { result ≡ is_odd_from_3 k }
{
    k % 2 == 1 && 3 <= k
}
