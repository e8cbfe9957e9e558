//! Reading the index text of a word.
ghost use Rattle.std.specs.Prelude.{◌≡◌, ℕ, ◌+◌, ◌*◌, ◌<◌, ◌≤◌, ◌↔◌, ◌++◌, List, length, sum, All, IfOk, IfErr, IsTrue};
ghost use Rattle.zeta_model.specs.Indices.{word_of_index, z_word};
ghost use Rattle.word_letters.specs.IndexText.{IsIndexText, IsWellFormed, IsLongestBeginning, Refuses};
ghost use Rattle.word_letters.specs.Inner.{is_digit, digits_after, place_after, whole_number, zero_after};

use crate::fault::TextFault;
use crate::word::{MAX_WEIGHT, Word};

/// What has been read just now of an index text.
#[derive(Clone, Copy)]
enum Place {
    /// Nothing.
    Start,
    /// The letter z.
    Opened,
    /// A parenthesis or a comma: a number has to come.
    Number,
    /// Digits of a number that has this value so far.
    Digits(u32),
    /// The closing parenthesis.
    End,
}

fn is_digit(byte: u8) -> bool
    ensures { result ≡ is_digit byte }
{
    48 <= byte && byte <= 57
}

/// The place behind a byte that may stand behind the digits of `k`.
fn digits_after(k: u32, byte: u8) -> Option<Place>
    ensures { result ≡ digits_after k byte }
{
    if byte == b',' {
        return Some(Place::Number);
    }
    if byte == b')' {
        return Some(Place::End);
    }
    if is_digit(byte) && (0 < k && k <= 999) {
        return Some(Place::Digits(k * 10 + (byte - 48) as u32));
    }
    None
}

/// The place behind a byte that may stand next.
fn place_after(place: Place, byte: u8) -> Option<Place>
    ensures { result ≡ place_after place byte }
{
    match place {
        Place::Start => {
            if byte == b'z' {
                Some(Place::Opened)
            } else {
                None
            }
        }
        Place::Opened => {
            if byte == b'(' {
                Some(Place::Number)
            } else {
                None
            }
        }
        Place::Number => {
            if is_digit(byte) {
                Some(Place::Digits((byte - 48) as u32))
            } else {
                None
            }
        }
        Place::Digits(k) => digits_after(k, byte),
        Place::End => None,
    }
}

fn is_end(place: Place) -> bool
    ensures { IsTrue result ↔ (place ≡ Place.End) }
{
    match place {
        Place::End => true,
        _ => false,
    }
}

/// The number whose digits a byte ends.
fn whole_number(place: Place, byte: u8) -> Option<u32>
    ensures { result ≡ whole_number place byte }
{
    match place {
        Place::Digits(k) => { if is_digit(byte) { None } else { Some(k) } }
        _ => None,
    }
}

/// The byte of the first zero, where the digits of one more number `k` end before `at`.
fn zero_after(zero: Option<usize>, at: usize, k: u32) -> Option<usize>
    requires { 0 < at }
    ensures { result ≡ zero_after zero at k }
{
    match zero {
        Some(place) => Some(place),
        None => { if k == 0 { Some(at - 1) } else { None } }
    }
}

/// The letters of z_k behind a word, where the word has room for them.
fn with_z(w: Word, k: u32) -> Word
    ensures { 0 < k → length w + k ≤ 24 → result ≡ w ++ z_word k }
{
    if 0 < k && k <= MAX_WEIGHT - w.weight() {
        w.followed_by(Word::z(k))
    } else {
        w
    }
}

impl Word {
    /// The word of an index text: `z(`, numbers of 0 to 9999 without leading zeros and with commas between them, then `)`.
    ///
    /// `BadText(at)` exactly where the bytes are no index text, `at` the length of their longest prefix that begins one;
    /// then `ZeroIndex(at)` exactly where a number is 0, `at` the byte of the first such; then `TooLong(n)` exactly where
    /// the sum `n` of the numbers is over 24. It takes no memory.
    pub fn parse(bytes: &[u8]) -> Result<Word, TextFault>
        ensures ok { IfOk result
            (λ w.
            (ks : List ℕ) ×
            IsIndexText bytes.now ks × All (λ k. 0 < k) ks × (sum ks ≤ 24) × (w ≡ word_of_index ks)) }
        ensures err { IfErr result (λ fault. Refuses bytes.now fault) }
    {
        let mut place = Place::Start;
        let mut weight: u128 = 0;
        let mut zero = None;
        let mut w = Word::empty();
        for (at, byte) in bytes.iter().enumerate() {
            let next = match place_after(place, *byte) {
                Some(next) => next,
                None => return Err(TextFault::BadText(at)),
            };
            if let Some(k) = whole_number(place, *byte) {
                zero = zero_after(zero, at, k);
                weight += k as u128;
                w = with_z(w, k);
            }
            place = next;
        }
        if !is_end(place) {
            return Err(TextFault::BadText(bytes.len()));
        }
        if let Some(at) = zero {
            return Err(TextFault::ZeroIndex(at));
        }
        if weight > MAX_WEIGHT as u128 {
            return Err(TextFault::TooLong(weight));
        }
        Ok(w)
    }
}
