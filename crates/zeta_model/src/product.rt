//! Shuffle and stuffle by their definition, word by word. They are plain and slow: the number of words grows fast.
ghost use Rattle.std.specs.Prelude.{◌≡◌, ◌+◌, ◌<◌, ◌≤◌, List, [], ◌∷◌, ◌++◌, length, take, map, Some, OnOk, IfOk};
ghost use Rattle.zeta_model.specs.Product.{behind, prod_within};
ghost use Rattle.zeta_model.specs.Indices.{z_word};
ghost use Rattle.zeta_model.specs.Alphabets.{shuffle_of, stuffle_of, first_z};
ghost use Rattle.zeta_model.specs.Letters.{alphabet_of};

use crate::{Letter, WordList};
use std::alloc::{AllocError, Global};

/// Which letters a product takes.
#[derive(Clone, Copy)]
enum Letters {
    /// The letters x and y, which do not join.
    Shuffle,
    /// The letters z_k, of which z_k and z_l join to z_(k+l).
    Stuffle,
}

/// The words of the shuffle of u and v, each as often as it arises (Ihara, Kaneko and Zagier 2006). `AllocError` comes for
/// want of memory alone.
pub fn shuffle(alloc: Global, u: &[Letter], v: &[Letter]) -> Result<WordList, AllocError>
    ensures { IfOk result (λ words. words ≡ shuffle_of u.now v.now) }
{
    words_within(alloc, Letters::Shuffle, u.len() + v.len(), u, v)
}

/// The words of the stuffle of u and v, each as often as it arises. It is meant for words that are empty or end with y
/// (Hoffman 2000; Ihara, Kaneko and Zagier 2006). `AllocError` comes for want of memory alone.
pub fn stuffle(alloc: Global, u: &[Letter], v: &[Letter]) -> Result<WordList, AllocError>
    ensures { IfOk result (λ words. words ≡ stuffle_of u.now v.now) }
{
    words_within(alloc, Letters::Stuffle, u.len() + v.len(), u, v)
}

/// The words of the product of u and v, which have at most `steps` letters together.
fn words_within(
    alloc: Global,
    letters: Letters,
    steps: usize,
    u: &[Letter],
    v: &[Letter],
) -> Result<WordList, AllocError>
    ensures { IfOk result (λ words. words ≡ prod_within (alphabet_of letters) steps u.now v.now) }
{
    let mut words = WordList::new(alloc);
    if u.is_empty() {
        add_behind(alloc, &mut words, v, &one_empty(alloc)?)?;
        return Ok(words);
    }
    if v.is_empty() {
        add_behind(alloc, &mut words, u, &one_empty(alloc)?)?;
        return Ok(words);
    }
    if steps == 0 {
        return Ok(words);
    }
    let a = first_len(letters, u);
    let b = first_len(letters, v);
    let behind_a = words_within(alloc, letters, steps - 1, &u[a..], v)?;
    let behind_b = words_within(alloc, letters, steps - 1, u, &v[b..])?;
    let behind_both = words_within(alloc, letters, steps - 1, &u[a..], &v[b..])?;
    add_behind(alloc, &mut words, &u[..a], &behind_a)?;
    add_behind(alloc, &mut words, &v[..b], &behind_b)?;
    add_joined(alloc, letters, &mut words, &u[..a], &v[..b], &behind_both)?;
    Ok(words)
}

/// The list of the empty word.
fn one_empty(alloc: Global) -> Result<WordList, AllocError>
    ensures { IfOk result (λ words. words ≡ [] ∷ []) }
{
    let mut words = WordList::new(alloc);
    words.push(Vec::new(alloc))?;
    Ok(words)
}

/// The length of the first letter of w, itself a word.
fn first_len(letters: Letters, w: &[Letter]) -> usize
    requires { 0 < length w.now }
    ensures len { result ≡ length ((alphabet_of letters).first w.now) }
    ensures is { take result w.now ≡ (alphabet_of letters).first w.now }
    ensures within { result ≤ length w.now }
{
    match letters {
        Letters::Shuffle => 1,
        Letters::Stuffle => first_z_len(w),
    }
}

/// The length of the front of w up to its first y.
fn first_z_len(w: &[Letter]) -> usize
    ensures len { result ≡ length (first_z w.now) }
    ensures is { take result w.now ≡ first_z w.now }
    ensures within { result ≤ length w.now }
{
    match w {
        [] => 0,
        [Letter::X, rest @ ..] => 1 + first_z_len(rest),
        [Letter::Y, ..] => 1,
    }
}

/// Adds the words of a list, each with `front` before it.
pub(crate) fn add_behind(
    alloc: Global,
    words: &mut WordList,
    front: &[Letter],
    tails: &WordList,
) -> Result<(), AllocError>
    ensures { OnOk result (words.new ≡ words.old ++ behind (Some front.now) tails.now) }
{
    for tail in tails.as_slice() {
        let mut word = Vec::new(alloc);
        word.extend_from_slice(front)?;
        word.extend_from_slice(tail)?;
        words.push(word)?;
    }
    Ok(())
}

/// Adds the words of a list, each with what a and b join to before it; none where they do not join.
fn add_joined(
    alloc: Global,
    letters: Letters,
    words: &mut WordList,
    a: &[Letter],
    b: &[Letter],
    tails: &WordList,
) -> Result<(), AllocError>
    ensures { OnOk result (words.new
        ≡ words.old ++ behind ((alphabet_of letters).joined a.now b.now) tails.now) }
{
    match letters {
        Letters::Shuffle => Ok(()),
        Letters::Stuffle => add_behind(alloc, words, &z_letter(alloc, a.len() + b.len())?, tails),
    }
}

/// The word x .. x y of k letters.
fn z_letter(alloc: Global, k: usize) -> Result<Vec<Letter>, AllocError>
    ensures { IfOk result (λ z. z.items ≡ z_word k) }
{
    let mut z = Vec::new(alloc);
    if k == 0 {
        return Ok(z);
    }
    for i in 1..k {
        z.push(Letter::X)?;
    }
    z.push(Letter::Y)?;
    Ok(z)
}
