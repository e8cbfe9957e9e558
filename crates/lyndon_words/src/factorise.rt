//! The Lyndon factors of a word, found from its last letter on.
ghost use Rattle.std.specs.Prelude.{◌≡◌, ℕ, ◌+◌, ◌<◌, ◌≤◌, List, [], ◌∷◌, ◌++◌, length, reverse, IsTrue};
ghost use Rattle.smallvec.specs.SmallVec.{HasRoomFor};
ghost use Rattle.zeta_model.specs.declared.Letter.{Letter};
ghost use Rattle.zeta_model.specs.Words.{is_admissible};
ghost use Rattle.lyndon_words.specs.Lyndon.{joined, IsFactors};
ghost use Rattle.lyndon_words.specs.Monomials.{IsMonomial};
ghost use Rattle.lyndon_words.specs.Inner.{join_front};

use crate::monomial::Monomial;
use smallvec::SmallVec;
use std::alloc::Global;
use word_letters::Word;

/// The Lyndon factors of an admissible word, as a monomial: the one list of Lyndon words that does not increase and whose words put
/// together are `w` (Chen, Fox and Lyndon 1958). Each of them is admissible. It takes no memory.
pub fn factors(alloc: Global, w: Word) -> Monomial
    requires { IsTrue (is_admissible w) }
    ensures monomial { IsMonomial result }
    ensures factors { IsFactors w result }

    // No other list is that.
    ensures unique { (us : List (List Letter)) → IsFactors w us → us ≡ result }
{
    let mut stack: SmallVec<Word, 24> = SmallVec::new(alloc);
    let mut place = w.weight();
    while place > 0 {
        place -= 1;
        put_front(&mut stack, Word::of(w.letter(place)));
    }
    Monomial {
        factors: turned(alloc, stack),
    }
}

/// Puts a word before the list that the stack holds, whose first word lies on top. It is joined with the words that it is less than.
fn put_front(stack: &mut SmallVec<Word, 24>, front: Word)
    requires room { HasRoomFor stack.old 1 }
    requires fits { length front + length (joined (reverse stack.old.items)) ≤ 24 }
    ensures items { reverse stack.new.items ≡ join_front front (reverse stack.old.items) }
    ensures capacity { stack.new.capacity ≡ stack.old.capacity }
{
    match stack.pop() {
        None => stack.push_reserved(front),
        Some(next) => {
            if front < next {
                put_front(stack, front.followed_by(next));
            } else {
                stack.push_reserved(next);
                stack.push_reserved(front);
            }
        }
    }
}

/// The words of the stack, the top one first.
fn turned(alloc: Global, stack: SmallVec<Word, 24>) -> SmallVec<Word, 12>
    requires { length stack.items ≤ 12 }
    ensures items { result.items ≡ reverse stack.items }
    ensures capacity { result.capacity ≡ 12 }
{
    let mut left = stack;
    let mut words = SmallVec::new(alloc);
    while let Some(word) = left.pop() {
        words.push_reserved(word);
    }
    words
}
