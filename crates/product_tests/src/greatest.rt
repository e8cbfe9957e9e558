use leading_word::greatest_merge;
use lyndon_words::factors;
use std::alloc::Global;
use word_letters::{Letter, Word};

fn word(letters: &[u8]) -> Word {
    let mut w = Word::empty();
    for i in 0..letters.len() {
        let a = if letters[letters.len() - 1 - i] == b'x' {
            Letter::X
        } else {
            Letter::Y
        };
        w = match w.push_front(a) {
            Ok(longer) => longer,
            Err(_) => w,
        };
    }
    w
}

#[test]
fn the_greatest_words_have_their_counts(rt: HostRuntime) {
    // the word, and the number of its places in the shuffle of its factors, by hand
    let table: [(&[u8], u64); 6] = [
        (b"xy", 1),
        (b"xyxy", 2),
        (b"xyxxy", 1),
        (b"xyxyxy", 6),
        (b"xyxyxxyxxy", 4),
        (b"xyxyxyxyxyxyxyxyxyxyxyxy", 479001600),
    ];
    for (letters, count) in table {
        let u = word(letters);
        if u.is_admissible() {
            let merge = greatest_merge(&factors(rt.alloc(), u));
            assert!(rt; merge.word == u, "{letters:?}");
            assert_eq!(rt; merge.count, count, "{letters:?}");
        } else {
            assert!(rt; false, "{letters:?}");
        }
    }
}
