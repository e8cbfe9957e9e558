use lyndon_words::{Monomial, factors, is_lyndon, lyndon_of};
use std::alloc::{AllocError, Global};
use word_letters::{Letter, TooLong, Word};

fn word(letters: &[u8]) -> Word {
    let mut w = Word::empty();
    for i in 0..letters.len() {
        let a = if letters[letters.len() - 1 - i] == b'x' {
            Letter::X
        } else {
            Letter::Y
        };
        w = match w.push_front(a) {
            Ok(longer) => longer,
            Err(_) => w,
        };
    }
    w
}

fn monomial(alloc: Global, letters: &[u8]) -> Option<Monomial> {
    let w = word(letters);
    if w.is_admissible() {
        Some(factors(alloc, w))
    } else {
        None
    }
}

#[test]
fn proper_powers_and_words_that_turn_are_no_lyndon_words(rt: HostRuntime) {
    let table: [(&[u8], bool); 5] = [
        (b"", false),
        (b"y", true),
        (b"xyxy", false),
        (b"xxyxy", true),
        (b"xyxxy", false),
    ];
    for (letters, expected) in table {
        assert_eq!(rt; is_lyndon(word(letters)), expected, "{letters:?}");
    }
}

#[test]
fn the_lyndon_words_of_weight_5_increase(rt: HostRuntime) -> Result<(), AllocError> {
    let expected: [&[u8]; 6] = [b"xxxxy", b"xxxyy", b"xxyxy", b"xxyyy", b"xyxyy", b"xyyyy"];
    let list = lyndon_of(rt.alloc(), 5, 4)?;
    assert_eq!(rt; list.len(), 6);
    for (found, letters) in list.iter().zip(&expected) {
        assert!(rt; *found == word(letters), "{letters:?}");
    }

    // weight, depth, number: where the depth is the weight, the number of necklaces of two colours without a period
    let table: [(u32, u32, usize); 3] = [(1, 1, 2), (5, 1, 1), (10, 10, 99)];
    for (weight, depth, number) in table {
        assert_eq!(rt;
            lyndon_of(rt.alloc(), weight, depth)?.len(),
            number,
            "{weight} {depth}"
        );
    }
    Ok(())
}

#[test]
fn words_have_their_factors(rt: HostRuntime) {
    let table: [(&[u8], &[&[u8]]); 3] = [
        (b"xyxy", &[b"xy", b"xy"]),
        (b"xyyxyxxyy", &[b"xyy", b"xy", b"xxyy"]),
        (
            b"xyxyxyxyxyxyxyxyxyxyxyxy",
            &[
                b"xy", b"xy", b"xy", b"xy", b"xy", b"xy", b"xy", b"xy", b"xy", b"xy", b"xy", b"xy",
            ],
        ),
    ];
    for (letters, expected) in table {
        let w = word(letters);
        if w.is_admissible() {
            let p = factors(rt.alloc(), w);
            assert_eq!(rt; p.len(), expected.len(), "{letters:?}");
            for i in 0..p.len() {
                if i < expected.len() {
                    assert!(rt; p.factor(i) == word(expected[i]), "{letters:?}, factor {i}");
                }
            }
            assert!(rt; p.word() == w, "{letters:?}");
            assert_eq!(rt; p.weight(), w.weight(), "{letters:?}");
            assert_eq!(rt; p.depth(), w.depth(), "{letters:?}");
        } else {
            assert!(rt; false, "{letters:?}");
        }
    }
}

#[test]
fn products_hold_the_factors_of_both(rt: HostRuntime) {
    // two words, and the word of their monomials' product
    let table: [(&[u8], &[u8], &[u8]); 2] = [
        (b"xyy", b"xyxxy", b"xyyxyxxy"),
        (b"xyxxy", b"xyxxy", b"xyxyxxyxxy"),
    ];
    for (u, v, product) in table {
        if let (Some(p), Some(q)) = (monomial(rt.alloc(), u), monomial(rt.alloc(), v)) {
            match p.times(&q) {
                Ok(r) => assert!(rt; r.word() == word(product), "{product:?}"),
                Err(_) => assert!(rt; false, "{product:?}"),
            }
        } else {
            assert!(rt; false, "{product:?}");
        }
    }
    if let (Some(p), Some(q)) = (
        monomial(rt.alloc(), b"xxxxxxxxxxxxxxxxxxxxxxxy"),
        monomial(rt.alloc(), b"xy"),
    ) {
        assert_eq!(rt; p.times(&q).err(), Some(TooLong(26)));
    } else {
        assert!(rt; false);
    }
}
