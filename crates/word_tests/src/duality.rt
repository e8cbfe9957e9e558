//! Values by hand.
use duality_map::{dual, duality_laws, representative};
use word_letters::{Letter, Word};

/// The word that is spelled by these bytes, each the letter y or another for x.
fn word(letters: &[u8]) -> Word {
    let mut w = Word::empty();
    for letter in letters.iter().rev() {
        let letter = if *letter == b'y' {
            Letter::Y
        } else {
            Letter::X
        };
        match w.push_front(letter) {
            Ok(longer) => w = longer,
            Err(_) => {}
        }
    }
    w
}

#[test]
fn words_have_duals(rt: HostRuntime) {
    duality_laws();
    // word, dual, the lesser of the two
    let table: [(&str, &str, &str); 4] = [
        ("y", "x", "x"),
        ("xyy", "xxy", "xxy"),
        ("xyxxy", "xyyxy", "xyxxy"),
        (
            "xyyxyxyyyyyyxxxyxxyyyyyy",
            "xxxxxxyyxyyyxxxxxxyxyxxy",
            "xxxxxxyyxyyyxxxxxxyxyxxy",
        ),
    ];
    for (letters, other, lesser) in table {
        let w = word(letters.as_bytes());
        assert_eq!(rt; w.weight() as usize, letters.len(), "{letters}");
        assert!(rt; dual(w) == word(other.as_bytes()), "the dual of {letters}");
        assert!(rt; representative(w) == word(lesser.as_bytes()), "{letters}");
    }
}
