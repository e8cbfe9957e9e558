//! Values by hand: texts both ways, refusals, and words put together, cut, listed and printed.
use std::alloc::AllocError;
use std::cmp::Ordering;
use word_letters::{IndexFault, Letter, TextFault, TooLong, Word, admissible_words, index_laws};

fn word(text: &[u8]) -> Word {
    match Word::parse(text) {
        Ok(w) => w,
        Err(_) => Word::empty(),
    }
}

#[test]
fn refusals_are_told(rt: HostRuntime) {
    assert_eq!(rt; Word::from_index(&[]).err(), Some(IndexFault::EmptyIndex));
    assert_eq!(rt;
        Word::from_index(&[30, 0]).err(),
        Some(IndexFault::ZeroIndex(1))
    );
    assert_eq!(rt;
        Word::from_index(&[24, 1]).err(),
        Some(IndexFault::TooLong(25))
    );
    let table: [(&[u8], TextFault); 5] = [
        (b"z(3,", TextFault::BadText(4)),
        (b"z(03)", TextFault::BadText(3)),
        (b"z(10000)", TextFault::BadText(6)),
        (b"z(10,0,2,0)", TextFault::ZeroIndex(5)),
        (b"z(9999,9999)", TextFault::TooLong(19998)),
    ];
    for (bytes, fault) in table {
        assert_eq!(rt; Word::parse(bytes).err(), Some(fault));
    }
    assert_eq!(rt;
        word(b"z(24)").push_front(Letter::X).err(),
        Some(TooLong(25))
    );
    assert_eq!(rt;
        word(b"z(20)").concat(word(b"z(5)")).err(),
        Some(TooLong(25))
    );
}

#[test]
fn words_are_put_together_cut_and_printed(rt: HostRuntime) -> Result<(), AllocError> {
    let w = Word::z(3).followed_by(Word::y_power(1));
    assert!(rt; w == word(b"z(3,1)"));
    assert!(rt; Word::from_index(&[3, 1]) == Ok(w));
    assert!(rt; w.is_admissible());
    assert_eq!(rt; w.depth(), 2);
    assert!(rt; w.tail() == word(b"z(2,1)"));
    assert!(rt; w.without_front(3) == word(b"z(1)"));
    assert!(rt; Word::of(Letter::Y).in_front(Letter::X).with_last(Letter::Y) == word(b"z(2,1)"));
    let (front, rest) = word(b"z(1,1,3)").split_y();
    assert!(rt; front == word(b"z(1,1)") && rest == word(b"z(3)"));
    assert_eq!(rt; w.text(rt.alloc())?.as_str(), "z(3,1)");
    let x = Word::of(Letter::X);
    assert_eq!(rt; format!(in rt.alloc(); "{w} {x:?}")?.as_str(), "z(3,1) x");
    assert_eq!(rt; word(b"z(2)").cmp(&word(b"z(1)")), Ordering::Less);
    index_laws();
    Ok(())
}

#[test]
fn admissible_words_are_listed(rt: HostRuntime) -> Result<(), AllocError> {
    let list = admissible_words(rt.alloc(), 5, 2)?;
    let expected: [&[u8]; 4] = [b"z(5)", b"z(4,1)", b"z(3,2)", b"z(2,3)"];
    assert_eq!(rt; list.len(), 4);
    for (found, text) in list.iter().zip(&expected) {
        assert!(rt; *found == word(text));
    }
    Ok(())
}
