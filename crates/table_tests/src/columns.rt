//! Worked values from another program: the columns of some weights and depths, their numbers, their order, their places, and ranks.
ghost use Rattle.std.specs.Prelude.{◌<◌, ◌≤◌};

use column_order::{
    Columns, MAX_PREFERRED, Mode, Preference, Preferred, RankRule, column_list_laws,
    column_word_laws, count, lead_order_laws, leads, preference_laws, rank,
};
use lyndon_words::{Monomial, factors};
use std::alloc::Global;
use std::test::Fail;
use word_letters::Word;

/// The monomial of the word with this index text.
fn monomial(alloc: Global, text: &str) -> Result<Monomial, Fail> {
    let word = Word::parse(text.as_bytes())?;
    if !word.is_admissible() {
        return Err(Fail::new("the word is not admissible"));
    }
    Ok(factors(alloc, word))
}

/// The mode with the preferred words of these index texts.
fn preferring(mode: Mode, texts: &[&str]) -> Result<Preference, Fail> {
    let mut words = Preferred::none();
    for text in texts {
        let word = Word::parse(text.as_bytes())?;
        if !words.push(word) {
            return Err(Fail::new("there are 16 words"));
        }
    }
    Ok(Preference { mode, words })
}

/// The columns of a weight and a depth.
fn columns_of(alloc: Global, w: u32, d: u32, preference: Preference) -> Result<Columns, Fail>
    requires least { 2 ≤ w }
    requires most { w ≤ 24 }
    requires some { 1 ≤ d }
    requires below { d < w }
{
    let ranked = preference;
    let rule = RankRule::new(preference, move |word: Word| rank(&ranked, word));
    Ok(Columns::new(alloc, w, d, &rule)?)
}

/// Whether the words of the columns, in their order, have these index texts.
fn are_listed(alloc: Global, columns: &Columns, expected: &str) -> Result<bool, Fail> {
    let mut list = String::new(alloc);
    for i in 0..columns.len() {
        let word = columns.at(i).word();
        if word.ends_with_y() {
            list.push_str(word.text(alloc)?.as_str())?;
            list.push_str(" ")?;
        }
    }
    Ok(list.as_str() == expected)
}

#[test]
fn columns_stand_in_lead_order(rt: HostRuntime) -> Result<(), Fail> {
    let columns = columns_of(rt.alloc(), 8, 2, preferring(Mode::Lex, &[])?)?;
    assert!(rt;
        are_listed(
            rt.alloc(),
            &columns,
            "z(5,3) z(6,2) z(7,1) z(8) z(2,6) z(3,5) z(4,4) "
        )?
    );
    let columns = columns_of(rt.alloc(), 8, 2, preferring(Mode::Odd, &[])?)?;
    assert!(rt;
        are_listed(
            rt.alloc(),
            &columns,
            "z(6,2) z(7,1) z(8) z(5,3) z(2,6) z(4,4) z(3,5) "
        )?
    );
    let columns = columns_of(rt.alloc(), 8, 2, preferring(Mode::Lex, &["z(6,2)"])?)?;
    assert!(rt;
        are_listed(
            rt.alloc(),
            &columns,
            "z(5,3) z(7,1) z(8) z(6,2) z(2,6) z(3,5) z(4,4) "
        )?
    );
    let columns = columns_of(rt.alloc(), 8, 2, preferring(Mode::Odd, &["z(6,2)"])?)?;
    assert!(rt;
        are_listed(
            rt.alloc(),
            &columns,
            "z(7,1) z(8) z(5,3) z(6,2) z(2,6) z(4,4) z(3,5) "
        )?
    );
    Ok(())
}

#[test]
fn each_column_has_its_place(rt: HostRuntime) -> Result<(), Fail> {
    let columns = columns_of(rt.alloc(), 13, 12, preferring(Mode::Odd, &["z(11,2)"])?)?;
    assert_eq!(rt; columns.len(), 2048);
    for i in 0..columns.len() {
        let column = columns.at(i);
        assert_eq!(rt; columns.place(column), Some(i));
        assert_eq!(rt; columns.place_of_word(column.word()), Some(i));
    }
    let columns = columns_of(rt.alloc(), 8, 2, preferring(Mode::Lex, &[])?)?;
    assert_eq!(rt; (columns.weight(), columns.depth()), (8, 2));
    assert!(rt; columns.preference().mode == Mode::Lex);
    for (text, place) in [
        ("z(5,3)", Some(0)),
        ("z(4,4)", Some(6)),
        ("z(7)", None),
        ("z(6,1,1)", None),
        ("z(9)", None),
    ] {
        let p = monomial(rt.alloc(), text)?;
        assert_eq!(rt; columns.place(&p), place, "{text}");
        assert_eq!(rt; columns.place_of_word(p.word()), place, "{text}");
    }
    assert_eq!(rt; columns.place_of_word(Word::empty()), None);
    Ok(())
}

#[test]
fn too_many_columns_are_counted(rt: HostRuntime) -> Result<(), Fail> {
    let preference = preferring(Mode::Lex, &[])?;
    let ranked = preference;
    let rule = RankRule::new(preference, move |word: Word| rank(&ranked, word));
    match Columns::new(rt.alloc(), 14, 13, &rule) {
        Err(fault) => {
            assert_eq!(rt; count(14, 13), 4096);
            let text = format!(in rt.alloc(); "{fault}")?;
            assert_eq!(rt; text.as_str(), "there are 4096 columns, over 2048");
        }
        Ok(_) => assert!(rt; false),
    }
    assert_eq!(rt; count(24, 23), 4_194_304);
    assert_eq!(rt; count(20, 3), 172);
    assert_eq!(rt; count(2, 1), 1);
    Ok(())
}

#[test]
fn a_preferred_word_leads_less(rt: HostRuntime) -> Result<(), Fail> {
    lead_order_laws();
    column_list_laws();
    column_word_laws();
    preference_laws();
    let plain = preferring(Mode::Odd, &[])?;
    let ranked = plain;
    let odd = RankRule::new(plain, move |word: Word| rank(&ranked, word));
    let preferred = preferring(Mode::Odd, &["z(3)", "z(6,2)"])?;
    let ranked = preferred;
    let rule = RankRule::new(preferred, move |word: Word| rank(&ranked, word));
    // two words, and whether the first one's monomial leads without preferred words, and with z(6,2)
    for (a, b, before, after) in [
        ("z(6,2)", "z(7,1)", true, false),
        ("z(6,2)", "z(5,3)", true, false),
        ("z(7,1)", "z(7,1)", false, false),
        ("z(6,2)", "z(2,6)", true, true),
    ] {
        let (p, q) = (monomial(rt.alloc(), a)?, monomial(rt.alloc(), b)?);
        assert_eq!(rt; leads(&odd, &p, &q), before, "{a} {b}");
        assert_eq!(rt; leads(&rule, &p, &q), after, "{a} {b}");
    }
    Ok(())
}

#[test]
fn preferred_words_have_rank_0(rt: HostRuntime) -> Result<(), Fail> {
    let lex = preferring(Mode::Lex, &["z(3,1)"])?;
    let odd = preferring(Mode::Odd, &["z(3,1)"])?;
    for (text, in_lex, in_odd) in [
        ("z(3)", 1, 1),
        ("z(2)", 1, 2),
        ("z(3,3)", 1, 1),
        ("z(5,3)", 1, 1),
        ("z(3,1)", 0, 0),
        ("z(4,3)", 1, 2),
        ("z(3,2)", 1, 2),
    ] {
        let word = Word::parse(text.as_bytes())?;
        assert_eq!(rt; rank(&lex, word), in_lex, "{text}");
        assert_eq!(rt; rank(&odd, word), in_odd, "{text}");
    }
    Ok(())
}

#[test]
fn at_most_16_words_are_preferred(rt: HostRuntime) -> Result<(), Fail> {
    let mut words = Preferred::none();
    let first = Word::parse(b"z(2)")?;
    let other = Word::parse(b"z(3)")?;
    assert!(rt; words.push(first));
    for _i in 0..15 {
        assert!(rt; words.push(other));
    }
    assert!(rt; !words.push(Word::empty()));
    assert_eq!(rt; words.len(), MAX_PREFERRED);
    assert!(rt; words.contains(first) && words.contains(other));
    assert!(rt; !words.contains(Word::empty()));
    assert!(rt; words != Preferred::none());
    Ok(())
}
