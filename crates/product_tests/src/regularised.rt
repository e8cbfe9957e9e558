//! A worked regularisation modulo 101, calculated by hand, and a refusal.
use regularise_core::{RegFault, reg, reg_laws};
use residues::{Ring, WordMod};
use std::test::Fail;
use word_letters::{Letter, Word};
use word_sums::WordSum;

fn word(ks: &[u32]) -> Word {
    match Word::from_index(ks) {
        Ok(w) => w,
        Err(_) => Word::empty(),
    }
}

#[test]
fn words_are_regularised(rt: HostRuntime) -> Result<(), Fail> {
    reg_laws::<WordMod>();
    let ring = WordMod::new(101)?;
    let mut s = WordSum::<WordMod>::new(rt.alloc());
    // yyxy + 8 yyy + 7 xy, of which yyy gives nothing
    s.add_term(&ring, word(&[1, 1, 2]), ring.of(1))?;
    s.add_term(&ring, word(&[1, 1, 1]), ring.of(8))?;
    s.add_term(&ring, word(&[2]), ring.of(7))?;
    let sum = reg(rt.alloc(), &ring, &s)?;
    assert_eq!(rt; sum.len(), 2);
    assert_eq!(rt; sum.coefficient(&ring, word(&[2, 1, 1])), 3);
    assert_eq!(rt; sum.coefficient(&ring, word(&[2])), 7);
    Ok(())
}

#[test]
fn the_least_word_that_ends_with_x_is_named(rt: HostRuntime) -> Result<(), Fail> {
    let ring = WordMod::new(101)?;
    let x = Word::of(Letter::X);
    let mut s = WordSum::<WordMod>::new(rt.alloc());
    s.add_term(&ring, x.in_front(Letter::Y), ring.one())?;
    s.add_term(&ring, x.in_front(Letter::X), ring.one())?;
    let refused = reg(rt.alloc(), &ring, &s);
    assert!(rt; matches!(&refused, Err(RegFault::NotInH1(w)) if *w == x.in_front(Letter::X)));
    let fault = RegFault::NotInH1(x.in_front(Letter::Y));
    assert_eq!(rt;
        format!(in rt.alloc(); "{fault}")?.as_str(),
        "the word yx of the sum ends with x"
    );
    Ok(())
}
