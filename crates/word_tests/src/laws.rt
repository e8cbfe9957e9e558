//! Values from another system: products, regularisations modulo 101 and duals.
use std::alloc::{AllocError, Global};
use zeta_model::{
    Letter, dual, duality_laws, letter_laws, product_laws, reg_coefficient, regularisation_laws,
    representative, shuffle, stuffle, sum_laws, word_list_laws,
};

/// The word that is spelled by letters x and y.
fn word(alloc: Global, text: &str) -> Result<Vec<Letter>, AllocError> {
    let mut letters = Vec::new(alloc);
    for c in text.chars() {
        letters.push(if c == 'x' { Letter::X } else { Letter::Y })?;
    }
    Ok(letters)
}

#[test]
fn products_hold_each_word_as_often_as_it_arises(rt: HostRuntime) -> Result<(), AllocError> {
    // two words and a third, its places in the shuffle and in the stuffle, and how many words these have
    for (u, v, t, shuffled, stuffled, words, joined) in [
        ("xy", "xy", "xxyy", 4, 0, 6, 3),
        ("xy", "xxy", "xxyxy", 3, 1, 10, 3),
        ("xyy", "xy", "xyxyy", 3, 2, 10, 5),
        ("", "xy", "xy", 1, 1, 1, 1),
    ] {
        let u = word(rt.alloc(), u)?;
        let v = word(rt.alloc(), v)?;
        let t = word(rt.alloc(), t)?;
        let product = shuffle(rt.alloc(), &u, &v)?;
        assert_eq!(rt; product.count(&t), shuffled);
        assert_eq!(rt; product.len(), words);
        let product = stuffle(rt.alloc(), &u, &v)?;
        assert_eq!(rt; product.count(&t), stuffled);
        assert_eq!(rt; product.len(), joined);
    }
    Ok(())
}

#[test]
fn regularisations_and_duals_have_their_values(rt: HostRuntime) -> Result<(), AllocError> {
    // a word, another with its coefficient in the regularisation, the dual of the first, and the lesser of the two
    for (w, t, coefficient, other, lesser) in [
        ("", "", 1, "", ""),
        ("y", "y", 0, "x", "x"),
        ("yxy", "xyy", 99, "xyx", "xyx"),
        ("yyxy", "xyyy", 3, "xyxx", "xyxx"),
        ("xyxxy", "xyxxy", 1, "xyyxy", "xyxxy"),
    ] {
        let w = word(rt.alloc(), w)?;
        let n = reg_coefficient(rt.alloc(), 101, &w, &word(rt.alloc(), t)?)?;
        assert_eq!(rt; n, coefficient);
        assert!(rt; dual(rt.alloc(), &w)? == word(rt.alloc(), other)?);
        assert!(rt; representative(rt.alloc(), &w)? == word(rt.alloc(), lesser)?);
    }
    duality_laws();
    letter_laws();
    product_laws();
    regularisation_laws();
    sum_laws();
    word_list_laws();
    Ok(())
}
