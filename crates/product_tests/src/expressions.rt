//! Lines: the places of their wrong bytes, what they mean, and the reasons for which they mean nothing.
use residues::{Ring, WordMod};
use std::alloc::{AllocError, Global};
use std::test::Fail;
use word_letters::Word;
use zeta_expr::{Expr, Factor, LineFault, a_line_has_one_meaning, meaning, read, refusal_of};

/// The text of what `read` answers.
fn place_of(alloc: Global, line: &[u8]) -> Result<String, AllocError> {
    match read(alloc, line) {
        Ok(e) => format!(in alloc; "terms {}", e.terms.len()),
        Err(fault) => format!(in alloc; "{fault}"),
    }
}

#[test]
fn the_longest_prefix_of_a_line_is_told(rt: HostRuntime) -> Result<(), AllocError> {
    let table: [(&str, &str); 12] = [
        ("2z(3)", "syntax 1"),
        ("1/2/3", "syntax 3"),
        ("z(1000)", "syntax 5"),
        ("z(2)^", "syntax 5"),
        ("111111111111111111111111111111111111111", "syntax 38"),
        ("", "syntax 0"),
        ("z(0)", "syntax 2"),
        ("z(3", "syntax 3"),
        ("1 2", "syntax 2"),
        ("-007/010*z(1,1)^00", "terms 1"),
        (" + z ( 2 , 1 )\t- z(2,1) \r", "terms 2"),
        ("2*z(5) - z(2)*z(3) - z(4,1)", "terms 3"),
    ];
    for (line, wanted) in table {
        assert_eq!(rt;
            place_of(rt.alloc(), line.as_bytes())?.as_str(),
            wanted,
            "{line}"
        );
    }
    Ok(())
}

#[test]
fn a_line_has_at_most_4096_bytes(rt: HostRuntime) -> Result<(), AllocError> {
    let mut line = Vec::from_slice(rt.alloc(), b"z(2)")?;
    for _ in 0..4092 {
        line.push(b' ')?;
    }
    assert_eq!(rt; place_of(rt.alloc(), &line)?.as_str(), "terms 1");
    line.push(b' ')?;
    assert_eq!(rt; place_of(rt.alloc(), &line)?.as_str(), "line too long");
    Ok(())
}

/// Whether the factor is the number 3 over 2, and whether it is the zeta of 2, 1 to the power 3.
fn looks_as_written(factor: &Factor) -> (bool, bool) {
    match factor {
        Factor::Number { top, bottom } => (*top == 3 && *bottom == Some(2), false),
        Factor::Zeta { word, power } => (
            false,
            word.as_slice() == [2, 1].as_slice() && *power == 3,
        ),
    }
}

#[test]
fn an_expression_is_as_it_is_written(rt: HostRuntime) {
    match read(rt.alloc(), b"-3/02*z(2,1)^3") {
        Ok(e) => {
            assert_eq!(rt; e.terms.len(), 1);
            assert!(rt; e.terms[0].negative);
            assert_eq!(rt; e.terms[0].factors.len(), 2);
            assert!(rt; looks_as_written(&e.terms[0].factors[0]).0);
            assert!(rt; looks_as_written(&e.terms[0].factors[1]).1);
        }
        Err(_) => assert!(rt; false),
    }
}

/// What a line means for a weight, a depth and a modulus: the coefficient of the word of an index, or the refusal.
fn told(
    alloc: Global,
    line: &str,
    (w, d, modulus): (u32, u32, u64),
    index: &[u32],
) -> Result<String, Fail> {
    if w < 2 || 24 < w {
        return Err(Fail::new("the weight is not 2 to 24"));
    }
    let ring = WordMod::new(modulus)?;
    let word = Word::from_index(index)?;
    let e = read(alloc, line.as_bytes())?;
    match meaning(alloc, &ring, &e, w, d) {
        Ok(sum) => Ok(format!(in alloc; "{}", ring.value(sum.coefficient(&ring, word)))?),
        Err(fault) => Ok(format!(in alloc; "{fault}")?),
    }
}

#[test]
fn a_line_means_its_sum(rt: HostRuntime) -> Result<(), Fail> {
    // line, weight, depth and modulus, index, coefficient or refusal
    let table: [(&str, (u32, u32, u64), &[u32], &str); 16] = [
        ("z(1,2)", (3, 2, 5), &[2, 1], "3"),
        ("z(1,2)+2*z(2,1)", (3, 2, 5), &[2, 1], "0"),
        ("z(1)*z(2)", (3, 2, 5), &[2, 1], "0"),
        ("z(1,1,1)", (3, 2, 5), &[2, 1], "depth 3"),
        ("z(1)", (3, 2, 5), &[2, 1], "weight 1"),
        ("z(2)+1/5*z(3)", (3, 2, 5), &[3], "no inverse 5"),
        ("1/2*z(3)-z(3)*3", (3, 2, 5), &[3], "0"),
        ("z(999)^0*z(3)", (3, 2, 5), &[3], "1"),
        ("0+z(3)", (3, 2, 5), &[3], "1"),
        ("5*2-z(3)", (3, 2, 5), &[3], "4"),
        ("1+z(3)", (3, 2, 5), &[3], "weight 0"),
        ("0*z(2)", (3, 2, 5), &[3], "weight 2"),
        ("z(2,1,1)+z(2,1,1,1)", (5, 2, 5), &[5], "weight 4"),
        ("z(2)^2", (4, 3, 101), &[2, 2], "2"),
        ("z(2)*z(2)", (4, 3, 101), &[3, 1], "4"),
        ("z(12)*z(12)", (24, 2, 101), &[23, 1], "96"),
    ];
    for (line, size, index, wanted) in table {
        assert_eq!(rt;
            told(rt.alloc(), line, size, index)?.as_str(),
            wanted,
            "{line}"
        );
    }
    Ok(())
}

#[test]
fn a_refusal_is_found_without_the_sum(rt: HostRuntime) -> Result<(), Fail> {
    a_line_has_one_meaning();
    let e: Expr = read(rt.alloc(), b"z(3)+z(12)*z(12)")?;
    let ring = WordMod::new(5)?;
    match refusal_of(&ring, &e, 3, 2) {
        Some(LineFault::WeightIs(weight)) => assert_eq!(rt; weight, 24),
        _ => assert!(rt; false),
    }
    Ok(())
}
