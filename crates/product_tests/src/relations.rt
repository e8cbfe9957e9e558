//! A listing as it is printed, what is no name, and values.
use relation_list::{
    Direct, RelName, depth, is_name, listing, listing_laws, text, value, value_laws,
};
use residues::WordMod;
use std::alloc::Global;
use std::test::Fail;
use word_letters::Word;

fn word(ks: &[u32]) -> Word {
    match Word::from_index(ks) {
        Ok(w) => w,
        Err(_) => Word::empty(),
    }
}

/// The text of a name with its depth, `none` where it is none.
fn shown(alloc: Global, name: &RelName) -> Result<String, Fail> {
    if !is_name(name) {
        return Ok(format!(in alloc; "none")?);
    }
    let text = text(alloc, name)?;
    Ok(format!(in alloc; "{} {}", text.as_str(), depth(name))?)
}

#[test]
fn a_listing_is_printed_in_its_order(rt: HostRuntime) -> Result<(), Fail> {
    listing_laws();
    let names = listing(rt.alloc(), 5, 4)?;
    let table = [
        "Fin z(2) z(3) 2",
        "Fin z(2) z(2,1) 3",
        "Reg 1 z(4) 2",
        "Reg 1 z(3,1) 3",
        "Reg 1 z(2,2) 3",
        "Reg 1 z(2,1,1) 4",
        "Reg 2 z(3) 3",
        "Reg 2 z(2,1) 4",
        "Reg 3 z(2) 4",
        "Dual z(5) 4",
        "Dual z(4,1) 3",
        "Dual z(3,2) 3",
        "Dual z(2,3) 3",
        "Prod [Reg 1 z(2)] z(2) 3",
        "Prod [Dual z(3)] z(2) 3",
    ];
    assert_eq!(rt; names.len(), 15);
    for (name, expected) in names.iter().zip(table) {
        assert_eq!(rt; shown(rt.alloc(), name)?.as_str(), expected);
    }
    assert_eq!(rt; listing(rt.alloc(), 7, 4)?.len(), 62);
    Ok(())
}

#[test]
fn other_words_make_no_names(rt: HostRuntime) {
    let wrong = Direct::Fin {
        u: word(&[3]),
        v: word(&[2]),
    };
    let long = Direct::Reg {
        m: u32::MAX,
        v: word(&[2]),
    };
    assert!(rt; !is_name(&RelName::Plain(wrong)));
    assert!(rt; !is_name(&RelName::Plain(long)));
    assert!(rt; !is_name(&RelName::Plain(Direct::Dual { u: word(&[2]) })));
}

/// Whether the value of the name modulo 101 has three words, and these numbers of the words of these indices.
fn has_value(
    alloc: Global,
    name: &RelName,
    first: (u64, &[u32]),
    second: (u64, &[u32]),
    third: (u64, &[u32]),
) -> Result<bool, Fail> {
    let ring = WordMod::new(101)?;
    if !is_name(name) {
        return Ok(false);
    }
    let sum = value(alloc, &ring, name)?;
    Ok(
        sum.len() == 3
            && sum.coefficient(&ring, word(first.1)) == first.0
            && sum.coefficient(&ring, word(second.1)) == second.0
            && sum.coefficient(&ring, word(third.1)) == third.0,
    )
}

#[test]
fn names_have_values(rt: HostRuntime) -> Result<(), Fail> {
    value_laws();
    let fin = RelName::Plain(Direct::Fin {
        u: word(&[2]),
        v: word(&[3]),
    });
    assert!(rt; has_value(rt.alloc(), &fin, (100, &[5]), (6, &[4, 1]), (2, &[3, 2]))?);
    let reg = RelName::Plain(Direct::Reg {
        m: 2,
        v: word(&[2]),
    });
    assert!(rt;
        has_value(
            rt.alloc(),
            &reg,
            (100, &[3, 1]),
            (100, &[2, 2]),
            (1, &[2, 1, 1])
        )?
    );
    Ok(())
}
