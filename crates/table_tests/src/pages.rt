//! Worked values: the pages of two whole files, and the parameters of the worked rows.
use page_codec::{
    Params, Walk, decode, decode_old, encode, file_laws, is_page, param_laws, place_laws, row_laws,
    spelling_laws,
};
use std::alloc::{AllocError, Global};
use std::test::Fail;

const SMALL_HEADER: [u8; 25] = [
    1, 20, 0, 0, 0, 77, 90, 86, 68, 65, 84, 65, 2, 2, 1, 0, 3, 0, 0, 0, 0, 0, 0, 0, 0,
];

const HEADER: [u8; 25] = [
    1, 20, 0, 0, 0, 77, 90, 86, 68, 65, 84, 65, 2, 3, 2, 0, 5, 0, 0, 0, 0, 0, 0, 0, 0,
];

const FORWARD: [u8; 50] = [
    2, 45, 0, 0, 0, 0, 0, 0, 0, 1, 0, 0, 0, 0, 2, 0, 0, 0, 1, 0, 0, 0, 0, 0, 0, 0, 1, 0, 4, 0, 0,
    0, 0, 0, 0, 0, 1, 0, 0, 0, 0, 0, 4, 0, 0, 0, 0, 0, 0, 0,
];

const FINAL: [u8; 44] = [
    3, 39, 0, 0, 0, 0, 0, 1, 2, 0, 0, 0, 1, 0, 0, 0, 0, 0, 0, 0, 1, 0, 4, 0, 0, 0, 0, 0, 0, 0, 1,
    0, 0, 0, 0, 0, 4, 0, 0, 0, 0, 0, 0, 0,
];

const DONE: [u8; 7] = [4, 2, 0, 0, 0, 1, 0];

/// Whether the page in front has this length and is spelled so again.
fn reads_and_writes(alloc: Global, bytes: &[u8]) -> Result<bool, AllocError> {
    let Some((page, length)) = decode(alloc, bytes)? else {
        return Ok(false);
    };
    if !is_page(&page) {
        return Ok(false);
    }
    let mut out = Vec::new(alloc);
    encode(&page, &mut out)?;
    Ok(length == bytes.len() && out.as_slice() == bytes)
}

#[test]
fn the_pages_of_the_files_are_read_and_written(rt: HostRuntime) -> Result<(), Fail> {
    spelling_laws();
    for (name, bytes) in [
        ("small header", SMALL_HEADER.as_slice()),
        ("header", HEADER.as_slice()),
        ("forward", FORWARD.as_slice()),
        ("final", FINAL.as_slice()),
        ("done", DONE.as_slice()),
    ] {
        assert!(rt; reads_and_writes(rt.alloc(), bytes)?, "{name}");
        let (shorter, _) = bytes.split_at(bytes.len() - 1);
        assert!(rt;
            decode(rt.alloc(), shorter)?.is_none(),
            "{name} without its last byte"
        );
    }
    assert!(rt; decode(rt.alloc(), b"".as_slice())?.is_none());
    Ok(())
}

/// How many of the other values of byte `i` leave a page in front of the bytes.
fn still_read(alloc: Global, bytes: &[u8], i: usize) -> Result<u32, Fail> {
    let mut count = 0u32;
    for value in 0..=255u8 {
        let mut changed = bytes.to_vec(alloc)?;
        if i < changed.len() && changed[i] != value {
            changed[i] = value;
            if decode(alloc, changed.as_slice())?.is_some() {
                count = count.wrapping_add(1);
            }
        }
    }
    Ok(count)
}

/// Whether the changes of each byte that leave a page are so many.
fn are_still_read(alloc: Global, bytes: &[u8], counts: &[u32]) -> Result<bool, Fail> {
    for (i, expected) in counts.iter().enumerate() {
        if still_read(alloc, bytes, i)? != *expected {
            return Ok(false);
        }
    }
    Ok(counts.len() == bytes.len())
}

// For each byte of a page, how many of its 255 changes another program reads as a page.
const HEADER_CHANGES: [u32; 25] = [
    0, 0, 0, 0, 0, 0, 0, 0, 0, 0, 0, 0, 0, 1, 1, 1, 251, 255, 255, 255, 255, 255, 255, 127, 0,
];

const FORWARD_CHANGES: [u32; 50] = [
    0, 0, 0, 0, 0, 0, 0, 0, 0, 0, 63, 0, 0, 0, 0, 0, 0, 0, 0, 0, 0, 0, 0, 0, 0, 0, 254, 7, 254,
    255, 255, 255, 255, 255, 255, 127, 0, 0, 255, 255, 255, 255, 254, 255, 255, 255, 255, 255, 255,
    127,
];

const FINAL_CHANGES: [u32; 44] = [
    0, 0, 0, 0, 0, 3, 255, 0, 0, 0, 0, 0, 0, 0, 0, 0, 0, 0, 0, 0, 254, 7, 254, 255, 255, 255, 255,
    255, 255, 127, 0, 0, 255, 255, 255, 255, 254, 255, 255, 255, 255, 255, 255, 127,
];

const DONE_CHANGES: [u32; 7] = [0, 0, 0, 0, 0, 255, 7];

#[test]
fn each_change_of_a_byte_is_read_or_refused(rt: HostRuntime) -> Result<(), Fail> {
    assert!(rt; are_still_read(rt.alloc(), &HEADER, &HEADER_CHANGES)?);
    assert!(rt; are_still_read(rt.alloc(), &FORWARD, &FORWARD_CHANGES)?);
    assert!(rt; are_still_read(rt.alloc(), &FINAL, &FINAL_CHANGES)?);
    assert!(rt; are_still_read(rt.alloc(), &DONE, &DONE_CHANGES)?);
    Ok(())
}

/// Whether the page in front of the bytes fits the next place of the walk.
fn goes_on(alloc: Global, walk: &mut Walk, bytes: &[u8]) -> Result<bool, Fail> {
    match decode(alloc, bytes)? {
        Some((page, _)) => Ok(walk.step(&page)),
        None => Ok(false),
    }
}

#[test]
fn a_walk_goes_over_the_pages_in_order(rt: HostRuntime) -> Result<(), Fail> {
    file_laws();
    param_laws();
    place_laws();
    row_laws();
    let Ok(params) = Params::test(3, 2, 5, "lex", None) else {
        return Err(Fail::new("the parameters are refused"));
    };
    let mut walk = Walk::new(params, 2);
    assert!(rt; !goes_on(rt.alloc(), &mut walk, &FORWARD)?);
    assert!(rt; !goes_on(rt.alloc(), &mut walk, &SMALL_HEADER)?);
    assert!(rt; goes_on(rt.alloc(), &mut walk, &HEADER)?);
    assert!(rt; !goes_on(rt.alloc(), &mut walk, &HEADER)?);
    assert!(rt; !goes_on(rt.alloc(), &mut walk, &FINAL)?);
    assert!(rt; goes_on(rt.alloc(), &mut walk, &FORWARD)?);
    assert!(rt; !goes_on(rt.alloc(), &mut walk, &DONE)?);
    assert!(rt; goes_on(rt.alloc(), &mut walk, &FINAL)?);
    assert!(rt; !walk.is_done());
    assert!(rt; goes_on(rt.alloc(), &mut walk, &DONE)?);
    assert!(rt; walk.is_done());
    assert_eq!(rt; walk.rows(), 1);
    assert!(rt; !goes_on(rt.alloc(), &mut walk, &DONE)?);
    Ok(())
}

const PIECES_16: &str =
    "z(2)+z(3)+z(2,1)+z(4)+z(3,1)+z(2,1,1)+z(5)+z(4,1)+z(3,2)+z(3,1,1)+z(2,2,1)+z(2,1,1,1)+z(6)+z(5,1)+z(4,2)+z(4,1,1)";

const PIECES_17: &str =
    "z(2)+z(3)+z(2,1)+z(4)+z(3,1)+z(2,1,1)+z(5)+z(4,1)+z(3,2)+z(3,1,1)+z(2,2,1)+z(2,1,1,1)+z(6)+z(5,1)+z(4,2)+z(4,1,1)+z(3,2,1)";

/// What a test of parameters answers, as text.
fn told(
    alloc: Global,
    weight: u64,
    depth: u64,
    modulus: u64,
    order: &str,
    preferred: Option<&str>,
) -> Result<String, AllocError> {
    match Params::test(weight, depth, modulus, order, preferred) {
        Ok(params) => format!(in alloc; "ok {}", params.preferred.len()),
        Err(fault) => format!(in alloc; "{fault}"),
    }
}

#[test]
fn parameters_are_tested_in_order(rt: HostRuntime) -> Result<(), Fail> {
    for (weight, depth, modulus, order, preferred, want) in [
        (13, 12, 101, "lex", None, "ok 0"),
        (14, 13, 101, "lex", None, "columns 4096"),
        (14, 13, 101, "best", None, "order"),
        (24, 4, 101, "odd", None, "ok 0"),
        (25, 30, 0, "best", None, "weight 25"),
        (4, 4, 0, "best", None, "depth 4"),
        (4, 3, 2, "best", None, "modulus 2"),
        (4, 3, 4, "best", None, "weight 4 not below modulus 4"),
        (3, 2, 5, "lex", Some("z(2,1)"), "ok 1"),
        (3, 2, 5, "lex", Some("z(2)+z(2)"), "preferred 1"),
        (3, 2, 5, "lex", Some("z(2,2)"), "preferred 0"),
        (3, 2, 5, "lex", Some(""), "preferred 0"),
        (4, 2, 5, "lex", Some("z(2)+z(2,1)+z(3)+"), "preferred 2"),
        (4, 2, 5, "lex", Some("z(2)+z(3)+z(2,1)+z(4)"), "ok 4"),
        (
            4,
            2,
            5,
            "lex",
            Some("z(2)+z(3)+z(2,1)+z(2,1,1)"),
            "preferred 3",
        ),
        (8, 7, 101, "lex", Some(PIECES_16), "ok 16"),
        (8, 7, 101, "lex", Some(PIECES_17), "preferred 16"),
    ] {
        let text = told(rt.alloc(), weight, depth, modulus, order, preferred)?;
        assert_eq!(rt; text.as_str(), want, "{weight} {depth} {modulus} {order}");
    }
    Ok(())
}

#[test]
fn an_old_header_is_read(rt: HostRuntime) -> Result<(), Fail> {
    let old: [u8; 24] = [
        1, 19, 0, 0, 0, 77, 90, 86, 68, 65, 84, 65, 1, 3, 2, 0, 5, 0, 0, 0, 0, 0, 0, 0,
    ];
    match decode_old(&old) {
        Some((params, length)) => {
            assert_eq!(rt; params.weight, 3);
            assert_eq!(rt; params.depth, 2);
            assert_eq!(rt; params.modulus, 5);
            assert_eq!(rt; length, 24);
        }
        None => assert!(rt; false),
    }
    assert!(rt; decode_old(&HEADER).is_none());
    assert!(rt; decode(rt.alloc(), &old)?.is_none());
    Ok(())
}
