use dual_reply::reply;
use residues::WordMod;
use std::alloc::{AllocError, Global};

/// Whether a line gets a reply.
fn gets(alloc: Global, modulus: u64, line: &[u8], wanted: &[u8]) -> Result<bool, AllocError> {
    let mut out = Vec::new(alloc);
    if let Ok(ring) = WordMod::new(modulus) {
        reply(alloc, &ring, line, &mut out)?;
    }
    Ok(out.as_slice() == wanted)
}

#[test]
fn sums_are_folded_by_duality(rt: HostRuntime) -> Result<(), AllocError> {
    // modulus, line, reply
    let table: [(u64, &str, &str); 14] = [
        (101, "z(2,1)-z(3)", "0"),
        (101, "z(2,1)+z(3)", "2*z(3)"),
        (101, "z(3,1)+z(2)", "1*z(2)+1*z(3,1)"),
        (101, "-z(4)", "100*z(4)"),
        (101, " + z ( 2 , 1 )\t- z(2,1) \r", "0"),
        (101, "z(24)", "1*z(24)"),
        (101, "z(10,1,13)-z(3,1,1)", "100*z(4,1)+1*z(10,1,13)"),
        (
            101,
            "z(4,1)+z(2,1,2)+z(3,1,1)+z(2)-z(5)",
            "1*z(2)+100*z(5)+2*z(4,1)+1*z(2,3)",
        ),
        (101, "z(23,1)", "1*z(23,1)"),
        (
            101,
            "z(2,1,1,1,1,1,1,1,1,1,1,1,1,1,1,1,1,1,1,1,1,1,1)+z(23,1)",
            "1*z(24)+1*z(23,1)",
        ),
        (3, "z(5)+z(5)+z(5)+z(2)", "1*z(2)"),
        (
            101,
            "z(24)+z(23)+z(22)+z(21)+z(20)+z(19)+z(18)+z(17)+z(16)+z(15)+z(14)+z(13)+z(12)+z(11)+z(10)+z(9)+z(8)+z(7)+z(6)+z(5)+z(4)+z(3)+z(2)",
            "1*z(2)+1*z(3)+1*z(4)+1*z(5)+1*z(6)+1*z(7)+1*z(8)+1*z(9)+1*z(10)+1*z(11)+1*z(12)+1*z(13)+1*z(14)+1*z(15)+1*z(16)+1*z(17)+1*z(18)+1*z(19)+1*z(20)+1*z(21)+1*z(22)+1*z(23)+1*z(24)",
        ),
        (4, "z(2,1)+z(3)+z(3)+z(2,1)", "0"),
        (
            9223372036854775807,
            "-z(2,2)+z(3,2)-z(2,3)",
            "9223372036854775806*z(2,2)+1*z(3,2)+9223372036854775806*z(2,3)",
        ),
    ];
    for (modulus, line, wanted) in table {
        assert!(rt;
            gets(rt.alloc(), modulus, line.as_bytes(), wanted.as_bytes())?,
            "{line} is to get {wanted}"
        );
    }
    Ok(())
}

#[test]
fn other_lines_get_their_refusal(rt: HostRuntime) -> Result<(), AllocError> {
    // line, reply
    let table: [(&str, &str); 28] = [
        ("", "syntax 0"),
        ("z(3", "syntax 3"),
        ("2*z(3)", "syntax 0"),
        ("z(2)z(3)", "syntax 4"),
        ("z(2)+", "syntax 5"),
        ("z(2) + ", "syntax 7"),
        ("+-z(2)", "syntax 1"),
        ("z(2)\n", "syntax 4"),
        ("z(2,)", "syntax 4"),
        ("z()", "syntax 2"),
        ("z(0)", "syntax 2"),
        ("z(2,0)", "syntax 4"),
        ("z(02)", "syntax 2"),
        ("z(2 4)", "syntax 4"),
        ("z(1000)", "syntax 5"),
        ("z(2)^2", "syntax 4"),
        ("Z(2)", "syntax 0"),
        ("z(1,2)", "not admissible 2"),
        ("z( 1 )", "not admissible 3"),
        ("z(25)+z(\t1,24)-z(1)", "not admissible 9"),
        ("z(2,1)+z(10)+z(1)", "not admissible 15"),
        ("z(25)", "weight 25"),
        ("z(12,13)", "weight 25"),
        ("z(999)", "weight 999"),
        ("z(2)-z(24,1)+z(999)", "weight 25"),
        ("z(999,999,1)", "weight 1999"),
        (
            "z(2,1,1,1,1,1,1,1,1,1,1,1,1,1,1,1,1,1,1,1,1,1,1,1,1,1)",
            "weight 27",
        ),
        ("z(1,2)+", "syntax 7"),
    ];
    for (line, wanted) in table {
        assert!(rt;
            gets(rt.alloc(), 101, line.as_bytes(), wanted.as_bytes())?,
            "{line} is to get {wanted}"
        );
    }
    Ok(())
}

#[test]
fn a_line_has_at_most_4096_bytes(rt: HostRuntime) -> Result<(), AllocError> {
    let mut line = Vec::from_slice(rt.alloc(), b"z(2)")?;
    for _ in 0..4092 {
        line.push(b' ')?;
    }
    assert!(rt; gets(rt.alloc(), 101, &line, b"1*z(2)")?);
    line.push(b' ')?;
    assert!(rt; gets(rt.alloc(), 101, &line, b"line too long")?);
    Ok(())
}
