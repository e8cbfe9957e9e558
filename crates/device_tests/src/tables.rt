use crate::commands::conduct;
use std::alloc::Global;
use std::process::Abort;
use std::test::Fail;

/// The words, the input, what is written, and the status.
type Run = (&'static [&'static str], &'static str, &'static str, u8);

/// Makes each run of a table, with no failing call.
fn each_says(rt: &impl Abort, alloc: Global, runs: &[Run]) -> Result<(), Fail> {
    for (words, input, said, status) in runs {
        let input = Vec::from_slice(alloc, input.as_bytes())?;
        let (ended, sink) = conduct(alloc, words, input, (&[], &[]))?;
        assert_eq!(rt; ended, *status);
        assert_eq!(rt; sink.taken(), said.as_bytes());
    }
    Ok(())
}

#[test]
fn lines_are_rewritten_in_few_generators(rt: HostRuntime) -> Result<(), Fail> {
    let runs: [Run; 9] = [
        (&["reduce", "2", "1", "4", "lex"], "z(2)", "1*z(2)\n", 0),
        (
            &["reduce", "3", "2", "5", "lex"],
            "z(2,1)\nz(3)-z(2,1)\n0\n5\nz(1,2)\nz(1,2)+2*z(2,1)\nz(1)*z(2)",
            "1*z(3)\n0\n0\n0\n3*z(3)\n0\n0\n",
            0,
        ),
        (
            &["reduce", "3", "2", "5", "lex", "z(2,1)"],
            "z(3)",
            "1*z(2,1)\n",
            0,
        ),
        (
            &["reduce", "4", "3", "101", "lex"],
            "z(3,1)\nz(4)\nz(2,1,1)\nz(2)*z(2)\nz(2)^2",
            "91*z(2)^2\n61*z(2)^2\n61*z(2)^2\n1*z(2)^2\n1*z(2)^2\n",
            0,
        ),
        (
            &["reduce", "4", "3", "77", "lex"],
            "z(3,1)\nz(4)",
            "54*z(2)^2\n62*z(2)^2\n",
            0,
        ),
        (
            &["reduce", "5", "4", "101", "lex"],
            "z(4,1)\nz(3,2)\nz(2,3)\n2*z(5) - z(2)*z(3) - z(4,1)\n1/2*z(3,2)\nz(2)*z(2,1)-z(2)*z(3)",
            "2*z(5)+100*z(2)*z(3)\n45*z(5)+3*z(2)*z(3)\n55*z(5)+99*z(2)*z(3)\n0\n73*z(5)+52*z(2)*z(3)\n0\n",
            0,
        ),
        (
            &["reduce", "5", "2", "101", "lex"],
            "z(4,1)",
            "2*z(5)+100*z(2)*z(3)\n",
            0,
        ),
        (
            &["reduce", "8", "2", "101", "lex"],
            "z(5,3)\nz(6,2)\nz(8)\nz(2)*z(6)",
            "48*z(6,2)+5*z(3)*z(5)+20*z(4)^2\n1*z(6,2)\n73*z(4)^2\n88*z(4)^2\n",
            0,
        ),
        (
            &["reduce", "8", "2", "101", "odd"],
            "z(5,3)\nz(6,2)\nz(8)\nz(2)*z(6)",
            "1*z(5,3)\n40*z(5,3)+8*z(4)^2+2*z(3)*z(5)\n73*z(4)^2\n88*z(4)^2\n",
            0,
        ),
    ];
    each_says(&rt, rt.alloc(), &runs)
}

#[test]
fn lines_that_mean_nothing_get_their_refusal(rt: HostRuntime) -> Result<(), Fail> {
    let runs: [Run; 2] = [
        (
            &["reduce", "3", "2", "5", "lex"],
            "1\nz(1,1,1)\nz(1)\nz(2)+z(3)\n1/5*z(3)\nz(3\n\nz(0)",
            "weight 0\ndepth 3\nweight 1\nweight 2\nno inverse 5\nsyntax 3\nsyntax 0\nsyntax 2\n",
            0,
        ),
        (
            &["reduce", "5", "2", "101", "lex"],
            "z(3,1,1)",
            "depth 3\n",
            0,
        ),
    ];
    each_says(&rt, rt.alloc(), &runs)
}

#[test]
fn tables_without_inverses_are_refused(rt: HostRuntime) -> Result<(), Fail> {
    let runs: [Run; 7] = [
        (
            &["reduce", "4", "3", "15", "lex"],
            "z(4)",
            "no inverse: 5 at relation 1\n",
            4,
        ),
        (
            &["reduce", "4", "3", "100", "lex"],
            "z(4)",
            "no inverse: 2 at word z(2,2)\n",
            4,
        ),
        (
            &["sample", "4", "3", "15", "1", "2"],
            "",
            "no inverse: 5 at relation 1\n",
            4,
        ),
        (
            &["reduce", "4", "3", "101", "best"],
            "",
            "bad parameter: order\n",
            3,
        ),
        (
            &["reduce", "5", "4", "5", "lex"],
            "",
            "bad parameter: weight 5 not below modulus 5\n",
            3,
        ),
        (
            &["reduce", "3", "2", "5", "lex", "z(2)+z(2)"],
            "",
            "bad parameter: preferred 1\n",
            3,
        ),
        (
            &["sample", "3", "2", "5", "1", "100001"],
            "",
            "bad parameter: count 100001\n",
            3,
        ),
    ];
    each_says(&rt, rt.alloc(), &runs)
}

#[test]
fn replies_to_lines_from_a_seed_are_counted(rt: HostRuntime) -> Result<(), Fail> {
    let runs: [Run; 2] = [
        (
            &["sample", "3", "2", "5", "1", "2"],
            "",
            "rows 1, columns 2, lines 2, zero 0, distinct 2, terms 2\n",
            0,
        ),
        (
            &["sample", "5", "4", "101", "1", "1000"],
            "",
            "rows 6, columns 8, lines 1000, zero 0, distinct 605, terms 1899\n",
            0,
        ),
    ];
    each_says(&rt, rt.alloc(), &runs)
}

#[test]
fn lines_get_their_values_by_truncated_sums(rt: HostRuntime) -> Result<(), Fail> {
    let runs: [Run; 5] = [
        (
            &["probe", "2", "101"],
            "z(2)\nz(1)\nz(2)*z(2)\n2*z(2,2)+z(4)\n4*z(3,1)+2*z(2,2)\nz(2)^0\n1/101",
            "77\n52\n71\n71\n1\n1\nno inverse 101\n",
            0,
        ),
        (&["probe", "1", "101"], "z(2,1)", "0\n", 0),
        (
            &["probe", "5", "15"],
            "z(2)",
            "no inverse: 3 at term 3\n",
            4,
        ),
        (&["probe", "0", "101"], "", "bad parameter: terms 0\n", 3),
        (
            &["probe", "10001", "101"],
            "",
            "bad parameter: terms 10001\n",
            3,
        ),
    ];
    each_says(&rt, rt.alloc(), &runs)
}
