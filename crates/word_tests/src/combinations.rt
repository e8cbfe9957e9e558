//! Worked values: combinations, reduced lists and normal forms modulo small numbers, by hand.
use linear_model::{combination, is_forward, is_in_span, is_reduced, normal_form, same_row};

#[test]
fn combinations_are_sums_of_rows(rt: HostRuntime) {
    // The rows (0, 4, 14, 0) and (0, 1, 1, 7) modulo 15.
    let table = [0, 4, 14, 0, 0, 1, 1, 7];
    let cases = [
        ([4, 0], [0, 1, 11, 0]),
        ([4, 1], [0, 2, 12, 7]),
        ([11, 1], [0, 0, 5, 7]),
    ];
    for (coefficients, want) in cases {
        for col in 0..4 {
            let number = combination(15, 4, &table, &coefficients, col);
            assert_eq!(rt; number, want[col], "column {col} of {coefficients:?}");
        }
    }
    assert_eq!(rt;
        combination(15, 4, &table, &[4, 1], 4),
        0,
        "past the last column"
    );
}

#[test]
fn reduced_and_forward_lists_are_told(rt: HostRuntime) {
    // Rows of two columns modulo 5: two leads, two rows, whether forward, whether reduced.
    let cases = [
        ([0, 1], [1, 0, 0, 1], true, true),
        ([0, 1], [1, 1, 0, 1], true, false),
        ([0, 1], [6, 5, 5, 11], true, true),
        ([0, 1], [1, 0, 0, 2], false, false),
        ([0, 0], [1, 0, 1, 0], false, false),
        ([1, 0], [0, 1, 1, 0], true, false),
        ([1, 0], [0, 1, 1, 4], false, false),
        ([0, 1], [1, 0, 0, 0], false, false),
    ];
    for (leads, table, forward, reduced) in cases {
        assert_eq!(rt;
            is_forward(5, 2, &leads, &table),
            forward,
            "forward, {leads:?}, {table:?}"
        );
        assert_eq!(rt;
            is_reduced(5, 2, &leads, &table),
            reduced,
            "reduced, {leads:?}, {table:?}"
        );
    }
    assert!(rt; is_reduced(5, 2, &[], &[]), "the empty list");
    assert!(rt; is_reduced(5, 2, &[0], &[1, 4]), "one row");
    assert!(rt; is_reduced(15, 4, &[1], &[0, 1, 11, 0]), "a row modulo 15");
    assert!(rt;
        !is_reduced(15, 4, &[1], &[0, 4, 14, 0]),
        "a lead that is not 1"
    );
}

#[test]
fn a_normal_form_is_zero_at_the_leads(rt: HostRuntime) {
    // Modulus, leads, rows of four columns, a row, its normal form, and whether it lies in the span.
    let cases: [(u64, &[usize], &[u64], [u64; 4], [u64; 4], bool); 5] = [
        (15, &[1], &[0, 1, 11, 0], [0, 1, 1, 7], [0, 0, 5, 7], false),
        (15, &[1], &[0, 1, 11, 0], [0, 4, 14, 0], [0, 0, 0, 0], true),
        (
            7,
            &[0, 1],
            &[1, 0, 2, 0, 0, 1, 3, 0],
            [5, 6, 1, 2],
            [0, 0, 1, 2],
            false,
        ),
        (
            5,
            &[1, 0],
            &[0, 1, 4, 0, 1, 0, 2, 1],
            [3, 2, 0, 3],
            [0, 0, 1, 0],
            false,
        ),
        (
            5,
            &[0, 1],
            &[1, 1, 0, 0, 0, 1, 0, 0],
            [1, 0, 0, 0],
            [0, 0, 0, 0],
            true,
        ),
    ];
    for (m, leads, table, row, want, lies) in cases {
        let is_list = 0 < m && is_forward(m, 4, leads, table);
        assert!(rt; is_list, "{table:?}");
        let mut rest = row;
        normal_form(m, 4, leads, table, &mut rest);
        assert!(rt; same_row(m, &rest, &want), "{row:?} leaves {rest:?}");
        let mut again = row;
        assert_eq!(rt; is_in_span(m, 4, leads, table, &mut again), lies, "{row:?}");
    }
}
