//! Replies to lines, over two tables with the one reduced row of each: worked rows of another program.
ghost use Rattle.std.specs.Prelude.{◌≡◌, ◌≤◌, length, IfOk};
ghost use Rattle.table_rewrite.specs.Replies.{AreOver};

use crate::elimination::row_of;
use crate::printed::columns_of;
use echelon::ReducedRows;
use lyndon_polys::LyndonTable;
use poly_lines::texts_are_lines;
use residues::{Ring, WordMod};
use std::alloc::Global;
use std::test::Fail;
use table_rewrite::{Reply, reply_text, rewrite_line};

/// The list of the one row with these numbers at the columns from 0 on.
fn rows_of(alloc: Global, ring: &WordMod, numbers: &[u64]) -> Result<ReducedRows<WordMod>, Fail>
    requires { length numbers.now ≤ 64 }
    ensures ring { IfOk result (λ rows. rows.ring ≡ ring.now) }
    ensures over { IfOk result (λ rows. AreOver (length numbers.now) rows.rows) }
{
    let row = row_of(alloc, ring, numbers)?;
    let mut rows = Vec::new(alloc);
    rows.push(row)?;
    Ok(ReducedRows::new(ring, rows)?)
}

/// The text of the reply to a line.
fn replied(
    alloc: Global,
    table: &LyndonTable<WordMod>,
    rows: &ReducedRows<WordMod>,
    line: &str,
) -> Result<String, Fail>
    requires ring { ⟦<WordMod as Ring>⟧.modulus rows.now.ring ≡ ⟦<WordMod as Ring>⟧.modulus table.now.ring }
    requires over { AreOver (length table.now.columns.list) rows.now.rows }
{
    let reply = rewrite_line(alloc, table, rows, line.as_bytes())?;
    if let Reply::Poly(text) = &reply {
        texts_are_lines();
        let _bytes = text.bytes();
    }
    Ok(reply_text(alloc, &reply)?)
}

#[test]
fn lines_get_their_polynomials(rt: HostRuntime) -> Result<(), Fail> {
    let ring = WordMod::new(5)?;
    let table = LyndonTable::new(rt.alloc(), ring, columns_of(rt.alloc(), 3, 2)?)?;
    // z(2,1) is z(3)
    let rows = rows_of(rt.alloc(), &ring, &[1, 4])?;
    assert_eq!(rt; table.columns().len(), 2);
    for (line, wanted) in [
        ("z(2,1)", "1*z(3)"),
        ("z(3)", "1*z(3)"),
        ("z(1,2)", "3*z(3)"),
        ("z(1,2)+2*z(2,1)", "0"),
        ("z(1)*z(2)", "0"),
        ("1/2*z(2,1)", "3*z(3)"),
        ("z(1,1,1)", "depth 3"),
        ("z(1)", "weight 1"),
        ("z(12)*z(12)", "weight 24"),
        ("1/5*z(3)", "no inverse 5"),
        ("2z(3)", "syntax 1"),
    ] {
        let reply = replied(rt.alloc(), &table, &rows, line)?;
        assert_eq!(rt; reply.as_str(), wanted, "{line}");
    }
    Ok(())
}
