//! Shares that are merged, in several orders.
ghost use Rattle.std.specs.Prelude.{◌≡◌, IfOk};
ghost use Rattle.page_codec.specs.Bounds.{IsParams};
ghost use Rattle.file_model.specs.TableOf.{IsTableOf};
ghost use Rattle.share_model.specs.Shares.{IsShare};
ghost use Rattle.share_merge.specs.Turns.{IsShareOf, AreSharesOf};

use crate::shares::{params_of, share_of, table_of};
use lyndon_polys::LyndonTable;
use page_codec::Params;
use relation_list::listing;
use residues::{Ring, WordMod};
use share_check::check_share;
use share_merge::{MergeFault, Merged, merge};
use share_model::{CheckedShare, Share};
use std::alloc::Global;
use std::test::Fail;
use table_rows::reduced_rows;

/// A share of the table, one of so many, checked.
fn checked(
    alloc: Global,
    table: &LyndonTable<WordMod>,
    share: &Share,
    of: u32,
) -> Result<CheckedShare<WordMod>, Fail>
    requires table { IsTableOf share.now.params table.now.columns }
    requires modulus { ⟦<WordMod as Ring>⟧.modulus table.now.ring ≡ share.now.params.modulus }
    requires share { IsShare share.now }
    requires of { share.now.id.of ≡ of }
    ensures { IfOk result (IsShareOf table.now of) }
{
    let columns = table.columns();
    let names = listing(alloc, columns.weight(), columns.depth())?;
    match check_share(alloc, table, &names, share) {
        Ok(checked) => Ok(checked),
        Err(_) => Err(Fail::new("the share is refused")),
    }
}

/// The shares with these indices, of so many, checked.
fn shares(
    alloc: Global,
    table: &LyndonTable<WordMod>,
    params: &Params,
    order: &[u32],
    of: u32,
) -> Result<Vec<CheckedShare<WordMod>>, Fail>
    requires params { IsParams params.now }
    requires table { IsTableOf params.now table.now.columns }
    requires modulus { ⟦<WordMod as Ring>⟧.modulus table.now.ring ≡ params.now.modulus }
    ensures { IfOk result (λ shares. AreSharesOf table.now of shares.items) }
{
    let mut shares = Vec::new(alloc);
    for index in order {
        let share = share_of(alloc, params, *index, of)?;
        shares.push(checked(alloc, table, &share, of)?)?;
    }
    Ok(shares)
}

/// What the shares with these indices, of so many, give together.
fn merged(
    alloc: Global,
    table: &LyndonTable<WordMod>,
    params: &Params,
    order: &[u32],
    of: u32,
) -> Result<Result<Merged<WordMod>, MergeFault>, Fail>
    requires params { IsParams params.now }
    requires table { IsTableOf params.now table.now.columns }
    requires modulus { ⟦<WordMod as Ring>⟧.modulus table.now.ring ≡ params.now.modulus }
{
    let shares = shares(alloc, table, params, order, of)?;
    if shares.len() == 0 || shares[0].id().of != of {
        return Err(Fail::new("there is no share"));
    }
    Ok(merge(alloc, table, &shares))
}

/// The same of the parameters w, w - 1, m and lex, as text.
fn merged_text(alloc: Global, w: u64, m: u64, order: &[u32], of: u32) -> Result<String, Fail> {
    let params = params_of(w, m)?;
    let table = table_of(alloc, &params)?;
    match merged(alloc, &table, &params, order, of)? {
        Ok(merged) => Ok(format!(in alloc; "rows {}", merged.rows.len())?),
        Err(MergeFault::MissingShare(i)) => Ok(format!(in alloc; "missing {i}")?),
        Err(MergeFault::NoInverse { value, share, row }) => Ok(format!(in alloc;
            "no inverse {value} at share {share} row {row}"
        )?),
        Err(MergeFault::Memory(fault)) => Err(Fail::from(fault)),
    }
}

/// The first row and its combination that the shares of the table 3 2 5 lex give together, in this order.
fn first_row(
    alloc: Global,
    order: &[u32],
    of: u32,
) -> Result<(Vec<(u16, u64)>, Vec<(u32, u64)>), Fail> {
    let params = params_of(3, 5)?;
    let table = table_of(alloc, &params)?;
    let Ok(merged) = merged(alloc, &table, &params, order, of)? else {
        return Err(Fail::new("the shares are refused"));
    };
    if merged.rows.len() == 0 || merged.combinations.len() == 0 {
        return Err(Fail::new("there is no row"));
    }
    let row = merged.rows.row(0).entries().to_vec(alloc)?;
    let combination = merged.combinations[0].entries().to_vec(alloc)?;
    Ok((row, combination))
}

/// How many rows the shares of the table w, w - 1, m and lex give together in this order, where they are the rows of one run.
fn same_rows(alloc: Global, w: u64, m: u64, order: &[u32], of: u32) -> Result<u32, Fail> {
    let params = params_of(w, m)?;
    let table = table_of(alloc, &params)?;
    let whole = reduced_rows(alloc, &table)?;
    let Ok(merged) = merged(alloc, &table, &params, order, of)? else {
        return Err(Fail::new("the shares are refused"));
    };
    if merged.rows.len() != whole.rows.len() {
        return Err(Fail::new("there are more rows, or fewer"));
    }
    for i in 0..whole.rows.len() {
        if merged.rows.row(i).entries() != whole.rows.row(i).entries() {
            return Err(Fail::new("a row is another one"));
        }
    }
    Ok(whole.rows.len())
}

#[test]
fn the_order_of_shares_chooses_combinations_and_no_rows(rt: HostRuntime) -> Result<(), Fail> {
    let table: [(&[u32], u32, u32); 5] = [
        (&[0, 1], 2, 0),
        (&[1, 0], 2, 1),
        (&[0, 1, 0], 2, 0),
        (&[0, 1, 2], 3, 0),
        (&[2, 1, 0], 3, 1),
    ];
    for (order, of, number) in table {
        let (row, combination) = first_row(rt.alloc(), order, of)?;
        assert_eq!(rt; row.as_slice(), [(0, 1), (1, 4)].as_slice());
        assert_eq!(rt; combination.as_slice(), [(number, 4)].as_slice());
    }
    Ok(())
}

#[test]
fn shares_in_any_order_give_the_rows_of_one_run(rt: HostRuntime) -> Result<(), Fail> {
    let orders: [&[u32]; 3] = [&[0, 1, 2, 3], &[3, 1, 0, 2], &[2, 2, 3, 0, 1, 1]];
    for order in orders {
        assert_eq!(rt; same_rows(rt.alloc(), 7, 101, order, 4)?, 29);
    }
    Ok(())
}

#[test]
fn refusals_of_shares_are_told(rt: HostRuntime) -> Result<(), Fail> {
    let table: [(u64, u64, &[u32], u32, &str); 11] = [
        (3, 5, &[0, 1], 2, "rows 1"),
        (3, 5, &[0, 0], 2, "missing 1"),
        (3, 5, &[0, 2], 3, "missing 1"),
        (3, 5, &[1], 2, "missing 0"),
        (4, 15, &[1, 2], 3, "missing 0"),
        (4, 15, &[0, 1, 2], 3, "no inverse 10 at share 1 row 0"),
        (4, 15, &[0, 1, 1, 0, 2], 3, "no inverse 10 at share 1 row 0"),
        (4, 15, &[2, 1, 0], 3, "no inverse 5 at share 0 row 0"),
        (4, 15, &[1, 0, 2], 3, "no inverse 5 at share 0 row 0"),
        // a composite modulus may go through in one order and not in another
        (5, 25, &[0, 2, 1], 3, "no inverse 10 at share 2 row 0"),
        (5, 25, &[0, 1, 2], 3, "rows 6"),
    ];
    for (w, m, order, of, wanted) in table {
        let text = merged_text(rt.alloc(), w, m, order, of)?;
        assert_eq!(rt; text.as_str(), wanted, "weight {w}");
    }
    Ok(())
}
