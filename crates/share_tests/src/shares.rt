//! Shares that are made, spelled, read and checked.
ghost use Rattle.std.specs.Prelude.{◌≡◌, IfOk};
ghost use Rattle.page_codec.specs.Bounds.{IsParams};
ghost use Rattle.relation_list.specs.Listings.{listing_of};
ghost use Rattle.file_model.specs.TableOf.{IsTableOf};
ghost use Rattle.share_model.specs.Shares.{IsShare};

use lyndon_polys::LyndonTable;
use page_codec::Params;
use relation_list::listing;
use residues::{Ring, WordMod};
use share_build::build_share;
use share_check::check_share;
use share_file::{decode_share, encode_share};
use share_model::{Share, ShareFault, ShareId};
use std::alloc::Global;
use std::test::Fail;
use table_columns::columns_of;

// Share 1 of 2 of the parameters 3 2 5 lex.
pub(crate) const SECOND: [u8; 92] = [
    77, 90, 86, 83, 72, 65, 82, 69, 1, 0, 0, 0, 2, 0, 0, 0, 1, 20, 0, 0, 0, 77, 90, 86, 68, 65, 84,
    65, 2, 3, 2, 0, 5, 0, 0, 0, 0, 0, 0, 0, 0, 3, 39, 0, 0, 0, 0, 0, 1, 2, 0, 0, 0, 1, 0, 0, 0, 0,
    0, 0, 0, 1, 0, 4, 0, 0, 0, 0, 0, 0, 0, 1, 0, 1, 0, 0, 0, 4, 0, 0, 0, 0, 0, 0, 0, 4, 2, 0, 0, 0,
    1, 0,
];

// Share 2 of 3 of them.
pub(crate) const EMPTY: [u8; 48] = [
    77, 90, 86, 83, 72, 65, 82, 69, 2, 0, 0, 0, 3, 0, 0, 0, 1, 20, 0, 0, 0, 77, 90, 86, 68, 65, 84,
    65, 2, 3, 2, 0, 5, 0, 0, 0, 0, 0, 0, 0, 0, 4, 2, 0, 0, 0, 0, 0,
];

/// The parameters w, w - 1, m and lex.
pub(crate) fn params_of(w: u64, m: u64) -> Result<Params, Fail>
    ensures params { IfOk result IsParams }
    ensures modulus { IfOk result (λ p. p.modulus ≡ m) }
{
    let Ok(params) = Params::test(w, w.saturating_sub(1), m, "lex", None) else {
        return Err(Fail::new("a test of parameters fails"));
    };
    if params.modulus != m {
        return Err(Fail::new("the parameters have another modulus"));
    }
    Ok(params)
}

/// Share `index` of `of` of the parameters.
pub(crate) fn share_of(alloc: Global, params: &Params, index: u32, of: u32) -> Result<Share, Fail>
    requires { IsParams params.now }
    ensures share { IfOk result IsShare }
    ensures params { IfOk result (λ s. s.params ≡ params.now) }
    ensures of { IfOk result (λ s. s.id.of ≡ of) }
{
    let ring = WordMod::new(params.modulus)?;
    if of < 1 || of > 256 || index >= of {
        return Err(Fail::new("there is no such share"));
    }
    match build_share(alloc, ring, params, ShareId { index, of }) {
        Ok(share) => Ok(share),
        Err(_) => Err(Fail::new("no share is made")),
    }
}

/// The table of the parameters.
pub(crate) fn table_of(alloc: Global, params: &Params) -> Result<LyndonTable<WordMod>, Fail>
    requires { IsParams params.now }
    ensures columns { IfOk result (λ table. IsTableOf params.now table.columns) }
    ensures modulus { IfOk result (λ table. ⟦<WordMod as Ring>⟧.modulus table.ring ≡ params.now.modulus) }
{
    let ring = WordMod::new(params.modulus)?;
    let columns = columns_of(alloc, params)?;
    Ok(LyndonTable::new(alloc, ring, columns)?)
}

/// What is found of a share, as text.
fn found(alloc: Global, share: &Share) -> Result<String, Fail>
    requires { IsShare share.now }
{
    let table = table_of(alloc, &share.params)?;
    let columns = table.columns();
    let names = listing(alloc, columns.weight(), columns.depth())?;
    match check_share(alloc, &table, &names, share) {
        Ok(checked) => Ok(format!(in alloc; "rows {}", checked.rows().len())?),
        Err(ShareFault::BadRow(i)) => Ok(format!(in alloc; "bad row {i}")?),
        Err(ShareFault::NotReduced(i)) => Ok(format!(in alloc; "not reduced {i}")?),
        Err(ShareFault::Missing { n, .. }) => Ok(format!(in alloc; "missing {n}")?),
        Err(_) => Err(Fail::new("the share is not looked at")),
    }
}

/// What is found of some bytes with another one at a place, as text.
fn found_of(alloc: Global, bytes: &[u8], place: usize, byte: u8) -> Result<String, Fail> {
    let mut changed = bytes.to_vec(alloc)?;
    if let Some(old) = changed.get_mut(place) {
        *old = byte;
    }
    match decode_share(alloc, &changed)? {
        Some(share) => found(alloc, &share),
        None => Ok(String::from_str(alloc, "unreadable")?),
    }
}

#[test]
fn a_share_has_its_bytes_and_is_read_from_them(rt: HostRuntime) -> Result<(), Fail> {
    let share = share_of(rt.alloc(), &params_of(3, 5)?, 1, 2)?;
    let mut bytes = Vec::new(rt.alloc());
    encode_share(rt.alloc(), &share, &mut bytes)?;
    assert_eq!(rt; bytes.as_slice(), SECOND.as_slice());
    let Some(read) = decode_share(rt.alloc(), &bytes)? else {
        return Err(Fail::new("the share is not read"));
    };
    assert_eq!(rt; read.id, ShareId { index: 1, of: 2 });
    let entries = read.rows.as_slice();
    assert_eq!(rt; entries.len(), 1);
    if let Some(entry) = entries.get(0) {
        assert_eq!(rt; entry.row.as_slice(), [(0, 1), (1, 4)].as_slice());
        assert_eq!(rt; entry.combination.as_slice(), [(1, 4)].as_slice());
    }
    Ok(())
}

#[test]
fn a_share_may_have_no_rows(rt: HostRuntime) -> Result<(), Fail> {
    let share = share_of(rt.alloc(), &params_of(3, 5)?, 2, 3)?;
    let mut bytes = Vec::new(rt.alloc());
    encode_share(rt.alloc(), &share, &mut bytes)?;
    assert_eq!(rt; bytes.as_slice(), EMPTY.as_slice());
    Ok(())
}

#[test]
fn the_first_test_that_a_share_fails_is_told(rt: HostRuntime) -> Result<(), Fail> {
    // A place, the byte that stands there then, and what is found.
    let table: [(&[u8], usize, u8, &str); 11] = [
        (&SECOND, 8, 1, "rows 1"),
        // share 0 of 2, share 2 of 2, share 1 of 3
        (&SECOND, 8, 0, "bad row 0"),
        (&SECOND, 8, 2, "unreadable"),
        (&SECOND, 12, 3, "rows 1"),
        // another residue in the row, another relation, another residue in the combination
        (&SECOND, 63, 3, "bad row 0"),
        (&SECOND, 73, 0, "bad row 0"),
        (&SECOND, 77, 3, "bad row 0"),
        // two rows, where one stands
        (&SECOND, 90, 2, "unreadable"),
        // share 2 of 3, and without their rows share 0 and share 1
        (&EMPTY, 8, 2, "rows 0"),
        (&EMPTY, 8, 0, "missing 0"),
        (&EMPTY, 8, 1, "missing 1"),
    ];
    for (bytes, place, byte, wanted) in table {
        let text = found_of(rt.alloc(), bytes, place, byte)?;
        assert_eq!(rt; text.as_str(), wanted, "byte {place} is {byte}");
    }
    Ok(())
}
