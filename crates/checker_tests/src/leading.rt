//! Tables that are checked in their files, and a product that leads in one of higher weight, against another program.
ghost use Rattle.std.specs.Prelude.{◌≡◌, [], IsTrue, IfOk};
ghost use Rattle.column_order.specs.declared.ranks.Mode.TheVariants.{Lex};
ghost use Rattle.table_checker.specs.CheckedTables.{AreCompleteRows};

use column_order::{Mode, Preference};
use lyndon_words::{Monomial, factors};
use outside_io::MemDisk;
use page_codec::Params;
use page_file::look;
use residues::{Ring, WordMod};
use std::alloc::Global;
use std::test::Fail;
use table_build::build;
use table_checker::{CheckFault, Checked, check_table, product_lead};
use word_letters::Word;

// The file of the parameters 3 2 101 lex.
const LOW: [u8; 131] = [
    1, 1, 20, 0, 0, 0, 77, 90, 86, 68, 65, 84, 65, 2, 3, 2, 0, 101, 0, 0, 0, 0, 0, 0, 0, 0, 1, 2,
    45, 0, 0, 0, 0, 0, 0, 0, 1, 0, 0, 0, 0, 2, 0, 0, 0, 1, 0, 0, 0, 0, 0, 0, 0, 1, 0, 100, 0, 0, 0,
    0, 0, 0, 0, 1, 0, 0, 0, 0, 0, 100, 0, 0, 0, 0, 0, 0, 0, 1, 3, 39, 0, 0, 0, 0, 0, 1, 2, 0, 0, 0,
    1, 0, 0, 0, 0, 0, 0, 0, 1, 0, 100, 0, 0, 0, 0, 0, 0, 0, 1, 0, 0, 0, 0, 0, 100, 0, 0, 0, 0, 0,
    0, 0, 1, 4, 2, 0, 0, 0, 1, 0, 0,
];

// The file of the parameters 5 4 101 lex.
const HIGH: [u8; 983] = [
    1, 1, 20, 0, 0, 0, 77, 90, 86, 68, 65, 84, 65, 2, 5, 4, 0, 101, 0, 0, 0, 0, 0, 0, 0, 0, 1, 2,
    217, 1, 0, 0, 0, 0, 0, 0, 6, 0, 0, 0, 0, 3, 0, 3, 0, 1, 0, 0, 0, 0, 0, 0, 0, 4, 0, 3, 0, 0, 0,
    0, 0, 0, 0, 5, 0, 50, 0, 0, 0, 0, 0, 0, 0, 1, 0, 0, 0, 0, 0, 51, 0, 0, 0, 0, 0, 0, 0, 1, 0, 0,
    0, 5, 0, 1, 0, 1, 0, 0, 0, 0, 0, 0, 0, 2, 0, 6, 0, 0, 0, 0, 0, 0, 0, 4, 0, 97, 0, 0, 0, 0, 0,
    0, 0, 5, 0, 52, 0, 0, 0, 0, 0, 0, 0, 7, 0, 100, 0, 0, 0, 0, 0, 0, 0, 2, 0, 0, 0, 0, 0, 49, 0,
    0, 0, 0, 0, 0, 0, 1, 0, 0, 0, 1, 0, 0, 0, 0, 0, 0, 0, 2, 0, 0, 0, 3, 0, 4, 0, 1, 0, 0, 0, 0, 0,
    0, 0, 5, 0, 99, 0, 0, 0, 0, 0, 0, 0, 7, 0, 1, 0, 0, 0, 0, 0, 0, 0, 2, 0, 0, 0, 0, 0, 1, 0, 0,
    0, 0, 0, 0, 0, 2, 0, 0, 0, 100, 0, 0, 0, 0, 0, 0, 0, 3, 0, 0, 0, 3, 0, 2, 0, 1, 0, 0, 0, 0, 0,
    0, 0, 5, 0, 99, 0, 0, 0, 0, 0, 0, 0, 7, 0, 1, 0, 0, 0, 0, 0, 0, 0, 4, 0, 0, 0, 0, 0, 21, 0, 0,
    0, 0, 0, 0, 0, 1, 0, 0, 0, 81, 0, 0, 0, 0, 0, 0, 0, 2, 0, 0, 0, 19, 0, 0, 0, 0, 0, 0, 0, 3, 0,
    0, 0, 81, 0, 0, 0, 0, 0, 0, 0, 4, 0, 0, 0, 2, 0, 6, 0, 1, 0, 0, 0, 0, 0, 0, 0, 7, 0, 100, 0, 0,
    0, 0, 0, 0, 0, 5, 0, 0, 0, 0, 0, 80, 0, 0, 0, 0, 0, 0, 0, 1, 0, 0, 0, 21, 0, 0, 0, 0, 0, 0, 0,
    2, 0, 0, 0, 80, 0, 0, 0, 0, 0, 0, 0, 3, 0, 0, 0, 19, 0, 0, 0, 0, 0, 0, 0, 4, 0, 0, 0, 100, 0,
    0, 0, 0, 0, 0, 0, 5, 0, 0, 0, 2, 0, 0, 0, 1, 0, 0, 0, 0, 0, 0, 0, 5, 0, 100, 0, 0, 0, 0, 0, 0,
    0, 6, 0, 0, 0, 0, 0, 20, 0, 0, 0, 0, 0, 0, 0, 1, 0, 0, 0, 81, 0, 0, 0, 0, 0, 0, 0, 2, 0, 0, 0,
    19, 0, 0, 0, 0, 0, 0, 0, 3, 0, 0, 0, 81, 0, 0, 0, 0, 0, 0, 0, 4, 0, 0, 0, 100, 0, 0, 0, 0, 0,
    0, 0, 5, 0, 0, 0, 100, 0, 0, 0, 0, 0, 0, 0, 1, 3, 207, 1, 0, 0, 0, 0, 6, 2, 0, 0, 0, 1, 0, 0,
    0, 0, 0, 0, 0, 5, 0, 100, 0, 0, 0, 0, 0, 0, 0, 6, 0, 0, 0, 0, 0, 20, 0, 0, 0, 0, 0, 0, 0, 1, 0,
    0, 0, 81, 0, 0, 0, 0, 0, 0, 0, 2, 0, 0, 0, 19, 0, 0, 0, 0, 0, 0, 0, 3, 0, 0, 0, 81, 0, 0, 0, 0,
    0, 0, 0, 4, 0, 0, 0, 100, 0, 0, 0, 0, 0, 0, 0, 5, 0, 0, 0, 100, 0, 0, 0, 0, 0, 0, 0, 3, 0, 1,
    0, 1, 0, 0, 0, 0, 0, 0, 0, 5, 0, 56, 0, 0, 0, 0, 0, 0, 0, 7, 0, 98, 0, 0, 0, 0, 0, 0, 0, 4, 0,
    0, 0, 0, 0, 28, 0, 0, 0, 0, 0, 0, 0, 1, 0, 0, 0, 20, 0, 0, 0, 0, 0, 0, 0, 2, 0, 0, 0, 84, 0, 0,
    0, 0, 0, 0, 0, 3, 0, 0, 0, 19, 0, 0, 0, 0, 0, 0, 0, 3, 0, 2, 0, 1, 0, 0, 0, 0, 0, 0, 0, 5, 0,
    99, 0, 0, 0, 0, 0, 0, 0, 7, 0, 1, 0, 0, 0, 0, 0, 0, 0, 4, 0, 0, 0, 0, 0, 21, 0, 0, 0, 0, 0, 0,
    0, 1, 0, 0, 0, 81, 0, 0, 0, 0, 0, 0, 0, 2, 0, 0, 0, 19, 0, 0, 0, 0, 0, 0, 0, 3, 0, 0, 0, 81, 0,
    0, 0, 0, 0, 0, 0, 3, 0, 3, 0, 1, 0, 0, 0, 0, 0, 0, 0, 5, 0, 56, 0, 0, 0, 0, 0, 0, 0, 7, 0, 98,
    0, 0, 0, 0, 0, 0, 0, 2, 0, 0, 0, 0, 0, 48, 0, 0, 0, 0, 0, 0, 0, 2, 0, 0, 0, 3, 0, 0, 0, 0, 0,
    0, 0, 3, 0, 4, 0, 1, 0, 0, 0, 0, 0, 0, 0, 5, 0, 99, 0, 0, 0, 0, 0, 0, 0, 7, 0, 1, 0, 0, 0, 0,
    0, 0, 0, 2, 0, 0, 0, 0, 0, 1, 0, 0, 0, 0, 0, 0, 0, 2, 0, 0, 0, 100, 0, 0, 0, 0, 0, 0, 0, 2, 0,
    6, 0, 1, 0, 0, 0, 0, 0, 0, 0, 7, 0, 100, 0, 0, 0, 0, 0, 0, 0, 5, 0, 0, 0, 0, 0, 80, 0, 0, 0, 0,
    0, 0, 0, 1, 0, 0, 0, 21, 0, 0, 0, 0, 0, 0, 0, 2, 0, 0, 0, 80, 0, 0, 0, 0, 0, 0, 0, 3, 0, 0, 0,
    19, 0, 0, 0, 0, 0, 0, 0, 4, 0, 0, 0, 100, 0, 0, 0, 0, 0, 0, 0, 1, 4, 2, 0, 0, 0, 6, 0, 0,
];

// What is answered of the file of these pieces, modulo 101.
fn answered(alloc: Global, pieces: &[&[u8]]) -> Result<Result<Checked<WordMod>, CheckFault>, Fail>
    ensures modulus { IfOk result (λ answer. IfOk answer (λ checked. ⟦<WordMod as Ring>⟧.modulus checked.table.ring ≡ 101)) }
    ensures complete { IfOk result (λ answer. IfOk answer (λ checked.
        AreCompleteRows 101 (⟦<WordMod as Ring>⟧.value checked.table.ring) checked.table.columns checked.rows.rows)) }
{
    let mut bytes = Vec::new(alloc);
    for piece in pieces {
        bytes.extend_from_slice(piece)?;
    }
    let mut disk = MemDisk::new(alloc, bytes, Vec::new(alloc), None);
    answered_on(alloc, &mut disk)
}

// The same of the file on a disk.
fn answered_on(
    alloc: Global,
    disk: &mut MemDisk,
) -> Result<Result<Checked<WordMod>, CheckFault>, Fail>
    ensures modulus { IfOk result (λ answer. IfOk answer (λ checked. ⟦<WordMod as Ring>⟧.modulus checked.table.ring ≡ 101)) }
    ensures complete { IfOk result (λ answer. IfOk answer (λ checked.
        AreCompleteRows 101 (⟦<WordMod as Ring>⟧.value checked.table.ring) checked.table.columns checked.rows.rows)) }
{
    let ring = WordMod::new(101)?;
    let mut file = look(alloc, disk)?;
    let Some(params) = file.params() else {
        return Err(Fail::new("the file has no header"));
    };
    if params.modulus != 101 {
        return Err(Fail::new("the file has another modulus"));
    }
    Ok(check_table(alloc, ring, &mut file, disk))
}

// The table in a file.
fn checked(alloc: Global, bytes: &[u8]) -> Result<Checked<WordMod>, Fail>
    ensures modulus { IfOk result (λ checked. ⟦<WordMod as Ring>⟧.modulus checked.table.ring ≡ 101) }
    ensures complete { IfOk result (λ checked.
        AreCompleteRows 101 (⟦<WordMod as Ring>⟧.value checked.table.ring) checked.table.columns checked.rows.rows) }
{
    match answered(alloc, &[bytes])? {
        Ok(checked) => Ok(checked),
        Err(_) => Err(Fail::new("the table is refused")),
    }
}

// Builds the file of the parameters w, w - 1, 101 and lex.
fn build_on(alloc: Global, w: u64, disk: &mut MemDisk) -> Result<u32, Fail> {
    let Ok(params) = Params::test(w, w.saturating_sub(1), 101, "lex", None) else {
        return Err(Fail::new("a test of parameters fails"));
    };
    let ring = WordMod::new(101)?;
    if params.modulus != 101 {
        return Err(Fail::new("the parameters have another modulus"));
    }
    match build(alloc, ring, &params, disk) {
        Ok(built) => Ok(built.rows),
        Err(_) => Err(Fail::new("nothing was built")),
    }
}

// The table that is built of the parameters w, w - 1, 101 and lex.
fn built(alloc: Global, w: u64) -> Result<Checked<WordMod>, Fail>
    ensures modulus { IfOk result (λ checked. ⟦<WordMod as Ring>⟧.modulus checked.table.ring ≡ 101) }
    ensures complete { IfOk result (λ checked.
        AreCompleteRows 101 (⟦<WordMod as Ring>⟧.value checked.table.ring) checked.table.columns checked.rows.rows) }
{
    let mut disk = MemDisk::new(alloc, Vec::new(alloc), Vec::new(alloc), None);
    build_on(alloc, w, &mut disk)?;
    match answered_on(alloc, &mut disk)? {
        Ok(checked) => Ok(checked),
        Err(_) => Err(Fail::new("the table is refused")),
    }
}

// Whether columns are in the order Lex, with no preferred words.
fn is_plain(preference: &Preference) -> bool
    ensures mode { IsTrue result → preference.now.mode ≡ Lex }
    ensures words { IsTrue result → preference.now.words ≡ [] }
{
    match preference.mode {
        Mode::Lex => preference.words.len() == 0,
        Mode::Odd => false,
    }
}

// Where the product of the lead of row i with q leads, where q fits.
fn place(low: &Checked<WordMod>, high: &Checked<WordMod>, i: u32, q: &Monomial) -> Option<u32>
    requires low_modulus { ⟦<WordMod as Ring>⟧.modulus low.now.table.ring ≡ 101 }
    requires high_modulus { ⟦<WordMod as Ring>⟧.modulus high.now.table.ring ≡ 101 }
    requires low { AreCompleteRows 101 (⟦<WordMod as Ring>⟧.value low.now.table.ring) low.now.table.columns low.now.rows.rows }
    requires high { AreCompleteRows 101 (⟦<WordMod as Ring>⟧.value high.now.table.ring) high.now.table.columns high.now.rows.rows }
{
    let lower = low.table.columns();
    let higher = high.table.columns();
    if !is_plain(lower.preference()) {
        return None;
    }
    if !is_plain(higher.preference()) {
        return None;
    }
    if lower.weight() < 3 || lower.weight() + 2 > higher.weight() {
        return None;
    }
    let _monomial = q.len();
    let word = q.word();
    if lower.weight() + word.weight() != higher.weight() {
        return None;
    }
    if lower.depth() + word.depth() > higher.depth() || i >= low.rows.len() {
        return None;
    }
    Some(product_lead(low, high, i, q))
}

// The monomial of one zeta value, whose word is a Lyndon word.
fn value_of(alloc: Global, index: &[u32]) -> Result<Monomial, Fail> {
    match Word::from_index(index) {
        Ok(word) if word.is_admissible() => Ok(factors(alloc, word)),
        _ => Err(Fail::new("there is no such value")),
    }
}

#[test]
fn a_product_of_leads_leads(rt: HostRuntime) -> Result<(), Fail> {
    let low = checked(rt.alloc(), &LOW)?;
    let high = checked(rt.alloc(), &HIGH)?;
    let q = value_of(rt.alloc(), &[2])?;
    assert_eq!(rt; low.relations, 2);
    assert_eq!(rt; high.relations, 15);
    assert_eq!(rt; high.rows.len(), 6);
    assert_eq!(rt; place(&low, &high, 0, &q), Some(5));
    Ok(())
}

// Whether the products of the leads of three rows in turn with q lead at these rows.
fn three_lead(
    low: &Checked<WordMod>,
    high: &Checked<WordMod>,
    q: &Monomial,
    first: u32,
    places: [u32; 3],
) -> bool
    requires low_modulus { ⟦<WordMod as Ring>⟧.modulus low.now.table.ring ≡ 101 }
    requires high_modulus { ⟦<WordMod as Ring>⟧.modulus high.now.table.ring ≡ 101 }
    requires low { AreCompleteRows 101 (⟦<WordMod as Ring>⟧.value low.now.table.ring) low.now.table.columns low.now.rows.rows }
    requires high { AreCompleteRows 101 (⟦<WordMod as Ring>⟧.value high.now.table.ring) high.now.table.columns high.now.rows.rows }
{
    place(low, high, first, q) == Some(places[0])
        && place(low, high, first.wrapping_add(1), q) == Some(places[1])
        && place(low, high, first.wrapping_add(2), q) == Some(places[2])
}

// The same of three rows of the table of weight w, in that of weight 7.
fn lead_in_seven(
    alloc: Global,
    w: u64,
    index: &[u32],
    first: u32,
    places: [u32; 3],
) -> Result<bool, Fail> {
    let low = built(alloc, w)?;
    let high = built(alloc, 7)?;
    let q = value_of(alloc, index)?;
    Ok(three_lead(&low, &high, &q, first, places))
}

#[test]
fn products_of_leads_lead(rt: HostRuntime) -> Result<(), Fail> {
    let alloc = rt.alloc();
    assert!(rt; lead_in_seven(alloc, 4, &[3], 0, [19, 26, 27])?);
    assert!(rt; lead_in_seven(alloc, 4, &[2, 1], 0, [18, 20, 23])?);
    assert!(rt; lead_in_seven(alloc, 5, &[2], 0, [17, 21, 22])?);
    assert!(rt; lead_in_seven(alloc, 5, &[2], 3, [24, 25, 28])?);
    Ok(())
}

#[test]
fn files_that_are_not_whole_are_refused(rt: HostRuntime) -> Result<(), Fail> {
    let closed: &[u8] = &[0];
    let unfinished = answered(rt.alloc(), &[&LOW[..26], closed])?;
    assert!(rt; matches!(&unfinished, Err(CheckFault::NotDone(1))));
    let turned = answered(
        rt.alloc(),
        &[&LOW[..26], &LOW[77..122], &LOW[26..77], &LOW[122..]],
    )?;
    assert!(rt; matches!(&turned, Err(CheckFault::Misfit(1))));
    Ok(())
}
