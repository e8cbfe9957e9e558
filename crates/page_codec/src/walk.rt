//! Which page may come next.
ghost use Rattle.std.specs.Prelude.{◌≡◌, ◌≤◌, ◌<◌, ◌+◌, ◌/◌, ◌*◌, ◌-◌, ◌++◌, [], ◌∷◌, ◌↔◌, ◌⊎◌, ℕ, List, length, true, false, IsTrue};
ghost use Rattle.std.specs.List.{AllByRecursion};
ghost use Rattle.column_order.specs.Columns.{column_count};
ghost use Rattle.page_codec.specs.Bounds.{IsParams};
ghost use Rattle.page_codec.specs.Places.{AreBelow, ForwardInTable, FinalInTable, FitsPlace, block_count, walk_of, last_is};
ghost use Rattle.page_codec.specs.Inner.{Continues, RowsBegin, IsRows, ForwardAt, FinalAt, DoneAt, FitsAt, rows_on, walk_behind};
ghost use Rattle.page_codec.specs.declared.params.Params.{Params};
ghost use Rattle.page_codec.specs.declared.page.Page.{Page};

use crate::page::Page;
use crate::params::{Params, are_same};
use crate::parts::{FinalEntry, FinalPage, ForwardEntry, ForwardPage};
use column_order::count;
use std::marker::Model;

/// What the last page was: `RowsPage` a Final page with its first place and its rows.
#[derive(Clone, Copy, PartialEq, Eq)]
pub(crate) enum Last {
    FrontPage,
    RowsPage { first: u16, rows: usize },
    DonePage,
}

/// Goes along the pages of a file.
#[derive(Drop)]
pub struct Walk {
    params: Params,
    relations: u32,
    place: u64,
    rows: u64,
    last: Last,
}

impl Model for Walk {
    ghost use Rattle.std.specs.Prelude.{◌≤◌, ◌+◌};
    ghost use Rattle.column_order.specs.Columns.{column_count};
    ghost use Rattle.page_codec.specs.Bounds.{IsParams};
    ghost use Rattle.page_codec.specs.Places.{WalkAt, block_count};

    ghost Value = { WalkAt };

    ghost view = { λ w. record { params = w.params; relations = w.relations; place = w.place; rows = w.rows; last = w.last } };

    ghost invariant = { λ w. IsParams w.params × (w.place ≤ block_count w.relations + 2) × (w.rows ≤ column_count w.params.weight w.params.depth) };
}

fn are_columns_below(high: u64, m: u64, pairs: &[(u16, u64)]) -> bool
    ensures { IsTrue result ↔ AreBelow high m pairs.now }
{
    pairs.iter().all(|e| (e.0 as u64) < high && e.1 < m)
}

fn are_numbers_below(high: u64, m: u64, pairs: &[(u32, u64)]) -> bool
    ensures { IsTrue result ↔ AreBelow high m pairs.now }
{
    pairs.iter().all(|e| (e.0 as u64) < high && e.1 < m)
}

fn forward_in_table(p: &Params, relations: u32, columns: u64, e: &ForwardEntry) -> bool
    requires { columns ≡ column_count p.now.weight p.now.depth }
    ensures { IsTrue result ↔ ForwardInTable p.now relations e.now }
{
    e.number < relations
        && are_columns_below(columns, p.modulus, e.row.as_slice())
        && are_numbers_below(e.number as u64 + 1, p.modulus, e.combination.as_slice())
}

fn final_in_table(p: &Params, relations: u32, columns: u64, e: &FinalEntry) -> bool
    requires { columns ≡ column_count p.now.weight p.now.depth }
    ensures { IsTrue result ↔ FinalInTable p.now relations e.now }
{
    are_columns_below(columns, p.modulus, e.row.as_slice())
        && are_numbers_below(relations as u64, p.modulus, e.combination.as_slice())
}

fn all_forward_in_table(p: &Params, relations: u32, columns: u64, entries: &[ForwardEntry]) -> bool
    requires { columns ≡ column_count p.now.weight p.now.depth }
    ensures { IsTrue result ↔ AllByRecursion (ForwardInTable p.now relations) entries.now }
{
    for entry in entries {
        if !forward_in_table(p, relations, columns, entry) {
            return false;
        }
    }
    true
}

fn all_final_in_table(p: &Params, relations: u32, columns: u64, entries: &[FinalEntry]) -> bool
    requires { columns ≡ column_count p.now.weight p.now.depth }
    ensures { IsTrue result ↔ AllByRecursion (FinalInTable p.now relations) entries.now }
{
    for entry in entries {
        if !final_in_table(p, relations, columns, entry) {
            return false;
        }
    }
    true
}

fn continues(last: Last, first: u16) -> bool
    ensures { IsTrue result ↔ Continues last first }
{
    match last {
        Last::RowsPage {
            first: before,
            rows,
        } => rows == 64 && first as u32 == before as u32 + 64,
        Last::FrontPage => false,
        Last::DonePage => false,
    }
}

fn is_rows(last: Last) -> bool
    ensures { IsTrue result ↔ IsRows last }
{
    match last {
        Last::RowsPage { .. } => true,
        Last::FrontPage => false,
        Last::DonePage => false,
    }
}

fn block_count(relations: u32) -> u64
    ensures { result ≡ block_count relations }
{
    (relations as u64 + 63) / 64
}

fn last_is(page: &Page) -> Last
    ensures { result ≡ last_is page.now }
{
    match page {
        Page::Header(_) => Last::FrontPage,
        Page::Forward(_) => Last::FrontPage,
        Page::Final(rows) => Last::RowsPage {
            first: rows.first,
            rows: rows.entries.as_slice().len(),
        },
        Page::Done { .. } => Last::DonePage,
    }
}

fn rows_on(page: &Page) -> u64
    ensures { result ≡ rows_on page.now }
{
    match page {
        Page::Header(_) => 0,
        Page::Forward(_) => 0,
        Page::Final(rows) => rows.entries.as_slice().len() as u64,
        Page::Done { .. } => 0,
    }
}

impl Walk {
    /// Before the first page of a file of these parameters, whose listing has so many relations.
    pub fn new(params: Params, relations: u32) -> Walk
        requires { IsParams params }
        ensures { result ≡ walk_of params relations [] }
    {
        Walk {
            params,
            relations,
            place: 0,
            rows: 0,
            last: Last::FrontPage,
        }
    }

    fn forward_fits(&self, page: &ForwardPage) -> bool
        ensures { IsTrue result ↔ ForwardAt self.now page.now }
    {
        let columns = count(self.params.weight, self.params.depth);
        1 <= self.place
            && self.place <= block_count(self.relations)
            && page.first as u64 == 64 * (self.place - 1)
            && all_forward_in_table(
                &self.params,
                self.relations,
                columns,
                page.entries.as_slice(),
            )
    }

    // Whether the first rows come next, or those behind 64 more.
    fn rows_begin(&self, first: u16) -> bool
        ensures { IsTrue result ↔ RowsBegin self.now first }
    {
        continues(self.last, first) || (self.place == block_count(self.relations) + 1 && first == 0)
    }

    fn final_fits(&self, page: &FinalPage) -> bool
        ensures { IsTrue result ↔ FinalAt self.now page.now }
    {
        let columns = count(self.params.weight, self.params.depth);
        let entries = page.entries.as_slice();
        self.rows_begin(page.first)
            && all_final_in_table(&self.params, self.relations, columns, entries)
            && entries.len() as u64 <= columns - self.rows
    }

    fn fits(&self, page: &Page) -> bool
        ensures { IsTrue result ↔ FitsAt self.now page.now }
    {
        match page {
            Page::Header(params) => self.place == 0 && are_same(params, &self.params),
            Page::Forward(forward) => self.forward_fits(forward),
            Page::Final(rows) => self.final_fits(rows),
            Page::Done { rows } => {
                (self.place == block_count(self.relations) + 1 || is_rows(self.last))
                    && *rows as u64 == self.rows
            }
        }
    }

    /// Goes on over the page, where it fits the next place. Where it does not, the answer is false and the walk stays.
    pub fn step(&mut self, page: &Page) -> bool
        ensures fits { (before : List Page) → self.old ≡ walk_of self.old.params self.old.relations before
            → IsTrue result ↔ FitsPlace self.old.params self.old.relations before page.now }
        ensures next { (before : List Page) → self.old ≡ walk_of self.old.params self.old.relations before → result ≡ true
            → self.new ≡ walk_of self.old.params self.old.relations (before ++ page.now ∷ []) }
        ensures kept { result ≡ false → self.new ≡ self.old }
    {
        if !self.fits(page) {
            return false;
        }
        self.place = (self.place + 1).min(block_count(self.relations) + 2);
        self.rows += rows_on(page);
        self.last = last_is(page);
        true
    }

    /// Whether the last page is a Done page.
    pub fn is_done(&self) -> bool
        ensures { IsTrue result ↔ (self.now.last ≡ Last.DonePage) }
    {
        match self.last {
            Last::DonePage => true,
            Last::FrontPage => false,
            Last::RowsPage { .. } => false,
        }
    }

    /// How many final rows the pages have, 0 to 2,048.
    pub fn rows(&self) -> u32
        ensures rows { result ≡ self.now.rows }
        ensures within { result ≤ 2048 }
    {
        self.rows as u32
    }
}
