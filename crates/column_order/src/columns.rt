//! The columns of a weight and a depth, in lead order.
ghost use Rattle.std.specs.Prelude.{◌≡◌, ◌≢◌, ℕ, ◌+◌, ◌<◌, ◌≤◌, ◌↔◌, ◌⊎◌, List, length, map, slice_get, Some, IsNone, IsTrue, IfOk, IsErrOf};
ghost use Rattle.zeta_model.specs.declared.Letter.{Letter};
ghost use Rattle.zeta_model.specs.Words.{depth_of, is_admissible};
ghost use Rattle.lyndon_words.specs.Lyndon.{IsFactors, joined};
ghost use Rattle.column_order.specs.Rules.{IsRule};
ghost use Rattle.column_order.specs.Columns.{HasLimits, IsColumn, IsColumns, column_count};

use crate::column::{Column, sorted_columns};
use crate::counting::count;
use crate::fault::ColumnsFault;
use crate::lead_order::lead_order;
use crate::rank_rule::RankRule;
use crate::ranks::{Preference, rank};
use crate::word_places::places_of;
use lyndon_words::Monomial;
use std::alloc::{AllocError, Global};
use std::cmp::Ordering;
use std::marker::Model;
use word_letters::{Word, admissible_words};

/// The greatest number of columns of a list.
pub const MAX_COLUMNS: u64 = 2048;

/// All monomials of one weight up to a depth, in lead order: one for each admissible word of that weight and depth.
///
/// The words are kept too, in increasing order, each beside the place of its column.
#[derive(Drop)]
pub struct Columns {
    weight: u32,
    depth: u32,
    preference: Preference,
    columns: Vec<Column>,
    words: Vec<Word>,
    places: Vec<u32>,
}

impl Model for Columns {
    ghost use Rattle.column_order.specs.Ranks.{rank_of};
    ghost use Rattle.column_order.specs.Columns.{ColumnList};
    ghost use Rattle.column_order.specs.Inner.{AreKept, monomials_of};

    ghost Value = { ColumnList };

    ghost view = { λ c. record { weight = c.weight; depth = c.depth; preference = c.preference; list = monomials_of c.columns.items } };

    ghost invariant = { λ c. AreKept (rank_of c.preference) c.weight c.depth c.columns.items c.words.items c.places.items };
}

impl Columns {
    /// The columns of weight `w` and depth at most `d`, in the lead order by the ranks of the rule's preference.
    ///
    /// `TooManyColumns(n)` exactly where their number `n` is over 2,048; `Memory` where memory is wanting.
    pub fn new<F: Fn(Word) -> u32>(
        alloc: Global,
        w: u32,
        d: u32,
        rule: &RankRule<F>,
    ) -> Result<Columns, ColumnsFault>
        requires least { 2 ≤ w }
        requires most { w ≤ 24 }
        requires some { 1 ≤ d }
        requires below { d < w }
        requires rule { IsRule F.Fn rule.now }
        ensures columns { IfOk result IsColumns }
        ensures weight { IfOk result (λ columns. columns.weight ≡ w) }
        ensures depth { IfOk result (λ columns. columns.depth ≡ d) }
        ensures preference { IfOk result (λ columns. columns.preference ≡ rule.now.preference) }
        ensures count { IfOk result (λ columns. length columns.list ≡ column_count w d) }
        ensures too_many { (n : ℕ) → IsErrOf result (ColumnsFault.TooManyColumns n) ↔ ((n ≡ column_count w d) × (2048 < n)) }
    {
        let number = count(w, d);
        if number > MAX_COLUMNS {
            return Err(ColumnsFault::TooManyColumns(number));
        }
        match Columns::listed(alloc, w, d, rule) {
            Ok(columns) => Ok(columns),
            Err(fault) => Err(ColumnsFault::Memory(fault)),
        }
    }

    /// The columns, where they are not too many.
    fn listed<F: Fn(Word) -> u32>(
        alloc: Global,
        w: u32,
        d: u32,
        rule: &RankRule<F>,
    ) -> Result<Columns, AllocError>
        requires limits { HasLimits w d }
        requires rule { IsRule F.Fn rule.now }
        requires few { column_count w d ≤ 2048 }
        ensures columns { IfOk result IsColumns }
        ensures weight { IfOk result (λ columns. columns.weight ≡ w) }
        ensures depth { IfOk result (λ columns. columns.depth ≡ d) }
        ensures preference { IfOk result (λ columns. columns.preference ≡ rule.now.preference) }
    {
        let words = admissible_words(alloc, w, d)?;
        let columns = sorted_columns(alloc, w, d, words.as_slice(), rule)?;
        let places = places_of(alloc, words.as_slice(), columns.as_slice())?;
        Ok(Columns {
            weight: w,
            depth: d,
            preference: *rule.preference(),
            columns,
            words,
            places,
        })
    }

    /// How many columns there are, 1 to 2,048.
    pub fn len(&self) -> u32
        ensures length { result ≡ length self.now.list }
        ensures within { result ≤ 2048 }
        ensures columns { IsColumns self.now }
        ensures count { result ≡ column_count self.now.weight self.now.depth }
    {
        self.columns.len() as u32
    }

    /// The weight of each column, 2 to 24.
    pub fn weight(&self) -> u32
        ensures weight { result ≡ self.now.weight }
        ensures least { 2 ≤ result }
        ensures most { result ≤ 24 }
    {
        self.weight
    }

    /// The greatest depth of a column, below the weight.
    pub fn depth(&self) -> u32
        ensures depth { result ≡ self.now.depth }
        ensures some { 1 ≤ result }
        ensures below { result < self.now.weight }
    {
        self.depth
    }

    /// What orders the columns.
    pub fn preference(&self) -> &Preference
        ensures { result.now ≡ self.now.preference }
    {
        &self.preference
    }

    /// The column at place `i`, from 0 for the one that comes first.
    pub fn at(&self, i: u32) -> &Monomial
        requires { i < length self.now.list }
        ensures at { slice_get self.now.list i ≡ Some result.now }
        ensures column { IsColumn self.now.weight self.now.depth result.now }
    {
        &self.columns[i as usize].monomial
    }

    /// The place of a monomial: `None` exactly where it has another weight or a greater depth.
    pub fn place(&self, p: &Monomial) -> Option<u32>
        ensures place { (i : ℕ) → (result ≡ Some i) ↔ (slice_get self.now.list i ≡ Some p.now) }
        ensures none { IsNone result ↔ ((length (joined p.now) ≢ self.now.weight) ⊎ (self.now.depth < depth_of (joined p.now))) }
    {
        let word = p.word();
        if word.weight() != self.weight || word.depth() > self.depth {
            return None;
        }
        Some(self.search(p) as u32)
    }

    /// The place of the column of a word, which is the product of the word's Lyndon factors: `None` exactly where the word is not
    /// admissible, has another weight or a greater depth.
    pub fn place_of_word(&self, w: Word) -> Option<u32>
        ensures place { (p : List (List Letter)) (i : ℕ) → IsFactors w p → (result ≡ Some i) ↔ (slice_get self.now.list i ≡ Some p) }
        ensures word { (i : ℕ) → (result ≡ Some i) ↔ (slice_get (map joined self.now.list) i ≡ Some w) }
        ensures none { IsNone result ↔ ((¬ (IsTrue (is_admissible w))) ⊎ ((length w ≢ self.now.weight) ⊎ (self.now.depth < depth_of w))) }
    {
        match self.words.binary_search(&w) {
            Ok(k) => Some(self.places[k]),
            Err(_) => None,
        }
    }

    /// The place of a monomial that is a column, by halves.
    fn search(&self, p: &Monomial) -> usize
        requires weight { length (joined p.now) ≡ self.now.weight }
        requires depth { depth_of (joined p.now) ≤ self.now.depth }
        ensures { slice_get self.now.list result ≡ Some p.now }
    {
        let ranked = self.preference;
        let rule = RankRule::new(self.preference, move |word: Word| rank(&ranked, word));
        let standing = rule.standing(p);
        let mut low = 0;
        let mut high = self.columns.len();
        while low < high {
            let middle = low + (high - low) / 2;
            let column = &self.columns[middle];
            match lead_order(&column.monomial, column.standing, p, standing) {
                Ordering::Less => low = middle + 1,
                Ordering::Equal => return middle,
                Ordering::Greater => high = middle,
            }
        }
        unreachable!()
    }
}
