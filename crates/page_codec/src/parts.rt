//! What pages hold: rows, combinations, and entries of them.
ghost use Rattle.std.specs.Prelude.{◌≡◌};

use std::marker::Model;

/// Columns with their residues.
#[derive(Drop)]
pub struct RowData {
    pairs: Vec<(u16, u64)>,
}

impl Model for RowData {
    ghost use Rattle.std.specs.Prelude.{ℕ, List};

    ghost Value = { List (ℕ × ℕ) };

    ghost view = { λ a. a.pairs.items };
}

impl RowData {
    /// What the list holds, in its order. It takes no memory.
    pub fn from_vec(pairs: Vec<(u16, u64)>) -> RowData
        ensures { result ≡ pairs.items }
    {
        RowData { pairs }
    }

    /// The list, lent. It takes no memory.
    pub fn as_slice(&self) -> &[(u16, u64)]
        ensures { result.now ≡ self.now }
    {
        &self.pairs
    }
}

/// Numbers of relations with their residues.
#[derive(Drop)]
pub struct CombData {
    pairs: Vec<(u32, u64)>,
}

impl Model for CombData {
    ghost use Rattle.std.specs.Prelude.{ℕ, List};

    ghost Value = { List (ℕ × ℕ) };

    ghost view = { λ a. a.pairs.items };
}

impl CombData {
    /// What the list holds, in its order. It takes no memory.
    pub fn from_vec(pairs: Vec<(u32, u64)>) -> CombData
        ensures { result ≡ pairs.items }
    {
        CombData { pairs }
    }

    /// The list, lent. It takes no memory.
    pub fn as_slice(&self) -> &[(u32, u64)]
        ensures { result.now ≡ self.now }
    {
        &self.pairs
    }
}

/// A forward row with its relation's number, and the combination whose value it is.
#[derive(Drop)]
pub struct ForwardEntry {
    pub number: u32,
    pub row: RowData,
    pub combination: CombData,
}

/// A reduced row, and the combination whose value it is.
#[derive(Drop)]
pub struct FinalEntry {
    pub row: RowData,
    pub combination: CombData,
}

#[derive(Drop)]
pub struct ForwardEntries {
    entries: Vec<ForwardEntry>,
}

impl Model for ForwardEntries {
    ghost use Rattle.std.specs.Prelude.{List};
    ghost use Rattle.page_codec.specs.declared.parts.ForwardEntry.{ForwardEntry};

    ghost Value = { List ForwardEntry };

    ghost view = { λ a. a.entries.items };
}

impl ForwardEntries {
    /// What the list holds, in its order. It takes no memory.
    pub fn from_vec(entries: Vec<ForwardEntry>) -> ForwardEntries
        ensures { result ≡ entries.items }
    {
        ForwardEntries { entries }
    }

    /// The list, lent. It takes no memory.
    pub fn as_slice(&self) -> &[ForwardEntry]
        ensures { result.now ≡ self.now }
    {
        &self.entries
    }
}

#[derive(Drop)]
pub struct FinalEntries {
    entries: Vec<FinalEntry>,
}

impl Model for FinalEntries {
    ghost use Rattle.std.specs.Prelude.{List};
    ghost use Rattle.page_codec.specs.declared.parts.FinalEntry.{FinalEntry};

    ghost Value = { List FinalEntry };

    ghost view = { λ a. a.entries.items };
}

impl FinalEntries {
    /// What the list holds, in its order. It takes no memory.
    pub fn from_vec(entries: Vec<FinalEntry>) -> FinalEntries
        ensures { result ≡ entries.items }
    {
        FinalEntries { entries }
    }

    /// The list, lent. It takes no memory.
    pub fn as_slice(&self) -> &[FinalEntry]
        ensures { result.now ≡ self.now }
    {
        &self.entries
    }
}

/// The forward rows of 64 relation numbers, from `first` on.
#[derive(Drop)]
pub struct ForwardPage {
    pub first: u32,
    pub entries: ForwardEntries,
}

/// At most 64 reduced rows, `first` the place of the first among all.
#[derive(Drop)]
pub struct FinalPage {
    pub first: u16,
    pub entries: FinalEntries,
}
