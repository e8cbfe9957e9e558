//! What a coordinator is set to.
ghost use Rattle.std.specs.Prelude.{◌≡◌, ◌≤◌};
ghost use Rattle.share_core.specs.Coordinations.{IsSetting};

use lyndon_polys::LyndonTable;
use page_codec::Params;
use relation_list::RelName;
use residues::Ring;
use std::marker::Model;

/// A table, the names of its listing, its parameters, and in how many shares it is divided.
#[derive(Drop)]
pub(crate) struct TableSetting<R: Ring> {
    pub(crate) table: LyndonTable<R>,
    pub(crate) names: Vec<RelName>,
    pub(crate) params: Params,
    pub(crate) of: u32,
}

impl<R: Ring> Model for TableSetting<R> {
    ghost use Rattle.share_core.specs.Coordinations.{Setting, IsSetting};

    ghost Value = { Setting R };

    ghost view = { λ s. record { table = s.table; names = s.names.items; params = s.params; of = s.of } };

    ghost invariant = { λ s. IsSetting R.modulus (record { table = s.table; names = s.names.items; params = s.params; of = s.of }) };
}

impl<R: Ring> TableSetting<R> {
    /// The table.
    pub(crate) fn table(&self) -> &LyndonTable<R>
        ensures table { result.now ≡ self.now.table }
        ensures setting { IsSetting R.modulus self.now }
    {
        &self.table
    }

    /// The names of its listing.
    pub(crate) fn names(&self) -> &[RelName]
        ensures { result.now ≡ self.now.names }
    {
        &self.names
    }

    /// The parameters.
    pub(crate) fn params(&self) -> &Params
        ensures params { result.now ≡ self.now.params }
        ensures setting { IsSetting R.modulus self.now }
    {
        &self.params
    }

    /// In how many shares it is divided.
    pub(crate) fn of(&self) -> u32
        ensures of { result ≡ self.now.of }
        ensures few { result ≤ 256 }
        ensures setting { IsSetting R.modulus self.now }
    {
        self.of
    }
}
