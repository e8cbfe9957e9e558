//! Shares whose rows are known to be a result of them.
ghost use Rattle.std.specs.Prelude.{◌≡◌, ◌<◌, [], length, get_or};
ghost use Rattle.share_model.specs.Checked.{Checked, IsChecked};

use crate::share::ShareId;
use echelon::ReducedRows;
use page_codec::Params;
use residues::Ring;
use sparse_rows::Combination;
use std::marker::Model;

/// A share whose rows, with their combinations of relations, are known to be a result of it: whoever holds one need not trust its maker.
#[derive(Drop)]
pub struct CheckedShare<R: Ring> {
    params: Params,
    id: ShareId,
    rows: ReducedRows<R>,
    combinations: Vec<Combination<R>>,
}

impl<R: Ring> Model for CheckedShare<R> {
    ghost use Rattle.share_model.specs.Checked.{Checked, IsChecked, checked_code};

    ghost Value = { Checked R R.Elem };

    ghost coded = { checked_code R.code R.Elem.code };

    ghost view = { λ c. record { params = c.params; id = c.id; list = c.rows; combinations = c.combinations.items } };

    ghost invariant = { λ c. IsChecked (R.modulus c.rows.ring) (R.has c.rows.ring) (R.value c.rows.ring)
        (record { params = c.params; id = c.id; list = c.rows; combinations = c.combinations.items }) };
}

impl<R: Ring> CheckedShare<R> {
    /// Rows and combinations that are known to be a result of the share.
    pub fn of(
        params: Params,
        id: ShareId,
        rows: ReducedRows<R>,
        combinations: Vec<Combination<R>>,
    ) -> CheckedShare<R>
        requires { IsChecked (R.modulus rows.ring) (R.has rows.ring) (R.value rows.ring)
            (record { params = params; id = id; list = rows; combinations = combinations.items }) }
        ensures { result ≡ record { params = params; id = id; list = rows; combinations = combinations.items } }
    {
        CheckedShare {
            params,
            id,
            rows,
            combinations,
        }
    }

    /// The parameters of its table.
    pub fn params(&self) -> &Params
        ensures { result.now ≡ self.now.params }
    {
        &self.params
    }

    /// Which share it is.
    pub fn id(&self) -> ShareId
        ensures { result ≡ self.now.id }
    {
        self.id
    }

    /// Its rows, a reduced list.
    pub fn rows(&self) -> &ReducedRows<R>
        ensures rows { result.now ≡ self.now.list }
        ensures checked { IsChecked (R.modulus self.now.list.ring) (R.has self.now.list.ring) (R.value self.now.list.ring) self.now }
    {
        &self.rows
    }

    /// The combination of row `i`.
    pub fn combination(&self, i: u32) -> &Combination<R>
        requires { i < length self.now.list.rows }
        ensures combination { result.now ≡ get_or self.now.combinations i [] }
    {
        &self.combinations[i as usize]
    }
}
