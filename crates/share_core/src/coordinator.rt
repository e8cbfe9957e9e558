//! The coordinator.
ghost use Rattle.std.specs.Prelude.{◌≡◌, ◌≤◌, ◌↔◌, IsTrue, IfOk, OnErr};
ghost use Rattle.relation_list.specs.Listings.{listing_of};
ghost use Rattle.page_codec.specs.Bounds.{IsParams};
ghost use Rattle.file_model.specs.TableOf.{IsTableOf};
ghost use Rattle.share_merge.specs.Turns.{HasAll};
ghost use Rattle.share_core.specs.Lists.{empty};
ghost use Rattle.share_core.specs.Coordinations.{IsSetting, AreLists};
ghost use Rattle.share_core.specs.Steps.{Answers};

use crate::delivering::deliver;
use crate::events::{Answer, Event};
use crate::granting::grant;
use crate::lists::{ShareLists, has_all};
use crate::losing::{lose, restart};
use crate::setting::TableSetting;
use lyndon_polys::LyndonTable;
use page_codec::Params;
use relation_list::RelName;
use residues::Ring;
use std::alloc::{AllocError, Global};
use std::marker::Model;

/// Who gives the shares of a table to workers and counts what comes back. It trusts nobody: a share counts where its rows are a result of it,
/// whether or not it was granted.
#[derive(Drop)]
pub struct Coordinator<R: Ring> {
    pub(crate) setting: TableSetting<R>,
    pub(crate) lists: ShareLists<R>,
}

impl<R: Ring> Model for Coordinator<R> {
    ghost use Rattle.share_core.specs.Lists.{Lists};
    ghost use Rattle.share_core.specs.Coordinations.{Coordination, AreLists};

    ghost Value = { Coordination R R.Elem };

    ghost view = { λ c. record { setting = c.setting; lists = c.lists } };

    ghost invariant = { λ c. AreLists c.setting c.lists };
}

impl<R: Ring> Coordinator<R> {
    /// The coordinator of the table, divided in 1 to 256 shares. Table and names are those of the parameters. Nothing is counted or granted.
    pub fn new(
        alloc: Global,
        table: LyndonTable<R>,
        names: Vec<RelName>,
        params: Params,
        of: u32,
    ) -> Result<Coordinator<R>, AllocError>
        requires params { IsParams params }
        requires table { IsTableOf params table.columns }
        requires modulus { R.modulus table.ring ≡ params.modulus }
        requires names { names.items ≡ listing_of params.weight params.depth }
        requires some { 1 ≤ of }
        requires few { of ≤ 256 }
        ensures setting { IfOk result (λ c. c.setting ≡ record { table = table; names = names.items; params = params; of = of }) }
        ensures lists { IfOk result (λ c. c.lists ≡ empty) }
    {
        let setting = TableSetting {
            table,
            names,
            params,
            of,
        };
        let lists = ShareLists::new(alloc);
        Ok(Coordinator { setting, lists })
    }

    /// The table.
    pub fn table(&self) -> &LyndonTable<R>
        ensures table { result.now ≡ self.now.setting.table }
        ensures setting { IsSetting R.modulus self.now.setting }
        ensures lists { AreLists self.now.setting self.now.lists }
    {
        self.setting.table()
    }

    /// Does what the event asks for, and answers. After want of memory nothing is changed.
    ///
    /// A `Grant` is answered by `Granted` with the least index that is neither counted nor granted, and by `NoneOpen` where there is none. A
    /// `Deliver` is refused as `Other` where the share has other parameters, another number of shares, an index not below that, more rows than
    /// columns, or an entry that cannot stand on a page of the table; else it is a `Repeat` where its index is counted, and its rows are looked
    /// at no further; else it is refused with the first fault of its rows; else it is `Counted`, whether or not it was granted. A `Lose` frees
    /// all that was granted to the worker, and a `Restart` all that was granted.
    pub fn step(&mut self, alloc: Global, event: &Event) -> Result<Answer, AllocError>
        ensures ok { IfOk result (λ answer. Answers (R.value self.old.setting.table.ring) self.old.setting self.old.lists event.now answer self.new.lists) }
        ensures same { self.new.setting ≡ self.old.setting }
        ensures setting { IsSetting R.modulus self.old.setting }
        ensures err { OnErr result (self.new.lists ≡ self.old.lists) }
    {
        let of = self.setting.of();
        match event {
            Event::Grant { worker } => grant(&mut self.lists, of, *worker),
            Event::Deliver { share } => deliver(alloc, &self.setting, &mut self.lists, share),
            Event::Lose { worker } => Ok(Answer::Freed(lose(&mut self.lists, *worker))),
            Event::Restart => {
                restart(&mut self.lists);
                Ok(Answer::Restarted)
            }
        }
    }

    /// Whether a share of each index is counted.
    pub fn done(&self) -> bool
        ensures { IsTrue result ↔ HasAll self.now.setting.of self.now.lists.counted }
    {
        has_all(self.lists.counted(), self.setting.of())
    }
}
