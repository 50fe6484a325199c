ghost use Rattle.std.specs.Prelude.{◌≡◌, ◌<◌, ◌^◌, [], IfSome, None, OnErr, OnOk, Some};
ghost use Rattle.svr_idmap.specs.Ids.{SetsValue, value_at};

use std::alloc::Global;
use std::marker::Model;
use svr_edge::Memory;
use svr_idmap::IdMap;
use svr_iter::KeySource;
use svr_num::{DocId, ListKey};

/// The entries of the listed documents, by id. Contracts see the ids with their entries, in ascending order of id.
#[derive(Drop)]
pub struct ListKeys {
    entries: IdMap<ListKey>,
}

impl Model for ListKeys {
    ghost use Rattle.std.specs.Prelude.{List, ℕ};
    ghost use Rattle.svr_num.specs.declared.list_key.ListKey.{ListKey};
    ghost use Rattle.svr_listkey.specs.Keys.{HaveKeys};

    ghost Value = { List (ℕ × ListKey) };

    ghost view = { λ k. k.entries };

    ghost invariant = { λ k. HaveKeys k.entries };
}

impl ListKeys {
    /// No entries.
    pub fn new(alloc: Global) -> ListKeys
        ensures { result ≡ [] }
    {
        ListKeys {
            entries: IdMap::new(alloc),
        }
    }

    /// The entry of an id, if it is listed.
    pub fn get(&self, id: DocId) -> Option<ListKey>
        ensures value { result ≡ value_at self.now id }
        ensures within { IfSome result (λ entry. entry.key < 2 ^ 48) }
    {
        self.entries.get(id).copied()
    }

    /// Lists an id with this entry, whatever it had before.
    pub fn set(&mut self, id: DocId, entry: ListKey) -> Result<(), Memory>
        requires key { entry.key < 2 ^ 48 }
        ensures sets { OnOk result (SetsValue self.old self.new id (Some entry)) }
        ensures err { OnErr result (self.new ≡ self.old) }
    {
        self.entries.insert(id, entry)?;
        Ok(())
    }

    /// Takes the entry of an id away, if it has one. It takes no memory.
    pub fn forget(&mut self, id: DocId)
        ensures { SetsValue self.old self.new id None }
    {
        self.entries.remove(id);
    }
}

impl KeySource for ListKeys {
    ghost entry = { λ keys id. value_at keys id };

    fn listed(&self, id: DocId) -> Option<ListKey> {
        self.get(id)
    }
}
