ghost use Rattle.std.specs.Prelude.{◌≡◌, [], None};
ghost use Rattle.std.specs.Option.{is_some};
ghost use Rattle.svr_idmap.specs.Ids.{value_at};
ghost use Rattle.svr_listing.specs.Served.{nothing_listed};
ghost use Rattle.svr_merge.specs.Rules.{rules_for};
ghost use Rattle.svr_schema.specs.Lawful.{IsMethod};
ghost use Rattle.svr_lists.specs.Lists.{IsAtScores, StandsForServed};

use std::alloc::Global;
use std::marker::Model;
use svr_index::Index;
use svr_merge::{MergeRun, method_for};
use svr_num::DocId;
use svr_schema::MethodSpec;

/// Documents by their terms: an index, and the merge that is begun beside it, if one is.
///
/// After `Memory` of a call that changes them, lists are spent: nothing is said of what they stand for.
#[derive(Drop)]
pub struct Lists {
    pub(crate) index: Index,
    pub(crate) merge: Option<MergeRun>,
}

impl Model for Lists {
    ghost use Rattle.svr_lists.specs.Lists.{ListsValue};

    ghost Value = { ListsValue };

    ghost view = { λ l. record { index = l.index; merge = l.merge } };
}

impl Lists {
    /// No documents, under the method of a schema, and no merge.
    pub fn new(alloc: Global, spec: &MethodSpec) -> Lists
        requires lawful { IsMethod spec.now }
        ensures stands { StandsForServed result (nothing_listed (rules_for spec.now [])) }
        ensures at_scores { IsAtScores (λ _. None) result }
    {
        Lists {
            index: Index::new(alloc, method_for(spec, &[])),
            merge: None,
        }
    }

    /// Whether a document is listed.
    pub fn listed(&self, id: DocId) -> bool
        ensures { result ≡ is_some (value_at self.now.index.entries id) }
    {
        self.index.entry(id).is_some()
    }
}
