ghost use Rattle.std.specs.Prelude.{◌≡◌, ◌<◌, ◌^◌, ◌-◌, [], OnOk, OnErr, Option, Some, None, true, length, min, option_copied, unwrap_or, IsSome};
ghost use Rattle.std.specs.BTreeMap.{insert_entry};
ghost use Rattle.std.specs.Cmp.Lexicographic.{slice_cmp};
ghost use Rattle.std.specs.Ordering.{nat_cmp};
ghost use Rattle.svr_long.specs.Heads.{ArePages, are_heads};
ghost use Rattle.std.specs.Bound.{bound_map};
ghost use Rattle.svr_long.specs.Layout.{behind};
ghost use Rattle.svr_long.specs.Lists.{Ascends, HavePages, SetsPages, page_count, pages_at, term_after};

use std::alloc::Global;
use std::collections::BTreeMap;
use std::marker::Model;
use std::ops::Bound;
use svr_edge::{Memory, Text};
use svr_postpage::PageRef;

/// Where the terms behind one begin, or all.
fn behind(after: Option<&Text>) -> Bound<&Text>
    ensures { bound_map (λ term. term.now) result ≡ behind (option_copied after.entry) }
{
    match after {
        Some(term) => Bound::Excluded(term),
        None => Bound::Unbounded,
    }
}

/// The pages of one term: there is one, and their first pairs are in page order.
#[derive(Drop)]
struct TermRefs {
    refs: Vec<PageRef>,
}

impl Model for TermRefs {
    ghost use Rattle.std.specs.Prelude.{List};
    ghost use Rattle.svr_postpage.specs.declared.page_ref.PageRef.{PageRef};
    ghost use Rattle.svr_long.specs.Heads.{ArePages};

    ghost Value = { List PageRef };

    ghost view = { λ t. t.refs.items };

    ghost invariant = { λ t. ArePages t.refs.items };
}

impl TermRefs {
    fn new(refs: Vec<PageRef>) -> TermRefs
        requires some { 0 < length refs.items }
        requires heads { are_heads refs.items ≡ true }
        ensures { result ≡ refs.items }
    {
        TermRefs { refs }
    }

    fn as_slice(&self) -> &[PageRef]
        ensures value { result.now ≡ self.now }
        ensures are_pages { ArePages result.now }
    {
        self.refs.as_slice()
    }
}

/// The pages of terms. Contracts see the terms, ascending by their bytes, with the pages of each.
#[derive(Drop)]
pub struct LongLists {
    lists: BTreeMap<Text, TermRefs>,
    pages: u64,
}

impl Model for LongLists {
    ghost use Rattle.std.specs.Prelude.{◌≡◌, ◌^◌, ◌-◌, ℕ, List, min};
    ghost use Rattle.svr_postpage.specs.declared.page_ref.PageRef.{PageRef};
    ghost use Rattle.svr_long.specs.Lists.{HavePages, page_count};

    ghost Value = { List (List ℕ × List PageRef) };

    ghost view = { λ l. l.lists.entries };

    ghost invariant = { λ l. (l.pages ≡ min (page_count l.lists.entries) (2 ^ 64 - 1)) × HavePages l.lists.entries };
}

impl LongLists {
    /// No terms.
    pub fn new(alloc: Global) -> LongLists
        ensures { result ≡ [] }
    {
        LongLists {
            lists: BTreeMap::new(alloc),
            pages: 0,
        }
    }

    /// Gives a term its pages.
    pub fn put(&mut self, term: Text, pages: Vec<PageRef>) -> Result<(), Memory>
        requires absent { pages_at self.old term ≡ None }
        requires some { 0 < length pages.items }
        requires heads { are_heads pages.items ≡ true }
        ensures changed { OnOk result (self.new ≡ insert_entry (slice_cmp nat_cmp) self.old term pages.items) }
        ensures sets { OnOk result (SetsPages self.old self.new term pages.items) }
        ensures err { OnErr result (self.new ≡ self.old) }
    {
        let count = self.pages.saturating_add(pages.len() as u64);
        self.lists.insert(term, TermRefs::new(pages))?;
        self.pages = count;
        Ok(())
    }

    /// The pages of a term; none where it isn't there.
    pub fn pages(&self, term: &Text) -> &[PageRef]
        ensures value { result.now ≡ unwrap_or (pages_at self.now term.now) [] }
        ensures heads { are_heads result.now ≡ true }
        ensures some { IsSome (pages_at self.now term.now) → 0 < length result.now }
    {
        match self.lists.get(term) {
            Some(list) => list.as_slice(),
            None => &[],
        }
    }

    /// The first term behind one, or of all.
    pub fn next_term(&self, after: Option<&Text>) -> Option<&Text>
        ensures value { option_copied result ≡ term_after self.now (option_copied after.entry) }
        ensures ordered { Ascends self.now }
        ensures paged { HavePages self.now }
    {
        match self.lists.range((behind(after), Bound::Unbounded)).next() {
            Some((term, _)) => Some(term),
            None => None,
        }
    }

    /// How many pages all terms have. The count stops at the end of `u64`.
    pub fn page_count(&self) -> u64
        ensures { result ≡ min (page_count self.now) (2 ^ 64 - 1) }
    {
        self.pages
    }

    /// How many terms have pages.
    pub fn term_count(&self) -> u64
        ensures { result ≡ length self.now }
    {
        self.lists.len() as u64
    }
}
