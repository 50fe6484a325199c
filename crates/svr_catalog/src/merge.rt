ghost use Rattle.std.specs.Prelude.{◌≡◌, ◌+◌, ◌*◌, ◌<◌, ◌≤◌, ◌^◌, ℕ, None, Some, Option, IfOk, IsSome, Err, length};
ghost use Rattle.std.specs.List.{AllByRecursion};
ghost use Rattle.std.specs.Option.{ForSome, is_some};
ghost use Rattle.svr_iter.specs.Reader.{KeepsReader};
ghost use Rattle.svr_lists.specs.Lists.{last_in};
ghost use Rattle.svr_lists.specs.Merges.{CountsLeft};
ghost use Rattle.svr_lists.specs.Slices.{AsksSlice, IsSliceBy};
ghost use Rattle.svr_lists.specs.Taken.{TakesSlice, taken_by};
ghost use Rattle.svr_record.specs.Limits.{TermFits, page_count};
ghost use Rattle.svr_catalog.specs.Merging.{Begins, Forgets, IsSliceExactly, Publishes, TakesNext};

use crate::catalog::Catalog;
use std::alloc::Global;
use std::sync::ledger::Ledger;
use svr_edge::Memory;
use svr_iter::ScanFault;
use svr_lists::{Slice, SliceFault};
use svr_postpage::PageReader;
use svr_record::TermPages;
use svr_steps::Steps;

impl Catalog {
    /// Whether a merge is begun.
    pub fn is_merging(&self) -> bool
        ensures { result ≡ is_some (last_in self.now.lists) }
    {
        self.contents.lists.is_begun()
    }

    /// How many terms the merge has left, if one is begun. It takes no memory.
    pub fn left(&self) -> Option<u64>
        ensures count { CountsLeft self.now.lists result }
        ensures begun { is_some result ≡ is_some (last_in self.now.lists) }
    {
        self.contents.lists.left()
    }

    /// The catalog with a merge that begins beside its documents, in place of one that was begun.
    pub fn with_merge(self, alloc: Global) -> Result<Catalog, Memory>
        ensures catalog { IfOk result (λ after. after.catalog ≡ self.catalog) }
        ensures begins { IfOk result (Begins self) }
        ensures last { IfOk result (λ after. last_in after.lists ≡ Some None) }
    {
        let Catalog {
            schema,
            mut contents,
        } = self;
        contents.begin_merge(alloc, &schema)?;
        Ok(Catalog { schema, contents })
    }

    /// Forgets the merge, if one is begun. It takes no memory.
    pub fn forget_merge(&mut self)
        ensures catalog { self.new.catalog ≡ self.old.catalog }
        ensures forgets { Forgets self.old self.new }
        ensures last { last_in self.new.lists ≡ None }
    {
        self.contents.lists.forget();
    }

    /// The next slice of the merge: so many terms at most, one after the other, until none is left or there are 1,024 pages. It changes
    /// nothing. Where no merge is begun it is empty.
    ///
    /// Errors: `Page`, where a page could not be read, or stands there no more; `Memory`.
    pub fn slice<R: PageReader>(
        &self,
        alloc: Global,
        most: u32,
        reader: &mut R,
    ) -> Result<Slice, ScanFault>
        requires ready { R.ready reader.old }
        ensures slice { IfOk result (λ slice. ForSome (R.told reader.old) (λ bytes. IsSliceBy self.now.lists most bytes slice)) }
        ensures exact { IfOk result (λ slice. ForSome (R.told reader.old) (λ bytes. IsSliceExactly self.now most bytes slice)) }
        ensures few { IfOk result (λ slice. length slice.terms ≤ most) }
        ensures fit { IfOk result (λ slice. AllByRecursion TermFits slice.terms) }
        ensures whole { IfOk result (λ slice. length slice.pages ≡ 4096 * page_count slice.terms) }
        ensures may_come { IfOk result (λ slice. IsSome (last_in self.now.lists) → (at : ℕ) → IsSome (taken_by self.now.lists slice at)) }
        ensures asks { AsksSlice (R.told reader.old) R.gives R.fails self.now.lists most reader.old reader.new result }
        ensures reader { KeepsReader R.told R.ready R.faults reader.old reader.new result }
    {
        self.contents.lists.slice(alloc, most, reader)
    }

    /// The catalog with a slice more in the merge: these terms, with the pages that stand one behind the other in the bytes, the first of
    /// them at this address.
    pub fn with_slice(
        self,
        alloc: Global,
        terms: &[TermPages],
        pages: &[u8],
        at: u64,
    ) -> Result<Catalog, SliceFault>
        requires whole { length pages.now ≡ 4096 * page_count terms.now }
        requires room { at + length pages.now < 2 ^ 64 }
        ensures catalog { IfOk result (λ after. after.catalog ≡ self.catalog) }
        ensures takes { IfOk result (λ after. TakesSlice self.lists after.lists (record { terms = terms.now; pages = pages.now }) at) }
        ensures next { IfOk result (λ after. TakesNext self after (record { terms = terms.now; pages = pages.now }) at) }
        ensures bad { result ≡ Err SliceFault.BadSlice → taken_by self.lists (record { terms = terms.now; pages = pages.now }) at ≡ None }
    {
        let Catalog {
            schema,
            mut contents,
        } = self;
        contents.lists.take_slice(alloc, terms, pages, at)?;
        Ok(Catalog { schema, contents })
    }

    /// The catalog after the publish of the merge, if one is begun.
    pub fn published<L: Ledger>(
        self,
        alloc: Global,
        steps: &mut Steps<L>,
    ) -> Result<Catalog, Memory>
        ensures catalog { IfOk result (λ after. after.catalog ≡ self.catalog) }
        ensures publishes { IfOk result (Publishes self) }
        ensures last { IfOk result (λ after. last_in after.lists ≡ None) }
    {
        let Catalog {
            schema,
            mut contents,
        } = self;
        contents.publish(alloc, &schema, steps)?;
        Ok(Catalog { schema, contents })
    }
}
