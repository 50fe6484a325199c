ghost use Rattle.std.specs.Option.{IsSome};
ghost use Rattle.std.specs.Prelude.{[], false, ◌≡◌, ◌<◌, ◌≤◌, ◌+◌, ◌^◌, ℕ, List, length, None, Some, Err, IfOk, OnOk};
ghost use Rattle.svr_edge.specs.Disk.{IsSettled, IsTornImage, Leaves, Reads, Stays};
ghost use Rattle.svr_journal.specs.Causes.{OpenCauses};
ghost use Rattle.svr_journal.specs.File.{IsBody};
ghost use Rattle.svr_journal.specs.Opening.{opened_bytes};
ghost use Rattle.svr_request.specs.Replies.{IsPrintable};
ghost use Rattle.svr_request.specs.Requests.{Submitted, seen_or_refused, with_block};
ghost use Rattle.svr_core.specs.Edits.{Accepts};
ghost use Rattle.svr_core.specs.Outcomes.{outcome_of};
ghost use Rattle.svr_core.specs.Kept.{catalog_of};
ghost use Rattle.svr_core.specs.Merges.{MayCome};
ghost use Rattle.svr_core.specs.Plans.{IsQuery, MayAsk};
ghost use Rattle.svr_core.specs.Run.{closes};
ghost use Rattle.svr_core.specs.State.{State};
ghost use Rattle.svr_store.specs.Making.{IsDueEntry, Makes};
ghost use Rattle.svr_store.specs.Opening.{IsNoJournal, Opens};
ghost use Rattle.svr_store.specs.Store.{IsOpen, Serves};
ghost use Rattle.svr_store.specs.Merging.{SubmitsUnread};
ghost use Rattle.svr_store.specs.Submitting.{SubmitCauses, Submits, closed_by};

use crate::finding::find;
use std::alloc::Global;
use std::marker::Model;
use svr_core::{Core, Edit, Entry, Plan, Query};
use svr_edge::Disk;
use svr_journal::{AppendFault, Frame, Journal, JournalError};
use svr_pages::{Pages, Reader};
use svr_request::{Fault, Refusal, Reply, Request};

/// Why a store answers nothing more.
#[derive(Clone, Copy, Debug, PartialEq, Eq)]
pub enum Closed {
    /// A write or a sync of a record failed. The record may be on the disk or not.
    Write,
    /// Memory was wanting to make a change whose record is on the disk.
    Memory,
}

/// What is served, the place in the journal that keeps it, and pages of it that were read.
#[derive(Drop)]
pub struct Store {
    pub(crate) core: Core,
    pub(crate) journal: Journal,
    pub(crate) pages: Pages,
    closed: Option<Closed>,
}

impl Model for Store {
    ghost use Rattle.std.specs.Prelude.{◌<◌};
    ghost use Rattle.svr_store.specs.Store.{StoreValue};

    ghost Value = { StoreValue };

    ghost view = { λ s. record { core = s.core; end = s.journal.end; pages = s.pages; closed = s.closed } };

    ghost invariant = { λ s. s.core.changes < s.journal.end };
}

impl Store {
    /// Opens the store of a disk: reads all records of its journal, and forgets a merge that wasn't published. An empty disk gets a
    /// journal without a record. No page is cached yet, and there is room for `cache` of them.
    pub fn open_store<D: Disk>(
        alloc: Global,
        disk: &mut D,
        cache: u32,
    ) -> Result<Store, JournalError>
        ensures ok { IfOk result (Opens (D.view disk.old) (D.view disk.new)) }
        ensures fault { (at : ℕ) (bytes : List ℕ) → result ≡ Err (JournalError.NotAJournal at) → Reads (D.view disk.old) bytes
            → IsNoJournal (opened_bytes bytes) at }
        ensures open { IfOk result (λ store. IsOpen store (D.view disk.new)) }
        ensures empty { IfOk result (λ store. store.pages ≡ record { pages = []; capacity = cache }) }
        ensures settled { OnOk result (IsSettled (D.view disk.new)) }
        ensures stays { 0 < (D.view disk.old).size → Stays (D.view disk.old) (D.view disk.new) }
        // Of an empty disk a crash may leave anything in the first nine bytes.
        ensures images { Leaves (D.view disk.old) (D.view disk.new) (IsTornImage (D.view disk.old) 0 9) }
        ensures causes { OpenCauses (D.view disk.old) (D.view disk.new) result }
    {
        let mut journal = Journal::open_journal(disk)?;
        let mut core = Core::replay(alloc, disk, &mut journal)?;
        core.forget_merge();
        let Ok(pages) = Pages::new(alloc, cache) else {
            return Err(JournalError::Memory);
        };
        Ok(Store {
            core,
            journal,
            pages,
            closed: None,
        })
    }

    /// Why nothing more is answered; `None` where requests may be submitted.
    pub fn closed(&self) -> Option<Closed>
        ensures { result ≡ self.now.closed }
    {
        self.closed
    }

    /// Answers a request, with the block that comes with it. A change that is accepted is planned, its record is appended to the
    /// disk's journal and synced, and then it is made. Want of memory before the record is written changes nothing; after it, and
    /// after a failed write, the store is closed.
    pub fn submit<D: Disk>(
        &mut self,
        alloc: Global,
        disk: &mut D,
        request: Result<Request, Refusal>,
        block: &[u8],
    ) -> Reply
        requires open { IsOpen self.old (D.view disk.old) }
        requires few { length block.now ≤ 8388608 }
        ensures submits { (s : State) → Serves self.old s
            → Submits (D.view disk.old) (D.view disk.new) self.old self.new s (with_block (seen_or_refused request) block.now) result }
        ensures printable { IsPrintable result }
        ensures closed { self.new.closed ≡ closed_by result }
        ensures open { closes result ≡ false → IsOpen self.new (D.view disk.new) }
        ensures causes { SubmitCauses (D.view disk.old) (D.view disk.new) result }
    {
        match self.core.plan(alloc, request, block) {
            Ok(Plan::Search(query)) => self.search(alloc, disk, &query),
            Ok(Plan::Change(entry)) => self.commit(alloc, disk, entry),
            Ok(Plan::Merge(part)) => self.step(alloc, disk, part),
            Ok(Plan::WholeMerge) => self.merge(alloc, disk),
            Err(why) => Reply::Refused(why),
        }
    }

    /// Answers a search. Its pages are read from the disk where they aren't cached.
    fn search<D: Disk>(&mut self, alloc: Global, disk: &mut D, query: &Query) -> Reply
        requires open { IsOpen self.old (D.view disk.old) }
        requires set { IsSome (catalog_of self.old.core) }
        requires query { MayAsk query.now }
        ensures submits { (s : State) (request : Submitted) → Serves self.old s → IsQuery (outcome_of s.served request) query.now
            → Submits (D.view disk.old) (D.view disk.new) self.old self.new s request result }
        ensures printable { IsPrintable result }
        ensures closed { self.new.closed ≡ closed_by result }
        ensures open { IsOpen self.new (D.view disk.new) }
        ensures causes { SubmitCauses (D.view disk.old) (D.view disk.new) result }
    {
        let mut reader = Reader {
            pages: &mut self.pages,
            disk,
            reach: self.journal.end(),
        };
        find(alloc, &self.core, query, &mut reader)
    }

    /// Appends the record of an edit, and makes the edit.
    pub(crate) fn commit<D: Disk>(&mut self, alloc: Global, disk: &mut D, entry: Entry) -> Reply
        requires open { IsOpen self.old (D.view disk.old) }
        requires accepted { Accepts (catalog_of self.old.core) entry.edit }
        requires may_come { MayCome self.old.core entry.edit }
        requires size { IsBody entry.body }
        ensures submits { (s : State) (request : Submitted) → Serves self.old s → IsDueEntry (D.view disk.old) s request entry
            → SubmitsUnread (D.view disk.old) (D.view disk.new) self.old self.new s request result }
        ensures printable { IsPrintable result }
        ensures closed { self.new.closed ≡ closed_by result }
        ensures open { closes result ≡ false → IsOpen self.new (D.view disk.new) }
        ensures causes { SubmitCauses (D.view disk.old) (D.view disk.new) result }
        ensures later { self.old.end ≤ self.new.end }
        ensures within { self.old.end < self.new.end → self.new.end ≤ 2 ^ 40 }
        ensures set { closes result ≡ false → IsSome (catalog_of self.old.core) → IsSome (catalog_of self.new.core) }
    {
        let Ok(frame) = Frame::new(alloc, entry.body.as_slice()) else {
            return Reply::Refused(Refusal::Memory);
        };
        match self.journal.append(disk, &frame) {
            Ok(_) => self.make(alloc, entry.edit),
            Err(AppendFault::Full) => Reply::Refused(Refusal::JournalFull),
            Err(AppendFault::Write) => {
                self.closed = Some(Closed::Write);
                Reply::Faulted(Fault::Write)
            }
        }
    }

    /// Makes an edit whose record is on the disk. Where memory is wanting, the store is closed.
    fn make(&mut self, alloc: Global, edit: Edit) -> Reply
        requires accepted { Accepts (catalog_of self.old.core) edit }
        requires may_come { MayCome self.old.core edit }
        requires numbered { self.old.core.changes + 1 < self.old.end }
        requires few { self.old.end ≤ 2 ^ 40 }
        ensures makes { Makes self.old self.new edit result }
        ensures end { self.new.end ≡ self.old.end }
        ensures set { closes result ≡ false → IsSome (catalog_of self.new.core) }
    {
        let is_change = edit.counted() == 1;
        match self.core.make(alloc, edit) {
            Ok(()) => {
                if is_change {
                    Reply::Accepted(self.core.changes())
                } else {
                    Reply::Left(self.core.left())
                }
            }
            Err(_) => {
                self.closed = Some(Closed::Memory);
                Reply::Faulted(Fault::Memory)
            }
        }
    }
}
