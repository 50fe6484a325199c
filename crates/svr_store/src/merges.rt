//! The steps of a merge, as requests ask for them.
ghost use Rattle.std.specs.Option.{ForSome, IsSome};
ghost use Rattle.std.specs.Prelude.{false, true, ◌≡◌, ◌<◌, ◌≤◌, ◌^◌, IfOk};
ghost use Rattle.svr_request.specs.Replies.{IsPrintable};
ghost use Rattle.svr_request.specs.Requests.{Submitted};
ghost use Rattle.svr_core.specs.Kept.{catalog_of, last_of};
ghost use Rattle.svr_core.specs.Merges.{MayCommit};
ghost use Rattle.svr_core.specs.Outcomes.{merges, merges_whole, outcome_of};
ghost use Rattle.svr_core.specs.Run.{closes};
ghost use Rattle.svr_core.specs.State.{State};
ghost use Rattle.svr_core.specs.declared.plan.Step.TheVariants as step;
ghost use Rattle.svr_pages.specs.Asked.{IsReady};
ghost use Rattle.svr_store.specs.Merging.{Forgot, PlansNext, SubmitsOne, keeps_merge, reply_of_fault};
ghost use Rattle.svr_store.specs.Store.{IsOpen, Serves};
ghost use Rattle.svr_store.specs.Submitting.{SubmitCauses, Submits, closed_by};

use crate::store::Store;
use std::alloc::Global;
use svr_core::{Core, Entry, Step};
use svr_edge::Disk;
use svr_iter::ScanFault;
use svr_pages::Reader;
use svr_postpage::PageFault;
use svr_request::{Fault, Refusal, Reply};

/// The reply where a slice couldn't be made.
fn stopped(fault: ScanFault) -> Reply
    ensures value { result ≡ reply_of_fault fault }
    ensures printable { IsPrintable result }
{
    match fault {
        ScanFault::Memory => Reply::Refused(Refusal::Memory),
        ScanFault::Page(PageFault::Read) => Reply::Faulted(Fault::Read),
        ScanFault::Page(PageFault::Damaged { at, .. }) => Reply::Faulted(Fault::Damaged {
            page: at,
        }),
    }
}

impl Store {
    /// Makes a whole merge: its steps, one after the other. Where one of them is refused or comes to a fault, the merge is forgotten.
    pub(crate) fn merge<D: Disk>(&mut self, alloc: Global, disk: &mut D) -> Reply
        requires open { IsOpen self.old (D.view disk.old) }
        requires set { IsSome (catalog_of self.old.core) }
        ensures submits { (s : State) (request : Submitted) → Serves self.old s → outcome_of s.served request ≡ merges_whole
            → Submits (D.view disk.old) (D.view disk.new) self.old self.new s request result }
        ensures printable { IsPrintable result }
        ensures closed { self.new.closed ≡ closed_by result }
        ensures open { closes result ≡ false → IsOpen self.new (D.view disk.new) }
        ensures causes { SubmitCauses (D.view disk.old) (D.view disk.new) result }
    {
        let mut part = Step::Begin;
        loop {
            let start = self.journal.end();
            let reply = self.step(alloc, disk, part);
            let Some(next) = part.next(start < self.journal.end(), &reply) else {
                self.leave(part, &reply);
                return reply;
            };
            part = next;
        }
    }

    /// Forgets the merge where a step behind its begin was refused or came to a fault.
    fn leave(&mut self, part: Step, reply: &Reply)
        ensures kept { keeps_merge part reply.now ≡ true → self.new ≡ self.old }
        ensures left { keeps_merge part reply.now ≡ false → Forgot self.old self.new }
    {
        match (part, reply) {
            (Step::Begin, _) | (_, Reply::Accepted(_) | Reply::Left(_)) => {}
            _ => self.core.forget_merge(),
        }
    }

    /// Answers a request for a step of a merge.
    pub(crate) fn step<D: Disk>(&mut self, alloc: Global, disk: &mut D, part: Step) -> Reply
        requires open { IsOpen self.old (D.view disk.old) }
        requires set { IsSome (catalog_of self.old.core) }
        ensures submits { (s : State) (request : Submitted) → Serves self.old s → outcome_of s.served request ≡ merges part
            → SubmitsOne (D.view disk.old) (D.view disk.new) self.old self.new s request result }
        ensures printable { IsPrintable result }
        ensures closed { self.new.closed ≡ closed_by result }
        ensures open { closes result ≡ false → IsOpen self.new (D.view disk.new) }
        ensures causes { SubmitCauses (D.view disk.old) (D.view disk.new) result }
        ensures later { self.old.end ≤ self.new.end }
        ensures within { self.old.end < self.new.end → self.new.end ≤ 2 ^ 40 }
        ensures set { closes result ≡ false → IsSome (catalog_of self.new.core) }
    {
        match part {
            Step::Begin => self.begin(alloc, disk),
            Step::Slice(most) => self.slice(alloc, disk, most),
            Step::Publish => self.publish(alloc, disk),
        }
    }

    /// Begins a merge.
    fn begin<D: Disk>(&mut self, alloc: Global, disk: &mut D) -> Reply
        requires open { IsOpen self.old (D.view disk.old) }
        requires set { IsSome (catalog_of self.old.core) }
        ensures submits { (s : State) (request : Submitted) → Serves self.old s → outcome_of s.served request ≡ merges step.Begin
            → SubmitsOne (D.view disk.old) (D.view disk.new) self.old self.new s request result }
        ensures printable { IsPrintable result }
        ensures closed { self.new.closed ≡ closed_by result }
        ensures open { closes result ≡ false → IsOpen self.new (D.view disk.new) }
        ensures causes { SubmitCauses (D.view disk.old) (D.view disk.new) result }
        ensures later { self.old.end ≤ self.new.end }
        ensures within { self.old.end < self.new.end → self.new.end ≤ 2 ^ 40 }
        ensures set { closes result ≡ false → IsSome (catalog_of self.new.core) }
    {
        match self.core.begin_entry(alloc) {
            Ok(entry) => self.commit(alloc, disk, entry),
            Err(why) => Reply::Refused(why),
        }
    }

    /// Publishes the merge.
    fn publish<D: Disk>(&mut self, alloc: Global, disk: &mut D) -> Reply
        requires open { IsOpen self.old (D.view disk.old) }
        requires set { IsSome (catalog_of self.old.core) }
        ensures submits { (s : State) (request : Submitted) → Serves self.old s → outcome_of s.served request ≡ merges step.Publish
            → SubmitsOne (D.view disk.old) (D.view disk.new) self.old self.new s request result }
        ensures printable { IsPrintable result }
        ensures closed { self.new.closed ≡ closed_by result }
        ensures open { closes result ≡ false → IsOpen self.new (D.view disk.new) }
        ensures causes { SubmitCauses (D.view disk.old) (D.view disk.new) result }
        ensures later { self.old.end ≤ self.new.end }
        ensures within { self.old.end < self.new.end → self.new.end ≤ 2 ^ 40 }
        ensures set { closes result ≡ false → IsSome (catalog_of self.new.core) }
    {
        match self.core.publish_entry(alloc) {
            Ok(entry) => self.commit(alloc, disk, entry),
            Err(why) => Reply::Refused(why),
        }
    }

    /// Takes the next terms into the merge, so many at most. Their pages are read from the disk where they aren't cached.
    fn slice<D: Disk>(&mut self, alloc: Global, disk: &mut D, most: u32) -> Reply
        requires open { IsOpen self.old (D.view disk.old) }
        requires set { IsSome (catalog_of self.old.core) }
        ensures submits { (s : State) (request : Submitted) → Serves self.old s → outcome_of s.served request ≡ merges (step.Slice most)
            → SubmitsOne (D.view disk.old) (D.view disk.new) self.old self.new s request result }
        ensures printable { IsPrintable result }
        ensures closed { self.new.closed ≡ closed_by result }
        ensures open { closes result ≡ false → IsOpen self.new (D.view disk.new) }
        ensures causes { SubmitCauses (D.view disk.old) (D.view disk.new) result }
        ensures later { self.old.end ≤ self.new.end }
        ensures within { self.old.end < self.new.end → self.new.end ≤ 2 ^ 40 }
        ensures set { closes result ≡ false → IsSome (catalog_of self.new.core) }
    {
        if !self.core.is_merging() {
            return Reply::Refused(Refusal::NoMerge);
        }
        match self.plan_slice(alloc, disk, most) {
            Ok(Some(entry)) => self.commit(alloc, disk, entry),
            Ok(None) => Reply::Left(self.core.left()),
            Err(fault) => stopped(fault),
        }
    }

    /// The next slice of the merge that is begun.
    fn plan_slice<D: Disk>(
        &mut self,
        alloc: Global,
        disk: &mut D,
        most: u32,
    ) -> Result<Option<Entry>, ScanFault>
        requires open { IsOpen self.old (D.view disk.old) }
        requires begun { IsSome (last_of self.old.core) }
        ensures plans { PlansNext self.old.core most self.old.end (D.view disk.old) (D.view disk.new) self.old.pages self.new.pages result }
        ensures may { IfOk result (λ entry. ForSome entry (MayCommit self.old.core)) }
        ensures open { IsOpen self.new (D.view disk.new) }
        ensures kept { self.new ≡ record self.old { pages = self.new.pages } }
    {
        let mut reader = Reader {
            pages: &mut self.pages,
            disk,
            reach: self.journal.end(),
        };
        plan(alloc, &self.core, most, &mut reader)
    }
}

/// Plans the next slice of a merge by a reader of the disk.
fn plan<D: Disk>(
    alloc: Global,
    core: &Core,
    most: u32,
    reader: &mut Reader<'_, D>,
) -> Result<Option<Entry>, ScanFault>
    requires begun { IsSome (last_of core.now) }
    requires ready { IsReady reader.old.reach (D.view reader.old.disk.now) reader.old.pages.now }
    ensures ready { IsReady reader.new.reach (D.view reader.new.disk.now) reader.new.pages.now }
    ensures reach { reader.new.reach ≡ reader.old.reach }
    ensures pages { reader.new.pages.ghost_name ≡ reader.old.pages.ghost_name }
    ensures disk { reader.new.disk.ghost_name ≡ reader.old.disk.ghost_name }
    ensures plans { PlansNext core.now most reader.old.reach (D.view reader.old.disk.now) (D.view reader.new.disk.now)
        reader.old.pages.now reader.new.pages.now result }
    ensures may { IfOk result (λ entry. ForSome entry (MayCommit core.now)) }
{
    let end = reader.reach;
    core.slice_entry(alloc, most, end, reader)
}
