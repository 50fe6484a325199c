//! Searches over the pages of a disk.
ghost use Rattle.std.specs.Prelude.{◌≡◌};
ghost use Rattle.std.specs.Option.{IsSome};
ghost use Rattle.svr_core.specs.Kept.{catalog_of};
ghost use Rattle.svr_core.specs.Plans.{MayAsk};
ghost use Rattle.svr_pages.specs.Asked.{IsReady};
ghost use Rattle.svr_request.specs.Replies.{IsPrintable};
ghost use Rattle.svr_store.specs.Finding.{Finds, IsToSearch, reply_of};

use std::alloc::Global;
use svr_core::{Core, Query};
use svr_edge::Disk;
use svr_iter::ScanFault;
use svr_pages::Reader;
use svr_postpage::PageFault;
use svr_request::{Answer, Fault, Refusal, Reply};

/// The reply to a search that came out so.
fn reply_to(outcome: Result<Answer, ScanFault>) -> Reply
    ensures value { result ≡ reply_of outcome }
    ensures kind { IsToSearch result }
{
    match outcome {
        Ok(answer) => Reply::Found(answer),
        Err(ScanFault::Memory) => Reply::Refused(Refusal::Memory),
        Err(ScanFault::Page(PageFault::Read)) => Reply::Faulted(Fault::Read),
        Err(ScanFault::Page(PageFault::Damaged { at, .. })) => {
            Reply::Faulted(Fault::Damaged { page: at })
        }
    }
}

/// Answers a search by a reader of the disk.
pub(crate) fn find<D: Disk>(
    alloc: Global,
    core: &Core,
    query: &Query,
    reader: &mut Reader<'_, D>,
) -> Reply
    requires set { IsSome (catalog_of core.now) }
    requires query { MayAsk query.now }
    requires ready { IsReady reader.old.reach (D.view reader.old.disk.now) reader.old.pages.now }
    ensures ready { IsReady reader.new.reach (D.view reader.new.disk.now) reader.new.pages.now }
    ensures reach { reader.new.reach ≡ reader.old.reach }
    ensures pages { reader.new.pages.ghost_name ≡ reader.old.pages.ghost_name }
    ensures disk { reader.new.disk.ghost_name ≡ reader.old.disk.ghost_name }
    ensures finds { Finds core.now query.now reader.old.reach (D.view reader.old.disk.now) (D.view reader.new.disk.now)
        reader.old.pages.now reader.new.pages.now result }
    ensures kind { IsToSearch result }
    ensures printable { IsPrintable result }
{
    reply_to(core.search(alloc, query, reader))
}
