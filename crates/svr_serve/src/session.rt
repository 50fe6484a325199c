ghost use Rattle.std.specs.Prelude.{◌≤◌};
ghost use Rattle.svr_edge.specs.Disk.{Leaves};
ghost use Rattle.svr_serve.specs.Program.{IsHalfMade};
ghost use Rattle.svr_serve.specs.Ran.{OpensSession};

use crate::ending::Ending;
use std::alloc::Global;
use svr_edge::Disk;
use svr_lines::Lines;
use svr_request::ReplyBuf;
use svr_store::Store;

/// How many bytes of input are read at most.
pub const INPUT_BYTES: u64 = 1 << 40;

/// What is served, and the room for the lines of the input and for a reply.
#[derive(Drop)]
pub(crate) struct Session {
    pub store: Store,
    pub lines: Lines,
    pub reply: ReplyBuf,
}

impl Session {
    /// Takes the room, and opens the store of a disk, which caches so many pages at most.
    pub fn open<D: Disk>(alloc: Global, disk: &mut D, cache: u32) -> Result<Session, Ending>
        ensures opens { OpensSession result cache (D.view disk.old) (D.view disk.new) }
        ensures later { (D.view disk.old).write_faults ≤ (D.view disk.new).write_faults }
        ensures images { Leaves (D.view disk.old) (D.view disk.new) (IsHalfMade (D.view disk.old)) }
    {
        let lines = Lines::new(alloc, INPUT_BYTES)?;
        let reply = ReplyBuf::new(alloc)?;
        Ok(Session {
            store: Store::open_store(alloc, disk, cache)?,
            lines,
            reply,
        })
    }
}
