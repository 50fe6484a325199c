ghost use Rattle.std.specs.Prelude.{◌≡◌, ℕ, ◌+◌, ◌<◌, ◌≤◌, ◌++◌, true, false, [], List, take, length, min, Ok, IfOk, OnOk, OnErr, IsErrOf, if◌then◌else◌};
ghost use Rattle.svr_lines.specs.Pieces.{TakesBlock, block_at_end};
ghost use Rattle.svr_lines.specs.Reading.{taken_bytes, KnowsEnd, Reads};
ghost use Rattle.svr_lines.specs.Stops.{HasStopCauses, StopsInBlock};
ghost use Rattle.svr_lines.specs.Layout.Steps.{Passes};

use crate::buffer::append;
use crate::lines::{BLOCK_BYTES, BlockEnd, InputStop, Lines};
use svr_edge::Source;

impl Lines {
    /// The block that was handed out last; no bytes, where it was dropped. The next call of `block` loses it.
    pub fn block_bytes(&self) -> &[u8]
        ensures { result.now ≡ self.now.block }
    {
        self.block.as_slice()
    }

    /// Begins a block, with no bytes.
    fn clear_block(&mut self)
        ensures { self.new ≡ record self.old { block = [] } }
    {
        self.block.clear();
    }

    /// Takes what is ahead, at most `most` bytes, into the block where it is kept, and answers how many it took.
    fn take_part(&mut self, most: u64, kept: bool) -> u64
        requires { kept ≡ true → length self.old.block + most ≤ BLOCK_BYTES }
        ensures count { result ≡ min most (length self.old.ahead) }
        ensures passes { Passes self.old self.new result }
        ensures block { self.new.block ≡ (if kept then self.old.block ++ take result self.old.ahead else self.old.block) }
        ensures ended { self.new.ended ≡ self.old.ended }
    {
        let count = most.min((self.end - self.start) as u64) as usize;
        if kept {
            append(
                &mut self.block,
                &self.buffer[self.start..self.start + count],
            );
        }
        self.pass_over(count);
        count as u64
    }

    /// Takes exactly the next `size` bytes, or as many as there are up to the end of the input. After a stop the reader
    /// is spent, and is only dropped: a part of the block may be lost.
    pub fn block<S: Source>(&mut self, input: &mut S, size: u64) -> Result<BlockEnd, InputStop>
        requires { KnowsEnd self.old (S.left input.old) }
        ensures block { IfOk result (λ end. (gone bytes : List ℕ)
            × Reads (S.left input.old) (S.left input.new) self.old self.new gone bytes
            × TakesBlock end size gone self.new (S.left input.new)) }
        ensures stop { OnErr result ((bytes : List ℕ)
            × StopsInBlock (S.left input.old) (S.left input.new) self.old self.new size bytes) }

        // Behind the end that was seen there is nothing.
        ensures known_end { OnOk result (KnowsEnd self.new (S.left input.new)) }
        ensures after_end { self.old.ended ≡ true → result ≡ Ok (block_at_end size) }
        ensures ended { self.old.ended ≡ true → (self.new.ended ≡ true) × (taken_bytes self.new ≡ taken_bytes self.old) }

        // No more bytes are taken than may be, which is tested before the end.
        ensures before_limit { OnOk result (self.old.ended ≡ false → self.new.ended ≡ true
            → taken_bytes self.new < self.new.limit) }
        ensures causes { HasStopCauses (S.faults input.old) (S.faults input.new) self.new result }
    {
        self.clear_block();
        let kept = size <= BLOCK_BYTES as u64;
        let mut missing = size;
        loop {
            missing -= self.take_part(missing, kept);
            if missing == 0 {
                return Ok(if kept {
                    BlockEnd::Whole
                } else {
                    BlockEnd::Dropped
                });
            }
            if self.read_on(input)? == 0 {
                return Ok(BlockEnd::Cut);
            }
        }
    }
}
