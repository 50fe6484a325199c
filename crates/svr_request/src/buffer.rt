ghost use Rattle.std.specs.Prelude.{◌≡◌, ◌+◌, ◌≤◌, [], ◌++◌, length, IfOk};
ghost use Rattle.std.specs.Fmt.{decimal};

use itoa::Buffer;
use std::alloc::Global;
use std::marker::Model;
use svr_edge::Memory;

/// The room for one reply, in bytes: more than the longest reply takes.
pub(crate) const REPLY_BYTES: usize = 65_536;

/// Room for the text of one reply, taken once. Contracts see the bytes in it.
#[derive(Drop)]
pub struct ReplyBuf {
    bytes: Vec<u8>,
}

impl Model for ReplyBuf {
    ghost use Rattle.std.specs.Prelude.{List, ℕ, ◌≤◌, vec_capacity};
    ghost use Rattle.svr_request.specs.declared.buffer.TheConstants.{REPLY_BYTES};

    ghost Value = { List ℕ };

    ghost view = { λ b. b.bytes.items };

    ghost invariant = { λ b. REPLY_BYTES ≤ vec_capacity b.bytes };
}

impl ReplyBuf {
    pub fn new(alloc: Global) -> Result<ReplyBuf, Memory>
        ensures { IfOk result (λ buffer. buffer ≡ []) }
    {
        Ok(ReplyBuf {
            bytes: Vec::with_capacity(alloc, REPLY_BYTES)?,
        })
    }

    /// The text of the reply that was printed last.
    pub fn bytes(&self) -> &[u8]
        ensures { result.now ≡ self.now }
    {
        self.bytes.as_slice()
    }

    pub(crate) fn clear(&mut self)
        ensures { self.new ≡ [] }
    {
        self.bytes.clear();
    }

    pub(crate) fn put(&mut self, piece: &[u8])
        requires { length self.old + length piece.now ≤ REPLY_BYTES }
        ensures { self.new ≡ self.old ++ piece.now }
    {
        self.bytes.extend_from_slice(piece).unwrap();
    }

    pub(crate) fn put_number(&mut self, number: u64)
        requires { length self.old + 20 ≤ REPLY_BYTES }
        ensures digits { self.new ≡ self.old ++ decimal number }
        ensures few { length self.new ≤ length self.old + 20 }
    {
        let mut digits = Buffer::new();
        self.put(digits.format(number).as_bytes());
    }
}
