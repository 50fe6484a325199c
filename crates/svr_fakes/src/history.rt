ghost use Rattle.std.specs.Prelude.{true, false, ◌≡◌, ◌≤◌, length, [], IfOk, OnOk, OnErr};
ghost use Rattle.svr_edge.specs.Disk.{overwritten};
ghost use Rattle.svr_fakes.specs.Platter.{MayNote, Platter, after_call, bytes_now, crashed, noted, platter_at, platter_of};

use crate::disk_call::{Call, Torn};
use crate::replay::{Replay, put};
use std::alloc::{AllocError, Global};
use std::marker::Model;
use svr_edge::Items;

/// A disk by its calls. From its first write on it has its bytes beside them.
#[derive(Drop)]
pub struct History {
    first: Items<u8>,
    alloc: Global,
    bytes: Option<Items<u8>>,
    calls: Vec<Call>,
}

impl Model for History {
    ghost use Rattle.std.specs.Prelude.{◌≡◌};
    ghost use Rattle.svr_fakes.specs.Platter.{Past, after_calls, bytes_now, whole};

    ghost Value = { Past };

    ghost view = { λ h. record { first = h.first; calls = h.calls.items } };

    ghost invariant = { λ h. bytes_now h.first h.bytes ≡ (after_calls (whole h.first) h.calls.items).read };
}

/// Writes over what is there now, or over what is there at first.
fn put_now(
    alloc: Global,
    first: &Items<u8>,
    bytes: &mut Option<Items<u8>>,
    at: usize,
    piece: &[u8],
) -> Result<(), AllocError>
    requires { at ≤ length (bytes_now first.now bytes.old) }
    ensures ok { OnOk result (bytes_now first.now bytes.new ≡ overwritten (bytes_now first.now bytes.old) at piece.now) }
    ensures err { OnErr result (bytes_now first.now bytes.new ≡ bytes_now first.now bytes.old) }
{
    let mut now = match bytes.take() {
        Some(now) => now.into_vec(),
        None => first.as_slice().to_vec(alloc)?,
    };
    let result = put(&mut now, at, piece);
    *bytes = Some(Items::from_vec(now));
    result
}

impl History {
    /// A disk of these bytes that has got no call.
    pub fn new(bytes: Vec<u8>) -> History
        ensures { result ≡ record { first = bytes.items; calls = [] } }
    {
        let alloc = *bytes.allocator();
        History {
            first: Items::from_vec(bytes),
            alloc,
            bytes: None,
            calls: Vec::new(alloc),
        }
    }

    /// The bytes now.
    pub fn bytes(&self) -> &[u8]
        ensures { result.now ≡ (platter_of self.now).read }
    {
        match &self.bytes {
            Some(bytes) => bytes.as_slice(),
            None => self.first.as_slice(),
        }
    }

    /// How many calls are kept.
    pub fn calls(&self) -> usize
        ensures { result ≡ length self.now.calls }
    {
        self.calls.len()
    }

    /// Notes a call that changes no byte, and answers whether memory sufficed.
    pub fn note(&mut self, call: Call) -> bool
        requires { (p : Platter) → (after_call p call).read ≡ p.read }
        ensures noted { result ≡ true → self.new ≡ noted self.old call }
        ensures not_noted { result ≡ false → self.new ≡ self.old }
        ensures may { MayNote self.old self.new call }
        ensures read { (platter_of self.new).read ≡ (platter_of self.old).read }
    {
        match self.try_note(call) {
            Ok(()) => true,
            Err(_) => false,
        }
    }

    fn try_note(&mut self, call: Call) -> Result<(), AllocError>
        requires { (p : Platter) → (after_call p call).read ≡ p.read }
        ensures ok { OnOk result (self.new ≡ noted self.old call) }
        ensures err { OnErr result (self.new ≡ self.old) }
        ensures read { (platter_of self.new).read ≡ (platter_of self.old).read }
    {
        Ok(self.calls.push(call)?)
    }

    /// Notes a write, makes it where it is done, and answers whether memory sufficed.
    pub fn note_write(&mut self, at: u64, piece: &[u8], done: bool) -> bool
        requires { at ≤ length (platter_of self.old).read }
        ensures noted { result ≡ true → self.new ≡ noted self.old (Call.Write at piece.now done) }
        ensures not_noted { result ≡ false → self.new ≡ self.old }
        ensures may { MayNote self.old self.new (Call.Write at piece.now done) }
    {
        match self.try_write(at, piece, done) {
            Ok(()) => true,
            Err(_) => false,
        }
    }

    fn try_write(&mut self, at: u64, piece: &[u8], done: bool) -> Result<(), AllocError>
        requires { at ≤ length (platter_of self.old).read }
        ensures ok { OnOk result (self.new ≡ noted self.old (Call.Write at piece.now done)) }
        ensures err { OnErr result (self.new ≡ self.old) }
    {
        let alloc = self.alloc;
        let kept = Items::from_vec(piece.to_vec(alloc)?);
        self.calls.push(Call::Write {
            at,
            piece: kept,
            done,
        })?;
        if done {
            if let Err(error) = put_now(alloc, &self.first, &mut self.bytes, at as usize, piece) {
                let _ = self.calls.pop();
                return Err(error);
            }
        }
        Ok(())
    }

    /// What a crash after the first `calls` calls leaves.
    pub fn crash(&self, alloc: Global, calls: usize, torn: Torn) -> Result<Vec<u8>, AllocError>
        requires { calls ≤ length self.now.calls }
        ensures { IfOk result (λ image. let p = platter_at self.now calls in image.items ≡ crashed torn p.kept p.pending) }
    {
        let mut replay = Replay::new(alloc, self.first.as_slice())?;
        for call in &self.calls[..calls] {
            replay.step(alloc, call, torn)?;
        }
        Ok(replay.image)
    }
}
