ghost use Rattle.std.specs.Prelude.{◌≡◌, ◌≤◌, ◌+◌, ◌^◌, drop, get_or, length, ◌∷◌, IfOk, OnOk, OnErr};
ghost use Rattle.svr_edge.specs.Disk.{overwritten};
ghost use Rattle.svr_fakes.specs.Platter.{Platter, after_call, crashed, mixed, mixed_byte};
ghost use Rattle.svr_fakes.specs.Replaying.{IsReplay};

use crate::disk_call::{Call, Torn};
use std::alloc::{AllocError, Global};

/// Writes over what is there, and past the end.
pub fn put(bytes: &mut Vec<u8>, at: usize, piece: &[u8]) -> Result<(), AllocError>
    requires { at ≤ length bytes.old.items }
    ensures ok { OnOk result (bytes.new.items ≡ overwritten bytes.old.items at piece.now) }
    ensures err { OnErr result (bytes.new.items ≡ bytes.old.items) }
{
    let end = at + piece.len();
    if bytes.len() < end {
        bytes.resize(end, 0)?;
    }
    bytes[at..end].copy_from_slice(piece);
    Ok(())
}

/// Writes over what is there, from a place on or from the end.
fn put_anywhere(bytes: &mut Vec<u8>, at: u64, piece: &[u8]) -> Result<(), AllocError>
    ensures { OnOk result (bytes.new.items ≡ overwritten bytes.old.items at piece.now) }
{
    let at = at.min(bytes.len() as u64) as usize;
    put(bytes, at, piece)
}

/// The bytes from a place on, none where they end before it.
fn bytes_from(bytes: &[u8], at: u64) -> &[u8]
    ensures { result.now ≡ drop at bytes.now }
{
    let at = at.min(bytes.len() as u64) as usize;
    &bytes[at..]
}

/// The old byte, the new one, or 7.
fn mix_byte(turn: u128, old: u8, new: u8) -> u8
    ensures { result ≡ mixed_byte turn old new }
{
    if turn % 3 == 0 {
        old
    } else if turn % 3 == 1 {
        new
    } else {
        7
    }
}

/// A written piece, mixed with what stood there.
fn mix(alloc: Global, turn: u128, old: &[u8], piece: &[u8]) -> Result<Vec<u8>, AllocError>
    requires { turn ≤ 2 ^ 65 }
    ensures { IfOk result (λ bytes. bytes.items ≡ mixed turn old.now piece.now) }
{
    let mut bytes = Vec::new(alloc);
    for (place, new) in piece.iter().enumerate() {
        let old = old.get(place).copied().unwrap_or(0);
        bytes.push(mix_byte(turn + place as u128, old, *new))?;
    }
    Ok(bytes)
}

/// What a read gives, what stood there at the last sync, and what a crash makes of that and of the writes since.
#[derive(Drop)]
pub struct Replay {
    pub read: Vec<u8>,
    pub kept: Vec<u8>,
    pub image: Vec<u8>,
}

impl Replay {
    /// A disk of these bytes, as after a sync.
    pub fn new(alloc: Global, bytes: &[u8]) -> Result<Replay, AllocError>
        ensures { IfOk result (λ r. (r.read.items ≡ bytes.now) × (r.kept.items ≡ bytes.now) × (r.image.items ≡ bytes.now)) }
    {
        Ok(Replay {
            read: bytes.to_vec(alloc)?,
            kept: bytes.to_vec(alloc)?,
            image: bytes.to_vec(alloc)?,
        })
    }

    /// Goes on by a call.
    pub fn step(&mut self, alloc: Global, call: &Call, torn: Torn) -> Result<(), AllocError>
        ensures { OnOk result ((p : Platter) → IsReplay torn p self.old → IsReplay torn (after_call p call.now) self.new) }
    {
        match call {
            Call::Write { at, piece, done } => {
                self.tear(alloc, *at, piece.as_slice(), torn)?;
                if *done {
                    put_anywhere(&mut self.read, *at, piece.as_slice())?;
                }
            }
            Call::Sync { done } => {
                if *done {
                    self.kept = self.read.to_vec(alloc)?;
                    self.image = self.read.to_vec(alloc)?;
                }
            }
            Call::Len | Call::Read => {}
        }
        Ok(())
    }

    /// Makes of a write what a crash makes of it.
    fn tear(&mut self, alloc: Global, at: u64, piece: &[u8], torn: Torn) -> Result<(), AllocError>
        ensures same { OnOk result ((self.new.read ≡ self.old.read) × (self.new.kept ≡ self.old.kept)) }
        ensures image { OnOk result ((p : Platter) → IsReplay torn p self.old
            → self.new.image.items ≡ crashed torn p.kept ((at, piece.now) ∷ p.pending)) }
    {
        match torn {
            Torn::Old => Ok(()),
            Torn::New => put_anywhere(&mut self.image, at, piece),
            Torn::Mixed(number) => {
                let old = bytes_from(self.kept.as_slice(), at);
                let turn = u128::from(at) + u128::from(number);
                let mixed = mix(alloc, turn, old, piece)?;
                put_anywhere(&mut self.image, at, mixed.as_slice())
            }
        }
    }
}
