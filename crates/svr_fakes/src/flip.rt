ghost use Rattle.std.specs.Prelude.{◌≡◌, ◌⊎◌, ◌≤◌, ◌+◌, ◌^◌, ℕ, List, length, take, drop, Some, None, IfOk, OnOk, OnErr};
ghost use Rattle.svr_edge.specs.Disk.{IsSettled, IsTornImage, Leaves, MayWrite, ReadCause, Reads, Stays, WriteCause, Writes, traced};
ghost use Rattle.svr_fakes.specs.Flips.{flip_laws, flip_view, inverted};

use crate::disk::MemDisk;
use std::marker::Model;
use svr_edge::{Disk, Failed};

/// A disk over one in memory that tells no bytes and no reads, and of which a read may give one byte with all bits inverted.
#[derive(Drop)]
pub struct FlipDisk {
    inner: MemDisk,
    /// The place of that byte.
    place: Option<u64>,
    /// How many further reads give it as it is.
    after: u64,
}

impl Model for FlipDisk {
    ghost use Rattle.svr_fakes.specs.Flips.{FlipState};

    ghost Value = { FlipState };

    ghost view = { λ d. record { inner = d.inner; place = d.place; after = d.after } };
}

/// Inverts the byte of this place in bytes that were read from a place on, where it is among them.
fn invert(into: &mut [u8], at: u64, place: u64)
    ensures { into.new ≡ inverted into.old at place }
{
    if let Some(i) = place.checked_sub(at) {
        if i < into.len() as u64 {
            into[i as usize] = 255 - into[i as usize];
        }
    }
}

impl FlipDisk {
    /// A disk that gives each byte as it is.
    pub fn new(inner: MemDisk) -> FlipDisk
        ensures { result ≡ record { inner = inner; place = None; after = 0 } }
    {
        FlipDisk {
            inner,
            place: None,
            after: 0,
        }
    }

    /// From so many further reads on, each read that covers the byte of this place gives it inverted, and no other byte.
    pub fn flip(&mut self, at: u64, after: u64)
        ensures { self.new ≡ record self.old { place = Some at; after = after } }
    {
        self.place = Some(at);
        self.after = after;
    }
}

impl Disk for FlipDisk {
    ghost view = { flip_view };

    ghost laws = { flip_laws };

    fn len(&mut self) -> Result<u64, Failed> {
        self.inner.len()
    }

    fn read_at(&mut self, at: u64, into: &mut [u8]) -> Result<(), Failed> {
        let after = self.after;
        self.after = after.saturating_sub(1);
        self.inner.read_at(at, into)?;
        if let Some(place) = self.place {
            if after == 0 {
                invert(into, at, place);
            }
        }
        Ok(())
    }

    fn write_at(&mut self, at: u64, bytes: &[u8]) -> Result<(), Failed> {
        self.inner.write_at(at, bytes)
    }

    fn sync(&mut self) -> Result<(), Failed> {
        self.inner.sync()
    }
}
