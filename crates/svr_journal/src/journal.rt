ghost use Rattle.std.specs.Prelude.{◌≡◌, ◌≤◌, ◌<◌, ◌+◌, ◌^◌, ◌↔◌, ◌++◌, ◌∷◌, [], ℕ, List, min, length, take, drop};
ghost use Rattle.std.specs.Prelude.{Err, IfOk, IfErr, OnOk, OnErr, IsTrue, MatchOption, Contains};
ghost use Rattle.svr_edge.specs.Causes.{Rose};
ghost use Rattle.svr_edge.specs.Disk.{IsSettled, IsTornImage, Leaves, Reads, Stays, WriteCause};
ghost use Rattle.svr_journal.specs.Ahead.{IsAhead};
ghost use Rattle.svr_journal.specs.Causes.{OpenCauses, ReadsAlone};
ghost use Rattle.svr_journal.specs.File.{StandsFor, StandsForSome, end_of};
ghost use Rattle.svr_journal.specs.Gates.{FitsBehind, NextAnswers, found_of, first_gate, gate_of};
ghost use Rattle.svr_journal.specs.Opening.{OpenAnswers, opened_bytes};
ghost use Rattle.svr_journal.specs.Keeping.{IsSafe, IsStored, SameBelow};
ghost use Rattle.svr_journal.specs.Staging.{IsStaged};

use crate::ahead::ReadAhead;
use crate::faults::{AppendFault, JournalError};
use crate::frame::Frame;
use std::marker::Model;
use svr_edge::{Disk, Failed, write_synced};

/// A journal that was read to its end. Contracts see the place of its closed gate.
#[derive(Drop)]
pub struct Journal {
    end: u64,
    size: u64,
}

impl Model for Journal {
    ghost use Rattle.svr_journal.specs.Place.{Place};

    ghost Value = { Place };

    ghost view = { λ j. record { end = j.end; size = j.size } };
}

/// The greatest length of a body.
const BODY_BYTES: u64 = 1 << 24;

/// How long a journal may grow.
const MOST: u64 = 1 << 40;

/// Whether a record whose body has so many bytes fits behind the closed gate at `end`.
pub fn fits(end: u64, length: u64) -> bool
    ensures { IsTrue result ↔ (end + 6 + length ≤ 2 ^ 40) }
{
    end <= MOST && length <= MOST && end + 6 + length <= MOST
}

impl Journal {
    /// The place of the closed gate.
    pub fn end(&self) -> u64
        ensures { result ≡ self.now.end }
    {
        self.end
    }

    /// Appends a record, and answers the address of its body. At `Ok` it outlasts a crash.
    pub fn append<D: Disk>(&mut self, disk: &mut D, frame: &Frame) -> Result<u64, AppendFault>
        requires { self.old.end < (D.view disk.old).size }

        ensures address { IfOk result (λ at. at ≡ self.old.end + 5) }
        ensures end { OnOk result (self.new.end ≡ self.old.end + 5 + length frame.now) }
        ensures err { OnErr result (self.new ≡ self.old) }
        ensures size { OnOk result (self.new.end < (D.view disk.new).size) }
        // What stands in front of the closed gate stays.
        ensures below { OnOk result (SameBelow self.old.end (D.view disk.old) (D.view disk.new)) }

        ensures stored { (bodies : List (List ℕ)) → IsStored (D.view disk.old) self.old.end bodies
            → OnOk result (IsStored (D.view disk.new) self.new.end (bodies ++ frame.now ∷ [])) }

        // Whenever a crash comes, the records from before are there, with the new one or without.
        ensures any_moment { (bodies : List (List ℕ)) → IsStored (D.view disk.old) self.old.end bodies → IsSafe (D.view disk.old) bodies
            → Leaves (D.view disk.old) (D.view disk.new) (StandsForSome bodies (frame.now ∷ [])) }
        ensures safe { (bodies : List (List ℕ)) → IsStored (D.view disk.old) self.old.end bodies → IsSafe (D.view disk.old) bodies
            → OnOk result (IsSafe (D.view disk.new) (bodies ++ frame.now ∷ [])) }

        ensures full { (result ≡ Err AppendFault.Full) ↔ (2 ^ 40 < self.old.end + 6 + length frame.now) }
        ensures untouched { result ≡ Err AppendFault.Full → disk.new ≡ disk.old }
        ensures write { result ≡ Err AppendFault.Write → Rose (D.view disk.old).write_faults (D.view disk.new).write_faults }
        ensures later { (D.view disk.old).write_faults ≤ (D.view disk.new).write_faults }
        ensures reads { (D.view disk.new).read_faults ≡ (D.view disk.old).read_faults }
        ensures trace { (D.view disk.new).trace ≡ (D.view disk.old).trace }
    {
        let length = frame.body_bytes();
        if !fits(self.end, length) {
            return Err(AppendFault::Full);
        }
        stage(disk, self.end, frame)?;
        open_gate(disk, self.end, length)?;
        let address = self.end + 5;
        self.end = address + length;
        Ok(address)
    }
}

/// Writes a record behind the closed gate at a place, and syncs. Whenever a crash comes, the records from before stand, and no other.
fn stage<D: Disk>(disk: &mut D, end: u64, frame: &Frame) -> Result<(), Failed>
    requires inside { end < (D.view disk.old).size }
    requires fits { end + 6 + length frame.now ≤ 2 ^ 40 }
    ensures kept { (bodies : List (List ℕ)) → end ≡ end_of bodies → IsSafe (D.view disk.old) bodies
        → Leaves (D.view disk.old) (D.view disk.new) (λ image. StandsFor image bodies) }
    ensures staged { (bodies : List (List ℕ)) → IsStored (D.view disk.old) end bodies
        → OnOk result (IsStaged (D.view disk.new) end bodies frame.now) }
    ensures size { OnOk result (end + 6 + length frame.now ≤ (D.view disk.new).size) }
    ensures below { OnOk result (SameBelow end (D.view disk.old) (D.view disk.new)) }
    ensures cause { WriteCause (D.view disk.old) (D.view disk.new) result }
{
    write_synced(disk, end + 1, frame.bytes())
}

/// Opens the closed gate at a place, and syncs. Whenever a crash comes, the record behind it is there or not.
fn open_gate<D: Disk>(disk: &mut D, end: u64, count: u64) -> Result<(), Failed>
    requires inside { end + 6 + count ≤ (D.view disk.old).size }
    requires fits { end + 6 + count ≤ 2 ^ 40 }
    ensures torn { (bodies : List (List ℕ)) (body : List ℕ) → IsStaged (D.view disk.old) end bodies body
        → Leaves (D.view disk.old) (D.view disk.new) (StandsForSome bodies (body ∷ [])) }
    ensures stored { (bodies : List (List ℕ)) (body : List ℕ) → IsStaged (D.view disk.old) end bodies body → count ≡ length body
        → OnOk result (IsStored (D.view disk.new) (end + 5 + count) (bodies ++ body ∷ [])) }
    ensures safe { (bodies : List (List ℕ)) (body : List ℕ) → IsStaged (D.view disk.old) end bodies body
        → OnOk result (IsSafe (D.view disk.new) (bodies ++ body ∷ [])) }
    ensures size { OnOk result (end + 6 + count ≤ (D.view disk.new).size) }
    ensures below { OnOk result (SameBelow end (D.view disk.old) (D.view disk.new)) }
    ensures cause { WriteCause (D.view disk.old) (D.view disk.new) result }
{
    write_synced(disk, end, &[1])
}

/// What stands at a gate.
#[derive(Clone, Copy, Debug, PartialEq, Eq)]
enum Found {
    Shut,
    Broken,
    /// A record, whose body has so many bytes.
    Record(u64),
}

/// What stands at a gate, by the bytes from it on, five at most, and the number of all bytes from it on.
fn look(head: &[u8], left: u64) -> Found
    requires size { length head.now ≡ min left 5 }
    ensures found { (bytes : List ℕ) → head.now ≡ take 5 bytes → left ≡ length bytes → found_of (gate_of bytes) ≡ result }
    ensures fits { FitsBehind 0 left result }
{
    match head {
        [] => Found::Broken,
        [1, a, b, c, d] => {
            let length = u64::from(u32::from_be_bytes([*a, *b, *c, *d]));
            if 1 <= length && length <= BODY_BYTES && length <= left - 5 {
                Found::Record(length)
            } else {
                Found::Broken
            }
        }
        [1, ..] => Found::Broken,
        _ => Found::Shut,
    }
}

/// Reads what stands at the gate at a place.
fn read_gate<D: Disk>(
    disk: &mut D,
    ahead: &mut ReadAhead,
    place: u64,
    size: u64,
) -> Result<Found, JournalError>
    requires size { size ≡ (D.view disk.old).size }
    requires ahead { IsAhead ahead.old (D.view disk.old) }
    ensures found { (bytes : List ℕ) → Reads (D.view disk.old) bytes → IfOk result (λ found. found_of (gate_of (drop place bytes)) ≡ found) }
    ensures fits { IfOk result (FitsBehind place size) }
    ensures journal { IfErr result (λ e. Contains (JournalError.Device ∷ JournalError.Memory ∷ []) e) }
    ensures ahead { IsAhead ahead.new (D.view disk.new) }
    ensures reads { ReadsAlone (D.view disk.old) (D.view disk.new) result }
{
    if size <= place {
        return Ok(Found::Broken);
    }
    let left = size - place;
    let count = left.min(5);
    ahead.cover(disk, place, count, size)?;
    Ok(look(ahead.piece(place, count), left))
}

impl Journal {
    /// Finds the next record, whose body `ahead` then gives, and answers the address of its body; `None` at the closed gate.
    pub fn next<D: Disk>(
        &mut self,
        disk: &mut D,
        ahead: &mut ReadAhead,
    ) -> Result<Option<u64>, JournalError>
        requires size { self.old.size ≡ (D.view disk.old).size }
        requires ahead { IsAhead ahead.old (D.view disk.old) }
        ensures answer { (bytes : List ℕ) → Reads (D.view disk.old) bytes
            → NextAnswers (gate_of (drop self.old.end bytes)) self.old.end result ahead.new.body }
        // The bodies that the disk stands for come in order.
        ensures in_order { (bytes : List ℕ) (done left : List (List ℕ)) → Reads (D.view disk.old) bytes → StandsFor bytes (done ++ left)
            → self.old.end ≡ end_of done → NextAnswers (first_gate left) self.old.end result ahead.new.body }
        ensures found { IfOk result (λ found. MatchOption found ((self.new ≡ self.old) × (self.old.end < self.old.size))
            (λ at. (at ≡ self.old.end + 5) × (self.new ≡ record self.old { end = at + length ahead.new.body }) × (self.new.end ≤ self.new.size))) }
        ensures err { OnErr result (self.new ≡ self.old) }
        ensures ahead { IsAhead ahead.new (D.view disk.new) }
        ensures reads { ReadsAlone (D.view disk.old) (D.view disk.new) result }
    {
        self.step(disk, ahead)
    }

    /// Finds the record at the next gate, whatever the bytes are.
    fn step<D: Disk>(
        &mut self,
        disk: &mut D,
        ahead: &mut ReadAhead,
    ) -> Result<Option<u64>, JournalError>
        requires size { self.old.size ≡ (D.view disk.old).size }
        requires ahead { IsAhead ahead.old (D.view disk.old) }
        ensures answer { (bytes : List ℕ) → Reads (D.view disk.old) bytes
            → NextAnswers (gate_of (drop self.old.end bytes)) self.old.end result ahead.new.body }
        ensures found { IfOk result (λ found. MatchOption found ((self.new ≡ self.old) × (self.old.end < self.old.size))
            (λ at. (at ≡ self.old.end + 5) × (self.new ≡ record self.old { end = at + length ahead.new.body }) × (self.new.end ≤ self.new.size))) }
        ensures err { OnErr result (self.new ≡ self.old) }
        ensures ahead { IsAhead ahead.new (D.view disk.new) }
        ensures reads { ReadsAlone (D.view disk.old) (D.view disk.new) result }
    {
        match read_gate(disk, ahead, self.end, self.size)? {
            Found::Shut => Ok(None),
            Found::Broken => Err(JournalError::NotAJournal { at: self.end }),
            Found::Record(length) => {
                let address = self.end + 5;
                ahead.find_body(disk, address, length, self.size)?;
                self.end = address + length;
                Ok(Some(address))
            }
        }
    }
}

const MAGIC: [u8; 8] = *b"SVRJ0001";

impl Journal {
    /// Opens the journal of a disk, at its first gate. An empty disk gets one without a record.
    pub fn open_journal<D: Disk>(disk: &mut D) -> Result<Journal, JournalError>
        ensures answer { (bytes : List ℕ) → Reads (D.view disk.old) bytes → OpenAnswers bytes result }
        ensures place { IfOk result (λ journal. (journal ≡ record { end = 8; size = (D.view disk.new).size }) × (8 ≤ (D.view disk.new).size)) }
        ensures content { (bytes : List ℕ) → Reads (D.view disk.old) bytes → OnOk result (Reads (D.view disk.new) (opened_bytes bytes)) }
        ensures settled { OnOk result (IsSettled (D.view disk.new)) }
        ensures stays { 0 < (D.view disk.old).size → Stays (D.view disk.old) (D.view disk.new) }
        // Of an empty disk a crash may leave anything in the first nine bytes.
        ensures images { Leaves (D.view disk.old) (D.view disk.new) (IsTornImage (D.view disk.old) 0 9) }
        ensures causes { OpenCauses (D.view disk.old) (D.view disk.new) result }
    {
        disk.sync()?;
        let size = disk.len()?;
        if size == 0 {
            write_synced(disk, 0, b"SVRJ0001\0")?;
            return Ok(Journal { end: 8, size: 9 });
        }
        if size < 8 {
            return Err(JournalError::NotAJournal { at: 0 });
        }
        let mut head = [0; 8];
        disk.read_at(0, &mut head)?;
        if head != MAGIC {
            return Err(JournalError::NotAJournal { at: 0 });
        }
        Ok(Journal { end: 8, size })
    }
}
