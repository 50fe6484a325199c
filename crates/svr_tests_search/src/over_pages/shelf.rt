ghost use Rattle.std.specs.Prelude.{◌≡◌, ◌<◌, ◌≤◌, ◌+◌, ◌^◌, IfOk, length};
ghost use Rattle.std.specs.List.Sorted.{IsStrictlyIncreasing};
ghost use Rattle.svr_fakes.specs.Flips.{flip_view};
ghost use Rattle.svr_pages.specs.Asked.{IsReady};

use crate::over_pages::asked::are_within;
use crate::over_pages::reader::OwnReader;
use crate::search::Table;
use std::alloc::Global;
use std::marker::Model;
use svr_edge::{Disk, Failed, Memory, Text};
use svr_fakes::{FlipDisk, MemDisk};
use svr_index::Index;
use svr_iter::ScanFault;
use svr_num::{DocId, Mode};
use svr_pages::Pages;
use svr_postpage::{PAGE_BYTES, PageFault, PageRef, read_page};
use svr_tokens::Tokens;
use svr_topk::Answer;

/// A disk to which pages are appended, what it is to hold, and the pages that are cached of it. It tells contracts no bytes, so that
/// its bytes may be changed under the cache. Contracts see what it is to hold, and its reader may be asked for pages at any time.
#[derive(Drop)]
pub struct Shelf {
    reader: OwnReader<FlipDisk>,
    bytes: Vec<u8>,
    /// The byte that is given inverted.
    flipped: Option<u64>,
    is_changed: bool,
}

impl Model for Shelf {
    ghost use Rattle.std.specs.Prelude.{ℕ, List};
    ghost use Rattle.svr_fakes.specs.Flips.{flip_view};
    ghost use Rattle.svr_pages.specs.Asked.{IsReady};

    ghost Value = { List ℕ };

    ghost view = { λ s. s.bytes.items };

    ghost invariant = { λ s. IsReady s.reader.reach (flip_view s.reader.disk) s.reader.pages };
}

/// Where the disk of a reader ends.
fn end_of(reader: &mut OwnReader<FlipDisk>) -> Result<u64, Failed>
    requires { IsReady reader.old.reach (flip_view reader.old.disk) reader.old.pages }
    ensures ready { IsReady reader.new.reach (flip_view reader.new.disk) reader.new.pages }
    ensures end { IfOk result (λ end. end ≡ (flip_view reader.new.disk).size) }
{
    reader.disk.len()
}

/// From now on a reader reads up to where its disk ends.
fn reach_end(reader: &mut OwnReader<FlipDisk>) -> Result<(), ScanFault>
    requires { IsReady reader.old.reach (flip_view reader.old.disk) reader.old.pages }
    ensures { IsReady reader.new.reach (flip_view reader.new.disk) reader.new.pages }
{
    match end_of(reader) {
        Ok(end) => {
            reader.reach = end;
            Ok(())
        }
        Err(_) => Err(ScanFault::Page(PageFault::Read)),
    }
}

/// Writes on the disk of a reader.
fn write(reader: &mut OwnReader<FlipDisk>, at: u64, bytes: &[u8]) -> Result<(), Memory>
    requires ready { IsReady reader.old.reach (flip_view reader.old.disk) reader.old.pages }
    requires inside { at ≤ (flip_view reader.old.disk).size }
    requires fits { at + length bytes.now ≤ 2 ^ 40 }
    ensures { IsReady reader.new.reach (flip_view reader.new.disk) reader.new.pages }
{
    match reader.disk.write_at(at, bytes) {
        Ok(()) => Ok(()),
        Err(_) => Err(Memory),
    }
}

/// The 4,096 bytes from an address on, if there are so many.
pub fn page_bytes(bytes: &[u8], at: u64) -> Option<[u8; 4096]> {
    let len = bytes.len() as u64;
    if len < PAGE_BYTES as u64 || at > len - PAGE_BYTES as u64 {
        return None;
    }
    let from = at as usize;
    let mut page = [0; PAGE_BYTES];
    page.copy_from_slice(&bytes[from..from + PAGE_BYTES]);
    Some(page)
}

impl Shelf {
    /// A disk of these bytes, with room for so many cached pages.
    pub fn new(alloc: Global, bytes: &[u8], cache: u32) -> Result<Shelf, Memory>
        ensures { IfOk result (λ shelf. shelf ≡ bytes.now) }
    {
        let disk = FlipDisk::new(MemDisk::new(bytes.to_vec(alloc)?, Vec::new(alloc)));
        let reader = OwnReader {
            pages: Pages::new(alloc, cache)?,
            disk,
            reach: 0,
        };
        Ok(Shelf {
            reader,
            bytes: bytes.to_vec(alloc)?,
            flipped: None,
            is_changed: false,
        })
    }

    /// What the disk is to hold.
    pub fn bytes(&self) -> &[u8]
        ensures { result.now ≡ self.now }
    {
        self.bytes.as_slice()
    }

    /// Appends bytes.
    pub fn append(&mut self, bytes: &[u8]) -> Result<(), Memory> {
        let Ok(end) = end_of(&mut self.reader) else {
            return Err(Memory);
        };
        if end > 1 << 30 || bytes.len() > 1 << 30 {
            return Err(Memory);
        }
        self.bytes.extend_from_slice(bytes)?;
        write(&mut self.reader, end, bytes)
    }

    /// What the pages are known by that were appended last, from an address on; none where some of them are no pages.
    pub fn pages_from(&self, alloc: Global, from: u64) -> Result<Vec<PageRef>, Memory> {
        let mut pages = Vec::new(alloc);
        let mut at = from;
        for _ in 0..self.bytes.len() {
            let Some(bytes) = page_bytes(&self.bytes, at) else {
                return Ok(pages);
            };
            if let Ok(page) = read_page(&bytes, at) {
                pages.push(page)?;
            }
            at = at.saturating_add(PAGE_BYTES as u64);
        }
        Ok(pages)
    }

    /// Writes one byte, on the disk and in what it is to hold.
    pub fn change(&mut self, at: u64, byte: u8) -> Result<(), Memory> {
        let Ok(end) = end_of(&mut self.reader) else {
            return Err(Memory);
        };
        if at >= end || end > 1 << 31 || at >= self.bytes.len() as u64 {
            return Err(Memory);
        }
        self.bytes[at as usize] = byte;
        self.is_changed = true;
        write(&mut self.reader, at, &[byte])
    }

    /// Inverts a byte of what the disk is to hold.
    fn invert(&mut self, at: u64) {
        if at < self.bytes.len() as u64 {
            let byte = self.bytes[at as usize];
            self.bytes[at as usize] = 255 - byte;
        }
    }

    /// From now on the disk gives this byte inverted, and no other.
    pub fn flip(&mut self, at: u64) {
        if let Some(before) = self.flipped {
            self.invert(before);
        }
        self.invert(at);
        self.flipped = Some(at);
        self.is_changed = true;
        self.reader.disk.flip(at, 0);
    }

    /// Whether a byte was changed or inverted since it was appended.
    pub fn is_changed(&self) -> bool {
        self.is_changed
    }

    /// The documents under a term.
    pub fn docs(
        &mut self,
        alloc: Global,
        index: &Index,
        term: &Text,
    ) -> Result<Vec<DocId>, ScanFault>
        ensures { IfOk result (λ ids. IsStrictlyIncreasing ids.items) }
    {
        reach_end(&mut self.reader)?;
        index.term_docs(alloc, term, &mut self.reader)
    }

    /// Searches. `None` where a score is above the bound of its key, which must not be.
    pub fn search(
        &mut self,
        alloc: Global,
        index: &Index,
        scores: &Table,
        terms: &Tokens,
        mode: Mode,
        k: u32,
    ) -> Result<Option<Answer>, ScanFault>
        requires some_terms { 0 < length terms.now }
        requires some { 0 < k }
        requires few { k ≤ 1000 }
    {
        if !are_within(index, scores) {
            return Ok(None);
        }
        reach_end(&mut self.reader)?;
        let answer = index.search(alloc, terms, mode, k, scores, &mut self.reader)?;
        Ok(Some(answer))
    }
}
