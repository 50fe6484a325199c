ghost use Rattle.std.specs.Prelude.{◌≡◌, ◌≤◌, ◌<◌, ◌∷◌, ◌++◌, ℕ, List, [], drop, length, true, Some, IsSome, IfErr, OnOk};
ghost use Rattle.svr_iter.specs.MemPairs.{grouped};
ghost use Rattle.svr_iter.specs.Reader.{KeepsReader};
ghost use Rattle.svr_long.specs.Cursor.{first_key_of, page_pairs, pages_of_key, pairs_from, pairs_left};
ghost use Rattle.svr_long.specs.CursorLaws.{cursor-gone, cursor-lawful};
ghost use Rattle.svr_long.specs.Heads.{are_heads, are_paged, heads};
ghost use Rattle.svr_long.specs.Layout.{StepFails, Steps};

use crate::buffer::PageBuffer;
use std::alloc::Global;
use svr_iter::{LongSource, ScanFault};
use svr_num::DocId;
use svr_postpage::{PageReader, PageRef};

/// The key of the page at a place, if there is one.
fn key_at(pages: &[PageRef], at: usize) -> Option<u64>
    ensures { result ≡ first_key_of (heads (drop at pages.now)) }
{
    if at < pages.len() {
        Some(pages[at].key)
    } else {
        None
    }
}

/// The posted pairs of a term, group by group. It asks for a page only when a group is taken that the page begins or
/// continues, and for each page once; a page that was read stands in its own buffer.
#[derive(Drop)]
pub struct LongCursor<'a> {
    pages: &'a [PageRef],
    at: usize,
    buffer: PageBuffer,
    ghost in_order: { are_paged (buffer ++ heads (drop at pages.now)) ≡ true },
}

impl<'a> LongCursor<'a> {
    /// Nothing is read yet.
    pub fn new(pages: &'a [PageRef]) -> LongCursor<'a>
        requires { are_heads pages.now ≡ true }
        ensures groups { (bytes : List ℕ) → ⟦<LongCursor<'a> as LongSource>⟧.groups result bytes
            ≡ grouped (pairs_from (page_pairs bytes) pages.now) }
        ensures next { ⟦<LongCursor<'a> as LongSource>⟧.next result ≡ first_key_of (heads pages.now) }
        ensures pages { (key : ℕ) → ⟦<LongCursor<'a> as LongSource>⟧.pages result key ≡ pages_of_key key pages.now }
    {
        LongCursor {
            pages,
            at: 0,
            buffer: PageBuffer::new(),
        }
    }

    /// Reads the next page.
    fn read<R: PageReader>(&mut self, reader: &mut R) -> Result<(), ScanFault>
        requires ready { R.ready reader.old }
        requires left { self.old.at < length self.old.pages.now }
        requires none { self.old.buffer ≡ [] }
        ensures steps { (ids : List ℕ) → OnOk result (Steps R.gives (R.told reader.old) self.old.buffer (drop self.old.at self.old.pages.now)
            self.new.buffer (drop self.new.at self.new.pages.now) ids ids reader.old reader.new) }
        ensures fails { IfErr result (StepFails R.fails self.old.buffer (drop self.old.at self.old.pages.now) reader.old reader.new) }
        ensures pages { self.new.pages ≡ self.old.pages }
        ensures reader { KeepsReader R.told R.ready R.faults reader.old reader.new result }
    {
        let at = self.at;
        let pages = self.pages;
        self.buffer.read(reader, &pages[at], &pages[at + 1..])?;
        self.at = at + 1;
        Ok(())
    }

    /// Takes the id of the first pair that was read, or reads the next page.
    fn step<R: PageReader>(&mut self, reader: &mut R, ids: &mut Vec<DocId>) -> Result<(), ScanFault>
        requires ready { R.ready reader.old }
        requires some { IsSome (first_key_of (self.old.buffer ++ heads (drop self.old.at self.old.pages.now))) }
        ensures steps { OnOk result (Steps R.gives (R.told reader.old) self.old.buffer (drop self.old.at self.old.pages.now)
            self.new.buffer (drop self.new.at self.new.pages.now) ids.old.items ids.new.items reader.old reader.new) }
        ensures fails { IfErr result (StepFails R.fails self.old.buffer (drop self.old.at self.old.pages.now) reader.old reader.new) }
        ensures pages { self.new.pages ≡ self.old.pages }
        ensures reader { KeepsReader R.told R.ready R.faults reader.old reader.new result }
    {
        match self.buffer.first() {
            Some(pair) => {
                self.buffer.pass();
                match ids.push(pair.id) {
                    Ok(()) => Ok(()),
                    Err(_) => Err(ScanFault::Memory),
                }
            }
            None => self.read(reader),
        }
    }
}

impl<'a> LongSource for LongCursor<'a> {
    ghost groups = { λ c told. grouped (pairs_left told c.buffer (drop c.at c.pages.now)) };

    ghost next = { λ c. first_key_of (c.buffer ++ heads (drop c.at c.pages.now)) };

    ghost pages = { λ c key. pages_of_key key (drop c.at c.pages.now) };

    ghost lawful = { λ c told. cursor-lawful told c.buffer (drop c.at c.pages.now) c.in_order };

    ghost gone = { λ c key. cursor-gone key c.buffer (drop c.at c.pages.now) c.in_order };

    fn next_key(&self) -> Option<u64> {
        match self.buffer.first() {
            Some(pair) => Some(pair.key),
            None => key_at(self.pages, self.at),
        }
    }

    fn take_group<R: PageReader>(
        &mut self,
        alloc: Global,
        reader: &mut R,
        ids: &mut Vec<DocId>,
    ) -> Result<(), ScanFault> {
        let key = match self.next_key() {
            Some(key) => key,
            None => return Ok(()),
        };
        ids.clear();
        while self.next_key() == Some(key) {
            self.step(reader, ids)?;
        }
        Ok(())
    }
}
