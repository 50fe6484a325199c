ghost use Rattle.std.specs.Prelude.{◌≡◌, ◌≤◌, [], drop, filter, length, slice_get, take, IfErr, OnErr, OnOk};
ghost use Rattle.svr_iter.specs.Reader.{KeepsReader};
ghost use Rattle.svr_postpage.specs.Pages.{pairs_of};
ghost use Rattle.svr_long.specs.Cursor.{is_ahead, kept};
ghost use Rattle.svr_long.specs.Layout.{FailsAs, IsFaultOf, ReadsPage};

use crate::heads::first_pair;
use std::marker::Model;
use svr_iter::ScanFault;
use svr_postpage::{PageReader, PageRef, Pair, pair_at};

/// Whether a pair stands in front of the first of the pages behind its own, if there is one.
fn is_ahead(pair: &Pair, pages: &[PageRef]) -> bool
    ensures { result ≡ is_ahead pages.now pair.now }
{
    match pages.first() {
        Some(next) => pair.is_before(&first_pair(next)),
        None => true,
    }
}

/// How many of the first pairs of a page stand in front of the pages behind it. It looks at the last pairs first.
fn pairs_ahead(bytes: &[u8; 4096], count: u16, pages: &[PageRef]) -> u16
    requires count { count ≡ length (pairs_of bytes.now) }
    ensures within { result ≤ length (pairs_of bytes.now) }
    ensures ahead { take result (pairs_of bytes.now) ≡ kept pages.now (pairs_of bytes.now) }
{
    let mut end = count;
    while end > 0 && !is_ahead(&pair_at(bytes, end - 1), pages) {
        end -= 1;
    }
    end
}

/// The page that was read last, with the place of the first of its pairs that is left, and that behind the last one. Contracts
/// see these pairs.
#[derive(Drop)]
pub struct PageBuffer {
    bytes: [u8; 4096],
    place: u16,
    end: u16,
}

impl Model for PageBuffer {
    ghost use Rattle.std.specs.Prelude.{◌≤◌, List, length, slice_range};
    ghost use Rattle.svr_postpage.specs.declared.pair.Pair.{Pair};
    ghost use Rattle.svr_postpage.specs.Pages.{pairs_of};

    ghost Value = { List Pair };

    ghost view = { λ b. slice_range (pairs_of b.bytes) b.place b.end };

    ghost invariant = { λ b. (b.place ≤ b.end) × (b.end ≤ length (pairs_of b.bytes)) };
}

impl PageBuffer {
    /// No page was read yet.
    pub fn new() -> PageBuffer
        ensures { result ≡ [] }
    {
        PageBuffer {
            bytes: [0; 4096],
            place: 0,
            end: 0,
        }
    }

    /// The first pair that is left.
    pub fn first(&self) -> Option<Pair>
        ensures { result ≡ slice_get self.now 0 }
    {
        if self.place < self.end {
            Some(pair_at(&self.bytes, self.place))
        } else {
            None
        }
    }

    /// Passes over that pair.
    pub fn pass(&mut self)
        ensures { self.new ≡ drop 1 self.old }
    {
        if self.place < self.end {
            self.place += 1;
        }
    }

    /// Reads a page, and leaves those of its pairs that stand in front of the pages behind it; none after an error.
    pub fn read<R: PageReader>(
        &mut self,
        reader: &mut R,
        page: &PageRef,
        pages: &[PageRef],
    ) -> Result<(), ScanFault>
        requires ready { R.ready reader.old }
        ensures reads { OnOk result (ReadsPage (R.told reader.old) page.now pages.now self.new) }
        ensures err { OnErr result (self.new ≡ []) }
        ensures fault { IfErr result (IsFaultOf page.now (R.told reader.old)) }
        ensures gives { OnOk result (R.gives reader.old page.now reader.new) }
        ensures fails { IfErr result (FailsAs R.fails reader.old page.now reader.new) }
        ensures reader { KeepsReader R.told R.ready R.faults reader.old reader.new result }
    {
        self.place = 0;
        self.end = 0;
        match reader.page(page, &mut self.bytes) {
            Ok(()) => {
                self.end = pairs_ahead(&self.bytes, page.count, pages);
                Ok(())
            }
            Err(fault) => Err(ScanFault::Page(fault)),
        }
    }
}
