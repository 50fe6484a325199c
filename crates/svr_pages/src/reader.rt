ghost use Rattle.std.specs.Prelude.{◌≡◌, ◌<◌, ◌≤◌, ◌+◌, true, false, None, take};
ghost use Rattle.std.specs.Option.{option_map};
ghost use Rattle.svr_postpage.specs.Wanted.{damage_by_head};
ghost use Rattle.svr_pages.specs.Asked.{Fails, Gives, IsReady};
ghost use Rattle.svr_pages.specs.Cached.{cached_at};
ghost use Rattle.svr_pages.specs.Layout.{ReadsPage, Says};
ghost use Rattle.svr_pages.specs.Told.{Fails-tells, Gives-same, Gives-sound};

use crate::pages::Pages;
use svr_edge::Disk;
use svr_postpage::{Damage, PAGE_BYTES, PageFault, PageReader, PageRef, read_page};

/// Gives the pages that a disk has below `reach`, those that are cached without a read.
#[derive(Drop)]
pub struct Reader<'a, D> {
    pub pages: &'a mut Pages,
    pub disk: &'a mut D,
    /// What ends behind this place is never read.
    pub reach: u64,
}

impl<'a, D: Disk> PageReader for Reader<'a, D> {
    ghost told = { λ r. option_map (take r.reach) (D.view r.disk.now).content };

    ghost faults = { λ r. (D.view r.disk.now).read_faults };

    ghost ready = { λ r. IsReady r.reach (D.view r.disk.now) r.pages.now };

    ghost gives = { λ old want new. Gives D.view old.reach want old.disk.now new.disk.now old.pages.now new.pages.now
        × (new.reach ≡ old.reach) × (new.pages.ghost_name ≡ old.pages.ghost_name) × (new.disk.ghost_name ≡ old.disk.ghost_name) };

    ghost fails = { λ old want why new. Fails D.view old.reach want old.disk.now new.disk.now old.pages.now new.pages.now why
        × (new.reach ≡ old.reach) × (new.pages.ghost_name ≡ old.pages.ghost_name) × (new.disk.ghost_name ≡ old.disk.ghost_name) };

    ghost sound = { λ old want new given. Gives-sound D.view old.reach want old.disk.now new.disk.now old.pages.now new.pages.now given.0 };

    ghost same_told = { λ old want new given. Gives-same D.view old.reach want old.disk.now new.disk.now old.pages.now new.pages.now
        new.reach given.0 given.1 };

    ghost faulty = { λ old want why new failed. Fails-tells D.view old.reach want old.disk.now new.disk.now old.pages.now new.pages.now
        why failed.0 };

    fn page(&mut self, want: &PageRef, into: &mut [u8; 4096]) -> Result<(), PageFault> {
        if !ends_within(want.at, self.reach) {
            return Err(PageFault::Damaged {
                at: want.at,
                why: Damage::NotAPage,
            });
        }
        if let Some(found) = self.pages.find(want.at, into) {
            return as_wanted(want, &found);
        }
        read(self.pages, self.disk, want, into)
    }
}

/// Whether a page at this place ends within reach.
fn ends_within(at: u64, reach: u64) -> bool
    ensures yes { result ≡ true → at + 4096 ≤ reach }
    ensures no { result ≡ false → reach < at + 4096 }
{
    reach >= PAGE_BYTES as u64 && at <= reach - PAGE_BYTES as u64
}

/// Compares a page with the one that is wanted at its place.
fn as_wanted(want: &PageRef, found: &PageRef) -> Result<(), PageFault>
    ensures { Says want.now (damage_by_head want.now found.now) result }
{
    match want.damage_by_head(found) {
        None => Ok(()),
        Some(why) => Err(PageFault::Damaged { at: want.at, why }),
    }
}

/// Reads a page that isn't cached, and caches it if it is the one that is wanted.
fn read<D: Disk>(
    pages: &mut Pages,
    disk: &mut D,
    want: &PageRef,
    into: &mut [u8; 4096],
) -> Result<(), PageFault>
    requires within { want.now.at + 4096 ≤ (D.view disk.old).size }
    requires new { cached_at want.now.at pages.old ≡ None }
    ensures { ReadsPage want.now (D.view disk.old) (D.view disk.new) pages.old pages.new into.new result }
{
    if disk.read_at(want.at, into).is_err() {
        return Err(PageFault::Read);
    }
    let Ok(found) = read_page(into, want.at) else {
        return Err(PageFault::Damaged {
            at: want.at,
            why: Damage::NotAPage,
        });
    };
    if let Some(why) = want.damage_by_head(&found) {
        return Err(PageFault::Damaged { at: want.at, why });
    }
    pages.keep(&found, into);
    Ok(())
}
