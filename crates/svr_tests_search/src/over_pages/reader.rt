ghost use Rattle.std.specs.Prelude.{◌≡◌, take};
ghost use Rattle.std.specs.Option.{option_map};
ghost use Rattle.svr_pages.specs.Asked.{Fails, Gives, IsReady};
ghost use Rattle.svr_pages.specs.Told.{Fails-tells, Gives-same, Gives-sound};

use svr_edge::Disk;
use svr_pages::{Pages, Reader};
use svr_postpage::{PageFault, PageReader, PageRef};

/// A reader of pages that owns its disk and what is cached of it.
#[derive(Drop)]
pub struct OwnReader<D> {
    pub pages: Pages,
    pub disk: D,
    /// What ends behind this place is never read.
    pub reach: u64,
}

impl<D: Disk> PageReader for OwnReader<D> {
    ghost told = { λ r. option_map (take r.reach) (D.view r.disk).content };

    ghost faults = { λ r. (D.view r.disk).read_faults };

    ghost ready = { λ r. IsReady r.reach (D.view r.disk) r.pages };

    ghost gives = { λ old want new. Gives D.view old.reach want old.disk new.disk old.pages new.pages × (new.reach ≡ old.reach) };

    ghost fails = { λ old want why new. Fails D.view old.reach want old.disk new.disk old.pages new.pages why × (new.reach ≡ old.reach) };

    ghost sound = { λ old want new given. Gives-sound D.view old.reach want old.disk new.disk old.pages new.pages given.0 };

    ghost same_told = { λ old want new given. Gives-same D.view old.reach want old.disk new.disk old.pages new.pages new.reach
        given.0 given.1 };

    ghost faulty = { λ old want why new failed. Fails-tells D.view old.reach want old.disk new.disk old.pages new.pages why failed.0 };

    fn page(&mut self, want: &PageRef, into: &mut [u8; 4096]) -> Result<(), PageFault> {
        let mut reader = Reader {
            pages: &mut self.pages,
            disk: &mut self.disk,
            reach: self.reach,
        };
        reader.page(want, into)
    }
}
