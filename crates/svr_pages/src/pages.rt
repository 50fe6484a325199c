ghost use Rattle.std.specs.Prelude.{◌≡◌, [], nat_eq, IfOk, IfSome, None, Some};
ghost use Rattle.std.specs.Map.{lookup};
ghost use Rattle.std.specs.Option.{option_map};
ghost use Rattle.lru.specs.LruCache.{lru_cache, promoted};
ghost use Rattle.svr_postpage.specs.Pages.{page_in};
ghost use Rattle.svr_postpage.specs.Pairs.{ref_of};
ghost use Rattle.svr_pages.specs.declared.pages.Kept.{Kept};
ghost use Rattle.svr_pages.specs.Cached.{MayKeep, cached_at, used};
ghost use Rattle.svr_pages.specs.Layout.{MayPut};

use lru::LruCache;
use std::alloc::Global;
use std::marker::Model;
use std::num::NonZeroUsize;
use svr_edge::Memory;
use svr_postpage::PageRef;

/// A page, with what it is known by, which it was read against.
#[derive(Drop)]
struct Kept {
    page: PageRef,
    bytes: [u8; 4096],
}

/// Pages that were read: up to a number of them, those that were used last. Contracts see their addresses and bytes.
#[derive(Drop)]
pub struct Pages {
    cache: Option<LruCache<u64, Kept>>,
}

impl Model for Pages {
    ghost use Rattle.svr_pages.specs.Cached.{CachedPages};

    ghost Value = { CachedPages };

    ghost use Rattle.svr_pages.specs.Layout.{AreKnown, seen};

    ghost view = { λ p. seen p.cache };

    ghost invariant = { λ p. AreKnown p.cache };
}

impl Pages {
    /// No pages, with room for so many. With room for none it stays empty, and takes no memory.
    pub fn new(alloc: Global, capacity: u32) -> Result<Pages, Memory>
        ensures { IfOk result (λ pages. pages ≡ record { pages = []; capacity = capacity }) }
    {
        match NonZeroUsize::new(capacity as usize) {
            Some(capacity) => Ok(Pages {
                cache: Some(LruCache::new(alloc, capacity)?),
            }),
            None => Ok(Pages { cache: None }),
        }
    }

    /// The page that is cached for an address, copied, and what it is known by. It becomes the one that was used last.
    pub fn find(&mut self, at: u64, into: &mut [u8; 4096]) -> Option<PageRef>
        ensures found { IfSome result (λ _. cached_at at self.old ≡ Some into.new) }
        ensures known { IfSome result (λ page. option_map (ref_of at) (page_in into.new) ≡ Some page) }
        ensures none { result ≡ None → cached_at at self.old ≡ None }
        ensures used { self.new ≡ used at self.old }
    {
        let Some(cache) = &mut self.cache else {
            return None;
        };
        find_in(cache, at, into)
    }

    /// Caches a page that isn't cached, where there is room at all and memory; it may take the place of the one that was used
    /// least.
    pub fn keep(&mut self, page: &PageRef, bytes: &[u8; 4096])
        requires known { option_map (ref_of page.now.at) (page_in bytes.now) ≡ Some page.now }
        requires new { cached_at page.now.at self.old ≡ None }
        ensures { MayKeep page.now.at bytes.now self.old self.new }
    {
        let Some(cache) = &mut self.cache else {
            return;
        };
        keep_in(cache, page, bytes)
    }
}

/// The page at an address, copied, and what it is known by.
fn find_in(cache: &mut LruCache<u64, Kept>, at: u64, into: &mut [u8; 4096]) -> Option<PageRef>
    ensures found { IfSome result (λ page. (kept : Kept) × (lookup (nat_eq at) cache.old.entries ≡ Some kept) × (page ≡ kept.page)
        × (into.new ≡ kept.bytes)) }
    ensures none { result ≡ None → lookup (nat_eq at) cache.old.entries ≡ None }
    ensures cache { cache.new ≡ lru_cache (promoted (nat_eq at) cache.old.entries) cache.old.cap }
{
    match cache.get(&at) {
        Some(kept) => {
            *into = kept.bytes;
            Some(kept.page)
        }
        None => None,
    }
}

/// Keeps a page where memory is there.
fn keep_in(cache: &mut LruCache<u64, Kept>, page: &PageRef, bytes: &[u8; 4096])
    ensures { MayPut page.now bytes.now cache.old cache.new }
{
    let kept = Kept {
        page: *page,
        bytes: *bytes,
    };
    match cache.put(page.at, kept) {
        Ok(_) => {}
        Err(_) => {}
    }
}
