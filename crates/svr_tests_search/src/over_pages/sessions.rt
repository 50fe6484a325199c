//! Random sessions, of which each search is compared with that of the plain listing.
use crate::over_pages::check::{Query, is_gathered, is_served};
use crate::over_pages::shop::Shop;
use crate::over_pages::stop::Stop;
use rand_core::utils::NextWord;
use rand_pcg::Pcg32;
use std::alloc::{AllocError, Global};
use std::test::Fail;
use svr_edge::Memory;
use svr_num::Mode;
use svr_postpage::PageRef;
use svr_schema::MethodSpec;

/// How much a random session has.
#[derive(Clone, Copy)]
struct Size {
    /// How many documents come at first.
    documents: u32,
    /// Ids are below it.
    ids: u32,
    /// Scores are below it.
    scores: u32,
    /// How many steps are made, with a search after each.
    steps: u32,
}

/// Few documents, and lists of one page.
const FEW: Size = Size {
    documents: 4,
    ids: 12,
    scores: 80,
    steps: 90,
};

/// Many documents, and lists of several pages.
const MANY: Size = Size {
    documents: 400,
    ids: 400,
    scores: 1000,
    steps: 12,
};

/// How a random session is played.
#[derive(Clone, Copy)]
struct Play {
    spec: MethodSpec,
    size: Size,
    /// How many pages are cached.
    cache: u32,
    /// How many bytes of pages are changed behind the steps, with searches after each.
    damages: u32,
}

const CHUNK: MethodSpec = MethodSpec::Chunk {
    ratio: 150,
    min_docs: 2,
};

const THRESHOLD: MethodSpec = MethodSpec::Threshold { num: 3, den: 2 };

const SHORT_PLAYS: &[Play] = &[
    Play {
        spec: MethodSpec::Id,
        size: FEW,
        cache: 0,
        damages: 8,
    },
    Play {
        spec: MethodSpec::Id,
        size: FEW,
        cache: 3,
        damages: 0,
    },
    Play {
        spec: MethodSpec::Score,
        size: FEW,
        cache: 0,
        damages: 8,
    },
    Play {
        spec: MethodSpec::Score,
        size: FEW,
        cache: 1,
        damages: 0,
    },
    Play {
        spec: THRESHOLD,
        size: FEW,
        cache: 0,
        damages: 8,
    },
    Play {
        spec: THRESHOLD,
        size: FEW,
        cache: 3,
        damages: 0,
    },
    Play {
        spec: CHUNK,
        size: FEW,
        cache: 0,
        damages: 8,
    },
    Play {
        spec: CHUNK,
        size: FEW,
        cache: 2,
        damages: 0,
    },
];

const LONG_PLAYS: &[Play] = &[
    Play {
        spec: MethodSpec::Id,
        size: MANY,
        cache: 0,
        damages: 12,
    },
    Play {
        spec: MethodSpec::Score,
        size: MANY,
        cache: 0,
        damages: 12,
    },
    Play {
        spec: THRESHOLD,
        size: MANY,
        cache: 2,
        damages: 0,
    },
    Play {
        spec: CHUNK,
        size: MANY,
        cache: 0,
        damages: 12,
    },
    Play {
        spec: CHUNK,
        size: MANY,
        cache: 3,
        damages: 0,
    },
];

fn below(rng: &mut Pcg32, bound: u32) -> u32 {
    rng.next_word() % bound.max(1)
}

/// Some of six words.
fn words(alloc: Global, rng: &mut Pcg32, most: u32) -> Result<String, AllocError> {
    let mut text = String::new(alloc);
    for _ in 0..below(rng, most).saturating_add(1) {
        let word = ["a ", "b ", "c ", "d ", "e ", "a b "][below(rng, 6) as usize % 6];
        text.push_str(word)?;
    }
    Ok(text)
}

fn put(alloc: Global, rng: &mut Pcg32, shop: &mut Shop, play: &Play) -> Result<(), Stop> {
    let id = u64::from(below(rng, play.size.ids));
    let score = u64::from(below(rng, play.size.scores));
    let text = words(alloc, rng, 4)?;
    shop.put(alloc, id, score, text.as_str())
}

/// A document of which only the score changes, if it is there.
fn rescore(alloc: Global, rng: &mut Pcg32, shop: &mut Shop, play: &Play) -> Result<(), Stop> {
    let id = u64::from(below(rng, play.size.ids));
    let score = u64::from(below(rng, play.size.scores));
    let text = match shop.plain.document(id) {
        Some(listed) => String::from_str(alloc, listed.document.text.as_str())?,
        None => return Ok(()),
    };
    shop.put(alloc, id, score, text.as_str())
}

/// A step of a merge: it is begun, goes on, is published where no term is left, or is forgotten.
fn merge_step(alloc: Global, rng: &mut Pcg32, shop: &mut Shop) -> Result<(), Stop> {
    if !shop.is_merging() {
        return shop.begin(alloc);
    }
    if below(rng, 12) == 0 {
        shop.forget();
        return Ok(());
    }
    if shop.left(alloc)? == 0 {
        return shop.publish(alloc);
    }
    shop.slice(alloc, below(rng, 3).saturating_add(1))
}

/// Any step.
fn step(alloc: Global, rng: &mut Pcg32, shop: &mut Shop, play: &Play) -> Result<(), Stop> {
    match below(rng, 8) {
        0 | 1 => put(alloc, rng, shop, play),
        2 | 3 => rescore(alloc, rng, shop, play),
        4 => shop.take_out(alloc, u64::from(below(rng, play.size.ids))),
        _ => merge_step(alloc, rng, shop),
    }
}

/// Whether a random search is served.
fn is_searched(alloc: Global, rng: &mut Pcg32, shop: &mut Shop) -> Result<bool, Stop> {
    let text = words(alloc, rng, 2)?;
    let query = Query {
        words: text.as_str(),
        mode: if below(rng, 2) == 0 {
            Mode::All
        } else {
            Mode::Any
        },
        k: [1, 2, 3, 10, 300, 1000][below(rng, 6) as usize % 6],
    };
    Ok(is_served(alloc, shop, &query)? && is_gathered(alloc, shop, "a")?)
}

/// The posted pages of all terms.
fn pages_in(alloc: Global, shop: &Shop) -> Result<Vec<PageRef>, Memory> {
    let mut pages = Vec::new(alloc);
    for list in shop.plain.listing.lists.as_slice() {
        for page in list.pages.as_slice() {
            pages.push(page.head)?;
        }
    }
    Ok(pages)
}

/// Changes a byte of a page: mostly the last one of a key or an id of a pair, else any.
fn damage(alloc: Global, rng: &mut Pcg32, shop: &mut Shop) -> Result<(), Stop> {
    let pages = pages_in(alloc, shop)?;
    let place = below(rng, (pages.len() as u64).min(1 << 20) as u32);
    let Some(page) = pages.get(place as usize) else {
        return Ok(());
    };
    let pair = below(rng, u32::from(page.count));
    let byte = match below(rng, 8) {
        0 => below(rng, 4096),
        1 => 1,
        2 | 3 => 11 + 16 * (pair % 256),
        _ => 19 + 16 * (pair % 256),
    };
    let at = page.at.saturating_add(u64::from(byte));
    shop.shelf.change(at, (rng.next_word() % 256) as u8)?;
    Ok(())
}

/// The documents of the beginning, and a whole merge of them.
fn stock(alloc: Global, rng: &mut Pcg32, play: &Play) -> Result<Shop, Stop> {
    let mut shop = Shop::new(alloc, play.spec, play.cache)?;
    for _ in 0..play.size.documents {
        put(alloc, rng, &mut shop, play)?;
    }
    shop.merge(alloc)?;
    Ok(shop)
}

/// Plays the steps, and answers whether all searches were served.
fn are_stepped(alloc: Global, rng: &mut Pcg32, shop: &mut Shop, play: &Play) -> Result<bool, Stop> {
    for _ in 0..play.size.steps {
        step(alloc, rng, shop, play)?;
        if !shop.has_entries() || !is_searched(alloc, rng, shop)? {
            return Ok(false);
        }
    }
    Ok(true)
}

/// What searches told since bytes were changed.
#[derive(Clone, Copy)]
struct Tally {
    answers: u32,
    damages: u32,
}

/// Searches, and counts what was told. `false` where it was wrong.
fn is_counted(
    alloc: Global,
    rng: &mut Pcg32,
    shop: &mut Shop,
    tally: &mut Tally,
) -> Result<bool, Stop> {
    let is_right = is_searched(alloc, rng, shop)?;
    if shop.is_damaged {
        tally.damages = tally.damages.saturating_add(1);
    } else {
        tally.answers = tally.answers.saturating_add(1);
    }
    Ok(is_right)
}

/// Changes bytes of pages, and answers whether all searches were served.
fn are_damaged(
    alloc: Global,
    rng: &mut Pcg32,
    shop: &mut Shop,
    play: &Play,
    tally: &mut Tally,
) -> Result<bool, Stop> {
    for _ in 0..play.damages {
        damage(alloc, rng, shop)?;
        rescore(alloc, rng, shop, play)?;
        for _ in 0..3 {
            if !is_counted(alloc, rng, shop, tally)? {
                return Ok(false);
            }
        }
    }
    Ok(true)
}

/// Whether all searches of a session are served.
fn is_played(alloc: Global, rng: &mut Pcg32, play: &Play, tally: &mut Tally) -> Result<bool, Stop> {
    let mut shop = stock(alloc, rng, play)?;
    Ok(
        are_stepped(alloc, rng, &mut shop, play)?
            && are_damaged(alloc, rng, &mut shop, play, tally)?,
    )
}

/// What the first session is that isn't served, and what searches told over changed bytes.
fn played(alloc: Global, seed: u64, plays: &[Play], rounds: usize) -> (Option<usize>, Tally) {
    let mut rng = Pcg32::new(seed, 54);
    let mut tally = Tally {
        answers: 0,
        damages: 0,
    };
    for round in 0..rounds {
        for (place, play) in plays.iter().enumerate() {
            if !is_played(alloc, &mut rng, play, &mut tally).is_ok_and(|served| served) {
                return (Some(round.saturating_mul(100).saturating_add(place)), tally);
            }
        }
    }
    (None, tally)
}

#[test]
fn random_sessions_are_served(rt: HostRuntime) -> Result<(), Fail> {
    let (wrong, tally) = played(rt.alloc(), 42, SHORT_PLAYS, 60);
    assert!(rt; wrong.is_none(), "round and session {wrong:?}");
    let (answers, damages) = (tally.answers, tally.damages);
    assert!(rt;
        answers > 200 && damages > 200,
        "{answers} answers, {damages} damages"
    );
    Ok(())
}

#[test]
fn random_sessions_of_many_pages_are_served(rt: HostRuntime) -> Result<(), Fail> {
    let (wrong, tally) = played(rt.alloc(), 43, LONG_PLAYS, 20);
    assert!(rt; wrong.is_none(), "round and session {wrong:?}");
    let (answers, damages) = (tally.answers, tally.damages);
    assert!(rt;
        answers > 200 && damages > 200,
        "{answers} answers, {damages} damages"
    );
    Ok(())
}
