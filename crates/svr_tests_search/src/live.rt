ghost use Rattle.std.specs.Prelude.{◌∷◌, [], ℕ, Option, Some, None, if◌then◌else◌};
ghost use Rattle.svr_num.specs.declared.list_key.ListKey.{ListKey};
ghost use Rattle.svr_tests_search.specs.OneTerm.{are_marks, entry_in, marks_in};

use crate::search::text_of_groups;
use std::alloc::Global;
use std::test::Fail;
use svr_edge::{Memory, Text};
use svr_iter::{KeySource, Live, Mark, Marked, MemLong, ScanFault, ShortSource};
use svr_match::AllOf;
use svr_num::{DocId, ListKey};
use svr_postpage::Pair;

/// The posted pairs of the term.
const PAIRS: &[Pair] = &[
    Pair { key: 12, id: 5 },
    Pair { key: 10, id: 6 },
    Pair { key: 10, id: 7 },
    Pair { key: 10, id: 9 },
    Pair { key: 4, id: 2 },
];

/// Marks of one term: document 3 is added at the key 10, where document 7 is removed, and documents 8 and 9 at the key 4.
#[derive(Drop)]
struct Marks;

impl ShortSource for Marks {
    ghost marks = { λ _ _. marks_in };

    ghost lawful = { λ _ _. are_marks };

    fn next_key(&self, _term: &Text, below: Option<u64>) -> Option<u64> {
        let bound = below.unwrap_or(u64::MAX);
        if 10 < bound {
            Some(10)
        } else if 4 < bound {
            Some(4)
        } else {
            None
        }
    }

    fn at_key(&self, _term: &Text, key: u64, into: &mut Vec<Marked>) -> Result<(), Memory> {
        into.clear();
        if key == 10 {
            into.push(Marked {
                id: 3,
                mark: Mark::Add,
            })?;
            into.push(Marked {
                id: 7,
                mark: Mark::Rem,
            })?;
        } else if key == 4 {
            into.push(Marked {
                id: 8,
                mark: Mark::Add,
            })?;
            into.push(Marked {
                id: 9,
                mark: Mark::Add,
            })?;
        }
        Ok(())
    }
}

/// Where documents are listed: 3, 8 and 9 as moved ones, 2, 6 and 7 as unmoved ones; 5 is there no more.
#[derive(Drop)]
struct Entries;

impl KeySource for Entries {
    ghost entry = { λ _. entry_in };

    fn listed(&self, id: DocId) -> Option<ListKey> {
        if id == 3 {
            Some(ListKey {
                key: 10,
                moved: true,
            })
        } else if id == 6 || id == 7 {
            Some(ListKey {
                key: 10,
                moved: false,
            })
        } else if id == 8 || id == 9 {
            Some(ListKey {
                key: 4,
                moved: true,
            })
        } else if id == 2 {
            Some(ListKey {
                key: 4,
                moved: false,
            })
        } else {
            None
        }
    }
}

fn term(alloc: Global) -> Result<Text, ScanFault> {
    match Text::new(alloc, "term") {
        Ok(text) => Ok(text),
        Err(_) => Err(ScanFault::Memory),
    }
}

fn one(alloc: Global) -> Result<String, ScanFault> {
    let term = term(alloc)?;
    let mut live = Live::new(alloc, &term, MemLong::new(PAIRS), &Marks, &Entries);
    text_of_groups(alloc, &mut live)
}

/// The ids of both, where both are of the same term: so each is kept from the posted and marked ones.
fn twice(alloc: Global) -> Result<String, ScanFault> {
    let term = term(alloc)?;
    let mut others = Vec::new(alloc);
    let other = Live::new(alloc, &term, MemLong::new(PAIRS), &Marks, &Entries);
    if others.push(other).is_err() {
        return Err(ScanFault::Memory);
    }
    let first = Live::new(alloc, &term, MemLong::new(PAIRS), &Marks, &Entries);
    text_of_groups(alloc, &mut AllOf::new(first, others))
}

#[test]
fn marks_decide_which_documents_stand(rt: HostRuntime) -> Result<(), Fail> {
    let alloc = rt.alloc();
    for got in [one(alloc), twice(alloc)] {
        assert!(rt; got.is_ok_and(|text| text.as_str() == "12; 10 3 6; 4 2 8 9; "));
    }
    Ok(())
}
