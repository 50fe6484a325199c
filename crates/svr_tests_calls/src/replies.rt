use std::alloc::{AllocError, Global};
use std::test::Fail;
use svr_edge::{Items, Memory};
use svr_num::Hit;
use svr_request::{Answer, Fault, Refusal, Reply, ReplyBuf, print_reply};

/// Refusals that aren't given as yet, or not with these numbers.
const REFUSALS: &[(Refusal, &[u8])] = &[
    (
        Refusal::BadRow { column: 255 },
        b"{\"error\":\"bad-row\",\"column\":255}\n",
    ),
    (
        Refusal::BadSchema { rule: 255 },
        b"{\"error\":\"bad-schema\",\"rule\":255}\n",
    ),
    (
        Refusal::BadCsv {
            number: 4_294_967_295,
        },
        b"{\"error\":\"bad-csv\",\"record\":4294967295}\n",
    ),
    (
        Refusal::KeyExists {
            number: Some(4_294_967_295),
        },
        b"{\"error\":\"key-exists\",\"record\":4294967295}\n",
    ),
    (Refusal::Merging, b"{\"error\":\"merging\"}\n"),
    (Refusal::NoMerge, b"{\"error\":\"no-merge\"}\n"),
    (Refusal::MergeUnbuilt, b"{\"error\":\"merge-unbuilt\"}\n"),
    (Refusal::JournalFull, b"{\"error\":\"journal-full\"}\n"),
    (Refusal::Memory, b"{\"error\":\"memory\"}\n"),
];

const FAULTS: &[(Fault, &[u8])] = &[
    (Fault::Read, b"{\"fault\":\"read\"}\n"),
    (
        Fault::Damaged { page: 0 },
        b"{\"fault\":\"damaged\",\"page\":0}\n",
    ),
    (
        Fault::Damaged { page: u64::MAX },
        b"{\"fault\":\"damaged\",\"page\":18446744073709551615}\n",
    ),
    (Fault::Write, b"{\"fault\":\"write\"}\n"),
    (Fault::Memory, b"{\"fault\":\"memory\"}\n"),
];

/// Counts, with the replies to a change and to a step of a merge.
const COUNTS: &[(u64, &[u8], &[u8])] = &[
    (1, b"{\"ok\":1}\n", b"{\"left\":1}\n"),
    (
        u64::MAX,
        b"{\"ok\":18446744073709551615}\n",
        b"{\"left\":18446744073709551615}\n",
    ),
    (0, b"{\"ok\":0}\n", b"{\"left\":0}\n"),
];

/// Whether this is the text in the buffer.
fn has(buffer: &ReplyBuf, wanted: &[u8]) -> bool {
    buffer.bytes() == wanted
}

fn refusals_are_printed(buffer: &mut ReplyBuf) -> bool {
    for (refusal, wanted) in REFUSALS {
        print_reply(&Reply::Refused(*refusal), buffer);
        if !has(buffer, wanted) {
            return false;
        }
    }
    true
}

fn faults_are_printed(buffer: &mut ReplyBuf) -> bool {
    for (fault, wanted) in FAULTS {
        print_reply(&Reply::Faulted(*fault), buffer);
        if !has(buffer, wanted) {
            return false;
        }
    }
    true
}

fn counts_are_printed(buffer: &mut ReplyBuf) -> bool {
    for (count, accepted, left) in COUNTS {
        print_reply(&Reply::Accepted(*count), buffer);
        let is_accepted = has(buffer, accepted);
        print_reply(&Reply::Left(*count), buffer);
        if !is_accepted || !has(buffer, left) {
            return false;
        }
    }
    true
}

/// The longest hit, as it is printed.
const LONGEST: &str = "[18446744073709551615,18446744073709551615]";

/// So many of the longest hits, and the reply that has them.
fn longest_hits(alloc: Global, count: usize) -> Result<(Vec<Hit>, String), AllocError> {
    let mut hits = Vec::new(alloc);
    let mut text = String::from_str(alloc, "{\"hits\":[")?;
    for place in 0..count {
        hits.push(Hit {
            id: u64::MAX,
            score: u64::MAX,
        })?;
        text.push_str(if place > 0 { "," } else { "" })?;
        text.push_str(LONGEST)?;
    }
    text.push_str("],\"groups\":18446744073709551615}\n")?;
    Ok((hits, text))
}

/// Whether the longest reply is printed, and shorter ones in its place.
fn answers_are_printed(alloc: Global, buffer: &mut ReplyBuf) -> Result<bool, Memory> {
    for count in [1_000, 0, 1, 2] {
        let (hits, wanted) = longest_hits(alloc, count)?;
        if hits.len() > 1_000 {
            return Ok(false);
        }
        let hits = Items::from_vec(hits);
        let groups = u64::MAX;
        print_reply(&Reply::Found(Answer { hits, groups }), buffer);
        if !has(buffer, wanted.as_bytes()) {
            return Ok(false);
        }
    }
    Ok(true)
}

#[test]
fn replies_are_printed(rt: HostRuntime) -> Result<(), Fail> {
    let mut buffer = ReplyBuf::new(rt.alloc())?;
    let refusals = refusals_are_printed(&mut buffer);
    let faults = faults_are_printed(&mut buffer);
    let counts = counts_are_printed(&mut buffer);
    let answers = answers_are_printed(rt.alloc(), &mut buffer)?;
    assert!(rt;
        refusals && faults && counts && answers,
        "{refusals} {faults} {counts} {answers}"
    );
    Ok(())
}
