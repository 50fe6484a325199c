use crate::disk::Played;
use crate::play::{image, play, play_part};
use crate::run::{Answer, Run};
use std::alloc::{AllocError, Global};
use std::num::NonZeroU32;
use svr_fakes::Torn;

/// The ways in which a crash tears the writes that were not synced.
const TEARS: &[(&str, Torn)] = &[
    ("none made", Torn::Old),
    ("all made", Torn::New),
    ("mixed by 0", Torn::Mixed(0)),
    ("mixed by 1", Torn::Mixed(1)),
    ("mixed by 2", Torn::Mixed(2)),
];

/// How many calls the disk had got when the run had opened it, and when it was about to send each reply that acknowledges a change,
/// with the number of that change.
#[derive(Drop)]
struct Moments {
    opened: u64,
    acknowledged: Vec<(u64, u64)>,
}

impl Moments {
    /// The number of changes that were acknowledged when the disk had got so many calls.
    fn changes(&self, first: u64, calls: u64) -> u64 {
        let mut changes = first;
        for (at, number) in &self.acknowledged {
            if *at <= calls {
                changes = *number;
            }
        }
        changes
    }
}

/// The number of the change that a reply acknowledges, if it does.
fn acknowledged_by(reply: &str) -> Option<u64> {
    let number = reply.strip_prefix("{\"ok\":")?.strip_suffix('}')?;
    number.parse().ok()
}

/// The moments of a run. It is made once more for each reply that acknowledges a change, and ends before it is sent.
fn moments_of(
    alloc: Global,
    played: &Played<'_>,
    piece: NonZeroU32,
) -> Result<Moments, AllocError> {
    let run = played.run;
    let bytes = played.bytes.to_vec(alloc)?;
    let opened = play_part(alloc, run, piece, bytes, &[], None)?;
    let mut moments = Moments {
        opened: opened.disk.calls(),
        acknowledged: Vec::new(alloc),
    };
    let output = String::from_utf8_lossy(alloc, played.outcome.output.as_slice())?;
    for (place, reply) in output.as_str().lines().enumerate() {
        if let Some(number) = acknowledged_by(reply) {
            let flush = Some(place as u64 + 1);
            let bytes = played.bytes.to_vec(alloc)?;
            let part = play_part(alloc, run, piece, bytes, run.input.as_slice(), flush)?;
            moments.acknowledged.push((part.disk.calls(), number))?;
        }
    }
    Ok(moments)
}

/// The number of changes whose answer this output is: that, or one more. It isn't less than one that was found before.
fn changes_found(answers: &[Answer], changes: u64, least: u64, output: &[u8]) -> Option<u64> {
    for answer in answers {
        let is_near = answer.changes == changes || answer.changes == changes.saturating_add(1);
        if is_near && answer.changes >= least && answer.output.as_slice() == output {
            return Some(answer.changes);
        }
    }
    None
}

/// Makes a run over each image that a crash leaves from the end of opening on, and answers what is wrong, if anything is.
pub fn play_crashes(
    alloc: Global,
    played: &Played<'_>,
    run: &Run,
    piece: NonZeroU32,
) -> Result<Option<String>, AllocError> {
    let moments = moments_of(alloc, played, piece)?;
    for (how, torn) in TEARS {
        let wrong = play_tears(alloc, played, &moments, run, piece, *torn)?;
        if let Some(wrong) = wrong {
            return Ok(Some(format!(in alloc; "writes {how}, {wrong}")?));
        }
    }
    Ok(None)
}

/// The same for the images of one kind.
fn play_tears(
    alloc: Global,
    played: &Played<'_>,
    moments: &Moments,
    run: &Run,
    piece: NonZeroU32,
    torn: Torn,
) -> Result<Option<String>, AllocError> {
    let disk = &played.outcome.disk;
    let Some(first) = run.answers.first() else {
        return Ok(Some(String::from_str(alloc, "no answer is wanted")?));
    };
    let mut least = first.changes;
    for calls in moments.opened..=disk.calls() {
        let image = image(alloc, disk, calls, torn)?;
        let outcome = play(alloc, run, piece, image)?;
        let changes = moments.changes(first.changes, calls);
        let output = outcome.output.as_slice();
        let found = changes_found(run.answers.as_slice(), changes, least, output);
        match found {
            Some(found) if outcome.status == run.status => least = found,
            _ => {
                let status = outcome.status;
                let output = String::from_utf8_lossy(alloc, output)?;
                let output = output.as_str();
                let text = format!(in alloc;
                    "{calls} calls, {changes} changes acknowledged, {least} found before: it ended with status {status}, and wrote:\n{output}"
                )?;
                return Ok(Some(text));
            }
        }
    }
    Ok(None)
}
