use crate::run::Run;
use std::alloc::{AllocError, Global};
use std::num::NonZeroU32;
use svr_edge::Source;
use svr_fakes::{MemDisk, MemSink, MemSource, Torn};
use svr_serve::svr;

/// What is added to the number of a flush in the list of calls that fail.
pub const FLUSH: u64 = 1 << 32;

/// What a run came to.
#[derive(Drop)]
pub struct Outcome {
    pub status: u8,
    pub output: Vec<u8>,
    /// The disk as the run left it.
    pub disk: MemDisk,
    /// Whether the input was read as often as is wanted.
    has_read_as_wanted: bool,
}

impl Outcome {
    /// Whether the run ended, wrote and read its input as it has to.
    pub fn is_wanted_by(&self, run: &Run) -> bool {
        self.status == run.status
            && self.output.as_slice() == run.output.as_slice()
            && self.has_read_as_wanted
    }

    /// What this is, in place of what a run in such pieces has to come to.
    pub fn difference(
        &self,
        alloc: Global,
        run: &Run,
        piece: NonZeroU32,
    ) -> Result<String, AllocError> {
        let output = String::from_utf8_lossy(alloc, self.output.as_slice())?;
        let wanted = String::from_utf8_lossy(alloc, run.output.as_slice())?;
        let same = same_lines(output.as_str(), wanted.as_str());
        let reads = if self.has_read_as_wanted {
            ""
        } else {
            " after more or fewer reads than wanted"
        };
        format!(in alloc;
            "run {} in pieces of {piece} ended with status {}, wanted {}{reads}; it wrote, the first {same} lines as wanted:\n{output}",
            run.number, self.status, run.status
        )
    }
}

/// How many lines at the front of two texts are the same.
fn same_lines(text: &str, other: &str) -> u64 {
    let mut count = 0u64;
    for (line, wanted) in text.lines().zip(other.lines()) {
        if line != wanted {
            break;
        }
        count = count.saturating_add(1);
    }
    count
}

/// Makes a run over a disk of these bytes, in pieces of so many bytes, where it doesn't say others.
pub fn play(
    alloc: Global,
    run: &Run,
    piece: NonZeroU32,
    bytes: Vec<u8>,
) -> Result<Outcome, AllocError> {
    play_part(alloc, run, piece, bytes, run.input.as_slice(), None)
}

/// Makes a run with this input, in which one more flush fails, where its number is given.
pub fn play_part(
    alloc: Global,
    run: &Run,
    piece: NonZeroU32,
    bytes: Vec<u8>,
    input: &[u8],
    flush: Option<u64>,
) -> Result<Outcome, AllocError> {
    let mut source = source(alloc, run, piece, input)?;
    let mut sink = sink(run, piece, flush)?;
    let mut disk = MemDisk::new(bytes, run.failing_disk_calls.clone()?);
    let status = svr(
        alloc,
        run.words.as_slice(),
        &mut source,
        &mut sink,
        &mut disk,
    );
    let next_read_fails = source.read(&mut [0]).is_err();
    Ok(Outcome {
        status,
        output: sink.taken().to_vec(alloc)?,
        disk,
        has_read_as_wanted: next_read_fails || run.reads.is_none(),
    })
}

/// The source of a run. Where it is wanted how often it is read, the read behind these is one that fails.
fn source(
    alloc: Global,
    run: &Run,
    piece: NonZeroU32,
    input: &[u8],
) -> Result<MemSource, AllocError> {
    let mut fail = run.failing_reads.clone()?;
    if let Some(reads) = run.reads {
        fail.push(reads as u64 + 1)?;
    }
    let step = run.read.unwrap_or(piece);
    Ok(MemSource::new(input.to_vec(alloc)?, step.get(), fail))
}

fn sink(run: &Run, piece: NonZeroU32, flush: Option<u64>) -> Result<MemSink, AllocError> {
    let mut fail = run.failing_calls.clone()?;
    if let Some(number) = flush {
        fail.push(number.saturating_add(FLUSH))?;
    }
    let step = run.write.unwrap_or(piece);
    Ok(MemSink::new(step.get(), fail))
}

/// What a crash after so many calls leaves of a disk; all of them, where it has fewer.
pub fn image(alloc: Global, disk: &MemDisk, calls: u64, torn: Torn) -> Result<Vec<u8>, AllocError> {
    match disk.crash(alloc, calls.min(disk.calls()), torn) {
        Ok(image) => Ok(image),
        Err(_) => Err(AllocError),
    }
}

/// The bytes of a disk, with each write made that was not synced.
pub fn bytes_of(alloc: Global, disk: &MemDisk) -> Result<Vec<u8>, AllocError> {
    image(alloc, disk, disk.calls(), Torn::New)
}
