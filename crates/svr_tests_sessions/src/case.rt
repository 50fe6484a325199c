use crate::line::Line;
use crate::piece::{Piece, Texts};
use crate::run::{Over, Run};
use std::alloc::{AllocError, Global};
use std::mem;
use std::num::NonZeroU32;

/// What a case is cut into where it doesn't say it: single bytes, and one piece.
const PIECES: &str = "1 1000000000";

/// Runs of the program that belong together.
#[derive(Drop)]
pub struct Case {
    /// The most bytes of each read and write, for each time that the case is played.
    pub pieces: Vec<NonZeroU32>,
    pub runs: Vec<Run>,
    /// The run to which the next line belongs.
    next: Run,
    has_own_input: bool,
    /// The input of the last run over one disk.
    last_input: Vec<u8>,
    /// Whether a line stands behind the last run.
    is_open: bool,
}

impl Case {
    pub fn new(alloc: Global) -> Result<Case, AllocError> {
        let mut case = Case {
            pieces: Vec::new(alloc),
            runs: Vec::new(alloc),
            next: Run::new(alloc, 1)?,
            has_own_input: false,
            last_input: Vec::new(alloc),
            is_open: true,
        };
        case.set_pieces(PIECES)?;
        Ok(case)
    }

    /// Whether it has a run, behind which no line stands.
    pub fn is_whole(&self) -> bool {
        !self.is_open
    }

    /// Takes a line, and answers whether it may stand in a case.
    pub fn take(
        &mut self,
        alloc: Global,
        texts: &Texts,
        line: Line<'_>,
    ) -> Result<bool, AllocError> {
        self.is_open = self.is_open || !matches!(line, Line::Blank);
        match line {
            Line::Blank => {}
            Line::Text(_, _) => return Ok(false),
            Line::Pieces(text) => return Ok(self.runs.is_empty() && self.set_pieces(text)?),
            Line::Input(piece) => return self.take_input(alloc, texts, piece),
            Line::Output(piece) => return piece.append_to(alloc, texts, &mut self.next.output),
            Line::Disk(piece) => return piece.append_to(alloc, texts, &mut self.next.disk),
            Line::Holds(piece) => return self.take_held(alloc, texts, piece),
            Line::SameDisk => self.next.has_same_disk = true,
            Line::Words(text) => self.next.set_words(alloc, text)?,
            Line::Setting(setting) => self.next.set(setting)?,
            Line::Changes(count) => self.next.set_changes(alloc, Some(count))?,
            Line::Run => return self.end_run(alloc, Over::Disk),
            Line::Crashes => return self.end_run(alloc, Over::Crashes),
            Line::Cuts(from, to) => return self.end_run(alloc, Over::Cuts(from, to)),
        }
        Ok(true)
    }

    fn set_pieces(&mut self, text: &str) -> Result<bool, AllocError> {
        self.pieces.clear();
        for number in text.split(' ') {
            let Ok(bytes) = number.parse() else {
                return Ok(false);
            };
            self.pieces.push(bytes)?;
        }
        Ok(true)
    }

    fn take_input(
        &mut self,
        alloc: Global,
        texts: &Texts,
        piece: Piece<'_>,
    ) -> Result<bool, AllocError> {
        self.has_own_input = true;
        piece.append_to(alloc, texts, &mut self.next.input)
    }

    fn take_held(
        &mut self,
        alloc: Global,
        texts: &Texts,
        piece: Piece<'_>,
    ) -> Result<bool, AllocError> {
        let mut held = self.next.held.take().unwrap_or(Vec::new(alloc));
        let is_taken = piece.append_to(alloc, texts, &mut held)?;
        self.next.held = Some(held);
        Ok(is_taken)
    }

    /// Ends a run, and answers whether it may stand where it does. One over a disk that has no line of input has the input of the
    /// one before it.
    fn end_run(&mut self, alloc: Global, over: Over) -> Result<bool, AllocError> {
        self.next.set_changes(alloc, None)?;
        let next = Run::new(alloc, self.next.number.saturating_add(1))?;
        let mut run = mem::replace(&mut self.next, next);
        let has_own_input = mem::replace(&mut self.has_own_input, false);
        self.is_open = false;
        let may_stand = self.may_stand(&run, over);
        if matches!(over, Over::Disk) {
            if has_own_input {
                self.last_input = run.input.clone()?;
            } else {
                run.input = self.last_input.clone()?;
            }
        }
        run.over = over;
        self.runs.push(run)?;
        Ok(may_stand)
    }

    /// Whether a run over such disks may stand here: behind another one, where it needs the disk of that, and with answers by the
    /// number of changes for the images of a crash alone.
    fn may_stand(&self, run: &Run, over: Over) -> bool {
        let is_first = self.runs.is_empty();
        match over {
            Over::Disk => run.answers.is_empty() && !(run.has_same_disk && is_first),
            Over::Crashes => !is_first && run.output.is_empty(),
            Over::Cuts(_, _) => run.answers.is_empty() && !is_first,
        }
    }
}
