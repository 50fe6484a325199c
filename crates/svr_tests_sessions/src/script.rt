use crate::case::Case;
use crate::crash::play_crashes;
use crate::disk::{Played, play_over_disk};
use crate::line::{Line, read_line};
use crate::piece::Texts;
use crate::report::Report;
use crate::run::{Over, Run};
use std::alloc::{AllocError, Global};
use std::num::NonZeroU32;

/// Plays all cases of a script.
pub fn play_script(alloc: Global, file: &str, script: &str) -> Result<Report, AllocError> {
    let mut report = Report::new(alloc);
    let mut parts = script.split("\ncase ");
    let texts = read_texts(alloc, file, parts.next().unwrap_or(""), &mut report)?;
    for part in parts {
        let (name, lines) = part.split_once('\n').unwrap_or((part, ""));
        let place = format!(in alloc; "{file}, case {name}")?;
        play_case(alloc, &texts, place.as_str(), lines, &mut report)?;
    }
    Ok(report)
}

/// The texts that stand before the first case of a script.
fn read_texts(
    alloc: Global,
    file: &str,
    lines: &str,
    report: &mut Report,
) -> Result<Texts, AllocError> {
    let mut texts = Texts::new(alloc);
    for text in lines.lines() {
        let is_taken = match read_line(text) {
            Some(Line::Blank) => true,
            Some(Line::Text(name, text)) => keep(alloc, &mut texts, name, text)?,
            _ => false,
        };
        if !is_taken {
            complain_of_line(alloc, file, text, report)?;
        }
    }
    Ok(texts)
}

/// Keeps a text, and answers whether its name is new.
fn keep(alloc: Global, texts: &mut Texts, name: &str, text: &str) -> Result<bool, AllocError> {
    let name = String::from_str(alloc, name)?;
    let before = texts.insert(name, String::from_str(alloc, text)?)?;
    Ok(before.is_none())
}

fn complain_of_line(
    alloc: Global,
    place: &str,
    line: &str,
    report: &mut Report,
) -> Result<(), AllocError> {
    let what = format!(in alloc; "this line is not understood: {line}")?;
    report.complain(place, what.as_str())
}

/// Plays a case, once for each of its pieces.
fn play_case(
    alloc: Global,
    texts: &Texts,
    place: &str,
    lines: &str,
    report: &mut Report,
) -> Result<(), AllocError> {
    let case = read_case(alloc, texts, place, lines, report)?;
    report.count_case();
    if !case.is_whole() {
        report.complain(place, "no run stands at its end")?;
    }
    for piece in &case.pieces {
        play_runs(alloc, place, case.runs.as_slice(), *piece, report)?;
    }
    Ok(())
}

fn read_case(
    alloc: Global,
    texts: &Texts,
    place: &str,
    lines: &str,
    report: &mut Report,
) -> Result<Case, AllocError> {
    let mut case = Case::new(alloc)?;
    for text in lines.lines() {
        let is_taken = match read_line(text) {
            Some(line) => case.take(alloc, texts, line)?,
            None => false,
        };
        if !is_taken {
            complain_of_line(alloc, place, text, report)?;
        }
    }
    Ok(case)
}

/// Makes the runs of a case, one after the other, in pieces of so many bytes.
fn play_runs(
    alloc: Global,
    place: &str,
    runs: &[Run],
    piece: NonZeroU32,
    report: &mut Report,
) -> Result<(), AllocError> {
    let mut last: Option<Played<'_>> = None;
    for run in runs {
        report.count_run();
        let wrong = match run.over {
            Over::Disk => {
                let played = play_over_disk(alloc, run, last.as_ref(), piece)?;
                let wrong = played.wrong(alloc, piece)?;
                last = Some(played);
                wrong
            }
            _ => play_again(alloc, run, last.as_ref(), piece)?,
        };
        if let Some(what) = wrong {
            report.complain(place, what.as_str())?;
        }
    }
    Ok(())
}

/// Makes a run over what the run before left, and answers what is wrong, if anything is.
fn play_again(
    alloc: Global,
    run: &Run,
    last: Option<&Played<'_>>,
    piece: NonZeroU32,
) -> Result<Option<String>, AllocError> {
    let Some(last) = last else {
        return Ok(Some(String::from_str(alloc, "no run stands before")?));
    };
    match run.over {
        Over::Crashes => play_crashes(alloc, last, run, piece),
        Over::Cuts(from, to) => last.play_cuts(alloc, run, piece, from, to),
        Over::Disk => Ok(None),
    }
}
