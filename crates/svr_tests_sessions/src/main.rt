//! Plays scripts of sessions through the program's top call, over a source, a sink and a disk in memory, and prints a line for each.
//! README.md says how a script is written. The scripts, and the file `scripts` that names them, are in the folder that the first
//! argument names, or where the program runs.
#![tactic(auto)]

mod case;
mod crash;
mod disk;
mod line;
mod piece;
mod play;
mod report;
mod run;
mod script;

use crate::report::Report;
use crate::script::play_script;
use std::fs::Files;
use std::io::Print;
use std::process::ExitCode;
use std::rt::Env;
use std::{env, fs, io};

/// The folder of the scripts.
fn folder_of_scripts(rt: &(impl Env + AllocGlobal)) -> io::Result<String> {
    match env::args(rt)?.nth(1) {
        Some(folder) => Ok(folder),
        None => Ok(String::from_str(rt.alloc(), ".")?),
    }
}

/// Plays a script of a folder.
fn play_file<R: Files + AllocGlobal>(rt: &R, folder: &str, file: &str) -> io::Result<Report> {
    let path = format!(in rt.alloc(); "{folder}/{file}")?;
    let script = fs::read_to_string(rt, path.as_str())?;
    Ok(play_script(rt.alloc(), file, script.as_str())?)
}

/// Plays all scripts of a folder, prints what comes of them, and answers how many errors there were.
fn play_all<R: Files + AllocGlobal + Print>(rt: &R, folder: &str) -> io::Result<u64> {
    let path = format!(in rt.alloc(); "{folder}/scripts")?;
    let names = fs::read_to_string(rt, path.as_str())?;
    let mut errors = 0u64;
    for name in names.lines() {
        let report = play_file(rt, folder, name)?;
        rt.print(report.text(rt.alloc(), name)?.as_str())?;
        errors = errors.saturating_add(report.errors);
    }
    Ok(errors)
}

fn main(rt: HostRuntime) -> io::Result<ExitCode> {
    let folder = folder_of_scripts(&rt)?;
    let errors = play_all(&rt, folder.as_str())?;
    Ok(if errors == 0 {
        ExitCode::SUCCESS
    } else {
        ExitCode::FAILURE
    })
}
