// Marks examination papers: the files that are named, or the standard input where none is.
#![tactic(auto)]

use marking::marks::Marks;
use paper::reader::Paper;
use std::io::Read;
use std::process::ExitCode;
use std::{env, fs, io};

// Prints the marked paper, or why it is refused; says whether it was marked. A yes or no, since a
// refused paper is no error of the run, and the papers after it are marked.
fn mark(rt: &HostRuntime, name: &str, bytes: &[u8]) -> io::Result<bool> {
    match Paper::read(rt.alloc(), bytes) {
        Ok(paper) => {
            print!(rt; "{paper}")?;
            let marks = Marks::of(paper.questions.as_slice(), &paper.manifest);
            if marks.of > 0 {
                println!(rt; "{marks}")?;
            }
            Ok(true)
        }
        Err(error) => {
            eprintln!(rt; "{name}: {error}")?;
            Ok(false)
        }
    }
}

fn mark_file(rt: &HostRuntime, name: &str) -> io::Result<bool> {
    match fs::read(rt, name) {
        Ok(bytes) => mark(rt, name, bytes.as_slice()),
        Err(error) => {
            eprintln!(rt; "{name}: {error}")?;
            Ok(false)
        }
    }
}

fn mark_input(rt: &HostRuntime) -> io::Result<bool> {
    let mut bytes = Vec::new(rt.alloc());
    rt.stdin().read_to_end(&mut bytes)?;
    mark(rt, "standard input", bytes.as_slice())
}

// Each file in turn, under its name where there are several.
fn mark_files(rt: &HostRuntime, names: &[String]) -> io::Result<bool> {
    let mut all = true;
    for name in names {
        if names.len() > 1 {
            println!(rt; "== {name}")?;
        }
        if !mark_file(rt, name.as_str())? {
            all = false;
        }
    }
    Ok(all)
}

fn run(rt: &HostRuntime) -> anyhow::Result<bool> {
    let names: Vec<String> = env::args(rt)?.skip(1).collect(rt.alloc())?;
    if names.is_empty() {
        return Ok(mark_input(rt)?);
    }
    Ok(mark_files(rt, names.as_slice())?)
}

// Status 1 where a paper is refused or cannot be read.
fn main(rt: HostRuntime) -> anyhow::Result<ExitCode> {
    if run(&rt)? {
        Ok(ExitCode::SUCCESS)
    } else {
        Ok(ExitCode::FAILURE)
    }
}
