// Reads a list of papers from the standard input and prints for each why it is refused.
//
// A line `=== NAME` begins a paper. Its text is the lines up to the next such line, with an LF
// between them and none at the end.
#![tactic(auto)]

use paper::reader::Paper;
use std::alloc::{AllocError, Global};
use std::io::Read;
use std::{io, mem};

// A paper of the list, as far as its lines were read; no text before its first line.
#[derive(Drop)]
struct Listed {
    name: Vec<u8>,
    text: Option<Vec<u8>>,
}

impl Listed {
    fn new(heap: Global, name: &[u8]) -> Result<Listed, AllocError> {
        Ok(Listed {
            name: Vec::from_slice(heap, name)?,
            text: None,
        })
    }

    fn add_line(&mut self, heap: Global, line: &[u8]) -> Result<(), AllocError> {
        match &mut self.text {
            Some(text) => {
                text.push(b'\n')?;
                text.extend_from_slice(line)?;
            }
            None => self.text = Some(Vec::from_slice(heap, line)?),
        }
        Ok(())
    }

    fn print(&self, rt: &HostRuntime) -> io::Result<()> {
        let name = String::from_utf8_lossy(rt.alloc(), self.name.as_slice())?;
        let text = match &self.text {
            Some(text) => text.as_slice(),
            None => b"",
        };
        match Paper::read(rt.alloc(), text) {
            Ok(_) => println!(rt; "{name}: accepted"),
            Err(error) => println!(rt; "{name}: {error}"),
        }
    }
}

// The papers of the list; lines before the first name are left out.
fn papers(heap: Global, input: &[u8]) -> Result<Vec<Listed>, AllocError> {
    let mut papers = Vec::new(heap);
    let mut current = Listed::new(heap, b"")?;
    // An LF at the end begins no line.
    let lines = input.strip_suffix(b"\n").unwrap_or(input);
    for line in lines.split(|b| *b == b'\n') {
        match line {
            [b'=', b'=', b'=', b' ', name @ ..] => {
                papers.push(mem::replace(&mut current, Listed::new(heap, name)?))?;
            }
            text => current.add_line(heap, text)?,
        }
    }
    papers.push(current)?;
    Ok(papers)
}

fn main(rt: HostRuntime) -> io::Result<()> {
    let mut input = Vec::new(rt.alloc());
    rt.stdin().read_to_end(&mut input)?;
    for paper in papers(rt.alloc(), input.as_slice())?.iter().skip(1) {
        paper.print(&rt)?;
    }
    Ok(())
}
