// Why a paper is refused: the line, and what was expected there or which limit was passed.
ghost use Rattle.std.specs.Prelude.{◌≡◌};
ghost use Rattle.problems.specs.declared.error.Problem.TheVariants.{Paper, Manifest, Entry, Answer, Refused, Memory};
ghost use Rattle.problems.specs.Lines.{at};
ghost use Rattle.problems.specs.Limits.{refusal_of};

use crate::expected::{InAnswer, InEntry, InManifest, InPaper};
use compactions::refusal::Refusal;
use std::alloc::{AllocError, AllocFailed};
use thiserror::Error;

// How many parts a value may have, and the order of prefixes.
#[derive(Clone, Copy, PartialEq, Eq, Debug, Error)]
pub enum Limit {
    #[error("an entry's segment has at most 16 bytes")]
    EntrySegment,
    #[error("an entry has at most 8 sources")]
    Sources,
    #[error("an entry has at most 8 outputs")]
    Outputs,
    #[error("a context has at most 4 subcompactions")]
    Subcompactions,
    #[error("a subcompaction has at most 4 outputs")]
    SubcompactionOutputs,
    #[error("a run has at most 8 views")]
    RunViews,
    #[error("a tree has at most 16 views")]
    TreeViews,
    #[error("a tree has at most 8 runs")]
    TreeRuns,
    #[error("a prefix has at most 16 bytes")]
    PrefixLength,
    #[error("a manifest has at most 8 segments")]
    Segments,
    #[error("a prefix must not be empty and must stand above the last one")]
    PrefixOrder,
}

#[derive(Clone, Copy, PartialEq, Eq, Debug, Error)]
pub enum Problem {
    #[error("expected {0}")]
    Paper(InPaper),
    #[error("expected {0}")]
    Manifest(InManifest),
    #[error("expected {0}")]
    Entry(InEntry),
    #[error("expected {0}")]
    Answer(InAnswer),
    // with the refusal that the limit has, since the definitions of what a line reads name both
    #[error("refused with {number}: {1}", number = .0.number())]
    Refused(Refusal, Limit),
    #[error("out of memory")]
    Memory,
}

// A problem and its line, counted from 1.
#[derive(Clone, Copy, PartialEq, Eq, Debug, Error)]
#[error("line {line}: {problem}")]
pub struct PaperError {
    pub line: usize,
    pub problem: Problem,
}

// By hand, as those below: the derive's `From` has no contract, and clauses name the problem that a
// `?` makes.
impl From<InPaper> for Problem {
    ghost from_gives = { λ what r. r ≡ Paper what };

    fn from(what: InPaper) -> Problem {
        Problem::Paper(what)
    }
}

impl From<InManifest> for Problem {
    ghost from_gives = { λ what r. r ≡ Manifest what };

    fn from(what: InManifest) -> Problem {
        Problem::Manifest(what)
    }
}

impl From<InEntry> for Problem {
    ghost from_gives = { λ what r. r ≡ Entry what };

    fn from(what: InEntry) -> Problem {
        Problem::Entry(what)
    }
}

impl From<InAnswer> for Problem {
    ghost from_gives = { λ what r. r ≡ Answer what };

    fn from(what: InAnswer) -> Problem {
        Problem::Answer(what)
    }
}

impl Limit {
    // What a value is refused with that passes the limit.
    pub fn refusal(self) -> Refusal
        ensures { result ≡ refusal_of self }
    {
        match self {
            Limit::TreeViews | Limit::TreeRuns | Limit::PrefixLength | Limit::Segments => {
                Refusal::ManifestCount
            }
            Limit::PrefixOrder => Refusal::Prefix,
            _ => Refusal::Count,
        }
    }
}

impl From<Limit> for Problem {
    ghost from_gives = { λ limit r. r ≡ Refused (refusal_of limit) limit };

    fn from(limit: Limit) -> Problem {
        Problem::Refused(limit.refusal(), limit)
    }
}

impl From<AllocError> for Problem {
    ghost from_gives = { λ _ r. r ≡ Memory };

    fn from(_error: AllocError) -> Problem {
        Problem::Memory
    }
}

impl<T: Drop> From<AllocFailed<T>> for Problem {
    ghost from_gives = { λ _ r. r ≡ Memory };

    fn from(_error: AllocFailed<T>) -> Problem {
        Problem::Memory
    }
}

// What was read, or its problem with the line.
pub fn at_line<T>(line: usize, read: Result<T, Problem>) -> Result<T, PaperError>
    ensures { result ≡ at line read }
{
    read.map_err(|problem| PaperError { line, problem })
}
