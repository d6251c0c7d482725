// A paper from its text, line by line.
ghost use Rattle.std.specs.Prelude.{◌≡◌, true, ◌∷◌, IsUtf8, MatchResult, OnOk};
ghost use Rattle.problems.specs.Texts.{NotText};
ghost use Rattle.paper_text.specs.Words.{words};
ghost use Rattle.problems.specs.Lines.{at, sufficed_at};
ghost use Rattle.problems.specs.Outcomes.{read_as};
ghost use Rattle.manifest_section.specs.ManifestLines.{begun_of};
ghost use Rattle.paper.specs.Readings.{paper_of, begun_line, manifest_begun, entry_begun, part_read, words_read, line_read, paper_read, paper_in, in_manifest};
ghost use Rattle.paper.specs.Stages.{stage_of};

use crate::entries::Entries;
use compactions::manifest::Manifest;
use manifest_section::draft::ManifestDraft;
use marking::marks::Question;
use paper_text::lines::{Lines, before_comment, has_control};
use paper_text::words::{Line, Words};
use problems::error::{PaperError, Problem, at_line};
use problems::expected::{InManifest, InPaper};
use problems::text::check_utf8;
use std::alloc::Global;

#[derive(Drop)]
pub struct Paper {
    pub manifest: Manifest,
    pub questions: Vec<Question>,
}

// What was read so far, by the section whose lines are being read.
#[derive(Drop)]
enum Reader {
    Start,
    Manifest(ManifestDraft),
    Entries(Entries),
}

// A line of the manifest.
fn read_manifest(draft: ManifestDraft, line: Line<'_>) -> Result<ManifestDraft, Problem>
    ensures { read_as begun_of result ≡ begun_line line.entry.keyword.now (words line.entry.rest.now) (begun_of draft) }
{
    draft.read(line).ok_or(InManifest::Keyword)?
}

// A paper without entries.
fn finish_manifest(heap: Global, draft: ManifestDraft) -> Result<Paper, PaperError>
    ensures { read_as paper_of result ≡ paper_read (in_manifest (begun_of draft)) }
{
    let manifest = at_line(1, draft.finish())?;
    Ok(Paper {
        manifest,
        questions: Vec::new(heap),
    })
}

// The heap, which is of the whole paper, and the number of one line stay two parameters: an enum of
// stages has no place for them, and a struct around it would be taken apart at each line.
impl Reader {
    fn read_line(self, heap: Global, number: usize, text: &[u8]) -> Result<Reader, PaperError>
        ensures { sufficed_at result ≡ true → read_as stage_of result ≡ line_read number text.now (stage_of self) }
    {
        if has_control(text) {
            return at_line(number, Err(InPaper::NoControl.into()));
        }
        match Line::of(before_comment(text)) {
            Some(line) => self.read_words(heap, number, line),
            None => Ok(self),
        }
    }

    fn read_words(self, heap: Global, number: usize, line: Line<'_>) -> Result<Reader, PaperError>
        ensures { sufficed_at result ≡ true → read_as stage_of result ≡ words_read number (line.entry.keyword.now ∷ words line.entry.rest.now) (stage_of self) }
    {
        // By tests: as a match on byte strings the goal of its last arm did not close.
        if line.is(b"manifest") {
            at_line(number, self.begin_manifest(line.words()))
        } else if line.is(b"entry") {
            self.begin_entry(heap, number, line.words())
        } else {
            self.read_part(heap, number, line)
        }
    }

    fn begin_manifest(self, mut words: Words<'_>) -> Result<Reader, Problem>
        ensures { read_as stage_of result ≡ manifest_begun words.entry (stage_of self) }
    {
        if words.next().is_some() {
            return Err(InPaper::ManifestAlone.into());
        }
        match self {
            Reader::Start => Ok(Reader::Manifest(ManifestDraft::new())),
            _ => Err(InPaper::OneManifest.into()),
        }
    }

    fn begin_entry(
        self,
        heap: Global,
        number: usize,
        words: Words<'_>,
    ) -> Result<Reader, PaperError>
        ensures { sufficed_at result ≡ true → read_as stage_of result ≡ entry_begun number words.entry (stage_of self) }
    {
        if let Reader::Start = self {
            return at_line(number, Err(InPaper::ManifestFirst.into()));
        }
        let paper = self.finish(heap)?;
        let entries = at_line(number, Entries::begin(paper, number, words))?;
        Ok(Reader::Entries(entries))
    }

    // A line of the section at hand.
    fn read_part(self, heap: Global, number: usize, line: Line<'_>) -> Result<Reader, PaperError>
        ensures { sufficed_at result ≡ true → read_as stage_of result ≡ at number (part_read line.entry.keyword.now (words line.entry.rest.now) (stage_of self)) }
    {
        match self {
            Reader::Start => at_line(number, Err(InPaper::Manifest.into())),
            Reader::Manifest(draft) => {
                let draft = at_line(number, read_manifest(draft, line))?;
                Ok(Reader::Manifest(draft))
            }
            Reader::Entries(entries) => {
                let entries = at_line(number, entries.read(heap, line))?;
                Ok(Reader::Entries(entries))
            }
        }
    }

    // The paper, where the text ends.
    fn finish(self, heap: Global) -> Result<Paper, PaperError>
        ensures { sufficed_at result ≡ true → read_as paper_of result ≡ paper_read (stage_of self) }
    {
        match self {
            Reader::Start => at_line(1, Err(InPaper::Manifest.into())),
            Reader::Manifest(draft) => finish_manifest(heap, draft),
            Reader::Entries(entries) => at_line(entries.line, entries.finish()),
        }
    }
}

// The paper that a text in UTF-8 writes.
fn read_lines(heap: Global, bytes: &[u8]) -> Result<Paper, PaperError>
    ensures { sufficed_at result ≡ true → read_as paper_of result ≡ paper_in bytes.now }
{
    let mut reader = Reader::Start;
    for (i, text) in Lines::of(bytes).enumerate() {
        reader = reader.read_line(heap, i + 1, text)?;
    }
    reader.finish(heap)
}

impl Paper {
    // The paper that the bytes write, or the first problem with its line; only want of memory can
    // come before that.
    pub fn read(heap: Global, bytes: &[u8]) -> Result<Paper, PaperError>
        ensures utf8 { OnOk result (IsUtf8 bytes.now) }
        ensures text { IsUtf8 bytes.now → sufficed_at result ≡ true → read_as paper_of result ≡ paper_in bytes.now }
        ensures no_text { (IsUtf8 bytes.now → ⊥) → MatchResult result (λ _. ⊥) (λ e. NotText bytes.now e) }
    {
        check_utf8(bytes)?;
        read_lines(heap, bytes)
    }
}
