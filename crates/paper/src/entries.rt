// The entries of a paper and the answers to them.
ghost use Rattle.std.specs.Prelude.{◌≡◌, true, map, ◌==◌};
ghost use Rattle.std.specs.Option.{option_map};
ghost use Rattle.table.specs.Ids.{number};
ghost use Rattle.paper_text.specs.Words.{words};
ghost use Rattle.problems.specs.Lines.{sufficed};
ghost use Rattle.problems.specs.Outcomes.{read_as};
ghost use Rattle.paper.specs.Answers.{answer_of};
ghost use Rattle.paper.specs.Readings.{in_entries, asked_of, paper_of, entries_of, has_id, entries_read, entry_added, entry_after, said_line, question_line};

use crate::answer_lines::{read_answer, read_with};
use crate::reader::Paper;
use compactions::manifest::Manifest;
use entry_section::draft::EntryDraft;
use marking::answer::Answer;
use marking::marks::Question;
use paper_text::numbers::id_in;
use paper_text::words::{Line, Words};
use problems::error::Problem;
use problems::expected::{InEntry, InPaper};
use std::alloc::Global;
use table::ulid::Ulid;

// The manifest, the entries that are complete, and the entry at hand with its answer and the line
// of its id.
#[derive(Drop)]
pub(crate) struct Entries {
    manifest: Manifest,
    done: Vec<Question>,
    pub(crate) line: usize,
    draft: EntryDraft,
    answer: Option<Answer>,
}

// A line of an answer.
fn said_line(heap: Global, answer: Option<Answer>, line: Line<'_>) -> Result<Answer, Problem>
    ensures { sufficed result ≡ true → read_as answer_of result ≡ said_line line.entry.keyword.now (words line.entry.rest.now) (option_map answer_of answer) }
{
    match line.keyword {
        b"answer" => read_answer(heap, answer, line.words()),
        b"with" => read_with(heap, answer, line.words()),
        _ => Err(InEntry::Keyword.into()),
    }
}

fn has_id(questions: &[Question], id: Ulid) -> bool
    ensures { result ≡ has_id (number id) (map asked_of questions.now) }
{
    questions.iter().any(|question| question.entry.id.is(id))
}

impl Entries {
    // The next entry of a paper, whose id stands on a line.
    pub(crate) fn begin(paper: Paper, number: usize, words: Words<'_>) -> Result<Entries, Problem>
        ensures { read_as (λ e. in_entries (entries_of e)) result ≡ entry_after number words.entry (paper_of paper) }
    {
        let id = words.only().and_then(id_in).ok_or(InPaper::EntryId)?;
        Entries::add(paper, number, id)
    }

    // An entry begins, whose id no entry above has.
    fn add(paper: Paper, line: usize, id: Ulid) -> Result<Entries, Problem>
        ensures { read_as (λ e. in_entries (entries_of e)) result ≡ entry_added line (paper_of paper) (number id) }
    {
        if has_id(paper.questions.as_slice(), id) {
            return Err(InPaper::NewEntryId.into());
        }
        Ok(Entries {
            manifest: paper.manifest,
            done: paper.questions,
            line,
            draft: EntryDraft::new(id),
            answer: None,
        })
    }

    // A line of the entry at hand, or of its answer.
    pub(crate) fn read(self, heap: Global, line: Line<'_>) -> Result<Entries, Problem>
        ensures { sufficed result ≡ true → read_as entries_of result ≡ question_line line.entry.keyword.now (words line.entry.rest.now) (entries_of self) }
    {
        match self.draft.read(line) {
            Some(read) => Ok(Entries {
                draft: read?,
                ..self
            }),
            None => Ok(Entries {
                answer: Some(said_line(heap, self.answer, line)?),
                ..self
            }),
        }
    }

    // The entries with the one at hand.
    pub(crate) fn finish(self) -> Result<Paper, Problem>
        ensures { sufficed result ≡ true → read_as paper_of result ≡ entries_read (entries_of self) }
    {
        let entry = self.draft.finish()?;
        let mut questions = self.done;
        questions.push(Question {
            entry,
            answer: self.answer,
        })?;
        Ok(Paper {
            manifest: self.manifest,
            questions,
        })
    }
}
