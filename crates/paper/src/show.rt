// A paper as it is printed: each entry with what the argument check says, the answer and its mark.
use crate::reader::Paper;
use compactions::manifest::Manifest;
use marking::answer::Verdict;
use marking::marks::Question;
use std::fmt;

fn write_question<W: fmt::Write>(
    f: &mut fmt::Formatter<W>,
    question: &Question,
    manifest: &Manifest,
) -> fmt::Result {
    let id = question.entry.id;
    let verdict = Verdict::of(&question.entry, manifest);
    write!(f, "entry {id}: {verdict}")?;
    if let Some(answer) = &question.answer {
        let mark = answer.mark(&verdict);
        write!(f, "  answer: {answer}: {mark}\n")?;
    }
    Ok(())
}

// The entries with their answers; the marks are shown apart.
impl fmt::Display for Paper {
    fn fmt<W: fmt::Write>(&self, f: &mut fmt::Formatter<W>) -> fmt::Result {
        for question in self.questions.as_slice() {
            write_question(f, question, &self.manifest)?;
        }
        Ok(())
    }
}
