// The marks of a paper: one for each answered entry.
ghost use Rattle.std.specs.Prelude.{◌≡◌};
ghost use Rattle.compactions.specs.Meanings.{manifest_of};
ghost use Rattle.marking.specs.Counting.{is_right_by, right_answers, answered};

use crate::answer::{Answer, Verdict};
use compactions::compactor_state::Compaction;
use compactions::manifest::Manifest;

// An entry, and what the candidate says of it.
#[derive(Drop)]
pub struct Question {
    pub entry: Compaction,
    pub answer: Option<Answer>,
}

// How many answers are right, of how many.
#[derive(Clone, Copy, PartialEq, Eq, Debug)]
pub struct Marks {
    pub right: usize,
    pub of: usize,
}

impl Question {
    // Whether the answer is right, if there is one.
    pub fn is_right(&self, manifest: &Manifest) -> Option<bool>
        ensures { result ≡ is_right_by self.now (manifest_of manifest.now) }
    {
        let answer = self.answer.as_ref();
        answer.map(|answer| answer.agrees(&Verdict::of(&self.entry, manifest)))
    }
}

impl Marks {
    pub fn of(questions: &[Question], manifest: &Manifest) -> Marks
        ensures right { result.right ≡ right_answers questions.now (manifest_of manifest.now) }
        ensures of { result.of ≡ answered questions.now }
    {
        // two counts in one walk: a chain for each would put every entry to the check twice
        let mut right: usize = 0;
        let mut of: usize = 0;
        for question in questions {
            if let Some(is_right) = question.is_right(manifest) {
                of += 1;
                if is_right {
                    right += 1;
                }
            }
        }
        Marks { right, of }
    }
}
