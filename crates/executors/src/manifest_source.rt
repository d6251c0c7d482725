// A source of manifests that gives the answers of a lent list in order, then cause 0.
ghost use Rattle.std.specs.Prelude.{◌≡◌, map};
ghost use Rattle.executors.specs.Manifests.{answer_of, given, behind};

use compactions::manifest::Manifest;
use std::marker::Model;
use std::slice::Iter;

// The answers ahead.
#[derive(Drop)]
pub struct ListManifests<'a> {
    ahead: Iter<'a, Result<Manifest, u32>>,
}

impl<'a> Model for ListManifests<'a> {
    ghost use Rattle.std.specs.Prelude.{ℕ, List, Result, map};
    ghost use Rattle.std.specs.Slice.Iter.{iter_rest};
    ghost use Rattle.compactions.specs.Trees.{Manifest};
    ghost use Rattle.executors.specs.Manifests.{answer_of};

    ghost Value = { List (Result Manifest ℕ) };

    ghost view = { λ s. map answer_of (iter_rest s.ahead) };
}

impl<'a> ListManifests<'a> {
    pub fn new(answers: &'a [Result<Manifest, u32>]) -> ListManifests<'a>
        ensures { result ≡ map answer_of answers.now }
    {
        ListManifests {
            ahead: answers.iter(),
        }
    }

    // The next answer; after the end cause 0.
    pub fn read(&mut self) -> Result<Manifest, u32>
        ensures value { answer_of result ≡ given self.old }
        ensures after { self.new ≡ behind self.old }
    {
        match self.ahead.next() {
            Some(answer) => *answer,
            None => Err(0),
        }
    }
}
