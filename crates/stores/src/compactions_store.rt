// What a store of compactions is, by its meaning: perhaps a record, and what is ahead of it.
//
// Reworked from `StoredCompactions` in src/compactions_store.rs of slatedb 0.16.0 (Apache-2.0, see
// NOTICE); changed: one interface for every store, a read makes the draft that an update takes.
ghost use Rattle.std.specs.Prelude.{◌≡◌};
ghost use Rattle.stores.specs.Stores.{Store, read, update};
ghost use Rattle.stores.specs.Meanings.{draft_of, read_answer_of, update_answer_of};

use crate::draft::Draft;

#[derive(Clone, Copy, PartialEq, Eq, Debug)]
pub enum Step {
    Read,
    Update,
}

// A call that failed: which kind, and the cause, a number that a store gives as it likes; 0 is the rules'
// own, for a version that cannot rise and for a record that is gone.
#[derive(Clone, Copy, PartialEq, Eq, Debug)]
pub struct StoreFault {
    pub step: Step,
    pub cause: u32,
}

// What an update that did not fail came to.
#[derive(Clone, Copy, PartialEq, Eq, Debug)]
pub enum Updated {
    Landed,
    Conflict,
}

pub trait CompactionsStore {
    ghost meaning: { Self → Store };

    // The record, to be changed and handed in; none where there is no record yet.
    fn read(&mut self) -> Result<Option<Draft>, StoreFault>
        ensures answer { read_answer_of result ≡ (read (meaning self.old)).answer }
        ensures after { meaning self.new ≡ (read (meaning self.old)).after };

    // The draft's entries in the place of the record's, if it is still the one that was read.
    fn update(&mut self, draft: Draft) -> Result<Updated, StoreFault>
        ensures answer { update_answer_of result ≡ (update (draft_of draft) (meaning self.old)).answer }
        ensures after { meaning self.new ≡ (update (draft_of draft) (meaning self.old)).after };
}
