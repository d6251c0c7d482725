// A store that takes what is ahead of it from a list that it is lent.
ghost use Rattle.std.specs.Prelude.{◌≡◌, map};
ghost use Rattle.std.specs.Option.{option_map};
ghost use Rattle.stores.specs.Stores.{read, next_interference};
ghost use Rattle.stores.specs.Meanings.{record_of, outcome_of};
ghost use Rattle.stores.specs.Kinds.{coming, list_store_of};

use crate::apply::{every_edit, settle};
use crate::compactions_store::{CompactionsStore, Step, StoreFault, Updated};
use crate::draft::Draft;
use crate::interference::{Interference, Outcome};
use crate::record::Compactions;

// A record, or none yet, and what befalls each of the next calls.
#[derive(Drop)]
pub struct ListStore<'a> {
    current: Option<Compactions>,
    ahead: &'a [Interference<'a>],
}

impl<'a> ListStore<'a> {
    pub fn new(current: Option<Compactions>, ahead: &'a [Interference<'a>]) -> ListStore<'a>
        ensures { list_store_of result ≡ record { current = option_map record_of current; ahead = map coming ahead.now } }
    {
        ListStore { current, ahead }
    }

    // Takes the first one ahead, applies its edits, and says how the call goes. A slice pattern, since
    // the check makes no proof where an Option holds a reference to an element that refers to edits.
    fn next_interference(&mut self) -> Outcome
        ensures outcome { outcome_of result ≡ (next_interference (list_store_of self.old).ahead).outcome }
        ensures after { list_store_of self.new ≡ (read (list_store_of self.old)).after }
    {
        let [next, rest @ ..] = self.ahead else {
            return Outcome::Clear;
        };
        self.ahead = rest;
        self.current = every_edit(self.current, next.edits);
        next.outcome
    }
}

impl<'a> CompactionsStore for ListStore<'a> {
    ghost meaning = { list_store_of };

    fn read(&mut self) -> Result<Option<Draft>, StoreFault> {
        let step = Step::Read;
        match self.next_interference() {
            Outcome::Clear => Ok(self.current.map(Draft::of)),
            Outcome::Down(cause) | Outcome::Lost(cause) => Err(StoreFault { step, cause }),
        }
    }

    fn update(&mut self, draft: Draft) -> Result<Updated, StoreFault> {
        let step = Step::Update;
        match self.next_interference() {
            Outcome::Clear => settle(&mut self.current, draft),
            Outcome::Down(cause) => Err(StoreFault { step, cause }),
            Outcome::Lost(cause) => {
                let _ = settle(&mut self.current, draft);
                Err(StoreFault { step, cause })
            }
        }
    }
}
