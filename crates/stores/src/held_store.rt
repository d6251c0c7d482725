// A store that holds its record, with nothing ahead.
ghost use Rattle.std.specs.Prelude.{◌≡◌, []};
ghost use Rattle.std.specs.Option.{option_map};
ghost use Rattle.stores.specs.Meanings.{record_of};
ghost use Rattle.stores.specs.Kinds.{held_store_of};
ghost use Rattle.stores.specs.StoreLaws.{StoreLaws};

use crate::apply::settle;
use crate::compactions_store::{CompactionsStore, StoreFault, Updated};
use crate::draft::Draft;
use crate::record::Compactions;

#[derive(Drop)]
pub struct HeldStore {
    current: Option<Compactions>,
}

impl HeldStore {
    // Over a record, or over none yet. What holds of every store stands on this contract.
    pub fn new(current: Option<Compactions>) -> HeldStore
        ensures value { held_store_of result ≡ record { current = option_map record_of current; ahead = [] } }
        ensures laws { StoreLaws }
    {
        HeldStore { current }
    }
}

impl CompactionsStore for HeldStore {
    ghost meaning = { held_store_of };

    fn read(&mut self) -> Result<Option<Draft>, StoreFault> {
        Ok(self.current.map(Draft::of))
    }

    fn update(&mut self, draft: Draft) -> Result<Updated, StoreFault> {
        settle(&mut self.current, draft)
    }
}
