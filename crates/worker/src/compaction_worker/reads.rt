// A worker's reads of the record, and the first look.
ghost use Rattle.std.specs.Prelude.{◌≡◌, ℕ, List, Result};
ghost use Rattle.compactions.specs.Trees.{Manifest};
ghost use Rattle.stores.specs.Stores.{read};
ghost use Rattle.stores.specs.Meanings.{read_answer_of};
ghost use Rattle.executors.specs.Clocks.{Readings};
ghost use Rattle.worker_steps.specs.States.{state};
ghost use Rattle.worker_steps.specs.Looks.{held_after, first_look};
ghost use Rattle.worker.specs.Reads.{opened_of, read_of, record_for};
ghost use Rattle.worker.specs.Worker.{held_of, settings_of};

use super::CompactionWorker;
use executors::compactor_executor::CompactionExecutor;
use stores::compactions_store::{CompactionsStore, Step, StoreFault};
use stores::draft::Draft;
use worker_steps::fault::{During, Told, Work, WorkerFault};

impl<E: CompactionExecutor> CompactionWorker<E> {
    // A read; a record strikes the listed ids that have no entry Running under this number.
    fn read_record<S: CompactionsStore>(
        &mut self,
        store: &mut S,
    ) -> Result<Option<Draft>, StoreFault>
        ensures answer { read_answer_of result ≡ (read (S.meaning store.old)).answer }
        ensures store { S.meaning store.new ≡ (read (S.meaning store.old)).after }
        ensures held { held_of (E.jobs self.new.executor).list self.new ≡ held_after self.old.number (read (S.meaning store.old)).answer (held_of (E.jobs self.old.executor).list self.old) }
        ensures settings { settings_of E.places.count self.new ≡ settings_of E.places.count self.old }
    {
        let Some(draft) = store.read()? else {
            return Ok(None);
        };
        self.owned.keep_running(&draft, self.number);
        Ok(Some(draft))
    }

    // The record for an attempt of a work; once loaded, no record is a fault of cause 0.
    pub(super) fn read_for<S: CompactionsStore>(
        &mut self,
        store: &mut S,
        during: During,
    ) -> Result<Draft, WorkerFault>
        ensures answer { read_of result ≡ record_for during (read (S.meaning store.old)).answer }
        ensures store { S.meaning store.new ≡ (read (S.meaning store.old)).after }
        ensures held { held_of (E.jobs self.new.executor).list self.new ≡ held_after self.old.number (read (S.meaning store.old)).answer (held_of (E.jobs self.old.executor).list self.old) }
        ensures settings { settings_of E.places.count self.new ≡ settings_of E.places.count self.old }
    {
        let Some(draft) = during.tell(self.read_record(store))? else {
            let fault = StoreFault {
                step: Step::Read,
                cause: 0,
            };
            return Err(WorkerFault::Store(Told { fault, during }));
        };
        Ok(draft)
    }

    // The first look: one read unless loaded; says whether there is a record, which is yes or no.
    pub(super) fn ensure_loaded<S: CompactionsStore>(
        &mut self,
        store: &mut S,
    ) -> Result<bool, WorkerFault>
        ensures found { (c : Readings) (ms : List (Result Manifest ℕ)) → opened_of result ≡ (first_look self.old.number (state (held_of (E.jobs self.old.executor).list self.old) (S.meaning store.old) c ms)).found }
        ensures after { (c : Readings) (ms : List (Result Manifest ℕ)) → state (held_of (E.jobs self.new.executor).list self.new) (S.meaning store.new) c ms ≡ (first_look self.old.number (state (held_of (E.jobs self.old.executor).list self.old) (S.meaning store.old) c ms)).state }
        ensures settings { settings_of E.places.count self.new ≡ settings_of E.places.count self.old }
    {
        if self.loaded {
            return Ok(true);
        }
        let during = During {
            work: Work::Look,
            id: None,
            attempt: 0,
        };
        let found = during.tell(self.read_record(store))?;
        let loaded = found.is_some();
        self.loaded = loaded;
        Ok(loaded)
    }
}
