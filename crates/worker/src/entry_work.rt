// A work on one entry, by what it writes over the entry.
ghost use Rattle.std.specs.Prelude.{◌≡◌};
ghost use Rattle.compactions.specs.Meanings.{entry_of};
ghost use Rattle.worker_steps.specs.Faults.{work_of};
ghost use Rattle.worker.specs.EntryWorks.{EntryWork as Meaning};

use compactions::compactor_state::Compaction;
use executors::clock::ListClock;
use worker_steps::fault::Work;

pub trait EntryWork {
    // its steps, as they are defined
    ghost steps: { Self → Meaning };

    // What a fault of it is told of.
    fn work(&self) -> Work
        ensures { work_of result ≡ (steps self.now).work };

    // The entry as the worker of this number writes it; the clock is for its stamp.
    fn changed(&self, entry: Compaction, number: u32, clock: &mut ListClock) -> Compaction
        ensures value { entry_of result ≡ (steps self.now).changed number clock.old (entry_of entry) }
        ensures clock { clock.new ≡ (steps self.now).clock clock.old };
}
