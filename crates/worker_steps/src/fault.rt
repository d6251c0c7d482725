// A worker's faults: what failed, in which work, for which id and at which attempt.
//
// The Rust passes `SlateDBError` upward; here a fault also says what the worker was doing.
ghost use Rattle.std.specs.Prelude.{◌≡◌};
ghost use Rattle.worker_steps.specs.Faults.{number_of, fault_of, told_as};
ghost use Rattle.worker_steps.specs.declared.fault.WorkerFault.TheVariants.{Store};

use stores::compactions_store::StoreFault;
use table::ulid::Ulid;

#[derive(Clone, Copy, PartialEq, Eq, Debug)]
pub enum Work {
    Look,
    Claim,
    Heartbeat,
    Completion,
    Release,
}

// A work, the id that it is about, if any, and its attempt; a look has attempt 0. One struct for every
// work, as a fault is told in papers and in the definitions: work, id, attempt. Made by its
// named fields at each use, which say which is which as a constructor's parameters would not.
#[derive(Clone, Copy, PartialEq, Eq, Debug)]
pub struct During {
    pub work: Work,
    pub id: Option<Ulid>,
    pub attempt: u32,
}

// A store's fault, with the work that met it.
#[derive(Clone, Copy, PartialEq, Eq, Debug)]
pub struct Told {
    pub fault: StoreFault,
    pub during: During,
}

#[derive(Clone, Copy, PartialEq, Eq, Debug)]
pub enum WorkerFault {
    // the store failed
    Store(Told),
    // the manifest source failed, with this cause, a number that the source gives as it likes
    Manifest(u32, During),
    // no update landed within the attempt limit
    NotLanded(During),
    // a job's context does not extend the one in its entry
    NotExtending(During),
}

impl WorkerFault {
    // What is printed and marked; a clause names it.
    pub fn number(self) -> u32
        ensures { result ≡ number_of (fault_of self).reason }
    {
        match self {
            WorkerFault::Store(_) => 6,
            WorkerFault::Manifest(..) => 7,
            WorkerFault::NotLanded(_) => 8,
            WorkerFault::NotExtending(_) => 9,
        }
    }
}

// By hand, since clauses name what a `?` makes of a told fault.
impl From<Told> for WorkerFault {
    ghost from_gives = { λ t r. r ≡ Store t };

    fn from(told: Told) -> WorkerFault {
        WorkerFault::Store(told)
    }
}

impl During {
    // The store's answer, with this work beside its fault.
    pub fn tell<T>(self, answer: Result<T, StoreFault>) -> Result<T, Told>
        ensures { result ≡ told_as self answer }
    {
        answer.map_err(|fault| Told {
            fault,
            during: self,
        })
    }
}
