// The making of a worker, and what it shows of itself.
ghost use Rattle.std.specs.Prelude.{◌≡◌, ◌≤◌, [], map, IfOk};
ghost use Rattle.table.specs.Ids.{number as id-number};
ghost use Rattle.worker_steps.specs.Tracking.{Tracked};
ghost use Rattle.worker.specs.Making.{settings_refused, making_refused, Made};
ghost use Rattle.worker.specs.Meanings.{row_of};

use super::CompactionWorker;
use crate::job_progress::Progress;
use crate::making::Unmade;
use crate::owned_jobs::OwnedJobs;
use compactions::refusal::Refusal;
use executors::compactor_executor::CompactionExecutor;
use table::ulid::Ulid;

impl<E: CompactionExecutor> CompactionWorker<E> {
    // Ends all jobs of the executor, which it keeps: at most `maximum` jobs, 8 at most, and at most
    // `limit` attempts at each work, 1 to 64.
    pub fn new(
        executor: E,
        number: u32,
        maximum: u32,
        limit: u32,
    ) -> Result<CompactionWorker<E>, Unmade<E>>
        ensures refused { making_refused result ≡ settings_refused maximum limit }
        ensures made { Made (λ e. (E.jobs e).list) (record { number = number; maximum = maximum; limit = limit; places = E.places.count }) executor result }
        ensures tracked { IfOk result (λ w. Tracked w.maximum [] w.table w.left) }
        ensures limits { IfOk result (λ w. (1 ≤ w.limit) × ((w.limit ≤ 64) × (w.maximum ≤ 8))) }
    {
        if maximum > 8 {
            return Err(Unmade {
                executor,
                refusal: Refusal::Maximum,
            });
        }
        if limit < 1 || limit > 64 {
            return Err(Unmade {
                executor,
                refusal: Refusal::AttemptLimit,
            });
        }
        let mut executor = executor;
        executor.stop();
        Ok(CompactionWorker {
            number,
            limit,
            loaded: false,
            owned: OwnedJobs::new(maximum as usize),
            executor,
        })
    }

    // Whether a record was found.
    pub fn is_loaded(&self) -> bool
        ensures value { result ≡ self.now.loaded }
        ensures tracked { Tracked self.now.maximum [] self.now.table self.now.left }
        ensures limits { (1 ≤ self.now.limit) × ((self.now.limit ≤ 64) × (self.now.maximum ≤ 8)) }
    {
        self.loaded
    }

    // The job table, ascending by id.
    pub fn job_progress(&self) -> &[Progress]
        ensures value { map row_of result.now ≡ self.now.table }
        ensures tracked { Tracked self.now.maximum [] self.now.table self.now.left }
        ensures limits { (1 ≤ self.now.limit) × ((self.now.limit ≤ 64) × (self.now.maximum ≤ 8)) }
    {
        self.owned.rows()
    }

    // The left-behind list, ascending.
    pub fn left_behind(&self) -> &[Ulid]
        ensures value { map id-number result.now ≡ self.now.left }
        ensures tracked { Tracked self.now.maximum [] self.now.table self.now.left }
        ensures limits { (1 ≤ self.now.limit) × ((self.now.limit ≤ 64) × (self.now.maximum ≤ 8)) }
    {
        self.owned.listed()
    }

    pub fn executor(&self) -> &E
        ensures { result.now ≡ self.now.executor }
    {
        &self.executor
    }
}
