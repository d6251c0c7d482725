// Where an executor's notices come from.
ghost use Rattle.std.specs.Prelude.{◌≡◌, true, Option};
ghost use Rattle.std.specs.Option.{option_map};
ghost use Rattle.executors.specs.Executors.{Notice, names_running};
ghost use Rattle.executors.specs.Notices.{notice_of};
ghost use Rattle.executors.specs.Jobs.{Jobs, args_in};
ghost use Rattle.executors.specs.Tables.{table_of};

use crate::compactor_executor::WorkerMessage;
use crate::job_table::JobTable;

pub trait NextNotice {
    // the notice that comes next while these jobs run, if there is one
    ghost coming: { Self → Jobs → Option Notice };

    // what is left behind it
    ghost behind: { Self → Jobs → Self };

    fn next_notice(&mut self, jobs: &JobTable) -> Option<WorkerMessage>
        ensures notice { option_map notice_of result ≡ coming self.old (table_of jobs.now) }
        ensures behind { self.new ≡ behind self.old (table_of jobs.now) };

    // it is of a running job
    ghost of_running: { (s : Self) (t : Jobs) → names_running (args_in t) (coming s t) ≡ true };
}
