// An executor that gives the notices of a lent list in order, but for those whose job does not run.
ghost use Rattle.std.specs.Prelude.{◌≡◌, [], map};
ghost use Rattle.executors.specs.Notices.{notice_of};
ghost use Rattle.executors.specs.Jobs.{args_in};
ghost use Rattle.executors.specs.Lists.{list_jobs, ahead_of, first_running, behind_running};
ghost use Rattle.executors.specs.Running.{first_runs};

use crate::compactor_executor::WorkerMessage;
use crate::job_table::JobTable;
use crate::next_notice::NextNotice;
use crate::table_executor::TableExecutor;
use std::marker::Model;
use std::slice::Iter;

pub type ListExecutor<'a> = TableExecutor<ListNotices<'a>>;

// The notices ahead.
#[derive(Drop)]
pub struct ListNotices<'a> {
    ahead: Iter<'a, WorkerMessage>,
}

impl<'a> Model for ListNotices<'a> {
    ghost use Rattle.std.specs.Prelude.{List, map};
    ghost use Rattle.std.specs.Slice.Iter.{iter_rest};
    ghost use Rattle.executors.specs.Executors.{Notice};
    ghost use Rattle.executors.specs.Notices.{notice_of};

    ghost Value = { List Notice };

    ghost view = { λ s. map notice_of (iter_rest s.ahead) };
}

impl<'a> TableExecutor<ListNotices<'a>> {
    pub fn new(notices: &'a [WorkerMessage]) -> ListExecutor<'a>
        ensures jobs { list_jobs result ≡ [] }
        ensures ahead { ahead_of result ≡ map notice_of notices.now }
    {
        TableExecutor::over(ListNotices {
            ahead: notices.iter(),
        })
    }
}

impl<'a> NextNotice for ListNotices<'a> {
    ghost coming = { λ ns t. first_running (args_in t) ns };

    ghost behind = { λ ns t. behind_running (args_in t) ns };

    ghost of_running = { λ ns t. first_runs (args_in t) ns };

    // The first notice ahead whose job runs; those before it are used up too.
    fn next_notice(&mut self, jobs: &JobTable) -> Option<WorkerMessage> {
        self.ahead.find(|notice| jobs.runs(notice.id())).copied()
    }
}
