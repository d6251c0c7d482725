// What the worker answers to a notice of its executor.
ghost use Rattle.std.specs.Prelude.{◌≡◌};
ghost use Rattle.worker.specs.Notices.{answer_to};

use crate::settling::Settled;

// One word for each answer, as papers have them, so Written and Dropped stand here and in `Settled`.
// There is no record yet, no notice was there, progress was kept, or the entry of a job that ended
// was written or dropped.
#[derive(Clone, Copy, PartialEq, Eq, Debug)]
pub enum NoticeAnswer {
    NothingYet,
    NoNotice,
    Progress,
    Written,
    Dropped,
}

impl From<Settled> for NoticeAnswer {
    ghost from_gives = { λ settled answer. answer ≡ answer_to settled };

    fn from(settled: Settled) -> NoticeAnswer {
        match settled {
            Settled::Written => NoticeAnswer::Written,
            Settled::Dropped => NoticeAnswer::Dropped,
        }
    }
}
