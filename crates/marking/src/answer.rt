// A candidate's answer to an entry, and what the argument check says of it.
ghost use Rattle.std.specs.Prelude.{◌≡◌, Bool, map, nat_eq};
ghost use Rattle.argument_check.specs.Check.{job_args};
ghost use Rattle.compactions.specs.Jobs.{args_of};
ghost use Rattle.compactions.specs.Meanings.{view_of, run_of, entry_of, manifest_of};
ghost use Rattle.marking.specs.Marking.{verdict_args, alike, AnswersPairs, same_view, claim_holds, part_of, first_wrong, mark_of, is_right, agrees};

use argument_check::build_job_args;
use compactions::compactor_state::Compaction;
use compactions::db_state::{SortedRun, SsTableView};
use compactions::job_args::StartCompactionJobArgs;
use compactions::manifest::Manifest;
use compactions::refusal::Refusal;

// What the argument check says: the arguments that the job is started with, or the refusal.
#[derive(Clone, Copy)]
pub struct Verdict(pub Result<StartCompactionJobArgs, Refusal>);

// One thing that a candidate says of the arguments.
#[derive(Drop)]
pub enum Claim {
    Destination(u32),
    Views(Vec<SsTableView>),
    Runs(Vec<u32>),
    Tick(i64),
    LastRun(bool),
    Retention(u64),
    Context(bool),
}

// What a claim is about.
#[derive(Clone, Copy, PartialEq, Eq, Debug)]
pub enum Part {
    Destination,
    Views,
    Runs,
    Tick,
    LastRun,
    Retention,
    Context,
}

// No Option of the claims: a question has an Option of an answer, and each has its word in a paper.
#[derive(Drop)]
pub enum Answer {
    Passes(Vec<Claim>),
    Refused,
}

// An answer is wrong by its verdict, or by the first claim that differs. No Result: a wrong answer
// is no error of the marking, and each of the three has its word.
#[derive(Clone, Copy, PartialEq, Eq, Debug)]
pub enum Mark {
    Right,
    WrongVerdict,
    WrongPart(Part),
}

impl Verdict {
    pub fn of(entry: &Compaction, manifest: &Manifest) -> Verdict
        ensures { verdict_args result ≡ job_args (entry_of entry.now) (manifest_of manifest.now) }
    {
        Verdict(build_job_args(entry, manifest))
    }
}

// Whether there are as many of both, and each is the same as the other's at its place.
fn are_alike<X, Y, F: Fn(&X, &Y) -> bool>(xs: &[X], ys: &[Y], is_same: F) -> bool
    requires { F.IsAlwaysCallable is_same }
    ensures { (e : X → Y → Bool) → AnswersPairs F.Fn is_same e → result ≡ alike e xs.now ys.now }
{
    if xs.len() != ys.len() {
        return false;
    }
    let mut pairs = xs.iter().zip(ys.iter());
    pairs.all(|(x, y)| is_same(x, y))
}

// By value, so that the halves of the ids are known to be numbers of 64 bits.
fn is_same_view(a: SsTableView, b: SsTableView) -> bool
    ensures { result ≡ same_view (view_of a) (view_of b) }
{
    a == b
}

// Whether the same views stand in both, in the same order.
fn are_same_views(claimed: &[SsTableView], views: &[SsTableView]) -> bool
    ensures { result ≡ alike (λ v w. same_view (view_of v) w) claimed.now (map view_of views.now) }
{
    are_alike(claimed, views, |a, b| is_same_view(*a, *b))
}

// Whether these are the ids of the runs, in order.
fn are_run_ids(claimed: &[u32], runs: &[SortedRun]) -> bool
    ensures { result ≡ alike (λ n r. nat_eq n r.id) claimed.now (map run_of runs.now) }
{
    are_alike(claimed, runs, |id, run| *id == run.id)
}

impl Claim {
    pub fn part(&self) -> Part
        ensures { result ≡ part_of self.now }
    {
        match self {
            Claim::Destination(_) => Part::Destination,
            Claim::Views(_) => Part::Views,
            Claim::Runs(_) => Part::Runs,
            Claim::Tick(_) => Part::Tick,
            Claim::LastRun(_) => Part::LastRun,
            Claim::Retention(_) => Part::Retention,
            Claim::Context(_) => Part::Context,
        }
    }

    // Whether the arguments are as claimed.
    pub(crate) fn holds(&self, args: &StartCompactionJobArgs) -> bool
        ensures { result ≡ claim_holds self.now (args_of args.now) }
    {
        match self {
            Claim::Destination(destination) => *destination == args.destination,
            Claim::Views(views) => are_same_views(views.as_slice(), args.l0_sst_views.as_slice()),
            Claim::Runs(ids) => are_run_ids(ids.as_slice(), args.sorted_runs.as_slice()),
            Claim::Tick(tick) => *tick == args.compaction_clock_tick,
            Claim::LastRun(is_set) => *is_set == args.is_dest_last_run,
            Claim::Retention(retention) => *retention == args.retention_min_seq,
            Claim::Context(is_present) => *is_present == args.ctx.is_some(),
        }
    }
}

// The first claim that does not hold.
fn first_wrong(claims: &[Claim], args: &StartCompactionJobArgs) -> Option<Part>
    ensures { result ≡ first_wrong claims.now (args_of args.now) }
{
    let wrong = claims.iter().find(|claim| !claim.holds(args));
    wrong.map(|claim| claim.part())
}

impl Mark {
    fn is_right(self) -> bool
        ensures { result ≡ is_right self }
    {
        matches!(self, Mark::Right)
    }
}

impl Answer {
    pub fn mark(&self, verdict: &Verdict) -> Mark
        ensures { result ≡ mark_of self.now (verdict_args verdict.now) }
    {
        match (self, &verdict.0) {
            (Answer::Passes(claims), Ok(args)) => match first_wrong(claims.as_slice(), args) {
                Some(part) => Mark::WrongPart(part),
                None => Mark::Right,
            },
            (Answer::Refused, Err(_)) => Mark::Right,
            _ => Mark::WrongVerdict,
        }
    }

    pub fn agrees(&self, verdict: &Verdict) -> bool
        ensures { result ≡ agrees self.now (verdict_args verdict.now) }
    {
        self.mark(verdict).is_right()
    }
}
