// What is printed: the verdict on each entry with the answer beside it, and the marks.
use crate::answer::{Answer, Claim, Mark, Part, Verdict};
use crate::marks::Marks;
use compactions::job_args::StartCompactionJobArgs;
use std::fmt;

// Each after the separator.
fn write_each<W: fmt::Write, T: fmt::Display>(
    f: &mut fmt::Formatter<W>,
    separator: &str,
    items: &[T],
) -> fmt::Result {
    for item in items {
        write!(f, "{separator}{item}")?;
    }
    Ok(())
}

// This and the next: two words each, and nothing else that they share.
fn mark_word(is_set: bool) -> &'static str {
    if is_set { "set" } else { "unset" }
}

fn presence_word(is_present: bool) -> &'static str {
    if is_present { "present" } else { "absent" }
}

fn write_args<W: fmt::Write>(
    f: &mut fmt::Formatter<W>,
    args: &StartCompactionJobArgs,
) -> fmt::Result {
    let id = args.id;
    let destination = args.destination;
    write!(f, "  id {id}\n  destination {destination}\n  views")?;
    write_each(f, " ", args.l0_sst_views.as_slice())?;
    f.write_str("\n  runs")?;
    write_each(f, " ", args.sorted_runs.as_slice())?;
    let tick = args.compaction_clock_tick;
    let last_run = mark_word(args.is_dest_last_run);
    let retention = args.retention_min_seq;
    write!(
        f,
        "\n  tick {tick}\n  last-run {last_run}\n  retention {retention}\n  context "
    )?;
    match &args.ctx {
        Some(context) => write!(f, "{context}\n"),
        None => f.write_str("absent\n"),
    }
}

// The rest of the entry's line, and then the arguments, each on a line.
impl fmt::Display for Verdict {
    fn fmt<W: fmt::Write>(&self, f: &mut fmt::Formatter<W>) -> fmt::Result {
        match &self.0 {
            Ok(args) => {
                f.write_str("passes\n")?;
                write_args(f, args)
            }
            Err(refusal) => {
                let number = refusal.number();
                write!(f, "refused with {number}\n")
            }
        }
    }
}

impl fmt::Display for Part {
    fn fmt<W: fmt::Write>(&self, f: &mut fmt::Formatter<W>) -> fmt::Result {
        f.write_str(match self {
            Part::Destination => "destination",
            Part::Views => "views",
            Part::Runs => "runs",
            Part::Tick => "tick",
            Part::LastRun => "last-run",
            Part::Retention => "retention",
            Part::Context => "context",
        })
    }
}

impl fmt::Display for Claim {
    fn fmt<W: fmt::Write>(&self, f: &mut fmt::Formatter<W>) -> fmt::Result {
        let part = self.part();
        write!(f, "{part}")?;
        match self {
            Claim::Destination(destination) => write!(f, " {destination}"),
            Claim::Views(views) => write_each(f, " ", views.as_slice()),
            Claim::Runs(ids) => write_each(f, " ", ids.as_slice()),
            Claim::Tick(tick) => write!(f, " {tick}"),
            Claim::LastRun(is_set) => {
                let word = mark_word(*is_set);
                write!(f, " {word}")
            }
            Claim::Retention(retention) => write!(f, " {retention}"),
            Claim::Context(is_present) => {
                let word = presence_word(*is_present);
                write!(f, " {word}")
            }
        }
    }
}

impl fmt::Display for Answer {
    fn fmt<W: fmt::Write>(&self, f: &mut fmt::Formatter<W>) -> fmt::Result {
        match self {
            Answer::Passes(claims) => {
                f.write_str("passes")?;
                write_each(f, ", ", claims.as_slice())
            }
            Answer::Refused => f.write_str("refused"),
        }
    }
}

impl fmt::Display for Mark {
    fn fmt<W: fmt::Write>(&self, f: &mut fmt::Formatter<W>) -> fmt::Result {
        match self {
            Mark::Right => f.write_str("right"),
            Mark::WrongVerdict => f.write_str("wrong"),
            Mark::WrongPart(part) => write!(f, "wrong ({part})"),
        }
    }
}

impl fmt::Display for Marks {
    fn fmt<W: fmt::Write>(&self, f: &mut fmt::Formatter<W>) -> fmt::Result {
        let right = self.right;
        let of = self.of;
        write!(f, "marks: {right} of {of}")
    }
}
