// The parts of an entry, each from the rest of a line.
ghost use Rattle.std.specs.Prelude.{◌≡◌};
ghost use Rattle.std.specs.Option.{option_map};
ghost use Rattle.compactions.specs.Meanings.{spec_of, source_of, status_of, worker_of, context_of, sub_of, sst_of};
ghost use Rattle.paper_text.specs.Words.{words};
ghost use Rattle.paper_text.specs.Numbers.{id_of};
ghost use Rattle.problems.specs.Outcomes.{read_as};
ghost use Rattle.entry_section.specs.EntryParts.{drain_in, kind_in, source_by, source_in, status_in, worker_in, context_by, tiered_in, with_output, with_outputs, sub_in};

use compactions::compactor_state::{
    CompactionContext, CompactionSpec, CompactionStatus, SourceId, Subcompaction, WorkerSpec,
};
use compactions::db_state::SsTableId;
use paper_text::numbers::{id_in, u32_in, u64_in};
use paper_text::words::{Line, Words};
use problems::error::{Limit, Problem};
use problems::expected::InEntry;

// The kind of the entry: a merge into a destination, or a drain.
pub(crate) fn kind_in(line: Line<'_>) -> Result<CompactionSpec, Problem>
    ensures { read_as spec_of result ≡ kind_in line.entry.keyword.now (words line.entry.rest.now) }
{
    match line.keyword {
        b"tiered" => tiered_in(line.words()),
        b"drain" => drain_in(line.words()),
        _ => Err(InEntry::Kind.into()),
    }
}

fn tiered_in(words: Words<'_>) -> Result<CompactionSpec, Problem>
    ensures { read_as spec_of result ≡ tiered_in words.entry }
{
    let destination = words.only().and_then(u32_in).ok_or(InEntry::Destination)?;
    Ok(CompactionSpec::new(destination))
}

// A drain stands alone on its line.
fn drain_in(mut words: Words<'_>) -> Result<CompactionSpec, Problem>
    ensures { read_as spec_of result ≡ drain_in words.entry }
{
    if words.next().is_some() {
        return Err(InEntry::DrainAlone.into());
    }
    let drain = CompactionSpec::drain_segment(&[]).map_err(|_| Limit::EntrySegment)?;
    Ok(drain)
}

pub(crate) fn source_in(mut words: Words<'_>) -> Option<SourceId>
    ensures { option_map source_of result ≡ source_in words.entry }
{
    let kind = words.next()?;
    source_by(kind, words.only()?)
}

fn source_by(kind: &[u8], word: &[u8]) -> Option<SourceId>
    ensures { option_map source_of result ≡ source_by kind.now word.now }
{
    match kind {
        b"view" => Some(SourceId::SstView(id_in(word)?)),
        b"run" => Some(SourceId::SortedRun(u32_in(word)?)),
        _ => None,
    }
}

pub(crate) fn status_in(word: &[u8]) -> Option<CompactionStatus>
    ensures { option_map status_of result ≡ status_in word.now }
{
    match word {
        b"submitted" => Some(CompactionStatus::Submitted),
        b"scheduled" => Some(CompactionStatus::Scheduled),
        b"running" => Some(CompactionStatus::Running),
        b"compacted" => Some(CompactionStatus::Compacted),
        b"completed" => Some(CompactionStatus::Completed),
        b"failed" => Some(CompactionStatus::Failed),
        _ => None,
    }
}

pub(crate) fn output_in(word: &[u8]) -> Option<SsTableId>
    ensures { option_map sst_of result ≡ id_of word.now }
{
    id_in(word).map(SsTableId)
}

pub(crate) fn worker_in(mut words: Words<'_>) -> Option<WorkerSpec>
    ensures { option_map worker_of result ≡ worker_in words.entry }
{
    let number = words.next()?;
    let stamp = words.only()?;
    Some(WorkerSpec {
        worker_id: u32_in(number)?,
        last_heartbeat_ms: u64_in(stamp)?,
    })
}

pub(crate) fn context_in(word: &[u8]) -> Option<CompactionContext>
    ensures { option_map context_of result ≡ context_by word.now }
{
    match word {
        b"none" => Some(CompactionContext::new(None)),
        number => Some(CompactionContext::new(Some(u64_in(number)?))),
    }
}

// A range's number, then its outputs. As `run_in` of a manifest's parts: one function for both would take
// the value, its addition, how a word is read, the problem and a definition for each, and be longer.
pub(crate) fn subcompaction_in(mut words: Words<'_>) -> Result<Subcompaction, Problem>
    ensures { read_as sub_of result ≡ sub_in words.entry }
{
    let range = words.next().and_then(u32_in).ok_or(InEntry::Subcompaction)?;
    with_outputs(Subcompaction::new(range), words)
}

// As `with_views` of a manifest's parts, for the same reason.
fn with_outputs(mut sub: Subcompaction, words: Words<'_>) -> Result<Subcompaction, Problem>
    ensures { read_as sub_of result ≡ with_outputs words.entry (sub_of sub) }
{
    for word in words {
        sub = with_output(sub, word)?;
    }
    Ok(sub)
}

fn with_output(mut sub: Subcompaction, word: &[u8]) -> Result<Subcompaction, Problem>
    ensures { read_as sub_of result ≡ with_output word.now (sub_of sub) }
{
    let output = output_in(word).ok_or(InEntry::Output)?;
    sub.add_output(output)
        .map_err(|_| Limit::SubcompactionOutputs)?;
    Ok(sub)
}
