// The lines of an entry, each as a step on what was read.
ghost use Rattle.std.specs.Prelude.{◌≡◌, false, length, None, Ok, ◌==◌};
ghost use Rattle.std.specs.Option.{option_map};
ghost use Rattle.table.specs.Ids.{number};
ghost use Rattle.table.specs.Counted.{items_of};
ghost use Rattle.compactions.specs.Entries.{spec_sources};
ghost use Rattle.compactions.specs.Meanings.{spec_of, entry_of};
ghost use Rattle.paper_text.specs.Words.{words};
ghost use Rattle.problems.specs.Outcomes.{read_as, then};
ghost use Rattle.entry_section.specs.EntryParts.{kind_in};
ghost use Rattle.entry_section.specs.EntryLines.{draft_of, parts_of, entry_in, kept, begun, moved, segment_line, source_line, status_line, output_line, worker_line, context_line, sub_line, part_line, entry_line, entry_read};

use crate::parts::{
    context_in, kind_in, output_in, source_in, status_in, subcompaction_in, worker_in,
};
use compactions::compactor_state::{
    Compaction, CompactionSpec, CompactionStatus, DrainSegmentSpec, TieredCompactionSpec,
};
use paper_text::segments::segment_in;
use paper_text::words::{Line, Words};
use problems::error::{Limit, Problem};
use problems::expected::InEntry;
use problems::once::once;
use table::rows::Rows;
use table::ulid::Ulid;

// An entry as far as it was read: its id alone, until a line says its kind.
#[derive(Clone, Copy)]
pub enum EntryDraft {
    Named(Ulid),
    Begun(Parts),
}

// An entry whose kind is said, and the segment and the status that lines say, which are stored in
// it at the end.
#[derive(Clone, Copy)]
pub struct Parts {
    entry: Compaction,
    segment: Option<Rows<u8, 16>>,
    status: Option<CompactionStatus>,
}

fn moved(spec: CompactionSpec, segment: Rows<u8, 16>) -> CompactionSpec
    ensures { spec_of result ≡ moved (items_of segment) (spec_of spec) }
{
    match spec {
        CompactionSpec::Tiered(spec) => {
            CompactionSpec::Tiered(TieredCompactionSpec { segment, ..spec })
        }
        CompactionSpec::DrainSegment(spec) => {
            CompactionSpec::DrainSegment(DrainSegmentSpec { segment, ..spec })
        }
    }
}

fn has_no_source(spec: &CompactionSpec) -> bool
    ensures { result ≡ (length (spec_sources (spec_of spec.now)) == 0) }
{
    spec.sources().is_empty()
}

impl EntryDraft {
    pub fn new(id: Ulid) -> EntryDraft
        ensures { draft_of result ≡ record { id = number id; entry = None; has_segment = false; has_status = false } }
    {
        EntryDraft::Named(id)
    }

    // What a line makes of it; none where the keyword is none of an entry's.
    pub fn read(self, line: Line<'_>) -> Option<Result<EntryDraft, Problem>>
        ensures { option_map (read_as draft_of) result ≡ entry_line line.entry.keyword.now (words line.entry.rest.now) (draft_of self) }
    {
        match self {
            EntryDraft::Named(id) => Some(Parts::begin(id, line).map(EntryDraft::Begun)),
            EntryDraft::Begun(parts) => Some(parts.read(line)?.map(EntryDraft::Begun)),
        }
    }

    // The entry, if its kind was said.
    pub fn finish(self) -> Result<Compaction, Problem>
        ensures { read_as entry_of result ≡ entry_read (draft_of self) }
    {
        match self {
            EntryDraft::Named(_) => Err(InEntry::Kind.into()),
            EntryDraft::Begun(parts) => Ok(parts.finish()),
        }
    }
}

impl Parts {
    // The line that says the kind.
    fn begin(id: Ulid, line: Line<'_>) -> Result<Parts, Problem>
        ensures { read_as parts_of result ≡ then (kind_in line.entry.keyword.now (words line.entry.rest.now)) (λ s. Ok (begun (record { id = number id; entry = None; has_segment = false; has_status = false }) s)) }
    {
        let mut entry = Compaction::new(id, kind_in(line)?);
        entry.status = CompactionStatus::Scheduled;
        Ok(Parts {
            entry,
            segment: None,
            status: None,
        })
    }

    // A line below that one.
    fn read(self, line: Line<'_>) -> Option<Result<Parts, Problem>>
        ensures { option_map (read_as parts_of) result ≡ part_line line.entry.keyword.now (words line.entry.rest.now) (parts_of self) (entry_in self) }
    {
        let words = line.words();
        match line.keyword {
            b"tiered" | b"drain" => Some(Err(InEntry::OneKind.into())),
            b"segment" => Some(self.read_segment(words)),
            b"source" => Some(self.read_source(words)),
            b"status" => Some(self.read_status(words)),
            b"output" => Some(self.read_output(words)),
            b"worker" => Some(self.read_worker(words)),
            b"context" => Some(self.read_context(words)),
            b"subcompaction" => Some(self.read_subcompaction(words)),
            _ => None,
        }
    }

    fn read_segment(mut self, words: Words<'_>) -> Result<Parts, Problem>
        ensures { read_as parts_of result ≡ segment_line words.entry (parts_of self) (entry_in self) }
    {
        if self.segment.is_some() {
            return Err(InEntry::OneSegment.into());
        }
        if !has_no_source(&self.entry.spec) {
            return Err(InEntry::SegmentFirst.into());
        }
        let segment = segment_in(words, Limit::EntrySegment).ok_or(InEntry::Segment)??;
        self.segment = Some(segment);
        Ok(self)
    }

    fn read_source(mut self, words: Words<'_>) -> Result<Parts, Problem>
        ensures { read_as parts_of result ≡ then (source_line words.entry (entry_in self)) (λ e. Ok (kept (parts_of self) e)) }
    {
        let source = source_in(words).ok_or(InEntry::Source)?;
        self.entry
            .spec
            .add_source(source)
            .map_err(|_| Limit::Sources)?;
        Ok(self)
    }

    // This, the worker's and the context's share `once`; what is left of each is its field and its problems.
    fn read_status(mut self, words: Words<'_>) -> Result<Parts, Problem>
        ensures { read_as parts_of result ≡ status_line words.entry (parts_of self) (entry_in self) }
    {
        let read = words.only().and_then(status_in);
        let status = once(self.status, read, InEntry::OneStatus, InEntry::Status)?;
        self.status = Some(status);
        Ok(self)
    }

    fn read_output(mut self, words: Words<'_>) -> Result<Parts, Problem>
        ensures { read_as parts_of result ≡ then (output_line words.entry (entry_in self)) (λ e. Ok (kept (parts_of self) e)) }
    {
        let output = words.only().and_then(output_in).ok_or(InEntry::Output)?;
        self.entry.add_output(output).map_err(|_| Limit::Outputs)?;
        Ok(self)
    }

    fn read_worker(mut self, words: Words<'_>) -> Result<Parts, Problem>
        ensures { read_as parts_of result ≡ then (worker_line words.entry (entry_in self)) (λ e. Ok (kept (parts_of self) e)) }
    {
        let read = worker_in(words);
        let worker = once(self.entry.worker, read, InEntry::OneWorker, InEntry::Worker)?;
        self.entry.worker = Some(worker);
        Ok(self)
    }

    fn read_context(mut self, words: Words<'_>) -> Result<Parts, Problem>
        ensures { read_as parts_of result ≡ then (context_line words.entry (entry_in self)) (λ e. Ok (kept (parts_of self) e)) }
    {
        let read = words.only().and_then(context_in);
        let context = once(self.entry.ctx, read, InEntry::OneContext, InEntry::Context)?;
        self.entry.ctx = Some(context);
        Ok(self)
    }

    fn read_subcompaction(mut self, words: Words<'_>) -> Result<Parts, Problem>
        ensures { read_as parts_of result ≡ then (sub_line words.entry (entry_in self)) (λ e. Ok (kept (parts_of self) e)) }
    {
        let mut context = self.entry.ctx.ok_or(InEntry::ContextFirst)?;
        let sub = subcompaction_in(words)?;
        context
            .add_subcompaction(sub)
            .map_err(|_| Limit::Subcompactions)?;
        self.entry.ctx = Some(context);
        Ok(self)
    }

    // The entry with its segment and its status.
    fn finish(self) -> Compaction
        ensures { entry_of result ≡ entry_in self }
    {
        let mut entry = self.entry;
        if let Some(segment) = self.segment {
            entry.spec = moved(entry.spec, segment);
        }
        entry.status = self.status.unwrap_or(entry.status);
        entry
    }
}
