// A compaction as the store keeps it: what to compact, how far it is, who works on it.
//
// Reworked from src/compactor_state.rs of slatedb 0.16.0 (Apache-2.0, see NOTICE); changed: fixed
// sizes with refusals, numbers for worker names and key ranges, byte counts left out.
ghost use Rattle.std.specs.Prelude.{◌≡◌, ◌≤◌, [], map, length, is_ok, IfOk, if◌then◌else◌, None, nat_le, nat_lt};
ghost use Rattle.table.specs.Ids.{number};
ghost use Rattle.table.specs.Counted.{items_of};
ghost use Rattle.compactions.specs.Entries.{tiered, drain, submitted, spec_segment, spec_sources, spec_destination, more_sources, more_subs, more_sub_outputs, more_outputs};
ghost use Rattle.compactions.specs.Meanings.{source_of, spec_of, sst_of, sub_of, context_of, entry_of};
ghost use Rattle.compactions.specs.Refusals.{refused_with, unless};

use crate::db_state::{NO_SST, SsTableId};
use crate::refusal::Refusal;
use crate::rows::Rows;
use table::row::Row;
use table::ulid::Ulid;

#[derive(Clone, Copy, PartialEq, Eq, Debug)]
pub enum SourceId {
    SortedRun(u32),
    SstView(Ulid),
}

// Two structs that share two fields, as the Rust has them, since a drain has no destination.
#[derive(Clone, Copy)]
pub struct TieredCompactionSpec {
    pub segment: Rows<u8, 16>,
    pub sources: Rows<SourceId, 8>,
    pub destination: u32,
}

#[derive(Clone, Copy)]
pub struct DrainSegmentSpec {
    pub segment: Rows<u8, 16>,
    pub sources: Rows<SourceId, 8>,
}

#[derive(Clone, Copy)]
pub enum CompactionSpec {
    Tiered(TieredCompactionSpec),
    DrainSegment(DrainSegmentSpec),
}

#[derive(Clone, Copy, PartialEq, Eq, Debug)]
pub enum CompactionStatus {
    Submitted,
    Scheduled,
    Running,
    Compacted,
    Completed,
    Failed,
}

// The worker that holds a claim, by its number, and the stamp of its last heartbeat.
#[derive(Clone, Copy, PartialEq, Eq, Debug)]
pub struct WorkerSpec {
    pub worker_id: u32,
    pub last_heartbeat_ms: u64,
}

// A range of keys, by its number, and the SSTs written for it so far.
#[derive(Clone, Copy)]
pub struct Subcompaction {
    pub range: u32,
    pub output_ssts: Rows<SsTableId, 4>,
}

// How far a job has come, so that another worker can go on with it.
#[derive(Clone, Copy)]
pub struct CompactionContext {
    pub subcompactions: Rows<Subcompaction, 4>,
    pub retention_min_seq: Option<u64>,
}

#[derive(Clone, Copy)]
pub struct Compaction {
    pub id: Ulid,
    pub spec: CompactionSpec,
    pub status: CompactionStatus,
    pub output_ssts: Rows<SsTableId, 8>,
    pub worker: Option<WorkerSpec>,
    pub ctx: Option<CompactionContext>,
}

impl Row for Compaction {
    ghost named = { λ c. c.id };

    fn id(&self) -> Ulid {
        self.id
    }
}

// What fills the places that do not count.
const NO_SOURCE: SourceId = SourceId::SortedRun(0);

impl CompactionSpec {
    // A merge into one sorted run of the root tree; no source yet.
    pub fn new(destination: u32) -> CompactionSpec
        ensures { spec_of result ≡ tiered [] [] destination }
    {
        CompactionSpec::tiered(Rows::new(0), destination)
    }

    // The same in the segment's tree; the empty segment is the root's.
    pub fn for_segment(segment: &[u8], destination: u32) -> Result<CompactionSpec, Refusal>
        ensures value { refused_with result ≡ unless (nat_le (length segment.now) 16) 1 }
        ensures made { IfOk result (λ s. spec_of s ≡ tiered segment.now [] destination) }
    {
        let segment = Rows::from_slice(segment, 0, Refusal::Count)?;
        Ok(CompactionSpec::tiered(segment, destination))
    }

    fn tiered(segment: Rows<u8, 16>, destination: u32) -> CompactionSpec
        ensures { spec_of result ≡ tiered (items_of segment) [] destination }
    {
        let sources = Rows::new(NO_SOURCE);
        CompactionSpec::Tiered(TieredCompactionSpec {
            segment,
            sources,
            destination,
        })
    }

    // The retirement of a segment; no source yet.
    pub fn drain_segment(segment: &[u8]) -> Result<CompactionSpec, Refusal>
        ensures value { refused_with result ≡ unless (nat_le (length segment.now) 16) 1 }
        ensures made { IfOk result (λ s. spec_of s ≡ drain segment.now []) }
    {
        let segment = Rows::from_slice(segment, 0, Refusal::Count)?;
        let sources = Rows::new(NO_SOURCE);
        Ok(CompactionSpec::DrainSegment(DrainSegmentSpec { segment, sources }))
    }

    // One source more; a ninth is refused.
    pub fn add_source(&mut self, source: SourceId) -> Result<(), Refusal>
        ensures value { refused_with result ≡ unless (nat_lt (length (spec_sources (spec_of self.old))) 8) 1 }
        ensures after { spec_of self.new ≡ (if is_ok result then more_sources (source_of source) (spec_of self.old) else spec_of self.old) }
    {
        match self {
            CompactionSpec::Tiered(spec) => spec.sources.push(source, Refusal::Count),
            CompactionSpec::DrainSegment(spec) => spec.sources.push(source, Refusal::Count),
        }
    }

    // Beside `sources`, which reads the other field: one function for both would take the field as a
    // closure at each call and be longer than the two.
    pub fn segment(&self) -> &[u8]
        ensures { result.now ≡ spec_segment (spec_of self.now) }
    {
        match self {
            CompactionSpec::Tiered(spec) => spec.segment.as_slice(),
            CompactionSpec::DrainSegment(spec) => spec.segment.as_slice(),
        }
    }

    pub fn sources(&self) -> &[SourceId]
        ensures value { map source_of result.now ≡ spec_sources (spec_of self.now) }
        ensures within { length result.now ≤ 8 }
    {
        match self {
            CompactionSpec::Tiered(spec) => spec.sources.as_slice(),
            CompactionSpec::DrainSegment(spec) => spec.sources.as_slice(),
        }
    }

    // The run that is written; a drain writes none.
    pub fn destination(&self) -> Option<u32>
        ensures { result ≡ spec_destination (spec_of self.now) }
    {
        match self {
            CompactionSpec::Tiered(spec) => Some(spec.destination),
            CompactionSpec::DrainSegment(_) => None,
        }
    }
}

impl Subcompaction {
    pub fn new(range: u32) -> Subcompaction
        ensures { sub_of result ≡ record { range = range; outputs = [] } }
    {
        Subcompaction {
            range,
            output_ssts: Rows::new(NO_SST),
        }
    }

    // One output more; a fifth is refused.
    pub fn add_output(&mut self, output: SsTableId) -> Result<(), Refusal>
        ensures value { refused_with result ≡ unless (nat_lt (length (sub_of self.old).outputs) 4) 1 }
        ensures after { sub_of self.new ≡ (if is_ok result then more_sub_outputs (sst_of output) (sub_of self.old) else sub_of self.old) }
    {
        self.output_ssts.push(output, Refusal::Count)
    }
}

impl CompactionContext {
    pub fn new(retention_min_seq: Option<u64>) -> CompactionContext
        ensures { context_of result ≡ record { retention = retention_min_seq; subs = [] } }
    {
        CompactionContext {
            subcompactions: Rows::new(Subcompaction::new(0)),
            retention_min_seq,
        }
    }

    // One subcompaction more; a fifth is refused.
    pub fn add_subcompaction(&mut self, sub: Subcompaction) -> Result<(), Refusal>
        ensures value { refused_with result ≡ unless (nat_lt (length (context_of self.old).subs) 4) 1 }
        ensures after { context_of self.new ≡ (if is_ok result then more_subs (sub_of sub) (context_of self.old) else context_of self.old) }
    {
        self.subcompactions.push(sub, Refusal::Count)
    }
}

impl Compaction {
    pub fn new(id: Ulid, spec: CompactionSpec) -> Compaction
        ensures { entry_of result ≡ record { id = number id; spec = spec_of spec; status = submitted; outputs = []; worker = None; context = None } }
    {
        Compaction {
            id,
            spec,
            status: CompactionStatus::Submitted,
            output_ssts: Rows::new(NO_SST),
            worker: None,
            ctx: None,
        }
    }

    // One output more; a ninth is refused.
    pub fn add_output(&mut self, sst: SsTableId) -> Result<(), Refusal>
        ensures value { refused_with result ≡ unless (nat_lt (length (entry_of self.old).outputs) 8) 1 }
        ensures after { entry_of self.new ≡ (if is_ok result then more_outputs (sst_of sst) (entry_of self.old) else entry_of self.old) }
    {
        self.output_ssts.push(sst, Refusal::Count)
    }
}
