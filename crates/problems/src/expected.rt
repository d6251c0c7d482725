// What a line should have held, by the section that it stands in.
use thiserror::Error;

// The text as a whole, and the lines that begin a section.
#[derive(Clone, Copy, PartialEq, Eq, Debug, Error)]
pub enum InPaper {
    #[error("text in UTF-8")]
    Utf8,
    #[error("no control character")]
    NoControl,
    #[error("a manifest")]
    Manifest,
    #[error("manifest alone on its line")]
    ManifestAlone,
    #[error("one manifest at most, before the first entry")]
    OneManifest,
    #[error("a manifest before the first entry")]
    ManifestFirst,
    #[error("an entry's id as a 128-bit number")]
    EntryId,
    #[error("an id that no entry above has")]
    NewEntryId,
}

#[derive(Clone, Copy, PartialEq, Eq, Debug, Error)]
pub enum InManifest {
    #[error("tick, snapshot, view, run, segment or entry")]
    Keyword,
    #[error("a tick as a signed 64-bit number")]
    Tick,
    #[error("one tick at most")]
    OneTick,
    #[error("a snapshot as an unsigned 64-bit number")]
    Snapshot,
    #[error("one snapshot at most")]
    OneSnapshot,
    #[error("a view as ID=SST")]
    View,
    #[error("a run as a 32-bit number and then its views")]
    Run,
    #[error("a segment as one word, or as hex: and pairs of hex digits")]
    Segment,
}

#[derive(Clone, Copy, PartialEq, Eq, Debug, Error)]
pub enum InEntry {
    #[error("segment, source, status, output, worker, context, subcompaction, answer, with or entry")]
    Keyword,
    #[error("tiered or drain as the first line of the entry")]
    Kind,
    #[error("tiered or drain once only")]
    OneKind,
    #[error("a destination as a 32-bit number")]
    Destination,
    #[error("drain alone on its line")]
    DrainAlone,
    #[error("a segment as one word, or as hex: and pairs of hex digits")]
    Segment,
    #[error("one segment at most")]
    OneSegment,
    #[error("the segment before the sources")]
    SegmentFirst,
    #[error("a source as view ID or run NUMBER")]
    Source,
    #[error("submitted, scheduled, running, compacted, completed or failed")]
    Status,
    #[error("one status at most")]
    OneStatus,
    #[error("an output as a 128-bit number")]
    Output,
    #[error("a worker as a 32-bit number and a 64-bit stamp")]
    Worker,
    #[error("one worker at most")]
    OneWorker,
    #[error("a context as an unsigned 64-bit number or none")]
    Context,
    #[error("one context at most")]
    OneContext,
    #[error("the context before its subcompactions")]
    ContextFirst,
    #[error("a subcompaction as a 32-bit number and then its outputs")]
    Subcompaction,
}

#[derive(Clone, Copy, PartialEq, Eq, Debug, Error)]
pub enum InAnswer {
    #[error("passes or refused")]
    Verdict,
    #[error("one answer at most")]
    OneAnswer,
    #[error("answer passes before with")]
    PassesFirst,
    #[error("destination, views, runs, tick, last-run, retention or context")]
    Part,
    #[error("each kind of with once at most")]
    OnePart,
    #[error("a destination as a 32-bit number")]
    Destination,
    #[error("views as ID=SST")]
    View,
    #[error("runs as 32-bit numbers")]
    Run,
    #[error("a tick as a signed 64-bit number")]
    Tick,
    #[error("set or unset")]
    LastRun,
    #[error("a retention as an unsigned 64-bit number")]
    Retention,
    #[error("present or absent")]
    Context,
}
