// The lines of a manifest, each as a step on what was read.
ghost use Rattle.std.specs.Prelude.{◌≡◌, Ok};
ghost use Rattle.std.specs.Option.{option_map};
ghost use Rattle.table.specs.Counted.{items_of};
ghost use Rattle.compactions.specs.Meanings.{tree_of, manifest_of};
ghost use Rattle.paper_text.specs.Words.{words};
ghost use Rattle.problems.specs.Outcomes.{read_as, then};
ghost use Rattle.manifest_section.specs.ManifestLines.{begun_of, nothing_read, with_tree, tick_line, snapshot_line, manifest_read, segment_tried, segment_line, manifest_line};

use crate::parts::{add_segment, prefix_in, read_run, read_view};
use compactions::manifest::{LsmTreeState, Manifest};
use compactions::rows::Rows;
use paper_text::numbers::{i64_in, u64_in};
use paper_text::words::{Line, Words};
use problems::error::Problem;
use problems::expected::InManifest;
use problems::once::once;

// A manifest as far as it was read. The tree at hand is the root's, or that of the segment with the
// prefix; it is stored when it is complete. The numbers are stored at the end.
#[derive(Clone, Copy)]
pub struct ManifestDraft {
    manifest: Manifest,
    tree: LsmTreeState,
    prefix: Option<Rows<u8, 16>>,
    tick: Option<i64>,
    snapshot: Option<u64>,
}

impl ManifestDraft {
    pub fn new() -> ManifestDraft
        ensures { begun_of result ≡ nothing_read }
    {
        ManifestDraft {
            manifest: Manifest::new(LsmTreeState::new(), 0, 0),
            tree: LsmTreeState::new(),
            prefix: None,
            tick: None,
            snapshot: None,
        }
    }

    // What a line makes of it; none where the keyword is none of a manifest's.
    pub fn read(self, line: Line<'_>) -> Option<Result<ManifestDraft, Problem>>
        ensures { option_map (read_as begun_of) result ≡ manifest_line line.entry.keyword.now (words line.entry.rest.now) (begun_of self) }
    {
        match line.keyword {
            b"tick" => Some(self.read_tick(line.words())),
            b"snapshot" => Some(self.read_snapshot(line.words())),
            b"view" => Some(self.keep(read_view(self.tree, line.words()))),
            b"run" => Some(self.keep(read_run(self.tree, line.words()))),
            b"segment" => Some(self.read_segment(line.words())),
            _ => None,
        }
    }

    // A line that changes the tree at hand alone.
    fn keep(self, read: Result<LsmTreeState, Problem>) -> Result<ManifestDraft, Problem>
        ensures { read_as begun_of result ≡ then (read_as tree_of read) (λ t. Ok (with_tree (begun_of self) t)) }
    {
        let tree = read?;
        Ok(ManifestDraft { tree, ..self })
    }

    // This and the next share `once`; what is left of each is its field and its two problems.
    fn read_tick(self, words: Words<'_>) -> Result<ManifestDraft, Problem>
        ensures { read_as begun_of result ≡ tick_line words.entry (begun_of self) }
    {
        let read = words.only().and_then(i64_in);
        let tick = once(self.tick, read, InManifest::OneTick, InManifest::Tick)?;
        Ok(ManifestDraft {
            tick: Some(tick),
            ..self
        })
    }

    fn read_snapshot(self, words: Words<'_>) -> Result<ManifestDraft, Problem>
        ensures { read_as begun_of result ≡ snapshot_line words.entry (begun_of self) }
    {
        let read = words.only().and_then(u64_in);
        let snapshot = once(
            self.snapshot,
            read,
            InManifest::OneSnapshot,
            InManifest::Snapshot,
        )?;
        Ok(ManifestDraft {
            snapshot: Some(snapshot),
            ..self
        })
    }

    fn read_segment(self, words: Words<'_>) -> Result<ManifestDraft, Problem>
        ensures { read_as begun_of result ≡ segment_line words.entry (begun_of self) }
    {
        self.begin_segment(prefix_in(words)?)
    }

    // Stores the tree at hand and begins that of a segment, whose prefix is tried here.
    fn begin_segment(self, prefix: Rows<u8, 16>) -> Result<ManifestDraft, Problem>
        ensures { read_as begun_of result ≡ segment_tried (begun_of self) (items_of prefix) }
    {
        let manifest = self.finish()?;
        add_segment(manifest, prefix, LsmTreeState::new())?;
        Ok(ManifestDraft {
            manifest,
            tree: LsmTreeState::new(),
            prefix: Some(prefix),
            ..self
        })
    }

    // The manifest with the tree at hand.
    pub fn finish(self) -> Result<Manifest, Problem>
        ensures { read_as manifest_of result ≡ manifest_read (begun_of self) }
    {
        let mut manifest = self.manifest;
        manifest.last_l0_clock_tick = self.tick.unwrap_or(0);
        manifest.recent_snapshot_min_seq = self.snapshot.unwrap_or(0);
        match self.prefix {
            Some(prefix) => add_segment(manifest, prefix, self.tree),
            None => {
                manifest.tree = self.tree;
                Ok(manifest)
            }
        }
    }
}
