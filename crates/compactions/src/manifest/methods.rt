ghost use Rattle.std.specs.Prelude.{◌≡◌, ◌&&◌, [], map, length, is_ok, if◌then◌else◌, nat_le, nat_lt};
ghost use Rattle.std.specs.Option.{option_map};
ghost use Rattle.compactions.specs.Prefixes.{before, latest};
ghost use Rattle.compactions.specs.Trees.{more_tree_views, more_tree_runs, more_segments};
ghost use Rattle.compactions.specs.Meanings.{view_of, run_of, tree_of, manifest_of};
ghost use Rattle.compactions.specs.Trees.{tree_for};
ghost use Rattle.compactions.specs.Refusals.{refused_with, unless, unless_either};

use super::{LsmTreeState, Manifest, Segment};
use crate::db_state::{NO_VIEW, SortedRun, SsTableView};
use crate::prefix::is_below;
use crate::refusal::Refusal;
use crate::rows::Rows;

impl LsmTreeState {
    pub fn new() -> LsmTreeState
        ensures { tree_of result ≡ record { views = []; runs = [] } }
    {
        LsmTreeState {
            l0: Rows::new(NO_VIEW),
            compacted: Rows::new(SortedRun::new(0)),
        }
    }

    // One view more; a seventeenth is refused.
    pub fn add_view(&mut self, view: SsTableView) -> Result<(), Refusal>
        ensures value { refused_with result ≡ unless (nat_lt (length (tree_of self.old).views) 16) 2 }
        ensures after { tree_of self.new ≡ (if is_ok result then more_tree_views (view_of view) (tree_of self.old) else tree_of self.old) }
    {
        self.l0.push(view, Refusal::ManifestCount)
    }

    // One run more; a ninth is refused.
    pub fn add_run(&mut self, run: SortedRun) -> Result<(), Refusal>
        ensures value { refused_with result ≡ unless (nat_lt (length (tree_of self.old).runs) 8) 2 }
        ensures after { tree_of self.new ≡ (if is_ok result then more_tree_runs (run_of run) (tree_of self.old) else tree_of self.old) }
    {
        self.compacted.push(run, Refusal::ManifestCount)
    }
}

impl Manifest {
    // Without named segments.
    pub fn new(tree: LsmTreeState, tick: i64, snapshot: u64) -> Manifest
        ensures { manifest_of result ≡ record { root = tree_of tree; segments = []; tick = tick; snapshot = snapshot } }
    {
        let empty = Segment {
            prefix: Rows::new(0),
            tree: LsmTreeState::new(),
        };
        Manifest {
            tree,
            segments: Rows::new(empty),
            last_l0_clock_tick: tick,
            recent_snapshot_min_seq: snapshot,
        }
    }
}

impl Manifest {
    // One segment more: too long a prefix or a ninth segment is refused, then a prefix that is empty or not above the last.
    pub fn add_segment(&mut self, prefix: &[u8], tree: LsmTreeState) -> Result<(), Refusal>
        ensures value { refused_with result ≡ unless_either (nat_le (length prefix.now) 16 && nat_lt (length (manifest_of self.old).segments) 8) 2 (before (latest [] (map (λ s. s.prefix) (manifest_of self.old).segments)) prefix.now) 3 }
        ensures after { manifest_of self.new ≡ (if is_ok result then more_segments (record { prefix = prefix.entry.now; tree = tree_of tree }) (manifest_of self.old) else manifest_of self.old) }
    {
        let name = Rows::from_slice(prefix, 0, Refusal::ManifestCount)?;
        let mut segments = self.segments;
        segments.push(Segment { prefix: name, tree }, Refusal::ManifestCount)?;
        if !is_below(self.last_prefix(), prefix) {
            return Err(Refusal::Prefix);
        }
        self.segments = segments;
        Ok(())
    }

    // The prefix of the last segment; empty where there is none.
    fn last_prefix(&self) -> &[u8]
        ensures { result.now ≡ latest [] (map (λ s. s.prefix) (manifest_of self.now).segments) }
    {
        self.segments
            .as_slice()
            .last()
            .map_or(&[], |segment| segment.prefix.as_slice())
    }

    // The root for the empty prefix, else the tree of the segment with that very prefix.
    pub fn tree_for_segment(&self, prefix: &[u8]) -> Option<&LsmTreeState>
        ensures { option_map (λ t. tree_of t.now) result ≡ tree_for prefix.now (manifest_of self.now) }
    {
        if prefix.is_empty() {
            return Some(&self.tree);
        }
        let segments = self.segments.as_slice();
        let found = segments
            .iter()
            .find(|segment| prefix == segment.prefix.as_slice());
        found.map(|segment| &segment.tree)
    }
}
