// The argument check: whether a worker may start a compaction on a manifest, and with what.
//
// Reworked from `build_job_args` in src/compaction_worker.rs of slatedb 0.16.0 (Apache-2.0, see
// NOTICE); changed: a missing source is told by the look-up itself.
#![tactic(auto)]

ghost use Rattle.std.specs.Prelude.{◌≡◌, map};
ghost use Rattle.std.specs.Option.{option_map};
ghost use Rattle.compactions.specs.Trees.{views_of, runs_of};
ghost use Rattle.argument_check.specs.Check.{into_last, job_args};
ghost use Rattle.compactions.specs.Meanings.{view_of, run_of, tree_of, entry_of, manifest_of};
ghost use Rattle.argument_check.specs.Answers.{answer_of, checked};
ghost use Rattle.argument_check.specs.Passing.{Passing};

use crate::sourced::look_up;
use compactions::compactor_state::Compaction;
use compactions::db_state::{NO_VIEW, SortedRun, SsTableView};
use compactions::job_args::StartCompactionJobArgs;
use compactions::manifest::{LsmTreeState, Manifest};
use compactions::refusal::Refusal;

mod sourced;

// A missing tree has no views. Beside `compacted_of`, which reads the other
// field: one function for both would take the field as a closure and be longer than the two.
fn l0_of(tree: Option<&LsmTreeState>) -> &[SsTableView]
    ensures { map view_of result.now ≡ views_of (option_map (λ t. tree_of t.now) tree.entry) }
{
    tree.map_or(&[], |tree| tree.l0.as_slice())
}

// A missing tree has no runs.
fn compacted_of(tree: Option<&LsmTreeState>) -> &[SortedRun]
    ensures { map run_of result.now ≡ runs_of (option_map (λ t. tree_of t.now) tree.entry) }
{
    tree.map_or(&[], |tree| tree.compacted.as_slice())
}

// Whether the tree exists, and has no runs or the destination as its last one.
fn is_last_run(tree: Option<&LsmTreeState>, destination: u32) -> bool
    ensures { result ≡ into_last destination (option_map (λ t. tree_of t.now) tree.entry) }
{
    let Some(tree) = tree else {
        return false;
    };
    let last = tree.compacted.as_slice().last();
    last.map_or(true, |run| destination == run.id)
}

pub fn build_job_args(
    compaction: &Compaction,
    db_state: &Manifest,
) -> Result<StartCompactionJobArgs, Refusal>
    ensures value { answer_of result ≡ checked (job_args (entry_of compaction.now) (manifest_of db_state.now)) }
    ensures law { Passing (entry_of compaction.now) (manifest_of db_state.now) (answer_of result) }
{
    let destination = compaction
        .spec
        .destination()
        .ok_or(Refusal::InvalidCompaction)?;
    let tree = db_state.tree_for_segment(compaction.spec.segment());
    let sources = compaction.spec.sources();
    let l0_sst_views = look_up(sources, l0_of(tree), NO_VIEW).ok_or(Refusal::InvalidCompaction)?;
    let sorted_runs = look_up(sources, compacted_of(tree), SortedRun::new(0)).ok_or(
        Refusal::InvalidCompaction,
    )?;
    Ok(StartCompactionJobArgs {
        id: compaction.id,
        destination,
        l0_sst_views,
        sorted_runs,
        compaction_clock_tick: db_state.last_l0_clock_tick,
        is_dest_last_run: is_last_run(tree, destination),
        retention_min_seq: db_state.recent_snapshot_min_seq,
        ctx: compaction.ctx,
    })
}
