// The parts of a manifest, each from the rest of a line.
ghost use Rattle.std.specs.Prelude.{◌≡◌};
ghost use Rattle.std.specs.Option.{option_map};
ghost use Rattle.table.specs.Counted.{items_of};
ghost use Rattle.compactions.specs.Meanings.{run_of, tree_of, manifest_of};
ghost use Rattle.paper_text.specs.Numbers.{segment_of, held};
ghost use Rattle.problems.specs.declared.error.Limit.TheVariants.{PrefixLength};
ghost use Rattle.problems.specs.Outcomes.{read_as};
ghost use Rattle.manifest_section.specs.ManifestLines.{view_line, with_view, with_views, run_in, run_line, segment_added, prefix_by};

use compactions::db_state::SortedRun;
use compactions::manifest::{LsmTreeState, Manifest};
use compactions::refusal::Refusal;
use compactions::rows::Rows;
use paper_text::numbers::{u32_in, view_in};
use paper_text::segments::segment_in;
use paper_text::words::Words;
use problems::error::{Limit, Problem};
use problems::expected::InManifest;

// This and the next share what std's `and_then`, `ok_or` and `map_err` share; a tree and a run have their
// own additions and limits.
pub(crate) fn read_view(mut tree: LsmTreeState, words: Words<'_>) -> Result<LsmTreeState, Problem>
    ensures { read_as tree_of result ≡ view_line words.entry (tree_of tree) }
{
    let view = words.only().and_then(view_in).ok_or(InManifest::View)?;
    tree.add_view(view).map_err(|_| Limit::TreeViews)?;
    Ok(tree)
}

fn with_view(mut run: SortedRun, word: &[u8]) -> Result<SortedRun, Problem>
    ensures { read_as run_of result ≡ with_view word.now (run_of run) }
{
    let view = view_in(word).ok_or(InManifest::View)?;
    run.add_view(view).map_err(|_| Limit::RunViews)?;
    Ok(run)
}

// As `with_outputs` and `subcompaction_in` of an entry's parts: one function for both pairs would take the
// value, its addition, how a word is read, the problem and a definition for each, and be longer.
fn with_views(mut run: SortedRun, words: Words<'_>) -> Result<SortedRun, Problem>
    ensures { read_as run_of result ≡ with_views words.entry (run_of run) }
{
    for word in words {
        run = with_view(run, word)?;
    }
    Ok(run)
}

// A run's number, then its views; as `subcompaction_in` of an entry's parts, see `with_views`.
fn run_in(mut words: Words<'_>) -> Result<SortedRun, Problem>
    ensures { read_as run_of result ≡ run_in words.entry }
{
    let id = words.next().and_then(u32_in).ok_or(InManifest::Run)?;
    with_views(SortedRun::new(id), words)
}

pub(crate) fn read_run(mut tree: LsmTreeState, words: Words<'_>) -> Result<LsmTreeState, Problem>
    ensures { read_as tree_of result ≡ run_line words.entry (tree_of tree) }
{
    tree.add_run(run_in(words)?).map_err(|_| Limit::TreeRuns)?;
    Ok(tree)
}

// One segment more. The length of the prefix was looked at before.
pub(crate) fn add_segment(
    mut manifest: Manifest,
    prefix: Rows<u8, 16>,
    tree: LsmTreeState,
) -> Result<Manifest, Problem>
    ensures { read_as manifest_of result ≡ segment_added (manifest_of manifest) (items_of prefix) (tree_of tree) }
{
    // two refusals, each with its limit
    match manifest.add_segment(prefix.as_slice(), tree) {
        Ok(()) => Ok(manifest),
        Err(Refusal::Prefix) => Err(Limit::PrefixOrder.into()),
        Err(_) => Err(Limit::Segments.into()),
    }
}

pub(crate) fn prefix_in(words: Words<'_>) -> Result<Rows<u8, 16>, Problem>
    ensures { read_as items_of result ≡ prefix_by (option_map (held PrefixLength) (segment_of words.entry)) }
{
    let prefix = segment_in(words, Limit::PrefixLength).ok_or(InManifest::Segment)??;
    Ok(prefix)
}
