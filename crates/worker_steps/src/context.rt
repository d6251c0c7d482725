// Whether the context of a job extends another: a heartbeat writes a job's context over the one in
// its entry only then.
//
// Reworked from `validate_update` of `CompactionContext` in src/compactor_state.rs of slatedb
// 0.16.0 (Apache-2.0, see NOTICE); changed: an answer where the Rust asserts.
ghost use Rattle.std.specs.Prelude.{◌≡◌, map, ◌==◌};
ghost use Rattle.compactions.specs.Meanings.{sst_of, sub_of, context_of};
ghost use Rattle.worker_steps.specs.Extending.{starts_with, sub_extends, subs_extend, context_extends};
ghost use Rattle.worker_steps.specs.ExtendingLaws.{ExtendingLaws};

use compactions::compactor_state::{CompactionContext, Subcompaction};
use compactions::db_state::SsTableId;

// Whether the old outputs begin the new ones. Not by starts_with, whose contract says nothing of the
// elements: that equal ids are equal numbers holds of values of 64 bits alone.
fn outputs_extend(old: &[SsTableId], new: &[SsTableId]) -> bool
    ensures { result ≡ starts_with (map sst_of old.now) (map sst_of new.now) }
{
    old.len() <= new.len() && old.iter().zip(new).all(|(old, new)| old.0.is(new.0))
}

// Whether the range is the same, and no output is lost.
fn subcompaction_extends(old: &Subcompaction, new: &Subcompaction) -> bool
    ensures { result ≡ sub_extends (sub_of old.now) (sub_of new.now) }
{
    old.range == new.range && outputs_extend(old.output_ssts.as_slice(), new.output_ssts.as_slice())
}

// Whether there are as many, and each extends the one at its place. Outputs may be more than before,
// so `outputs_extend` asks another thing of the lengths.
fn subcompactions_extend(old: &[Subcompaction], new: &[Subcompaction]) -> bool
    ensures { result ≡ subs_extend (map sub_of old.now) (map sub_of new.now) }
{
    old.len() == new.len()
        && old
            .iter()
            .zip(new)
            .all(|(old, new)| subcompaction_extends(old, new))
}

// Whether the new context says all that the old one says, and no more than further outputs; an
// absent retention is not 0.
pub fn extends(old: &CompactionContext, new: &CompactionContext) -> bool
    ensures value { result ≡ context_extends (context_of old.now) (context_of new.now) }
    ensures laws { ExtendingLaws }
{
    old.retention_min_seq == new.retention_min_seq
        && subcompactions_extend(old.subcompactions.as_slice(), new.subcompactions.as_slice())
}
