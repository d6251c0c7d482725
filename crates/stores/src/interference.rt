// What befalls one store call: others' edits of the record before it, and how the call goes.
use compactions::compactor_state::Compaction;
use table::ulid::Ulid;

// Someone else's change to the record.
#[derive(Clone, Copy)]
pub enum Edit {
    Create,
    Put(Compaction),
    Remove(Ulid),
}

// A store that is down does nothing; a lost call acts, but its answer does not arrive. Each has a cause,
// a number that a store gives as it likes.
#[derive(Clone, Copy, PartialEq, Eq, Debug)]
pub enum Outcome {
    Clear,
    Down(u32),
    Lost(u32),
}

// The edits made before the call, and how it goes.
#[derive(Clone, Copy)]
pub struct Interference<'a> {
    pub edits: &'a [Edit],
    pub outcome: Outcome,
}
