// Why a value or a call is refused, and the number by which a refusal is known.
ghost use Rattle.std.specs.Prelude.{◌≡◌};
ghost use Rattle.compactions.specs.Refusals.{number_of};

#[derive(Clone, Copy, PartialEq, Eq, Debug)]
pub enum Refusal {
    // an entry, a context, a sorted run or a record would have more parts than it may
    Count,
    // a manifest would
    ManifestCount,
    // a segment's prefix is empty, or not above the last one
    Prefix,
    // a worker's maximum of jobs is above eight
    Maximum,
    // a worker's limit of attempts is not one of 1 to 64
    AttemptLimit,
    // the argument check does not pass
    InvalidCompaction,
}

impl Refusal {
    // What is printed and marked; a clause names it, which a cast of the variant has no word for.
    pub fn number(self) -> u32
        ensures { result ≡ number_of self }
    {
        match self {
            Refusal::Count => 1,
            Refusal::ManifestCount => 2,
            Refusal::Prefix => 3,
            Refusal::Maximum => 4,
            Refusal::AttemptLimit => 5,
            Refusal::InvalidCompaction => 10,
        }
    }
}
