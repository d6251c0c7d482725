// An id of 128 bits in two halves; the high half is compared first.
ghost use Rattle.std.specs.Prelude.{◌≡◌, Decides, ◌==◌, nat_lt};
ghost use Rattle.table.specs.Ids.{number, ByNumber};

use std::fmt;

#[derive(Clone, Copy, PartialEq, Eq, PartialOrd, Ord, Debug)]
pub struct Ulid {
    pub high: u64,
    pub low: u64,
}

impl From<u128> for Ulid {
    ghost from_gives = { λ value id. number id ≡ value };

    fn from(value: u128) -> Ulid {
        Ulid {
            high: (value / 0x1_0000_0000_0000_0000) as u64,
            low: (value % 0x1_0000_0000_0000_0000) as u64,
        }
    }
}

impl From<Ulid> for u128 {
    ghost from_gives = { λ id value. value ≡ number id };

    // Ids are compared as their numbers are.
    fn from(id: Ulid) -> u128
        ensures value { result ≡ number id }
        ensures order { ByNumber ⟦<Ulid as PartialEq>⟧.eq ⟦<Ulid as PartialOrd>⟧.partial_cmp }
    {
        id.high as u128 * 0x1_0000_0000_0000_0000 + id.low as u128
    }
}

// The number of its 128 bits, as a decimal.
impl fmt::Display for Ulid {
    fn fmt<W: fmt::Write>(&self, f: &mut fmt::Formatter<W>) -> fmt::Result {
        let number = u128::from(*self);
        write!(f, "{number}")
    }
}

// `<` and `==` on ids by value, of which a proof knows that the halves are numbers of 64 bits: of ids
// behind a reference it does not, so there the numbers need these.
impl Ulid {
    pub fn is_before(self, other: Ulid) -> bool
        ensures { result ≡ nat_lt (number self) (number other) }
    {
        self < other
    }

    pub fn is(self, other: Ulid) -> bool
        ensures number { result ≡ (number self == number other) }
        ensures same { Decides result (self ≡ other) }
    {
        self == other
    }
}
