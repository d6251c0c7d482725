// A clock that gives the readings of a lent list in order, then the last one again.
ghost use Rattle.std.specs.Prelude.{◌≡◌, pos};
ghost use Rattle.executors.specs.Clocks.{reading, passed, stamped};

use std::marker::Model;

// The readings ahead, and the reading given last, at first 0.
#[derive(Drop)]
pub struct ListClock<'a> {
    ahead: &'a [i64],
    last: i64,
}

impl<'a> Model for ListClock<'a> {
    ghost use Rattle.executors.specs.Clocks.{Readings};

    ghost Value = { Readings };

    ghost view = { λ c. record { ahead = c.ahead.now; last = c.last } };
}

impl<'a> ListClock<'a> {
    pub fn new(readings: &'a [i64]) -> ListClock<'a>
        ensures { result ≡ record { ahead = readings.now; last = pos 0 } }
    {
        ListClock {
            ahead: readings,
            last: 0,
        }
    }

    // The next reading; after the end the last one again, or 0 where there was none.
    pub fn read(&mut self) -> i64
        ensures value { result ≡ reading self.old }
        ensures after { self.new ≡ passed self.old }
    {
        if let Some((reading, ahead)) = self.ahead.split_first() {
            self.ahead = ahead;
            self.last = *reading;
        }
        self.last
    }

    // The next reading as a stamp.
    pub fn stamp(&mut self) -> u64
        ensures value { result ≡ stamped (reading self.old) }
        ensures after { self.new ≡ passed self.old }
    {
        stamp_of(self.read())
    }
}

// The stamp of a reading: its value modulo 2^64.
fn stamp_of(reading: i64) -> u64
    ensures { result ≡ stamped reading }
{
    reading.cast_unsigned()
}
