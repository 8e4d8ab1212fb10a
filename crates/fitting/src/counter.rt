// A counter of single Wh: it shows 0 to its last number, and then 0 again. It owns its data.
ghost use Rattle.std.specs.Prelude.{◌≡◌, ◌^◌, ◌≤◌, is_some, IfSome, nat_le};
ghost use Rattle.fitting.specs.Counter.{counter_meaning, counter_lawful};

use registers::dial::one_number;
use registers::fault::RegisterFault;
use registers::register::{MOST_ENERGY, Register};

// Neither `Drop` nor `Copy`: a register need be neither.
pub struct Counter {
    last: u64,
    ghost most: { last ≤ 10 ^ 15 },
}

impl Counter {
    // A counter, if its last number is at most 10^15.
    pub fn new(last: u64) -> Option<Counter>
        ensures test { is_some result ≡ nat_le last (10 ^ 15) }
        ensures made { IfSome result (λ counter. counter.last ≡ last) }
        ensures meaning { IfSome result (λ counter. ⟦<Counter as Register>⟧.meaning counter ≡ counter_meaning last) }
    {
        if last <= MOST_ENERGY {
            Some(Counter { last })
        } else {
            None
        }
    }

    // The counter given up for its last number.
    pub fn into_last(self) -> u64
        ensures { result ≡ self.last }
    {
        let Counter { last } = self;
        last
    }
}

impl Register for Counter {
    type Reading = u64;

    ghost meaning = { λ c. counter_meaning c.last };

    ghost lawful = { λ c. counter_lawful c.last c.most };

    fn dials(&self) -> usize {
        1
    }

    fn take(&self, numbers: &[u64]) -> Result<u64, RegisterFault> {
        one_number(numbers, self.last + 1)
    }

    fn is_given(&self, reading: u64) -> bool {
        reading <= self.last
    }

    fn full_scale(&self) -> u64 {
        self.last
    }

    // A dial's steps, written out: as a public function they would have to ask that both readings lie below the size.
    fn advance(&self, from: u64, to: u64) -> u64 {
        if from > self.last || to > self.last {
            0
        } else if to < from {
            to + 1 + self.last - from
        } else {
            to - from
        }
    }
}
