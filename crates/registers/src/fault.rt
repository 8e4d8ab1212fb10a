// Why a register was not made, or a list of numbers not taken.
ghost use Rattle.std.specs.Prelude.{◌≡◌, ◌≤◌, ◌<◌, Some};
ghost use Rattle.faults.specs.Listings.{fault_text};
ghost use Rattle.registers.specs.Faults.{listed, reason, counted_on};

pub use faults::Fault;
use faults::Listing;
use std::error::Error;
use std::fmt;

#[derive(Clone, Copy, PartialEq, Eq, Debug)]
pub enum RegisterFault {
    // A dial has 1 to 8 digits.
    Digits,
    // A dial's weight is 1 to 1,000,000 Wh.
    Weight,
    // A pair has at most 64 dials and a full scale of at most 10^15 Wh.
    PairBeyondLimits,
    // A list has one number for each dial.
    WrongCount,
    // The number of this dial is above what it can show. Dials count from 0.
    NumberTooLarge { dial: usize },
}

impl RegisterFault {
    // The fault of a register whose dials stand after so many others.
    pub(crate) fn counted_on(self, dials: usize) -> RegisterFault
        requires dials { dials ≤ 64 }
        requires place { (listed self).place < 64 }
        ensures { result ≡ counted_on dials self }
    {
        match self {
            RegisterFault::NumberTooLarge { dial } => RegisterFault::NumberTooLarge {
                dial: dials + dial,
            },
            other => other,
        }
    }
}

impl Fault for RegisterFault {
    ghost listed = { listed };

    ghost reason = { reason };

    fn listing(self) -> Listing {
        match self {
            RegisterFault::Digits => Listing::new(1, 0),
            RegisterFault::Weight => Listing::new(2, 0),
            RegisterFault::PairBeyondLimits => Listing::new(3, 0),
            RegisterFault::WrongCount => Listing::new(4, 0),
            RegisterFault::NumberTooLarge { dial } => Listing::new(5, dial),
        }
    }

    fn reason(self) -> &'static str {
        match self {
            RegisterFault::Digits => "digits not 1 to 8",
            RegisterFault::Weight => "weight not 1 to 1,000,000 Wh",
            RegisterFault::PairBeyondLimits => "pair beyond 64 dials or 10^15 Wh",
            RegisterFault::WrongCount => "wrong count of numbers",
            RegisterFault::NumberTooLarge { .. } => "number too large for its dial",
        }
    }
}

impl fmt::Display for RegisterFault {
    ghost output = { λ fault. Some (fault_text (reason fault) (listed fault)) };

    fn fmt<W: fmt::Write>(&self, f: &mut fmt::Formatter<W>) -> fmt::Result {
        self.describe(f)
    }
}

impl Error for RegisterFault {}
