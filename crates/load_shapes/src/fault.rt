// Why a source was not made, or the bytes of a table not taken for one.
ghost use Rattle.std.specs.Prelude.{◌≡◌, Some};
ghost use Rattle.faults.specs.Listings.{fault_text};
ghost use Rattle.load_shapes.specs.Faults.{listed, reason};

pub use faults::Fault;
use faults::Listing;
use std::error::Error;
use std::fmt;

#[derive(Clone, Copy, PartialEq, Eq, Debug)]
pub enum SourceFault {
    // A table has a header of 16 bytes.
    TooShort,
    // A day has 48 or 96 periods.
    Periods,
    // The header of a table has a field that is always 0.
    ZeroField,
    // The index starts at 16 or later, the rows at its end or later, and both lie within the bytes.
    Misplaced,
    // This entry is out of range, or not above the one before. Entries count from 0.
    Entry { entry: usize },
    // This row has a weight above 10,000. Rows count from 0.
    Row { row: usize },
    // A substitute has the periods of the source that it stands in for.
    PeriodsDiffer,
}

impl Fault for SourceFault {
    ghost listed = { listed };

    ghost reason = { reason };

    fn listing(self) -> Listing {
        match self {
            SourceFault::TooShort => Listing::new(6, 0),
            SourceFault::Periods | SourceFault::ZeroField => Listing::new(7, 0),
            SourceFault::Misplaced => Listing::new(8, 0),
            SourceFault::Entry { entry } => Listing::new(9, entry),
            SourceFault::Row { row } => Listing::new(10, row),
            SourceFault::PeriodsDiffer => Listing::new(11, 0),
        }
    }

    fn reason(self) -> &'static str {
        match self {
            SourceFault::TooShort => "table under 16 bytes",
            SourceFault::Periods => "periods of a day not 48 or 96",
            SourceFault::ZeroField => "zero field of the header not 0",
            SourceFault::Misplaced => "index or rows misplaced",
            SourceFault::Entry { .. } => "entry out of range or order",
            SourceFault::Row { .. } => "weight above 10,000",
            SourceFault::PeriodsDiffer => "sources with different periods of a day",
        }
    }
}

impl fmt::Display for SourceFault {
    ghost output = { λ fault. Some (fault_text (reason fault) (listed fault)) };

    fn fmt<W: fmt::Write>(&self, f: &mut fmt::Formatter<W>) -> fmt::Result {
        self.describe(f)
    }
}

impl Error for SourceFault {}
