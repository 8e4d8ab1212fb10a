// A day of one category, and the whole shape of such a day.
ghost use Rattle.std.specs.Prelude.{◌≡◌};
ghost use Rattle.load_shapes.specs.Meaning.{is_within_bounds, may_have_periods};

// A day of a category of metering systems. A lower category comes first, and in one category an earlier day.
#[derive(Clone, Copy, PartialEq, Eq, PartialOrd, Ord, Debug)]
pub struct CategoryDay {
    pub category: usize,
    pub day: usize,
}

impl CategoryDay {
    // Whether a source may have a shape for it: categories are 0 to 63, and days 0 to 399.
    pub fn is_within_bounds(self) -> bool
        ensures { result ≡ is_within_bounds self }
    {
        self.category < 64 && self.day < 400
    }
}

// Whether a day may have so many periods: 48 or 96.
pub fn may_have_periods(periods: usize) -> bool
    ensures { result ≡ may_have_periods periods }
{
    periods == 48 || periods == 96
}

// A data count, and a weight at each period of the day. The places past the day's periods hold 0. They are 96 whatever
// the day: a question declines nothing, so no `Vec`, for which memory can run out, and an answer is `Copy`, so no
// buffer that keeps its own length.
#[derive(Clone, Copy)]
pub struct DayShape {
    pub count: u16,
    pub weights: [u16; 96],
}
