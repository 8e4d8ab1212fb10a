// A load shape source says how a day's energy is spread over its periods, for each category of metering system.
ghost use Rattle.std.specs.Prelude.{◌≡◌};
ghost use Rattle.load_shapes.specs.Meaning.{Meaning, Laws, count_of, weight_of};
ghost use Rattle.load_shapes.specs.Days.{day_shape_of};

use crate::day::{CategoryDay, DayShape};
use std::array;

// No weight is larger.
pub const MOST_WEIGHT: u16 = 10_000;

// A source is what its meaning says and shows the laws. Its questions alter nothing, are answered alike each time, and
// decline nothing. A source of your own gives the two ghost members and the first three answers.
pub trait Source {
    ghost meaning: { Self → Meaning };

    ghost lawful: { (s : Self) → Laws (meaning s) };

    // The periods of a day.
    fn periods(&self) -> usize
        ensures { result ≡ (meaning self.now).periods };

    // How much data the shape of a category's day rests on, if it has one.
    fn count(&self, at: CategoryDay) -> Option<u16>
        ensures { result ≡ count_of ((meaning self.now).shape at) };

    // The weight of one period of a category's day, if the day has a shape and the period.
    fn weight(&self, at: CategoryDay, period: usize) -> Option<u16>
        ensures { result ≡ weight_of ((meaning self.now).shape at) period };

    // The whole shape of a category's day. A source that has to look a day up may answer this by one search.
    fn shape(&self, at: CategoryDay) -> Option<DayShape>
        ensures { result ≡ day_shape_of ((meaning self.now).shape at) }
    {
        let count = self.count(at)?;
        let weights = array::from_fn(|period| self.weight(at, period).unwrap_or(0));
        Some(DayShape { count, weights })
    }
}
