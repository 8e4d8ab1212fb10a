// A two-rate source: the half hours of the night weigh one number, those of the day another. It owns its data.
ghost use Rattle.std.specs.Prelude.{◌≡◌, ◌≤◌, ◌&&◌, is_some, IfSome, nat_le};
ghost use Rattle.fitting_sources.specs.TwoRate.{rate, two_rate_meaning, two_rate_lawful};

use load_shapes::day::CategoryDay;
use load_shapes::source::{MOST_WEIGHT, Source};

// Neither `Drop` nor `Copy`: a source need be neither.
pub struct TwoRate {
    night: u16,
    day: u16,
    ghost most_night: { night ≤ 10000 },
    ghost most_day: { day ≤ 10000 },
}

impl TwoRate {
    // The source, if both weights are at most 10,000.
    pub fn new(night: u16, day: u16) -> Option<TwoRate>
        ensures test { is_some result ≡ (nat_le night 10000 && nat_le day 10000) }
        ensures made { IfSome result (λ s. (s.night ≡ night) × (s.day ≡ day)) }
        ensures meaning { IfSome result (λ s. ⟦<TwoRate as Source>⟧.meaning s ≡ two_rate_meaning night day) }
    {
        if night <= MOST_WEIGHT && day <= MOST_WEIGHT {
            Some(TwoRate { night, day })
        } else {
            None
        }
    }

    // The source given up for its weights, that of the night first.
    pub fn into_weights(self) -> (u16, u16)
        ensures { result ≡ (self.night, self.day) }
    {
        let TwoRate { night, day } = self;
        (night, day)
    }

    // The weight of a half hour: the night has the first fourteen.
    fn rate(&self, period: usize) -> u16
        ensures { result ≡ rate self.now.night self.now.day period }
    {
        if period < 14 { self.night } else { self.day }
    }
}

impl Source for TwoRate {
    ghost meaning = { λ s. two_rate_meaning s.night s.day };

    ghost lawful = { λ s. two_rate_lawful s.night s.day s.most_night s.most_day };

    fn periods(&self) -> usize {
        48
    }

    fn count(&self, at: CategoryDay) -> Option<u16> {
        at.is_within_bounds().then_some(1)
    }

    fn weight(&self, at: CategoryDay, period: usize) -> Option<u16> {
        self.count(at)?;
        (period < 48).then_some(self.rate(period))
    }
}
