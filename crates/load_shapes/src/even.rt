// The even source: every period weighs the same.
ghost use Rattle.std.specs.Prelude.{◌≡◌, true, IfOk};
ghost use Rattle.std.specs.Option.{option_map};
ghost use Rattle.std.specs.Result.{result_err};
ghost use Rattle.faults.specs.Listings.{refusal};
ghost use Rattle.load_shapes.specs.Meaning.{may_have_periods};
ghost use Rattle.load_shapes.specs.Faults.{listed};
ghost use Rattle.load_shapes.specs.Even.{even_meaning, even_fault};
ghost use Rattle.load_shapes.specs.EvenLaws.{even_lawful};

use crate::day::{CategoryDay, may_have_periods};
use crate::fault::SourceFault;
use crate::source::Source;

#[derive(Clone, Copy)]
pub struct EvenSource {
    periods: usize,
    ghost allowed: { may_have_periods periods ≡ true },
}

impl EvenSource {
    // The even source of days with 48 or 96 periods.
    pub fn new(periods: usize) -> Result<EvenSource, SourceFault>
        ensures fault { result_err result ≡ even_fault periods }
        ensures refusal { refusal listed result ≡ option_map listed (even_fault periods) }
        ensures made { IfOk result (λ s. s.periods ≡ periods) }
        ensures meaning { IfOk result (λ s. ⟦<EvenSource as Source>⟧.meaning s ≡ even_meaning periods) }
    {
        if may_have_periods(periods) {
            Ok(EvenSource { periods })
        } else {
            Err(SourceFault::Periods)
        }
    }
}

impl Source for EvenSource {
    ghost meaning = { λ s. even_meaning s.periods };

    ghost lawful = { λ s. even_lawful s.periods s.allowed };

    fn periods(&self) -> usize {
        self.periods
    }

    fn count(&self, at: CategoryDay) -> Option<u16> {
        at.is_within_bounds().then_some(65_535)
    }

    fn weight(&self, at: CategoryDay, period: usize) -> Option<u16> {
        self.count(at)?;
        (period < self.periods).then_some(1)
    }
}
