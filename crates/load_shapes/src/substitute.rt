// The substitute layer: a source and, where it has no shape, another.
ghost use Rattle.std.specs.Prelude.{◌≡◌, true, false, MatchOption, ◌==◌};
ghost use Rattle.std.specs.Option.{option_map};
ghost use Rattle.std.specs.Result.{result_err};
ghost use Rattle.faults.specs.Listings.{refusal};
ghost use Rattle.load_shapes.specs.Faults.{listed};
ghost use Rattle.load_shapes.specs.Layers.{substitute_meaning, substitute_fault};
ghost use Rattle.load_shapes.specs.LayerLaws.{substitute_lawful};

use crate::day::{CategoryDay, DayShape};
use crate::fault::SourceFault;
use crate::source::Source;

// Two sources in one value, as a `Pair` has two registers. It stays a type of its own: its check and its meaning are
// others, and neither crate stands on the other.
#[derive(Clone, Copy, Drop)]
pub struct Substitute<S, T> {
    first: S,
    second: T,
}

impl<S: Source, T: Source> Substitute<S, T> {
    // Whether the second source can stand in for the first. Ask before making the layer: a second source whose days
    // have other periods never does.
    pub fn check(first: &S, second: &T) -> Result<(), SourceFault>
        ensures fault { result_err result ≡ substitute_fault (S.Source.meaning first.now) (T.Source.meaning second.now) }
        ensures refusal { refusal listed result ≡ option_map listed (substitute_fault (S.Source.meaning first.now) (T.Source.meaning second.now)) }
    {
        if first.periods() == second.periods() {
            Ok(())
        } else {
            Err(SourceFault::PeriodsDiffer)
        }
    }

    // The first source and, where it has no shape, the second.
    pub fn new(first: S, second: T) -> Substitute<S, T>
        ensures first { result.first ≡ first }
        ensures second { result.second ≡ second }
        ensures meaning { ⟦<Substitute<S, T> as Source>⟧.meaning result
            ≡ substitute_meaning (S.Source.meaning first) (T.Source.meaning second) }
    {
        Substitute { first, second }
    }

    // The two sources again.
    pub fn into_parts(self) -> (S, T)
        ensures first { result.0 ≡ self.first }
        ensures second { result.1 ≡ self.second }
    {
        let Substitute { first, second } = self;
        (first, second)
    }

    // The second source, if it can stand in.
    fn stand_in(&self) -> Option<&T>
        ensures { MatchOption result
            (((S.Source.meaning self.now.first).periods == (T.Source.meaning self.now.second).periods) ≡ false)
            (λ second. (((S.Source.meaning self.now.first).periods == (T.Source.meaning self.now.second).periods) ≡ true) × (second.now ≡ self.now.second)) }
    {
        if self.first.periods() == self.second.periods() {
            Some(&self.second)
        } else {
            None
        }
    }
}

impl<S: Source, T: Source> Source for Substitute<S, T> {
    ghost meaning = { λ s. substitute_meaning (S.Source.meaning s.first) (T.Source.meaning s.second) };

    ghost lawful = { λ s. substitute_lawful (S.Source.meaning s.first) (T.Source.meaning s.second) (S.Source.lawful s.first) (T.Source.lawful s.second) };

    fn periods(&self) -> usize {
        self.first.periods()
    }

    fn count(&self, at: CategoryDay) -> Option<u16> {
        let first = self.first.count(at);
        first.or_else(|| self.stand_in()?.count(at))
    }

    fn weight(&self, at: CategoryDay, period: usize) -> Option<u16> {
        let first = self.first.weight(at, period);
        first.or_else(|| self.stand_in()?.weight(at, period))
    }

    fn shape(&self, at: CategoryDay) -> Option<DayShape> {
        let first = self.first.shape(at);
        first.or_else(|| self.stand_in()?.shape(at))
    }
}
