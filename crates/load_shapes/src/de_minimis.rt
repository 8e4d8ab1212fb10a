// The de-minimis layer: a source without the shapes that rest on too little data.
ghost use Rattle.std.specs.Prelude.{◌≡◌};
ghost use Rattle.load_shapes.specs.Layers.{de_minimis_meaning};
ghost use Rattle.load_shapes.specs.LayerLaws.{de_minimis_lawful};

use crate::day::{CategoryDay, DayShape};
use crate::source::Source;

#[derive(Clone, Copy, Drop)]
pub struct DeMinimis<S> {
    source: S,
    threshold: u16,
}

impl<S: Source> DeMinimis<S> {
    // A source without the shapes whose data count is under a threshold.
    pub fn new(source: S, threshold: u16) -> DeMinimis<S>
        ensures source { result.source ≡ source }
        ensures threshold { result.threshold ≡ threshold }
        ensures meaning { ⟦<DeMinimis<S> as Source>⟧.meaning result
            ≡ de_minimis_meaning threshold (S.Source.meaning source) }
    {
        DeMinimis { source, threshold }
    }

    // The source again.
    pub fn into_source(self) -> S
        ensures { result ≡ self.source }
    {
        let DeMinimis {
            source,
            threshold: _,
        } = self;
        source
    }
}

impl<S: Source> Source for DeMinimis<S> {
    ghost meaning = { λ s. de_minimis_meaning s.threshold (S.Source.meaning s.source) };

    ghost lawful = { λ s. de_minimis_lawful s.threshold (S.Source.meaning s.source) (S.Source.lawful s.source) };

    fn periods(&self) -> usize {
        self.source.periods()
    }

    fn count(&self, at: CategoryDay) -> Option<u16> {
        self.source
            .count(at)
            .filter(|count| *count >= self.threshold)
    }

    fn weight(&self, at: CategoryDay, period: usize) -> Option<u16> {
        self.count(at)?;
        self.source.weight(at, period)
    }

    fn shape(&self, at: CategoryDay) -> Option<DayShape> {
        self.source
            .shape(at)
            .filter(|shape| shape.count >= self.threshold)
    }
}
