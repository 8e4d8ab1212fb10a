// The questions to any source, each answered with the bounds that its laws give. Code over every source asks these, so
// that its sums are seen to fit.
ghost use Rattle.std.specs.Prelude.{◌≡◌, ℕ, ◌≤◌, ◌⊎◌, IfSome, slice_index};
ghost use Rattle.load_shapes.specs.Meaning.{weight_of};
ghost use Rattle.load_shapes.specs.Days.{day_shape_of};

use crate::day::{CategoryDay, DayShape};
use crate::source::Source;

// The periods of a day: 48 or 96.
pub fn periods<S: Source>(source: &S) -> usize
    ensures value { result ≡ (S.Source.meaning source.now).periods }
    ensures either { (result ≡ 48) ⊎ (result ≡ 96) }
{
    source.periods()
}

// The weight of one period: at most 10,000.
pub fn weight<S: Source>(source: &S, at: CategoryDay, period: usize) -> Option<u16>
    ensures value { result ≡ weight_of ((S.Source.meaning source.now).shape at) period }
    ensures most { IfSome result (λ w. w ≤ 10000) }
{
    source.weight(at, period)
}

// The whole shape of a day: each weight at most 10,000.
pub fn shape<S: Source>(source: &S, at: CategoryDay) -> Option<DayShape>
    ensures value { result ≡ day_shape_of ((S.Source.meaning source.now).shape at) }
    ensures most { IfSome result (λ s. (period : ℕ) → slice_index s.weights period ≤ 10000) }
{
    source.shape(at)
}
