// A profile: one list of weights for every category and day. Several accounts share the list, so a profile borrows it.
ghost use Rattle.std.specs.Prelude.{◌≡◌, ◌^◌, ◌<◌, false, is_some, Some, None, MatchResult, nat_lt, position};
ghost use Rattle.fitting_sources.specs.Profile.{profile_fault, profile_meaning, profile_lawful};

use crate::profile_fault::ProfileFault;
use load_shapes::day::{CategoryDay, may_have_periods};
use load_shapes::source::{MOST_WEIGHT, Source};

#[derive(Clone, Copy)]
pub struct Profile<'a> {
    count: u16,
    weights: &'a [u16],
    ghost count_fits: { count < 2 ^ 16 },
    ghost sound: { is_some (profile_fault weights.now) ≡ false },
}

// The period of the first weight that is too large.
fn find_heavy(weights: &[u16]) -> Option<usize>
    ensures { result ≡ position (λ weight. nat_lt 10000 weight) weights.now }
{
    weights.iter().position(|weight| *weight > MOST_WEIGHT)
}

impl<'a> Profile<'a> {
    // Whether weights make a profile.
    pub fn check(weights: &[u16]) -> Result<(), ProfileFault>
        ensures { MatchResult result (λ _. profile_fault weights.now ≡ None) (λ fault. profile_fault weights.now ≡ Some fault) }
    {
        if !may_have_periods(weights.len()) {
            return Err(ProfileFault::Periods);
        }
        match find_heavy(weights) {
            Some(period) => Err(ProfileFault::Weight { period }),
            None => Ok(()),
        }
    }

    // The profile, once `check` has passed its weights.
    pub fn new(count: u16, weights: &'a [u16]) -> Profile<'a>
        requires { is_some (profile_fault weights.now) ≡ false }
        ensures count { result.count ≡ count }
        ensures weights { result.weights.now ≡ weights.now }
        ensures meaning { ⟦<Profile<'a> as Source>⟧.meaning result ≡ profile_meaning count weights.now }
    {
        Profile { count, weights }
    }
}

impl<'a> Source for Profile<'a> {
    ghost meaning = { λ p. profile_meaning p.count p.weights.now };

    ghost lawful = { λ p. profile_lawful p.count p.weights.now p.count_fits p.sound };

    fn periods(&self) -> usize {
        self.weights.len()
    }

    fn count(&self, at: CategoryDay) -> Option<u16> {
        at.is_within_bounds().then_some(self.count)
    }

    fn weight(&self, at: CategoryDay, period: usize) -> Option<u16> {
        self.count(at)?;
        self.weights.get(period).copied()
    }
}
