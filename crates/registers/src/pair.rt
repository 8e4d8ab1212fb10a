// Two registers that are read as one.
ghost use Rattle.std.specs.Prelude.{◌≡◌};
ghost use Rattle.faults.specs.Listings.{refusal};
ghost use Rattle.registers.specs.Faults.{listed};
ghost use Rattle.registers.specs.Pairs.{joint_extent, pair_refusal, pair_meaning};
ghost use Rattle.registers.specs.PairLaws.{pair_lawful};

use crate::bounded;
use crate::fault::RegisterFault;
use crate::register::{Extent, MOST_ENERGY, Register};

const MOST_DIALS: usize = 64;

#[derive(Clone, Copy, Drop)]
pub struct Pair<A, B> {
    first: A,
    second: B,
}

// Dials and full scale of two registers as one, if they may be.
fn join<A: Register, B: Register>(first: &A, second: &B) -> Option<Extent>
    ensures { result ≡ joint_extent (A.Register.meaning first.now) (B.Register.meaning second.now) }
{
    let front = bounded::extent(first);
    let back = bounded::extent(second);
    let full_scale = front.full_scale + back.full_scale;
    let dials = front.dials + back.dials;
    if full_scale <= MOST_ENERGY && dials <= MOST_DIALS {
        Some(Extent { dials, full_scale })
    } else {
        None
    }
}

impl<A: Register, B: Register> Pair<A, B> {
    // Whether two registers make a pair. Ask before making one: a pair beyond the limits takes no reading.
    pub fn check(first: &A, second: &B) -> Result<(), RegisterFault>
        ensures { refusal listed result ≡ pair_refusal (A.Register.meaning first.now) (B.Register.meaning second.now) }
    {
        join(first, second).ok_or(RegisterFault::PairBeyondLimits)?;
        Ok(())
    }

    // The pair of any two registers. Beyond the limits it is one dial that is always at fault.
    pub fn new(first: A, second: B) -> Pair<A, B>
        ensures first { result.first ≡ first }
        ensures second { result.second ≡ second }
        ensures meaning { ⟦<Pair<A, B> as Register>⟧.meaning result
            ≡ pair_meaning (A.Register.meaning first) (B.Register.meaning second) }
    {
        Pair { first, second }
    }

    // The two registers again.
    pub fn into_parts(self) -> (A, B)
        ensures first { result.0 ≡ self.first }
        ensures second { result.1 ≡ self.second }
    {
        let Pair { first, second } = self;
        (first, second)
    }
}

impl<A: Register, B: Register> Register for Pair<A, B> {
    type Reading = (A::Reading, B::Reading);

    ghost meaning = { λ p. pair_meaning (A.Register.meaning p.first) (B.Register.meaning p.second) };

    ghost lawful = { λ p. pair_lawful (A.Register.meaning p.first) (B.Register.meaning p.second) (A.Register.lawful p.first) (B.Register.lawful p.second) };

    fn dials(&self) -> usize {
        self.extent().dials
    }

    fn take(&self, numbers: &[u64]) -> Result<(A::Reading, B::Reading), RegisterFault> {
        if numbers.len() != self.dials() {
            return Err(RegisterFault::WrongCount);
        }
        if join(&self.first, &self.second).is_none() {
            return Err(RegisterFault::NumberTooLarge { dial: 0 });
        }
        let dials = bounded::extent(&self.first).dials;
        let (front, back) = numbers.split_at(dials);
        let first = self.first.take(front)?;
        let second = bounded::take(&self.second, back).map_err(|fault| fault.counted_on(dials))?;
        Ok((first, second))
    }

    fn is_given(&self, reading: (A::Reading, B::Reading)) -> bool {
        join(&self.first, &self.second).is_some()
            && self.first.is_given(reading.0)
            && self.second.is_given(reading.1)
    }

    fn full_scale(&self) -> u64 {
        self.extent().full_scale
    }

    // Asked of each register once, so that pairs of pairs cost no more than their registers.
    fn extent(&self) -> Extent {
        join(&self.first, &self.second).unwrap_or(Extent {
            dials: 1,
            full_scale: 0,
        })
    }

    fn advance(&self, from: (A::Reading, B::Reading), to: (A::Reading, B::Reading)) -> u64 {
        if self.is_given(from) && self.is_given(to) {
            bounded::advance(&self.first, from.0, to.0)
                + bounded::advance(&self.second, from.1, to.1)
        } else {
            0
        }
    }
}
