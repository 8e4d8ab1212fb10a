// The questions to any register, each answered with the bounds that its laws give. Code over every register asks
// these, so that its sums are seen to fit.
ghost use Rattle.std.specs.Prelude.{◌≡◌, ◌^◌, ◌<◌, ◌≤◌, true, MatchResult};
ghost use Rattle.registers.specs.Faults.{listed, told};

use crate::fault::RegisterFault;
use crate::register::{Extent, Register};

// Dials and full scale: 1 to 64 dials, and at most 10^15 Wh.
pub fn extent<R: Register>(register: &R) -> Extent
    ensures dials { result.dials ≡ (R.Register.meaning register.now).dials }
    ensures scale { result.full_scale ≡ (R.Register.meaning register.now).full_scale }
    ensures least_dials { 1 ≤ result.dials }
    ensures most_dials { result.dials ≤ 64 }
    ensures most_scale { result.full_scale ≤ 10 ^ 15 }
{
    register.extent()
}

// The advance: at most the full scale, and so at most 10^15 Wh.
pub fn advance<R: Register>(register: &R, from: R::Reading, to: R::Reading) -> u64
    ensures value { result ≡ (R.Register.meaning register.now).advance from to }
    ensures most { result ≤ (R.Register.meaning register.now).full_scale }
    ensures scale { (R.Register.meaning register.now).full_scale ≤ 10 ^ 15 }
{
    register.advance(from, to)
}

// The kept reading, which is then a given one, or a fault at a dial below 64.
pub fn take<R: Register>(register: &R, numbers: &[u64]) -> Result<R::Reading, RegisterFault>
    ensures value { result ≡ told ((R.Register.meaning register.now).taken numbers.now) }
    ensures cases { MatchResult result (λ k. (R.Register.meaning register.now).given k ≡ true) (λ fault. (listed fault).place < 64) }
{
    register.take(numbers)
}
