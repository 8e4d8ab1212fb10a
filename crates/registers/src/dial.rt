// A dial: one number of a few digits, each step worth a weight of Wh, that turns over to 0.
ghost use Rattle.std.specs.Prelude.{◌≡◌, ◌^◌, ◌≤◌, IfOk};
ghost use Rattle.faults.specs.Listings.{refusal};
ghost use Rattle.registers.specs.Faults.{listed, told};
ghost use Rattle.registers.specs.Dials.{one_number, dial_refusal, dial_meaning};
ghost use Rattle.registers.specs.DialLaws.{dial_lawful};

use crate::fault::RegisterFault;
use crate::register::Register;

#[derive(Clone, Copy)]
pub struct Dial {
    digits: u8,
    weight: u32,
    ghost least_digits: { 1 ≤ digits },
    ghost most_digits: { digits ≤ 8 },
    ghost least_weight: { 1 ≤ weight },
    ghost most_weight: { weight ≤ 1000000 },
}

// The one number of a list, if it is below a limit.
pub fn one_number(numbers: &[u64], limit: u64) -> Result<u64, RegisterFault>
    ensures { result ≡ told (one_number limit (λ x. x) numbers.now) }
{
    match numbers {
        [number] if *number < limit => Ok(*number),
        [_] => Err(RegisterFault::NumberTooLarge { dial: 0 }),
        _ => Err(RegisterFault::WrongCount),
    }
}

impl Dial {
    // A dial of 1 to 8 digits and a weight of 1 to 1,000,000 Wh.
    pub fn new(digits: u8, weight: u32) -> Result<Dial, RegisterFault>
        ensures refusal { refusal listed result ≡ dial_refusal digits weight }
        ensures made { IfOk result (λ d. (d.digits ≡ digits) × (d.weight ≡ weight)) }
        ensures meaning { IfOk result (λ d. ⟦<Dial as Register>⟧.meaning d ≡ dial_meaning digits weight) }
    {
        if !(1..=8).contains(&digits) {
            return Err(RegisterFault::Digits);
        }
        if !(1..=1_000_000).contains(&weight) {
            return Err(RegisterFault::Weight);
        }
        Ok(Dial { digits, weight })
    }

    // How many numbers the dial shows: 0 and up to one less.
    #[tactic(auto, using(crate::specs::DialLaws::size_least, crate::specs::DialLaws::size_most))]
    pub(crate) fn size(&self) -> u64
        ensures value { result ≡ 10 ^ self.now.digits }
        ensures least { 1 ≤ result }
        ensures most { result ≤ 100000000 }
    {
        10_u64.pow(u32::from(self.digits))
    }
}

impl Register for Dial {
    type Reading = u64;

    ghost meaning = { λ d. dial_meaning d.digits d.weight };

    ghost lawful = { λ d. dial_lawful d.digits d.weight d.most_digits d.most_weight };

    fn dials(&self) -> usize {
        1
    }

    fn take(&self, numbers: &[u64]) -> Result<u64, RegisterFault> {
        one_number(numbers, self.size())
    }

    fn is_given(&self, reading: u64) -> bool {
        reading < self.size()
    }

    fn full_scale(&self) -> u64 {
        (self.size() - 1) * u64::from(self.weight)
    }

    fn advance(&self, from: u64, to: u64) -> u64 {
        let size = self.size();
        if from >= size || to >= size {
            return 0;
        }
        let steps = if to < from {
            to + size - from
        } else {
            to - from
        };
        steps * u64::from(self.weight)
    }
}
