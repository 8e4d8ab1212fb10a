// A dial that is read from afar: its number may come with leading digits that the dial does not show.
ghost use Rattle.std.specs.Prelude.{◌≡◌, IfOk};
ghost use Rattle.faults.specs.Listings.{refusal};
ghost use Rattle.registers.specs.Faults.{listed};
ghost use Rattle.registers.specs.Dials.{dial_refusal, remote_meaning};
ghost use Rattle.registers.specs.DialLaws.{remote_lawful};

use crate::dial::{Dial, one_number};
use crate::fault::RegisterFault;
use crate::register::Register;

// A number from afar has at most 12 digits.
const LIMIT: u64 = 1_000_000_000_000;

// It stays a type beside `Dial`. One type for both would have a limit as a field, which a dial's digits give already and
// four of the five answers never read.
#[derive(Clone, Copy)]
pub struct RemoteDial {
    dial: Dial,
}

impl RemoteDial {
    // A remote dial of 1 to 8 digits and a weight of 1 to 1,000,000 Wh.
    pub fn new(digits: u8, weight: u32) -> Result<RemoteDial, RegisterFault>
        ensures refusal { refusal listed result ≡ dial_refusal digits weight }
        ensures made { IfOk result (λ d. (d.dial.digits ≡ digits) × (d.dial.weight ≡ weight)) }
        ensures meaning { IfOk result (λ d. ⟦<RemoteDial as Register>⟧.meaning d ≡ remote_meaning digits weight) }
    {
        Ok(RemoteDial {
            dial: Dial::new(digits, weight)?,
        })
    }
}

impl Register for RemoteDial {
    type Reading = u64;

    ghost meaning = { λ r. remote_meaning r.dial.digits r.dial.weight };

    ghost lawful = { λ r. remote_lawful r.dial.digits r.dial.weight r.dial.most_digits r.dial.most_weight };

    fn dials(&self) -> usize {
        self.dial.dials()
    }

    fn take(&self, numbers: &[u64]) -> Result<u64, RegisterFault> {
        let number = one_number(numbers, LIMIT)?;
        Ok(number % self.dial.size())
    }

    fn is_given(&self, reading: u64) -> bool {
        self.dial.is_given(reading)
    }

    fn full_scale(&self) -> u64 {
        self.dial.full_scale()
    }

    fn advance(&self, from: u64, to: u64) -> u64 {
        self.dial.advance(from, to)
    }
}
