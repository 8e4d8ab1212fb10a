// A panel of sealed dials, each of which can only show 0. It has many dials, and tells no energy.
ghost use Rattle.std.specs.Prelude.{◌≡◌, ◌==◌, ◌≤◌, is_some, IfSome, not, position};
ghost use Rattle.registers.specs.Dials.{within};
ghost use Rattle.registers.specs.Faults.{told};
ghost use Rattle.fitting.specs.Panel.{all_zero, panel_meaning, panel_lawful};

use registers::fault::RegisterFault;
use registers::register::Register;

#[derive(Clone, Copy)]
pub struct SealedPanel {
    dials: usize,
    ghost least: { 1 ≤ dials },
    ghost most: { dials ≤ 64 },
}

impl SealedPanel {
    // A panel, if it has 1 to 64 dials.
    pub fn new(dials: usize) -> Option<SealedPanel>
        ensures test { is_some result ≡ within 1 64 dials }
        ensures made { IfSome result (λ panel. panel.dials ≡ dials) }
        ensures meaning { IfSome result (λ panel. ⟦<SealedPanel as Register>⟧.meaning panel ≡ panel_meaning dials) }
    {
        if (1..=64).contains(&dials) {
            Some(SealedPanel { dials })
        } else {
            None
        }
    }
}

// The first dial that does not show 0.
fn first_not_zero(numbers: &[u64]) -> Option<usize>
    ensures { result ≡ position (λ number. not (number == 0)) numbers.now }
{
    numbers.iter().position(|number| *number != 0)
}

// The reading 0, or the fault of the first dial that does not show 0.
fn take_zeros(numbers: &[u64]) -> Result<u64, RegisterFault>
    ensures { result ≡ told (all_zero numbers.now) }
{
    match first_not_zero(numbers) {
        Some(dial) => Err(RegisterFault::NumberTooLarge { dial }),
        None => Ok(0),
    }
}

impl Register for SealedPanel {
    type Reading = u64;

    ghost meaning = { λ p. panel_meaning p.dials };

    ghost lawful = { λ p. panel_lawful p.dials p.least p.most };

    fn dials(&self) -> usize {
        self.dials
    }

    fn take(&self, numbers: &[u64]) -> Result<u64, RegisterFault> {
        if numbers.len() == self.dials {
            take_zeros(numbers)
        } else {
            Err(RegisterFault::WrongCount)
        }
    }

    fn is_given(&self, reading: u64) -> bool {
        reading == 0
    }

    fn full_scale(&self) -> u64 {
        0
    }

    fn advance(&self, _from: u64, _to: u64) -> u64 {
        self.full_scale()
    }
}
