// A register turns the numbers that are read off its dials into one kept reading, and tells the energy
// between two kept readings.
ghost use Rattle.std.specs.Prelude.{◌≡◌};
ghost use Rattle.registers.specs.Meaning.{Meaning, Laws};
ghost use Rattle.registers.specs.Faults.{told};

use crate::fault::RegisterFault;

// No register has a larger full scale, in Wh.
pub const MOST_ENERGY: u64 = 1_000_000_000_000_000;

// How large a register is: its dials, and its full scale in Wh.
#[derive(Clone, Copy, PartialEq, Eq, Debug)]
pub struct Extent {
    pub dials: usize,
    pub full_scale: u64,
}

// A register is what its meaning says and shows the laws. Its questions alter nothing, and are answered alike each
// time. A register of your own gives the two ghost members and the five answers.
pub trait Register {
    // The form in which a reading is kept.
    type Reading: Copy;

    ghost meaning: { Self → Meaning Self.Reading };

    ghost lawful: { (s : Self) → Laws (meaning s) };

    // How many dials are read, each for one number.
    fn dials(&self) -> usize
        ensures { result ≡ (meaning self.now).dials };

    // The kept reading that these numbers give, one number for each dial, or why they give none.
    fn take(&self, numbers: &[u64]) -> Result<Self::Reading, RegisterFault>
        ensures { result ≡ told ((meaning self.now).taken numbers.now) };

    // Whether some list of numbers gives this kept reading.
    fn is_given(&self, reading: Self::Reading) -> bool
        ensures { result ≡ (meaning self.now).given reading };

    // The most energy that an advance can tell, in Wh.
    fn full_scale(&self) -> u64
        ensures { result ≡ (meaning self.now).full_scale };

    // Dials and full scale at once. A register that is made of others may answer this in one go.
    fn extent(&self) -> Extent
        ensures dials { result.dials ≡ (meaning self.now).dials }
        ensures scale { result.full_scale ≡ (meaning self.now).full_scale }
    {
        Extent {
            dials: self.dials(),
            full_scale: self.full_scale(),
        }
    }

    // The energy from one kept reading to another, in Wh, and 0 where either is one that no list gives. The two readings
    // stay two: a struct of both would be made for this question alone, and taken apart in it.
    fn advance(&self, from: Self::Reading, to: Self::Reading) -> u64
        ensures { result ≡ (meaning self.now).advance from to };
}
