// What the readings of a month tell, one after the other.
ghost use Rattle.std.specs.Prelude.{◌≡◌, ◌^◌, ◌≤◌, Ok};
ghost use Rattle.registers.specs.Faults.{told};
ghost use Rattle.month.specs.Progress.{since_last, outcome, energy_of, last_after};

use registers::bounded;
use registers::fault::RegisterFault;
use registers::register::Register;

// A reading in its kept form, at the midnight that begins a day.
#[derive(Clone, Copy)]
pub struct DatedReading<K> {
    pub day: u32,
    pub kept: K,
}

// What a reading tells after an earlier one: the day of that one, and the energy since then in Wh.
#[derive(Clone, Copy)]
pub struct Advance {
    pub since: u32,
    pub energy: u64,
}

// What came of the numbers of one midnight: nothing yet at the first reading.
pub type Outcome = Result<Option<Advance>, RegisterFault>;

// What a reading tells after the last one: at most 10^15 Wh.
fn compare<R: Register>(
    register: &R,
    last: Option<DatedReading<R::Reading>>,
    kept: R::Reading,
) -> Option<Advance>
    ensures value { result ≡ since_last (R.Register.meaning register.now) last kept }
    ensures most { energy_of (Ok result) ≤ 10 ^ 15 }
{
    last.map(|before| Advance {
        since: before.day,
        energy: bounded::advance(register, before.kept, kept),
    })
}

// The energy that an outcome adds, in Wh.
pub fn energy(outcome: Outcome) -> u64
    ensures { result ≡ energy_of outcome }
{
    match outcome {
        Ok(Some(advance)) => advance.energy,
        Ok(None) | Err(_) => 0,
    }
}

// Takes the numbers that were read at the midnight which begins a day, after the last reading that was taken.
pub fn enter<R: Register>(
    last: &mut Option<DatedReading<R::Reading>>,
    register: &R,
    day: u32,
    numbers: &[u64],
) -> Outcome
    ensures value { result ≡ outcome (R.Register.meaning register.now) last.old (told ((R.Register.meaning register.now).taken numbers.now)) }
    ensures last { last.new ≡ last_after last.old day (told ((R.Register.meaning register.now).taken numbers.now)) }
    ensures most { energy_of result ≤ 10 ^ 15 }
{
    let kept = register.take(numbers)?;
    let advance = compare(register, *last, kept);
    *last = Some(DatedReading { day, kept });
    Ok(advance)
}
