// The meter: a day dial that is read on site, beside a night dial that is read from afar.
ghost use Rattle.std.specs.Prelude.{◌≡◌, true, is_ok, IfOk};
ghost use Rattle.registers.specs.Dials.{dial_meaning, remote_meaning};
ghost use Rattle.registers.specs.Pairs.{pair_meaning};

use registers::dial::Dial;
use registers::fault::RegisterFault;
use registers::pair::Pair;
use registers::register::Register;
use registers::remote::RemoteDial;

pub type Meter = Pair<Dial, RemoteDial>;

// Both dials have 5 digits, and a step is 1,000 Wh.
pub fn make() -> Result<Meter, RegisterFault>
    ensures test { is_ok result ≡ true }
    ensures day { IfOk result (λ meter. (meter.first.digits ≡ 5) × (meter.first.weight ≡ 1000)) }
    ensures night { IfOk result (λ meter. (meter.second.dial.digits ≡ 5) × (meter.second.dial.weight ≡ 1000)) }
    ensures meaning { IfOk result (λ meter. ⟦<Pair<Dial, RemoteDial> as Register>⟧.meaning meter
        ≡ pair_meaning (dial_meaning 5 1000) (remote_meaning 5 1000)) }
{
    let day = Dial::new(5, 1_000)?;
    let night = RemoteDial::new(5, 1_000)?;
    Pair::check(&day, &night)?;
    Ok(Pair::new(day, night))
}
