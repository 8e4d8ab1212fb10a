// A disc that shows codes. A maker's table says at how many Wh of the round each code stands. Meters of one make
// share the table, so a disc borrows it.
ghost use Rattle.std.specs.Prelude.{◌≡◌, false, is_some, Some, None, MatchResult, nat_le, position};
ghost use Rattle.fitting.specs.Disc.{disc_fault, disc_meaning, disc_lawful};

use crate::disc_fault::DiscFault;
use registers::dial::one_number;
use registers::fault::RegisterFault;
use registers::register::{MOST_ENERGY, Register};

#[derive(Clone, Copy)]
pub struct CodeDisc<'a> {
    round: u64,
    marks: &'a [u64],
    ghost sound: { is_some (disc_fault round marks.now) ≡ false },
}

// The code of the first mark that is not on the round.
fn first_off_round(round: u64, marks: &[u64]) -> Option<usize>
    ensures { result ≡ position (λ mark. nat_le round mark) marks.now }
{
    marks.iter().position(|mark| *mark >= round)
}

impl<'a> CodeDisc<'a> {
    // Whether a round and marks make a disc.
    pub fn check(round: u64, marks: &[u64]) -> Result<(), DiscFault>
        ensures { MatchResult result (λ _. disc_fault round marks.now ≡ None) (λ fault. disc_fault round marks.now ≡ Some fault) }
    {
        if !(1..=MOST_ENERGY).contains(&round) {
            return Err(DiscFault::Round);
        }
        match first_off_round(round, marks) {
            Some(code) => Err(DiscFault::Mark { code }),
            None => Ok(()),
        }
    }

    // The disc, once `check` has passed its round and marks.
    pub fn new(round: u64, marks: &'a [u64]) -> CodeDisc<'a>
        requires { is_some (disc_fault round marks.now) ≡ false }
        ensures round { result.round ≡ round }
        ensures marks { result.marks.now ≡ marks.now }
        ensures meaning { ⟦<CodeDisc<'a> as Register>⟧.meaning result ≡ disc_meaning round marks.now }
    {
        CodeDisc { round, marks }
    }
}

impl<'a> Register for CodeDisc<'a> {
    type Reading = u64;

    ghost meaning = { λ d. disc_meaning d.round d.marks.now };

    ghost lawful = { λ d. disc_lawful d.round d.marks.now d.sound };

    fn dials(&self) -> usize {
        1
    }

    // `as` here and below: std has no `From` between usize and u64, and `try_from` would have to be unwrapped.
    fn take(&self, numbers: &[u64]) -> Result<u64, RegisterFault> {
        one_number(numbers, self.marks.len() as u64)
    }

    fn is_given(&self, code: u64) -> bool {
        code < self.marks.len() as u64
    }

    fn full_scale(&self) -> u64 {
        self.round - 1
    }

    #[tactic(auto, using(crate::specs::Disc::round_limits, crate::specs::Disc::mark_below))]
    fn advance(&self, from: u64, to: u64) -> u64 {
        if !self.is_given(from) || !self.is_given(to) {
            return 0;
        }
        let here = self.marks[from as usize];
        let there = self.marks[to as usize];
        // A dial's steps, written out: as a public function they would have to ask that both readings lie below the
        // size.
        if there < here {
            there + self.round - here
        } else {
            there - here
        }
    }
}
