// Why a round and marks make no disc.
#[derive(Clone, Copy, PartialEq, Eq, Debug)]
pub enum DiscFault {
    // A round is 1 to 10^15 Wh.
    Round,
    // The mark of this code is not on the round.
    Mark { code: usize },
}
