// Why weights make no profile.
#[derive(Clone, Copy, PartialEq, Eq, Debug)]
pub enum ProfileFault {
    // A day has 48 or 96 periods.
    Periods,
    // The weight of this period is above 10,000.
    Weight { period: usize },
}
