/// The reason why a window refuses a moment.
#[derive(Clone, Copy, Debug, PartialEq, Eq)]
pub enum Refusal {
    /// The moment is more than the maximum lead ahead of the clock.
    Early,
    /// The moment is more than 60 seconds behind the clock, or the clock tells no second below 2^40.
    Late,
    /// The moment was seen, or is at or below the mark.
    Again,
}
