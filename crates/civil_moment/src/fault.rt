/// Why a text is no generalized time.
#[derive(Clone, Copy, Debug, PartialEq, Eq, Drop)]
pub enum TimeFault {
    /// It is not fourteen digits, then nothing or a point and at least one digit, then `Z`.
    Shape,
    /// The fraction has more than nine digits, or it ends in 0.
    Fraction,
    /// The year is below 1970, or there is no such date or time of the day.
    Range,
    /// Memory ran out, which reading never answers, since it takes none.
    Memory,
}
