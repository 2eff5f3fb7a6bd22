ghost use Rattle.std.specs.Prelude.{◌<◌, pos, ◌≤ℤ◌};

/// A moment of the years 1970 to 9999 (UTC).
#[derive(Clone, Copy, Debug, PartialEq, Eq)]
pub struct Moment {
    /// Seconds since the begin of 1970, leap seconds not counted.
    pub seconds: i64,
    /// Billionths of a second.
    pub nanos: u32,
    pub ghost from_1970: { pos 0 ≤ℤ seconds },
    pub ghost until_9999: { seconds ≤ℤ pos 253_402_300_799 },
    pub ghost below_second: { nanos < 1_000_000_000 },
}
