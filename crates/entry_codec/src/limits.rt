/// The most groups of a deposit.
pub const MOST_GROUPS: u64 = 64;

/// The most bytes of all documents of a deposit together: 8 MiB.
pub const MOST_DEPOSITED: u64 = 8_388_608;

/// The most bytes of a token: 64 KiB.
pub const LONGEST_TOKEN: u64 = 65_536;

/// The most bytes of a policy's text: 256 KiB.
pub const LONGEST_POLICY: u64 = 262_144;
