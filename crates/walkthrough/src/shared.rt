// What two of the parts have in common: a household, and the losses at noon.
use roll::Row;

/// The quarter hour that has loss factors, from 12:00.
pub const NOON: u8 = 48;

/// The factors, in millionths: of distribution for code A, and of transmission.
pub const DISTRIBUTION: u32 = 50_000;

pub const TRANSMISSION: u32 = 20_000;

pub const HOUSEHOLD: Row = Row {
    qse: 1,
    point: 0,
    code: b'A',
    meter: 1,
    noie: 0,
};
