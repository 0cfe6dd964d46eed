// The bytes of rows and records, as in the specification's `Token`: below 32 operators, from 80 on readings.
pub const OPENING: u8 = 0x20;

pub const CLOSING: u8 = 0x21;

pub const FIRST_READING: u8 = 0x80;
