// The count of places, the bytes of one and of all, as in the specifications `Places`, `Image` and `Store`.
use expression::limits::MOST_RECORD_BYTES;

pub const PLACE_COUNT: u8 = 16;

pub const IMAGE_BYTES: usize = 1 + MOST_RECORD_BYTES;

pub const SLOT_BYTES: usize = IMAGE_BYTES;

pub const STORE_BYTES: usize = SLOT_BYTES * PLACE_COUNT as usize;
