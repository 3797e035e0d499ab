// The handles that every player knows, of 64 bits; the others are the caller's.

pub const UNIT: u64 = 0;

pub const FALSE: u64 = 1;

pub const TRUE: u64 = 2;

// what a jump throws at a value that is neither
pub const NOT_A_TRUTH_VALUE: u64 = 3;

// what an assignment throws at a constant
pub const CONSTANT_ASSIGNED: u64 = 4;
