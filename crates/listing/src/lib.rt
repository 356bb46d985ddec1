// The printed list of a sheet (RULES 7), from bytes to bytes: what the program `platelist` writes.
#![tactic(auto)]

mod lines;
pub mod printing;

// RULES 6.23: 512 records have at most 50,176 bytes, so a longer text is answered as its first 50,177 bytes are.
pub const MAX_TEXT: usize = 50177;

// 512 lines of W, one of the plate, 32 of columns and 128 of rows.
pub const MAX_LIST: usize = 40802;

// Eight places for each of 512 W, more than a sheet can have: none is refused with 3.
pub const PLACES: usize = 4096;
