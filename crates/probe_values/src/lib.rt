// Values as arrays of numbers, for the entry points by which the Rust drives single calls: tests only.
#![tactic(auto)]

pub mod answers;
pub mod grids;
pub mod layouts;
pub mod packing;
pub mod rects;
