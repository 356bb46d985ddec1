// The entry points of crate grid: tests only.
#![tactic(auto)]

mod cells;
mod memories;
mod moves;
