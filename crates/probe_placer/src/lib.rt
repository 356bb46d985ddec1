// The entry points of crate placer: tests only.
#![tactic(auto)]

mod moves;
mod placers;
mod places;
