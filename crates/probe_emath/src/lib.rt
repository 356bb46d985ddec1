// The entry points of crate emath, one for each public operation: tests only.
#![tactic(auto)]

mod numbers;
mod rects;
