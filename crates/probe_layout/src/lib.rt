// The entry points of crate layout: tests only.
#![tactic(auto)]

mod fields;
mod operations;
