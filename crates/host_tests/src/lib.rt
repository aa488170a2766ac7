//! Tests of a host over a device of memory: its mode after each step, and that it goes on once it is settled.
#![tactic(auto)]

#[cfg(test)]
mod steps;
