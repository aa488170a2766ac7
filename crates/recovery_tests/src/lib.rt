//! Tests of whole devices: mounts of them, whatever they hold, and media errors found, counted and cleared.
#![tactic(auto)]

#[cfg(test)]
mod devices;
#[cfg(test)]
mod lost;
#[cfg(test)]
mod mounts;
