//! Tests of the top calls of the programs, over devices, images, sources and sinks of memory.
#![tactic(auto)]

#[cfg(test)]
mod explorer_calls;
#[cfg(test)]
mod fresh;
#[cfg(test)]
mod host_calls;
#[cfg(test)]
mod numbers;
