//! Tests of views, of lines of pages, of blocks and of volumes, on plain devices and on fuses.
#![tactic(auto)]

#[cfg(test)]
mod blocks;
#[cfg(test)]
mod devices;
#[cfg(test)]
mod spans;
#[cfg(test)]
mod views;
#[cfg(test)]
mod volumes;
