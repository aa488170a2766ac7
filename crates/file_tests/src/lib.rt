//! Tests of files: their journal, their bytes, native actions on them and mappings, on plain devices and on fuses.
#![tactic(auto)]

#[cfg(test)]
mod devices;
#[cfg(test)]
mod journals;
#[cfg(test)]
mod maps;
#[cfg(test)]
mod pages;
