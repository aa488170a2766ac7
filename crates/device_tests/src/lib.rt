//! Tests of devices of lines, of the memory module, and of words and logs of words on them.
#![tactic(auto)]

#[cfg(test)]
mod calls;
#[cfg(test)]
mod histories;
#[cfg(test)]
mod logs;
#[cfg(test)]
mod modules;
#[cfg(test)]
mod plain;
#[cfg(test)]
mod regions;
#[cfg(test)]
mod stories;
#[cfg(test)]
mod words;
#[cfg(test)]
mod wrapped;
