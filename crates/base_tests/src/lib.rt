//! Tests of the lowest libraries: units, tables of words, pools, ranges, maps, events and blocks as reads see them.
#![tactic(auto)]

#[cfg(test)]
mod block_maps;
#[cfg(test)]
mod events;
#[cfg(test)]
mod inodes;
#[cfg(test)]
mod names;
#[cfg(test)]
mod page_tables;
#[cfg(test)]
mod places;
#[cfg(test)]
mod pools;
#[cfg(test)]
mod ranges;
#[cfg(test)]
mod rows;
#[cfg(test)]
mod sights;
#[cfg(test)]
mod spelling;
#[cfg(test)]
mod units;
