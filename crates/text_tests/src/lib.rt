//! Tests of text and bytes that come and go: sources, sinks and files, scripts, replies, summaries, and images on a device.
#![tactic(auto)]

#[cfg(test)]
mod counting;
#[cfg(test)]
mod images;
#[cfg(test)]
mod lines;
#[cfg(test)]
mod replies;
#[cfg(test)]
mod scripts;
#[cfg(test)]
mod streams;
#[cfg(test)]
mod summaries;
