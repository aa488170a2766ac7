//! Tests of what answers a question: what a cut may leave, how that is reported, tables, and the scripts and lines that ask.
#![tactic(auto)]

#[cfg(test)]
mod asked_replies;
#[cfg(test)]
mod files_after_cuts;
#[cfg(test)]
mod kept_texts;
#[cfg(test)]
mod kept_words;
#[cfg(test)]
mod printed_tables;
#[cfg(test)]
mod read_scripts;
