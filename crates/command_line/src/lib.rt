//! The program's words: which form of the command line they are.
// new IMAGE BLOCKS VPAGES FPAGES       makes the image of a new machine with these sizes
// run IN OUT                           runs a script on the image IN, and writes what it leaves as OUT
// check IN                             looks an image over
// bench SEED N                         runs that workload on a new machine
// newbyte IMAGE BLOCKS VPAGES FPAGES   as new, of a machine of survival unit 1
// A word that is empty or begins with a hyphen is in no form.
#![tactic(auto)]

mod commands;
mod fault;
mod form;
mod words;

pub use fault::WordsFault;
pub use form::Form;
pub use words::read_words;
