//! What the reads of a look see of the volume and of blocks: each line with all values of its words, each block, what a command makes of
//! them, and how a power cut inside it may leave them.
#![tactic(auto)]

mod addresses;
mod block_seen;
mod block_told;
mod blocks_fit;
mod line_seen;
mod lines_fit;
mod replies;
mod unit;
mod way;

pub use asked_reads as reads_asked;
pub use asked_reads::durable_laws;
pub use block_seen::BlockSeen;
pub use block_told::{print_sight, same_block};
pub use line_seen::LineSeen;
pub use lines_fit::{
    agree, agrees, allows_bad, allows_good, byte_in, is_among, line_fits, touches,
};
pub use replies::{is_reply_of_bytes, may_be_replies, most_refusal};
pub use unit::{Unit, all_fit, change_all, fit_inside, page_fits};
pub use way::Way;
