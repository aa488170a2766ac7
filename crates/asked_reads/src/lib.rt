//! What a question asks of the reads of a look: each read with its reply.
#![tactic(auto)]

mod laws;
mod question;
mod read;
mod reads;

pub use laws::worked_fits;
pub use outcomes::durable_laws;
pub use question::Question;
pub use read::Read;
pub use reads::{BlockRead, BlockReply, FileRead, PageRead, PageReply};
