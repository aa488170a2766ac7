//! What an author asks of a program and a power cut, in comment lines of its script.
#![tactic(auto)]

mod laws;
mod near;
mod never;
mod parts;
mod poison;
mod question;
mod reading;
mod replies;
mod reply;
mod rows;
mod whys;
mod words;

pub use laws::{a_question_is_a_comment, what_is_printed_may_be_asked};
pub use question::{QuestionFault, QuestionKind, Replies};
pub use reading::read_question;
pub use reply::AskedReply;
pub use rows::worked_question_lines;
