//! The values that the words and blocks of a look may have once the power is back, by the places of a cut at which these change.
#![tactic(auto)]

mod after;
mod file_values;
mod file_words;
mod keeping;
mod laws;
mod listing;
mod looks;
mod refusal;
mod row;
mod rows;
mod shown;
mod sides;
mod table;
mod touched;
mod values;

pub use after::copied;
pub use file_values::FileValues;
pub use laws::{a_value_is_listed_where_it_may_be_shown, each_place_is_sound, worked_tables};
pub use listing::table_of;
pub use outcome_runs as runs;
pub use refusal::read_refusal;
pub use row::WORDS;
