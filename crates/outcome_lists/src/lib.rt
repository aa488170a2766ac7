//! The outcomes of a look one by one: what its reads may find together once the power is back, and where a cut first leaves that.
#![tactic(auto)]

mod apart;
mod choice;
mod choosing;
mod copies;
mod course;
mod fitting;
mod gathered;
mod gathering;
mod laws;
mod levels;
mod listing;
mod parts;
mod passed;
mod place;
mod places;
mod printing;
mod rows;
mod storage;
mod ways;
mod word;

pub use apart::{
    blocks_are_shown_each_for_itself, file_words_are_shown_each_for_itself,
    looks_are_shown_group_by_group, sides_stand_by_groups, words_are_shown_each_for_itself,
};
pub use explorer as exploring;
pub use explorer::{durable_laws, host, reads_asked, runs, tables, witness};
pub use laws::{
    a_shorter_look_is_shown, each_listed_outcome_is_found, each_outcome_is_listed,
    each_way_is_a_choice, no_outcome_stands_twice,
};
pub use listing::list_outcomes;
pub use printing::print_place;
pub use rows::worked_lists;
