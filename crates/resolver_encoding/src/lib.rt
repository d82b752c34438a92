//! The encoding of a provider's rules as clauses: which clauses there are, what they state, and what follows for sets
//! of solvables.
#![tactic(auto)]

mod choices;
mod chosen;
mod codes;
mod disjuncts;
mod encoding;
mod explain;
mod groups;
mod kinds;
mod laws;
mod listing;
mod literals;
mod progress;
mod sources;
mod table;

pub use chosen::Chosen;
pub use codes::{digit_count, has_digit};
pub use encoding::Encoding;
pub use explain::rules_of_clauses;
pub use laws::{
    chosen_lists_stay, core_rules_explain, cores_of_encodings_explain,
    finished_searches_answer_first_choices, finished_searches_are_answers,
    finished_trails_are_answers, read_trails_are_answers, valid_sets_satisfy_encodings,
};
pub use progress::Progress;
