//! Ids, data types, the traits of a provider, the cache of its answers; clauses, the trail, watches, and the queue of decisions.
#![tactic(auto)]

mod cache;
mod clauses;
mod conditions;
mod data;
mod decisions;
mod hints;
mod ids;
mod index_sets;
mod kinds;
mod last_open;
mod laws;
mod literals;
mod numbered_lists;
mod numbers;
mod owner;
mod pairs;
mod placed_watch;
mod provider;
mod questions;
mod queue;
mod ranks;
mod requirements;
mod rules;
mod scores;
mod sets;
mod slots;
mod standing;
mod trail;
mod union_ends;
mod variables;
mod watches;

pub use cache::Cache;
pub use clauses::{Clauses, RequirementClause, StoredRequirement, clause};
pub use conditions::{a_condition_holds_where_a_disjunct_does, convert_conditions_to_dnf};
pub use data::{
    By, Candidates, Condition, ConditionalRequirement, Dependencies, Exhausted,
    HintDependenciesAvailable, Interrupted, KnownDependencies, LogicalOperator, Requirement,
    SoftRequirement,
};
pub use decisions::Choice;
pub use ids::{ConditionId, StringId, VersionSetId, VersionSetUnionId};
pub use index_sets::{append, is_among, place_of};
pub use kinds::{ClauseKind, Helper, Origin};
pub use laws::{
    a_run_over_nothing_is_its_first_answer, first_choices_are_least_closed,
    the_need_closure_is_least_closed,
};
pub use literals::{Literal, Variable};
pub use numbered_lists::NumberedLists;
pub use numbers::narrow;
pub use owner::Owner;
pub use pairs::WatchedPair;
pub use placed_watch::PlacedWatch;
pub use provider::{DependencyProvider, Interner};
pub use questions::check_cancel;
pub use queue::DecideQueue;
pub use requirements::requirement_candidates;
pub use rules::Rule;
pub use scores::{Activity, Scores};
pub use sets::{has, meets};
pub use trail::{Reason, Slot, Trail};
pub use union_ends::UnionEnds;
pub use variables::Variables;
pub use watches::{Watch, Watches};
