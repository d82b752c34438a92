//! Reports of conflicts: a plain search over rules, the graph of a list of rules, and the message of that graph.
#![tactic(auto)]

mod candidate_lists;
mod classes;
mod findings;
mod graph;
mod implications;
mod indenter;
mod keys;
mod laws;
mod listed;
mod marks;
mod message;
mod outline;
mod pending;
mod plain;
mod reached;
mod rule_graph;
mod runs;
mod simplify;
mod texts;
mod tree;
mod verdict;

pub use graph::{
    ConflictCause, ConflictEdge, ConflictGraph, ConflictNode, Edge, Graph, Incoming, NodeId,
    Outgoing,
};
pub use laws::{
    graphs_of_kept_rules_are_reached, graphs_of_true_rules_are_true, kept_rules_stay_refuted,
    valid_sets_obey_true_rules,
};
pub use marks::marks_are_least_closed;
pub use message::DisplayUnsat;
pub use plain::find;
pub use reached::keep_reached;
pub use resolver_clause_store::{By, Rule};
pub use rule_graph::graph_of;
pub use simplify::MergedConflictNode;
