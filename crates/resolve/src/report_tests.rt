//! Tests of the report. They are here and not in its crate, so that it is proved only once.

mod clones;
mod indents;
mod marks;
mod message;
mod plain;
mod reached;
mod rule_graph;
mod rules;
mod simplify;
mod texts;
