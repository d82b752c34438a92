//! Tests of the encoding. They are here and not in its crate, so that it is proved only once.

mod chosen;
mod clauses;
mod rules;
