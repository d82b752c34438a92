//! Tests of the store. They are here and not in its crate, so that it is proved only once.

mod cache;
mod conditions;
mod noting_provider;
mod scores;
mod trail;
