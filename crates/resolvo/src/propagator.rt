//! Unit propagation by watched literals.

mod attaching;
mod pending;
mod returning;
mod visiting;

pub use attaching::apply_all_pending;
use pending::PendingClauses;
use resolver_clause_store::Watches;
pub use returning::begins_level;
pub use visiting::propagate;

/// A clause that was satisfied when it was last visited, by a literal that may be undone before one of its watched
/// literals, which is false.
#[derive(Clone, Copy, PartialEq, Eq)]
pub struct Late {
    /// The clause's number.
    pub number: u32,
    /// A literal among the first `length` entries of the trail satisfies it.
    pub length: u32,
}

/// The state that propagation keeps between calls.
#[derive(Drop)]
pub struct Propagator {
    watches: Watches,
    late: Vec<Late>,
    pending: PendingClauses,
    /// The number of entries of the trail that have been propagated.
    head: usize,
}

#[cfg(test)]
mod tests;
