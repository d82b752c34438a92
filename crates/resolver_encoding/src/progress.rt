//! What one more reading did.

/// What one more reading did.
#[derive(Clone, Copy, PartialEq, Eq)]
pub enum Progress {
    /// No solvable was read and no disjunct was removed: the clauses are the same as before.
    Nothing,
    /// Deferred disjuncts were removed, and no solvable was read.
    Fired,
    /// Solvables were read.
    Read,
}
