//! Numbers that were chosen by measurement. No contract depends on one.

/// The highest number of levels at which a search restarts. What a restart undoes has to be decided again, which does not pay in a
/// search of many levels.
pub const RESTART_LEVELS: usize = 4;

/// The number of searches that trim a conflict, each over the rules that the one before used. A fourth hardly finds fewer.
pub const TRIM_SEARCHES: usize = 3;

/// The number of clauses that each of these searches may learn. With more, only conflicts of random rules get smaller.
pub const TRIM_LEARNT: usize = 500;

/// The number of rules up to which each has a turn when a conflict is trimmed. Turns of more take long, and seldom make a message
/// shorter.
pub const TRIM_TURNS: usize = 100;
