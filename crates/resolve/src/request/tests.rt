//! Requests as a solver sees them.

mod counts;
mod graphs;
mod growths;
mod hinted;
mod interruptions;
mod random_problems;
mod refused;
mod rules;
mod sets;
mod soft;
mod solving;
mod texts;
mod wrapped;
