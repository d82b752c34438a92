//! Reads statements about packages from standard input, and writes the versions to install.
#![tactic(auto)]

mod answer;
mod catalog;
mod condition;
mod ids;
mod laws;
mod lines;
#[cfg(test)]
mod report_tests;
mod request;
mod run;
mod statement;
#[cfg(test)]
mod store_tests;
mod words;
mod worked_provider;

pub use run::{fault_text, run};
use std::process::ExitCode;

fn main(rt: HostRuntime) -> ExitCode {
    let status = run(rt.alloc(), rt.reader(), &mut rt.stdout(), &mut rt.stderr());
    ExitCode::from(status)
}
