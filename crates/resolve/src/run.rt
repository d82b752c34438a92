//! From an input to an answer, with the streams of a program.

ghost use Rattle.std.specs.Prelude.{◌≡◌, ◌≢◌, ◌<◌, ◌≤◌, ℕ, List, IfErr, IfOk, MatchBool, OnOk, Some, string_bytes};
ghost use Rattle.std.specs.Io.KnownBytes.{Appends};
ghost use Rattle.resolver_clause_store.specs.declared.data.Exhausted.TheVariants.{Memory};
ghost use Rattle.resolve.specs.declared.run.Fault.TheVariants.{Exhausted as RanOut};
ghost use Rattle.resolvo.specs.Conflicts.{rules_in};
ghost use Rattle.resolvo.specs.Solvers.{provider_in};
ghost use Rattle.resolve.specs.Catalogs.{tables_in};
ghost use Rattle.resolve.specs.Faults.{IsFaultTold, exhausted_text, fault_of, fault_text_of, status_of};
ghost use Rattle.resolve.specs.InputsView.{input_in};
ghost use Rattle.resolve.specs.Meaning.{Input};
ghost use Rattle.resolve.specs.Outcomes.{ExplainsConflict, IsFaultTo, IsOutcomeIn, IsOutcomeTo, IsReadTo, IsSolved, IsToldTo};
ghost use Rattle.resolve.specs.Runs.{AppendsFront, IsRun, bad_text, told};

use crate::answer::answer_text;
use crate::catalog::Catalog;
use crate::ids::{NameId, SolvableId};
use crate::request::{InputError, Request, read_request};
use itoa::Buffer;
use resolver_clause_store::Exhausted;
use resolvo::{Conflict, Problem, Solver, UnsolvableOrCancelled};
use std::alloc::{AllocError, AllocFailed, Global};
use std::io::{Read, Write};
use std::{io, mem};

/// A size of blocks, in bytes, that the C library's allocator always takes from its heap.
const SMALL_BLOCK: usize = 4096;

/// How often a text of an error is tried to be written on.
const MOST_WRITES: usize = 1024;

/// Why there is neither an answer nor a conflict.
#[derive(Clone, Copy, PartialEq, Eq)]
pub(crate) enum Fault {
    BadStatement(usize),
    UnreadableInput,
    UnwritableOutput,
    Exhausted(Exhausted),
}

impl From<InputError> for Fault {
    ghost from_gives = { λ e fault. fault ≡ fault_of e };

    fn from(e: InputError) -> Fault {
        match e {
            InputError::BadStatement(line) => Fault::BadStatement(line),
            InputError::Exhausted(e) => Fault::Exhausted(e),
        }
    }
}

impl From<AllocError> for Fault {
    ghost from_gives = { λ _ fault. fault ≡ RanOut Memory };

    fn from(_e: AllocError) -> Fault {
        Fault::Exhausted(Exhausted::Memory)
    }
}

impl<T: Drop> From<AllocFailed<T>> for Fault {
    ghost from_gives = { λ _ fault. fault ≡ RanOut Memory };

    fn from(_e: AllocFailed<T>) -> Fault {
        Fault::Exhausted(Exhausted::Memory)
    }
}

impl From<Exhausted> for Fault {
    ghost from_gives = { λ e fault. fault ≡ RanOut e };

    fn from(e: Exhausted) -> Fault {
        Fault::Exhausted(e)
    }
}

/// The outcome of a request.
#[derive(Drop)]
pub(crate) enum Outcome {
    /// The text of the answer.
    Answer(String),

    /// The message that explains why there is no answer.
    Conflict(String),
}

/// Returns the line for memory or ids that ran out.
pub fn fault_text(e: Exhausted) -> &'static str
    ensures { result.now ≡ exhausted_text e }
{
    match e {
        Exhausted::Memory => "resolve: out of memory\n",
        Exhausted::Ids => "resolve: out of ids\n",
    }
}

/// Reads all statements of the input, solves their problem, and writes the answer or the message of the conflict.
///
/// An answer has a line `NAME=VERSION` for each chosen version, ordered by the bytes of the names and then by version.
/// Returns the status with which the program ends.
///
/// | Outcome | Output | Errors | Status |
/// |---|---|---|---|
/// | an answer | the answer | nothing | 0 |
/// | a conflict | the message | nothing | 1 |
/// | a bad statement | nothing | `resolve: line N: bad statement` | 2 |
/// | the input cannot be read | nothing | `resolve: cannot read input` | 3 |
/// | the output cannot be written | open | `resolve: cannot write output` | 3 |
/// | memory is refused | nothing | `resolve: out of memory` | 4 |
/// | ids are at their limit | nothing | `resolve: out of ids` | 4 |
///
/// An answer or a message is complete before its first byte is written. A failed write of an error changes no status, and
/// ends the text.
pub fn run<R: Read + Drop, O: Write, E: Write>(
    alloc: Global,
    input: R,
    output: &mut O,
    errors: &mut E,
) -> u8
    ensures status { result ≤ 4 }
    ensures output_kept { 1 < result → result ≢ 3 → output.new ≡ output.old }
    ensures errors_kept { result < 2 → errors.new ≡ errors.old }
    ensures means { (bytes : List ℕ) → R.remaining input ≡ Some bytes →
        IsRun bytes result (O.contents output.old) (O.contents output.new) (E.contents errors.old) (E.contents errors.new) }
    ensures fault { IsFaultTold result (E.contents errors.old) (E.contents errors.new) }
{
    let told = answer(alloc, input);
    let status = tell(&told, output, errors);
    drop(told);
    status
}

/// Writes the outcome of an input, or its fault, and returns the status.
fn tell<O: Write, E: Write>(told: &Result<Outcome, Fault>, output: &mut O, errors: &mut E) -> u8
    ensures status { result ≤ 4 }
    ensures output_kept { 1 < result → result ≢ 3 → output.new ≡ output.old }
    ensures errors_kept { result < 2 → errors.new ≡ errors.old }
    ensures means { (bytes : List ℕ) → IsToldTo bytes told.now →
        IsRun bytes result (O.contents output.old) (O.contents output.new) (E.contents errors.old) (E.contents errors.new) }
    ensures fault { IsFaultTold result (E.contents errors.old) (E.contents errors.new) }
{
    match told {
        Ok(outcome) => tell_outcome(outcome, output, errors),
        Err(fault) => report(errors, *fault),
    }
}

/// Writes the outcome of an input, and returns the status.
fn tell_outcome<O: Write, E: Write>(outcome: &Outcome, output: &mut O, errors: &mut E) -> u8
    ensures status { result ≤ 4 }
    ensures output_kept { 1 < result → result ≢ 3 → output.new ≡ output.old }
    ensures errors_kept { result < 2 → errors.new ≡ errors.old }
    ensures means { (bytes : List ℕ) → IsOutcomeTo bytes outcome.now →
        IsRun bytes result (O.contents output.old) (O.contents output.new) (E.contents errors.old) (E.contents errors.new) }
    ensures fault { IsFaultTold result (E.contents errors.old) (E.contents errors.new) }
{
    match outcome {
        Outcome::Conflict(text) => match write_text(output, text) {
            Ok(()) => 1,
            Err(fault) => report(errors, fault),
        },
        Outcome::Answer(text) => match write_text(output, text) {
            Ok(()) => 0,
            Err(fault) => report(errors, fault),
        },
    }
}

/// Writes the text of a fault as far as the stream takes it, and returns the status.
fn report<E: Write>(errors: &mut E, fault: Fault) -> u8
    ensures status { result ≡ status_of fault }
    ensures text { AppendsFront (E.contents errors.old) (E.contents errors.new) (fault_text_of fault) }
{
    match fault {
        Fault::BadStatement(line) => {
            report_line(errors, line);
            2
        }
        Fault::UnreadableInput => {
            write_front(errors, b"resolve: cannot read input\n");
            3
        }
        Fault::UnwritableOutput => {
            write_front(errors, b"resolve: cannot write output\n");
            3
        }
        Fault::Exhausted(e) => {
            write_front(errors, fault_text(e).as_bytes());
            4
        }
    }
}

/// Writes the text of a bad statement in this line.
fn report_line<E: Write>(errors: &mut E, line: usize)
    ensures { AppendsFront (E.contents errors.old) (E.contents errors.new) (bad_text line) }
{
    let mut number = Buffer::new();
    if !write_front(errors, b"resolve: line ") {
        return;
    }
    if !write_front(errors, number.format(line).as_bytes()) {
        return;
    }
    write_front(errors, b": bad statement\n");
}

/// Writes a text up to the first failure, and returns whether it was written whole. Interrupted writes are tried again.
fn write_front<E: Write>(errors: &mut E, text: &[u8]) -> bool
    ensures { MatchBool result (Appends (E.contents errors.old) (E.contents errors.new) text.now)
        (AppendsFront (E.contents errors.old) (E.contents errors.new) text.now) }
{
    let mut rest = text;
    for _ in 0..MOST_WRITES {
        if rest.is_empty() {
            return true;
        }
        match errors.write(rest) {
            Ok(0) => return false,
            Ok(count) => rest = &rest[count..],
            Err(e) => {
                if e.kind() != io::ErrorKind::Interrupted {
                    return false;
                }
            }
        }
    }
    false
}

/// Writes a whole text.
fn write_text<O: Write>(output: &mut O, text: &str) -> Result<(), Fault>
    ensures fault { IfErr result (λ fault. fault ≡ Fault.UnwritableOutput) }
    ensures written { OnOk result (Appends (O.contents output.old) (O.contents output.new) text.now) }
{
    match output.write_all(text.as_bytes()) {
        Ok(()) => match output.flush() {
            Ok(()) => Ok(()),
            Err(_) => Err(Fault::UnwritableOutput),
        },
        Err(_) => Err(Fault::UnwritableOutput),
    }
}

fn read_input<R: Read + Drop>(alloc: Global, mut input: R) -> Result<Vec<u8>, Fault>
    ensures bytes { (bytes : List ℕ) → R.remaining input ≡ Some bytes → IfOk result (λ read. read.items ≡ bytes) }
    ensures fault { (bytes : List ℕ) → IfErr result (IsFaultTo bytes) }
{
    let mut bytes = Vec::new(alloc);
    match input.read_to_end(&mut bytes) {
        Ok(_) => Ok(bytes),
        Err(e) => {
            if e.kind() == io::ErrorKind::OutOfMemory {
                return Err(Fault::Exhausted(Exhausted::Memory));
            }
            Err(Fault::UnreadableInput)
        }
    }
}

/// Returns the outcome of an input.
fn answer<R: Read + Drop>(alloc: Global, input: R) -> Result<Outcome, Fault>
    ensures { (bytes : List ℕ) → R.remaining input ≡ Some bytes → IsToldTo bytes result }
{
    match read_all(alloc, input) {
        Ok(request) => solve_request(alloc, request),
        Err(fault) => Err(fault),
    }
}

/// Reads the statements of an input, and frees its text, which leaves that memory to the solver.
///
/// The buffer is shrunk first. After a large block is freed, the C library's allocator takes blocks of that size from its heap, where a list
/// that grows is copied and leaves a hole. (`read_request` does the same with the words that it knows.)
fn read_all<R: Read + Drop>(alloc: Global, input: R) -> Result<Request, Fault>
    ensures { (bytes : List ℕ) → R.remaining input ≡ Some bytes → IsReadTo bytes result }
{
    let mut bytes = match read_input(alloc, input) {
        Ok(bytes) => bytes,
        Err(fault) => return Err(fault),
    };
    let request = read_request(alloc, &bytes);
    bytes.clear();
    bytes.shrink_to(SMALL_BLOCK);
    drop(bytes);
    Ok(request?)
}

/// Returns the outcome of a request.
///
/// The solver's memory is not freed, because the program ends.
fn solve_request(alloc: Global, request: Request) -> Result<Outcome, Fault>
    ensures outcome { IfOk result (IsOutcomeIn (input_in request)) }
    ensures fault { (bytes : List ℕ) → IfErr result (IsFaultTo bytes) }
{
    let problem = Problem::new()
        .requirements(request.requirements)
        .constraints(request.constraints)
        .soft_list(request.soft_requirements);
    let mut solver = Solver::new(alloc, request.catalog);
    let answered = solver.solve(problem);
    let outcome = outcome_of(alloc, &solver, &answered);
    drop(answered);
    mem::forget(solver);
    outcome
}

/// Returns the outcome of a solver's answer.
fn outcome_of(
    alloc: Global,
    solver: &Solver<Catalog>,
    answered: &Result<Vec<SolvableId>, UnsolvableOrCancelled<Catalog>>,
) -> Result<Outcome, Fault>
    ensures outcome { (input : Input) → tables_in (provider_in solver.now) ≡ input.tables → IsSolved input answered.now → IfOk result (IsOutcomeIn input) }
    ensures fault { (bytes : List ℕ) → IfErr result (IsFaultTo bytes) }
{
    match answered {
        Ok(chosen) => Ok(Outcome::Answer(answer_text(alloc, solver.provider(), chosen)?)),
        Err(why) => refusal_of(solver, why),
    }
}

/// Returns the outcome of a call that gave no answer.
fn refusal_of(
    solver: &Solver<Catalog>,
    why: &UnsolvableOrCancelled<Catalog>,
) -> Result<Outcome, Fault>
    ensures outcome { (input : Input) → tables_in (provider_in solver.now) ≡ input.tables → ExplainsConflict input why.now → IfOk result (IsOutcomeIn input) }
    ensures fault { (bytes : List ℕ) → IfErr result (IsFaultTo bytes) }
{
    match why {
        UnsolvableOrCancelled::Unsolvable(conflict) => match conflict_text(solver, conflict) {
            Ok(text) => Ok(Outcome::Conflict(text)),
            Err(fault) => Err(fault),
        },
        UnsolvableOrCancelled::Exhausted(e) => Err(Fault::Exhausted(*e)),
        UnsolvableOrCancelled::Cancelled(value) => match *value {},
    }
}

/// Returns the message of a conflict.
fn conflict_text(
    solver: &Solver<Catalog>,
    conflict: &Conflict<NameId, SolvableId>,
) -> Result<String, Fault>
    ensures text { IfOk result (λ text. string_bytes text ≡ told (tables_in (provider_in solver.now)) (rules_in conflict.now)) }
    ensures fault { (bytes : List ℕ) → IfErr result (IsFaultTo bytes) }
{
    let message = conflict.display_user_friendly(solver)?;
    let text = message.text();
    drop(message);
    Ok(text?)
}

#[cfg(test)]
mod tests;
