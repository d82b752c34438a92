//! Conditions, in postfix order.

ghost use Rattle.std.specs.Prelude.{◌≡◌, ◌≢◌, ◌↔◌, true, false, codes, [], List, None, Some, IsTrue, IfOk, IfErr, MatchOption, OnOk};
ghost use Rattle.resolve.specs.Signs.{sign_text};
ghost use Rattle.resolve.specs.declared.condition.Sign.{Sign};
ghost use Rattle.resolve.specs.Guards.{ReadsGuard, RefusesGuard};
ghost use Rattle.resolve.specs.WordsView.{words_left};

use crate::statement::LineError;
use crate::words::{Spec, Words, parse_spec};
use std::alloc::{AllocError, Global};

/// One step of a condition in postfix order: a spec is pushed, and an operator joins the two topmost parts.
#[derive(Clone, Copy, PartialEq, Eq)]
pub enum ConditionStep<'a> {
    Version(Spec<'a>),
    And,
    Or,
}

/// The pending operators of one pair of parentheses, or of the whole condition: those whose right part is not complete.
///
/// An operator is written out before one that binds no tighter becomes pending. So at most one of each kind is pending,
/// and the `and` is to the right of the `or`.
#[derive(Clone, Copy)]
struct PendingOperators {
    or: bool,
    and: bool,
}

impl PendingOperators {
    const NONE: PendingOperators = PendingOperators {
        or: false,
        and: false,
    };
}

/// A condition that is being read, from left to right.
#[derive(Drop)]
struct Reading<'a> {
    steps: Vec<ConditionStep<'a>>,
    pending: PendingOperators,
    /// The pending operators outside each open parenthesis, the innermost last.
    outside: Vec<PendingOperators>,
    /// Whether the next word has to be a spec or an opening parenthesis.
    wants_part: bool,
}

impl<'a> Reading<'a> {
    ghost use Rattle.resolve.specs.Readings.{EndsWithSteps, Level, RefusesEnd, RefusesWord, Shows, State, StepsTo, after_and, after_level, no_level, state};
    ghost use Rattle.resolve.specs.Said.{Guard};

    fn new(alloc: Global) -> Reading<'a>
        ensures { Shows result (state [] no_level None) }
    {
        Reading {
            steps: Vec::new(alloc),
            pending: PendingOperators::NONE,
            outside: Vec::new(alloc),
            wants_part: true,
        }
    }

    /// Writes out a pending `and`.
    fn join_and(&mut self) -> Result<(), AllocError>
        ensures { (outside : List Level) (here : Level) (g : Guard) → Shows self.old (state outside here (Some g)) →
            OnOk result (Shows self.new (after_and outside here g)) }
    {
        if self.pending.and {
            self.steps.push(ConditionStep::And)?;
            self.pending.and = false;
        }
        Ok(())
    }

    /// Writes out the pending operators inside the innermost parentheses.
    fn join_all(&mut self) -> Result<(), AllocError>
        ensures { (outside : List Level) (here : Level) (g : Guard) → Shows self.old (state outside here (Some g)) →
            OnOk result (Shows self.new (after_level outside here g)) }
    {
        self.join_and()?;
        if self.pending.or {
            self.steps.push(ConditionStep::Or)?;
            self.pending.or = false;
        }
        Ok(())
    }

    /// Reads a spec or an opening parenthesis.
    fn read_part(&mut self, word: &'a [u8]) -> Result<(), LineError>
        requires { self.old.wants_part ≡ true }
        ensures step { (s : State) → Shows self.old s → OnOk result (StepsTo s word.now self.new) }
        ensures bad { (s : State) → Shows self.old s → IfErr result (RefusesWord s word.now) }
    {
        if is_open(word) {
            self.outside.push(self.pending)?;
            self.pending = PendingOperators::NONE;
            return Ok(());
        }
        let Some(spec) = parse_spec(word) else {
            return Err(LineError::Bad);
        };
        self.steps.push(ConditionStep::Version(spec))?;
        self.wants_part = false;
        Ok(())
    }

    /// Reads an operator or a closing parenthesis.
    fn read_operator(&mut self, word: &[u8]) -> Result<(), LineError>
        requires { self.old.wants_part ≡ false }
        ensures step { (s : State) → Shows self.old s → OnOk result (StepsTo s word.now self.new) }
        ensures bad { (s : State) → Shows self.old s → IfErr result (RefusesWord s word.now) }
    {
        let Some(sign) = sign_of(word) else {
            return Err(LineError::Bad);
        };
        match sign {
            Sign::And => {
                self.join_and()?;
                self.pending.and = true;
                self.wants_part = true;
            }
            Sign::Or => {
                self.join_all()?;
                self.pending.or = true;
                self.wants_part = true;
            }
            Sign::Close => {
                self.join_all()?;
                let Some(pending) = self.outside.pop() else {
                    return Err(LineError::Bad);
                };
                self.pending = pending;
            }
        }
        Ok(())
    }

    fn read_word(&mut self, word: &'a [u8]) -> Result<(), LineError>
        ensures step { (s : State) → Shows self.old s → OnOk result (StepsTo s word.now self.new) }
        ensures bad { (s : State) → Shows self.old s → IfErr result (RefusesWord s word.now) }
    {
        if self.wants_part {
            self.read_part(word)
        } else {
            self.read_operator(word)
        }
    }

    fn finish(mut self) -> Result<Vec<ConditionStep<'a>>, LineError>
        ensures ends { (s : State) → Shows self.entry s → IfOk result (λ steps. EndsWithSteps s steps.items) }
        ensures bad { (s : State) → Shows self.entry s → IfErr result (RefusesEnd s) }
    {
        if self.wants_part || !self.outside.is_empty() {
            return Err(LineError::Bad);
        }
        self.join_all()?;
        Ok(self.steps)
    }
}

/// Returns whether a word is an opening parenthesis.
fn is_open(word: &[u8]) -> bool
    ensures { IsTrue result ↔ (word.now ≡ codes "(") }
{
    match word {
        b"(" => true,
        _ => false,
    }
}

/// What may follow a part of a condition.
#[derive(Clone, Copy)]
enum Sign {
    And,
    Or,
    Close,
}

fn sign_of(word: &[u8]) -> Option<Sign>
    ensures { MatchOption result ((sign : Sign) → word.now ≢ sign_text sign) (λ sign. word.now ≡ sign_text sign) }
{
    match word {
        b"and" => Some(Sign::And),
        b"or" => Some(Sign::Or),
        b")" => Some(Sign::Close),
        _ => None,
    }
}

/// Reads the rest of a line as a condition, and returns it in postfix order.
///
/// `and` binds tighter than `or`, and both group from the left.
pub fn parse_condition<'a>(
    alloc: Global,
    words: Words<'a>,
) -> Result<Vec<ConditionStep<'a>>, LineError>
    ensures guard { IfOk result (λ steps. ReadsGuard (words_left words.entry) steps.items) }
    ensures bad { IfErr result (RefusesGuard (words_left words.entry)) }
{
    let mut reading = Reading::new(alloc);
    for word in words {
        reading.read_word(word)?;
    }
    reading.finish()
}
