//! Statements, one on each line.

ghost use Rattle.std.specs.Prelude.{◌≡◌, ◌≢◌, ◌==◌, ◌<◌, ◌↔◌, None, IfOk, IfErr, IfNone, IfSome, length, not};
ghost use Rattle.std.specs.List.{find};
ghost use Rattle.resolver_clause_store.specs.declared.data.Exhausted.TheVariants.{Memory};
ghost use Rattle.resolve.specs.declared.statement.LineError.TheVariants.{Exhausted as RanOut};
ghost use Rattle.resolve.specs.Statements.{StatesNothing};
ghost use Rattle.std.specs.Prelude.{[], ℕ, List, ◌∷◌, IsTrue, MatchOption, codes, map};
ghost use Rattle.resolve.specs.Said.{Named, Wanted};
ghost use Rattle.std.specs.Str.{IsUtf8};
ghost use Rattle.resolve.specs.LineWords.{after_word, from_word};
ghost use Rattle.resolve.specs.Spelling.{Names, Wants, without_end};
ghost use Rattle.resolve.specs.Unions.{ReadsUnion, RefusesUnion, wanted_of};
ghost use Rattle.resolve.specs.WordsView.{line_left, words_left};
ghost use Rattle.resolve.specs.StatementsSaid.{IsSolvableWithReason, Reads, ReadsAs, ReadsIf, ReadsNeed, Refuses, RefusesIf, RefusesNeed};
ghost use Rattle.resolve.specs.StatementsSaid.{StatesAs, UnionEnds, named_of, spelled};

use crate::condition::{ConditionStep, parse_condition};
use crate::words::{SolvableText, Spec, Words, parse_solvable, parse_spec, without_spaces};
use resolver_clause_store::Exhausted;
use std::alloc::{AllocError, AllocFailed, Global};
use std::str;

/// The statement of a line. A condition is in postfix order, and empty if there is none.
#[derive(PartialEq, Eq, Drop)]
pub enum Statement<'a> {
    /// The version exists and is a candidate of its package.
    Package(SolvableText<'a>),

    /// The solvable requires a candidate of the union, if the condition holds.
    Requires {
        solvable: SolvableText<'a>,
        union: Vec<Spec<'a>>,
        condition: Vec<ConditionStep<'a>>,
    },

    /// The solvable allows only these versions of a package.
    Constrains {
        solvable: SolvableText<'a>,
        spec: Spec<'a>,
    },

    /// The dependencies of the solvable are unknown.
    Unknown {
        solvable: SolvableText<'a>,
        reason: &'a str,
    },

    /// The solvable is favored in its package.
    Favor(SolvableText<'a>),

    /// The package of the solvable is locked to it.
    Lock(SolvableText<'a>),

    /// The solvable is excluded.
    Exclude {
        solvable: SolvableText<'a>,
        reason: &'a str,
    },

    /// The problem requires a candidate of the union, if the condition holds.
    Require {
        union: Vec<Spec<'a>>,
        condition: Vec<ConditionStep<'a>>,
    },

    /// The problem allows only these versions of a package.
    Constrain(Spec<'a>),

    /// The problem has this solvable as a soft requirement.
    Soft(SolvableText<'a>),

    /// The problem has these versions as a soft requirement.
    SoftMatching(Spec<'a>),
}

/// Why a line has no statement.
#[derive(Clone, Copy, Debug, PartialEq, Eq)]
pub enum LineError {
    /// The line has the form of no statement.
    Bad,

    /// Memory was refused.
    Exhausted(Exhausted),
}

impl From<AllocError> for LineError {
    ghost from_gives = { λ _ e. e ≡ RanOut Memory };

    fn from(_e: AllocError) -> LineError {
        LineError::Exhausted(Exhausted::Memory)
    }
}

impl<T: Drop> From<AllocFailed<T>> for LineError {
    ghost from_gives = { λ _ e. e ≡ RanOut Memory };

    fn from(e: AllocFailed<T>) -> LineError {
        LineError::from(AllocError::from(e))
    }
}

/// Parses a line without its end.
///
/// A line states nothing if it has only spaces, or if its first byte other than a space is `#`.
pub fn parse_line<'a>(alloc: Global, line: &'a [u8]) -> Result<Option<Statement<'a>>, LineError>
    ensures skipped { (result ≡ Ok None) ↔ StatesNothing line.now }
    ensures says { IfOk result (λ statement. IfSome statement (Reads line.now)) }
    ensures bad { IfErr result (Refuses line.now) }
{
    match first_byte(line) {
        None | Some(b'#') => Ok(None),
        Some(_) => Ok(Some(parse_statement(alloc, Words::new(line))?)),
    }
}

/// Returns the first byte other than a space.
fn first_byte(line: &[u8]) -> Option<u8>
    ensures { result ≡ find (λ byte. not (byte == 32)) line.now }
{
    line.iter().copied().find(|byte| *byte != b' ')
}

/// The first word of a statement.
#[derive(Clone, Copy)]
enum Keyword {
    Package,
    Requires,
    Constrains,
    Unknown,
    Favor,
    Lock,
    Exclude,
    Require,
    Constrain,
    Soft,
}

fn keyword_of(word: &[u8]) -> Option<Keyword>
    ensures { MatchOption result ((keyword : Keyword) → word.now ≢ spelled keyword) (λ keyword. word.now ≡ spelled keyword) }
{
    match word {
        b"package" => Some(Keyword::Package),
        b"requires" => Some(Keyword::Requires),
        b"constrains" => Some(Keyword::Constrains),
        b"unknown" => Some(Keyword::Unknown),
        b"favor" => Some(Keyword::Favor),
        b"lock" => Some(Keyword::Lock),
        b"exclude" => Some(Keyword::Exclude),
        b"require" => Some(Keyword::Require),
        b"constrain" => Some(Keyword::Constrain),
        b"soft" => Some(Keyword::Soft),
        _ => None,
    }
}

/// Parses a line that states something. A reason that is not UTF-8 is bad.
fn parse_statement<'a>(alloc: Global, mut words: Words<'a>) -> Result<Statement<'a>, LineError>
    ensures says { IfOk result (Reads (line_left words.entry)) }
    ensures bad { IfErr result (Refuses (line_left words.entry)) }
{
    let Some(word) = words.take_word() else {
        return Err(LineError::Bad);
    };
    let Some(keyword) = keyword_of(word) else {
        return Err(LineError::Bad);
    };
    parse_parts(alloc, keyword, words)
}

/// Parses the words after the keyword of a statement.
fn parse_parts<'a>(
    alloc: Global,
    keyword: Keyword,
    words: Words<'a>,
) -> Result<Statement<'a>, LineError>
    ensures { ReadsAs (spelled keyword) (line_left words.entry) result }
{
    match keyword {
        Keyword::Require => parse_require(alloc, words),
        Keyword::Requires => parse_requires(alloc, words),
        Keyword::Package => parse_package(words).ok_or(LineError::Bad),
        Keyword::Constrains => parse_constrains(words).ok_or(LineError::Bad),
        Keyword::Unknown => parse_unknown(words).ok_or(LineError::Bad),
        Keyword::Favor => parse_favor(words).ok_or(LineError::Bad),
        Keyword::Lock => parse_lock(words).ok_or(LineError::Bad),
        Keyword::Exclude => parse_exclude(words).ok_or(LineError::Bad),
        Keyword::Constrain => parse_constrain(words).ok_or(LineError::Bad),
        Keyword::Soft => parse_soft(words).ok_or(LineError::Bad),
    }
}

fn parse_require<'a>(alloc: Global, words: Words<'a>) -> Result<Statement<'a>, LineError>
    ensures { ReadsAs (codes "require") (line_left words.entry) result }
{
    match parse_requirement(alloc, words) {
        Ok((union, condition)) => Ok(Statement::Require { union, condition }),
        Err(e) => Err(e),
    }
}

fn parse_requires<'a>(alloc: Global, mut words: Words<'a>) -> Result<Statement<'a>, LineError>
    ensures { ReadsAs (codes "requires") (line_left words.entry) result }
{
    let Some(solvable) = next_solvable(&mut words) else {
        return Err(LineError::Bad);
    };
    match parse_requirement(alloc, words) {
        Ok((union, condition)) => Ok(Statement::Requires {
            solvable,
            union,
            condition,
        }),
        Err(e) => Err(e),
    }
}

fn parse_package(words: Words<'_>) -> Option<Statement<'_>>
    ensures { StatesAs (codes "package") (line_left words.entry) result }
{
    let Some(solvable) = last_solvable(words) else {
        return None;
    };
    Some(Statement::Package(solvable))
}

fn parse_favor(words: Words<'_>) -> Option<Statement<'_>>
    ensures { StatesAs (codes "favor") (line_left words.entry) result }
{
    let Some(solvable) = last_solvable(words) else {
        return None;
    };
    Some(Statement::Favor(solvable))
}

fn parse_lock(words: Words<'_>) -> Option<Statement<'_>>
    ensures { StatesAs (codes "lock") (line_left words.entry) result }
{
    let Some(solvable) = last_solvable(words) else {
        return None;
    };
    Some(Statement::Lock(solvable))
}

fn parse_constrain(words: Words<'_>) -> Option<Statement<'_>>
    ensures { StatesAs (codes "constrain") (line_left words.entry) result }
{
    let Some(spec) = last_spec(words) else {
        return None;
    };
    Some(Statement::Constrain(spec))
}

fn parse_constrains(mut words: Words<'_>) -> Option<Statement<'_>>
    ensures { StatesAs (codes "constrains") (line_left words.entry) result }
{
    let Some(solvable) = next_solvable(&mut words) else {
        return None;
    };
    let Some(spec) = last_spec(words) else {
        return None;
    };
    Some(Statement::Constrains { solvable, spec })
}

/// Parses the last word as a solvable, or else as a spec.
fn parse_soft(words: Words<'_>) -> Option<Statement<'_>>
    ensures { StatesAs (codes "soft") (line_left words.entry) result }
{
    let Some(word) = last_word(words) else {
        return None;
    };
    if let Some(solvable) = parse_solvable(word) {
        return Some(Statement::Soft(solvable));
    }
    let Some(spec) = parse_spec(word) else {
        return None;
    };
    Some(Statement::SoftMatching(spec))
}

/// Returns the next word, if it is the last word.
fn last_word(mut words: Words<'_>) -> Option<&[u8]>
    ensures { MatchOption result ((word : List ℕ) → words_left words.entry ≢ word ∷ []) (λ word. words_left words.entry ≡ word.now ∷ []) }
{
    let Some(word) = words.take_word() else {
        return None;
    };
    match words.take_word() {
        Some(_) => None,
        None => Some(word),
    }
}

fn parse_unknown(words: Words<'_>) -> Option<Statement<'_>>
    ensures { StatesAs (codes "unknown") (line_left words.entry) result }
{
    let Some((solvable, reason)) = parse_reasoned(words) else {
        return None;
    };
    Some(Statement::Unknown { solvable, reason })
}

fn parse_exclude(words: Words<'_>) -> Option<Statement<'_>>
    ensures { StatesAs (codes "exclude") (line_left words.entry) result }
{
    let Some((solvable, reason)) = parse_reasoned(words) else {
        return None;
    };
    Some(Statement::Exclude { solvable, reason })
}

/// Parses a solvable, and the rest of the line as a reason.
fn parse_reasoned(mut words: Words<'_>) -> Option<(SolvableText<'_>, &str)>
    ensures read { IfSome result (λ parts. IsSolvableWithReason (line_left words.entry) (named_of parts.0) parts.1.now) }
    ensures none { IfNone result ((it : Named) (reason : List ℕ) → IsSolvableWithReason (line_left words.entry) it reason → ⊥) }
{
    let Some(solvable) = next_solvable(&mut words) else {
        return None;
    };
    let Some(reason) = parse_reason(words.rest()) else {
        return None;
    };
    Some((solvable, reason))
}

fn next_solvable<'a>(words: &mut Words<'a>) -> Option<SolvableText<'a>>
    ensures read { IfSome result (λ solvable. (word : List ℕ) × (words_left words.old ≡ word ∷ words_left words.new) × Names word (named_of solvable)) }
    ensures none { IfNone result ((word : List ℕ) (more : List (List ℕ)) (it : Named) → words_left words.old ≡ word ∷ more → Names word it → ⊥) }
    ensures rest { IfSome result (λ _. line_left words.new ≡ after_word (line_left words.old)) }
{
    let Some(word) = words.take_word() else {
        return None;
    };
    parse_solvable(word)
}

/// Parses the next word as a solvable, if it is the last word.
fn last_solvable(mut words: Words<'_>) -> Option<SolvableText<'_>>
    ensures read { IfSome result (λ solvable. (word : List ℕ) × (words_left words.entry ≡ word ∷ []) × Names word (named_of solvable)) }
    ensures none { IfNone result ((word : List ℕ) (it : Named) → words_left words.entry ≡ word ∷ [] → Names word it → ⊥) }
{
    let Some(solvable) = next_solvable(&mut words) else {
        return None;
    };
    match words.take_word() {
        Some(_) => None,
        None => Some(solvable),
    }
}

/// Parses the next word as a spec, if it is the last word.
fn last_spec(mut words: Words<'_>) -> Option<Spec<'_>>
    ensures read { IfSome result (λ spec. (word : List ℕ) × (words_left words.entry ≡ word ∷ []) × Wants word (wanted_of spec)) }
    ensures none { IfNone result ((word : List ℕ) (it : Wanted) → words_left words.entry ≡ word ∷ [] → Wants word it → ⊥) }
{
    let Ok(spec) = next_spec(&mut words) else {
        return None;
    };
    match words.take_word() {
        Some(_) => None,
        None => Some(spec),
    }
}

/// Parses a reason: a text without the spaces around it, which is not empty.
fn parse_reason(text: &[u8]) -> Option<&str>
    ensures read { IfSome result (λ reason. (reason.now ≡ without_end (from_word text.now)) × (0 < length reason.now) × IsUtf8 reason.now) }
    ensures none { IfNone result (0 < length (without_end (from_word text.now)) → IsUtf8 (without_end (from_word text.now)) → ⊥) }
{
    let reason = without_spaces_around(text);
    if reason.is_empty() {
        return None;
    }
    match str::from_utf8(reason) {
        Ok(reason) => Some(reason),
        Err(_) => None,
    }
}

/// Returns a text without the spaces before and behind it.
fn without_spaces_around(text: &[u8]) -> &[u8]
    ensures { result.now ≡ without_end (from_word text.now) }
{
    let from = without_spaces(text);
    let mut length = from.len();
    while length > 0 && from[length - 1] == b' ' {
        length -= 1;
    }
    &from[..length]
}

/// Parses the rest of a line as a union and an optional condition.
fn parse_requirement<'a>(
    alloc: Global,
    mut words: Words<'a>,
) -> Result<(Vec<Spec<'a>>, Vec<ConditionStep<'a>>), LineError>
    ensures read { IfOk result (λ parts. ReadsNeed (words_left words.entry) parts.0.items parts.1.items) }
    ensures bad { IfErr result (RefusesNeed (words_left words.entry)) }
{
    let mut union = Vec::new(alloc);
    let condition = match parse_union(&mut words, &mut union) {
        Ok(word) => parse_if(alloc, word, words),
        Err(e) => Err(e),
    };
    match condition {
        Ok(condition) => Ok((union, condition)),
        Err(e) => {
            drop(union);
            Err(e)
        }
    }
}

/// Parses specs with `|` between them. Returns the word after them, if there is one.
fn parse_union<'a>(
    words: &mut Words<'a>,
    union: &mut Vec<Spec<'a>>,
) -> Result<Option<&'a [u8]>, LineError>
    requires { union.old.items ≡ [] }
    ensures read { IfOk result (λ word. ReadsUnion (words_left words.old) (words_left words.new) word (map wanted_of union.new.items)) }
    ensures bad { IfErr result (RefusesUnion (words_left words.old)) }
    ensures ends { IfOk result (λ word. UnionEnds word (words_left words.new)) }
{
    loop {
        let spec = match next_spec(words) {
            Ok(spec) => spec,
            Err(e) => return Err(e),
        };
        union.push(spec)?;
        let Some(word) = words.take_word() else {
            return Ok(None);
        };
        if !is_bar(word) {
            return Ok(Some(word));
        }
    }
}

/// Returns whether a word is a bar.
fn is_bar(word: &[u8]) -> bool
    ensures { IsTrue result ↔ (word.now ≡ codes "|") }
{
    match word {
        [b'|'] => true,
        _ => false,
    }
}

/// Parses the next word as a spec.
fn next_spec<'a>(words: &mut Words<'a>) -> Result<Spec<'a>, LineError>
    ensures read { IfOk result (λ spec. (word : List ℕ) × (words_left words.old ≡ word ∷ words_left words.new) × Wants word (wanted_of spec)) }
    ensures bad { IfErr result (λ e. (e ≡ LineError.Bad) × ((word : List ℕ) (more : List (List ℕ)) (it : Wanted) → words_left words.old ≡ word ∷ more →
        Wants word it → ⊥)) }
{
    let Some(word) = words.take_word() else {
        return Err(LineError::Bad);
    };
    match parse_spec(word) {
        Some(spec) => Ok(spec),
        None => Err(LineError::Bad),
    }
}

/// Parses `if` and the condition after it, unless the line ends.
fn parse_if<'a>(
    alloc: Global,
    word: Option<&[u8]>,
    words: Words<'a>,
) -> Result<Vec<ConditionStep<'a>>, LineError>
    ensures read { IfOk result (λ steps. ReadsIf word.entry (words_left words.entry) steps.items) }
    ensures bad { IfErr result (RefusesIf word.entry (words_left words.entry)) }
{
    let Some(word) = word else {
        return Ok(Vec::new(alloc));
    };
    if !is_if(word) {
        return Err(LineError::Bad);
    }
    parse_condition(alloc, words)
}

/// Returns whether a word is `if`.
fn is_if(word: &[u8]) -> bool
    ensures { IsTrue result ↔ (word.now ≡ codes "if") }
{
    match word {
        [b'i', b'f'] => true,
        _ => false,
    }
}
