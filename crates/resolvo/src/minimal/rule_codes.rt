//! Codes that distinguish the instances that rules list.

ghost use Rattle.std.specs.Prelude.{◌≡◌, ◌≤◌, IfOk, OnOk, Some, length, slice_get};
ghost use Rattle.std.specs.List.{AllZip};
ghost use Rattle.resolver_clause_store.specs.Laws.{IsIdentity};
ghost use Rattle.resolver_clause_store.specs.Variables.{AreDistinct, Keeps};
ghost use Rattle.resolvo.specs.AddedLines.{AreCodesOf};
ghost use Rattle.resolvo.specs.RuleClauses.{HasCode};

use indexmap::IndexSet;
use resolver_clause_store::{Exhausted, Rule, append, place_of};
use resolver_encoding::digit_count;
use std::alloc::Global;
use std::hash::Hash;

/// The codes of a list of rules.
#[derive(Drop)]
pub(crate) struct Codes {
    /// For an instance, its code; for any other rule, any number.
    pub(crate) codes: Vec<usize>,
    /// How many bits a code has.
    pub(crate) width: u32,
}

/// Returns the place of a member, which is appended if it is not there yet.
pub(crate) fn place_among<T: Copy + Eq + Hash + Drop>(
    set: &mut IndexSet<T>,
    member: T,
) -> Result<usize, Exhausted>
    requires { IsIdentity T.eq }
    ensures keeps { OnOk result (Keeps set.old.keys set.new.keys) }
    ensures here { IfOk result (λ place. slice_get set.new.keys place ≡ Some member) }
{
    match place_of(set, &member) {
        Some(place) => Ok(place),
        None => {
            let place = set.len();
            append(set, member)?;
            Ok(place)
        }
    }
}

/// Returns the number of members.
pub(crate) fn count_of<T: Copy + Eq + Hash + Drop>(set: &IndexSet<T>) -> usize
    requires { IsIdentity T.eq }
    ensures len { result ≡ length set.now.keys }
    ensures distinct { AreDistinct set.now.keys }
{
    set.len()
}

/// Returns the code of a rule: for an instance, its place.
fn code_of<N, S: Copy + Eq + Hash + Drop>(
    instances: &mut IndexSet<S>,
    rule: &Rule<N, S>,
) -> Result<usize, Exhausted>
    requires { IsIdentity S.eq }
    ensures keeps { OnOk result (Keeps instances.old.keys instances.new.keys) }
    ensures coded { IfOk result (λ code. HasCode instances.new.keys rule.now code) }
{
    match rule {
        Rule::OnePerPackage { instance, .. } => {
            let code = place_among(instances, *instance)?;
            Ok(code)
        }
        Rule::Requires { .. } => Ok(0),
        Rule::Constrains { .. } => Ok(0),
        Rule::Lock { .. } => Ok(0),
        Rule::Excluded { .. } => Ok(0),
    }
}

/// Returns the codes of the rules, and collects the instances that they list.
fn codes_among<N, S: Copy + Eq + Hash + Drop>(
    alloc: Global,
    instances: &mut IndexSet<S>,
    rules: &[Rule<N, S>],
) -> Result<Vec<usize>, Exhausted>
    requires { IsIdentity S.eq }
    ensures { IfOk result (λ codes. AllZip (HasCode instances.new.keys) rules.now codes.items) }
{
    let mut codes = Vec::new(alloc);
    for rule in rules {
        codes.push(code_of(instances, rule)?)?;
    }
    Ok(codes)
}

/// Returns the codes of the rules.
pub(crate) fn codes_of<N, S: Copy + Eq + Hash + Drop>(
    alloc: Global,
    rules: &[Rule<N, S>],
) -> Result<Codes, Exhausted>
    requires { IsIdentity S.eq }
    ensures codes { IfOk result (λ made. AreCodesOf rules.now made.codes.items made.width) }
    ensures small { IfOk result (λ made. made.width ≤ 64) }
{
    let mut instances = IndexSet::new(alloc);
    let codes = codes_among(alloc, &mut instances, rules)?;
    let width = digit_count(count_of(&instances));
    drop(instances);
    Ok(Codes { codes, width })
}
