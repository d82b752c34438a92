//! The candidates of each requirer: of the root and of each solvable.

ghost use Rattle.std.specs.Prelude.{◌≡◌, ◌++◌, IfOk, IfErr, OnOk};
ghost use Rattle.std.specs.HashMap.{get};
ghost use Rattle.resolver_report.specs.CandidateLists.{HasCandidateLists, candidates_for, root_candidates_of};
ghost use Rattle.resolver_report.specs.Listed.{optional_items};

use crate::listed::extend_at;
use resolver_clause_store::{By, Exhausted, Rule};
use std::alloc::Global;
use std::collections::HashMap;
use std::hash::Hash;

/// The candidates of the root's requirements, and those of each solvable that has requirements.
#[derive(Drop)]
pub struct CandidateLists<S: Eq + Hash> {
    pub(crate) by_root: Vec<S>,
    pub(crate) by_solvable: HashMap<S, Vec<S>>,
}

/// Appends the candidates of a `Requires` rule to the list of its requirer.
fn add_candidates<N, S: Copy + Eq + Hash + Drop>(
    alloc: Global,
    by_root: &mut Vec<S>,
    by_solvable: &mut HashMap<S, Vec<S>>,
    rule: &Rule<N, S>,
) -> Result<(), Exhausted>
    ensures root { OnOk result (by_root.new.items ≡ by_root.old.items ++ root_candidates_of rule.now) }
    ensures solvables { OnOk result ((s : S) →
        optional_items (get S.eq by_solvable.new s) ≡ optional_items (get S.eq by_solvable.old s) ++ candidates_for S.eq s rule.now) }
    ensures memory { IfErr result (λ e. e ≡ Exhausted.Memory) }
{
    match rule {
        Rule::Requires {
            by: By::Root,
            candidates,
            ..
        } => {
            by_root.extend_from_slice(candidates)?;
            Ok(())
        }
        Rule::Requires {
            by: By::Solvable(solvable),
            candidates,
            ..
        } => {
            extend_at(alloc, by_solvable, *solvable, candidates)?;
            Ok(())
        }
        Rule::Constrains { .. }
        | Rule::Lock { .. }
        | Rule::Excluded { .. }
        | Rule::OnePerPackage { .. } => Ok(()),
    }
}

/// Collects the candidates of all requirements by requirer.
pub fn candidates_by_requirer<N, S: Copy + Eq + Hash + Drop>(
    alloc: Global,
    rules: &[Rule<N, S>],
) -> Result<CandidateLists<S>, Exhausted>
    ensures value { IfOk result (HasCandidateLists S.eq rules.now) }
    ensures memory { IfErr result (λ e. e ≡ Exhausted.Memory) }
{
    let mut by_root = Vec::new(alloc);
    let mut by_solvable = HashMap::new(alloc);
    for rule in rules {
        add_candidates(alloc, &mut by_root, &mut by_solvable, rule)?;
    }
    Ok(CandidateLists {
        by_root,
        by_solvable,
    })
}
