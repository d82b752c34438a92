//! A solvable that no package lists, and packages without end.

ghost use Rattle.std.specs.Prelude.{◌≡◌, IfErr, IfOk, refl};
ghost use Rattle.resolver_clause_store.specs.Laws.{numbers_are_values};
ghost use Rattle.resolvo.specs.ChainProvider.{chain_ids_lawful, chain_packages_lawful, chain_universe, required_below, candidates_in};
ghost use Rattle.resolvo.specs.Solvers.{IsSound, provider_in};

use crate::problem::Problem;
use crate::solver::{Solver, UnsolvableOrCancelled};
use resolver_clause_store::{
    Candidates, Condition, ConditionId, ConditionalRequirement, Dependencies, DependencyProvider,
    Exhausted, HintDependenciesAvailable, Interner, KnownDependencies, Requirement, StringId,
    VersionSetId, VersionSetUnionId,
};
use std::alloc::{AllocError, Global};
use std::test::Fail;

/// A provider of packages in a row: package n, below 4294967295, has the candidate n, after the candidate 2^32 + n if its
/// packages have two. They are made when the package is asked, and version set n has both.
#[derive(Drop)]
struct Chain {
    alloc: Global,
    /// Each candidate below this number requires the version set of the next package.
    reach: u32,
    /// Whether each package has two candidates.
    paired: bool,
}

/// The number of packages.
const PACKAGES: u32 = 4_294_967_295;

/// A solvable with the name of package 0, which no package lists.
const STRANGER: u64 = 4_294_967_295;

/// The newer candidate of package 0.
const NEWER: u64 = 4_294_967_296;

/// Returns the requirements of a solvable.
fn required_by(
    alloc: Global,
    reach: u32,
    solvable: u64,
) -> Result<Vec<ConditionalRequirement>, Exhausted>
    ensures value { IfOk result (λ required. required.items ≡ required_below reach solvable) }
    ensures memory { IfErr result (λ e. e ≡ Exhausted.Memory) }
{
    if solvable < u64::from(reach) {
        let next = ConditionalRequirement {
            condition: None,
            requirement: Requirement::Single(VersionSetId(solvable as u32 + 1)),
        };
        return Ok(Vec::from_array(alloc, [next])?);
    }
    Ok(Vec::new(alloc))
}

/// Returns the candidates of a package.
fn candidates_of(alloc: Global, paired: bool, name: u32) -> Result<Vec<u64>, Exhausted>
    ensures value { IfOk result (λ candidates. candidates.items ≡ candidates_in paired name) }
    ensures memory { IfErr result (λ e. e ≡ Exhausted.Memory) }
{
    let older = u64::from(name);
    if paired {
        return Ok(Vec::from_array(alloc, [NEWER + older, older])?);
    }
    Ok(Vec::from_array(alloc, [older])?)
}

impl Interner for Chain {
    type NameId = u32;

    type SolvableId = u64;

    ghost universe = { λ it. chain_universe it.reach it.paired };

    ghost lawful_ids = { λ it. chain_ids_lawful it.reach it.paired };

    ghost names_are_values = { numbers_are_values };

    ghost solvables_are_values = { numbers_are_values };

    ghost solvables_compare = { λ it. refl };

    fn solvable_name(&self, solvable: u64) -> u32 {
        let place = solvable % 4_294_967_296;
        if place < 4_294_967_295 {
            place as u32
        } else {
            0
        }
    }

    fn version_set_name(&self, version_set: VersionSetId) -> u32 {
        version_set.0
    }

    fn version_sets_in_union(&self, _version_set_union: VersionSetUnionId) -> &[VersionSetId] {
        &[]
    }

    fn resolve_condition(&self, condition: ConditionId) -> Condition {
        Condition::Requirement(VersionSetId(condition.0))
    }

    fn display_name(&self, _name: u32, _out: &mut String) -> Result<(), Exhausted> {
        Ok(())
    }

    fn display_version_set(
        &self,
        _version_set: VersionSetId,
        _out: &mut String,
    ) -> Result<(), Exhausted> {
        Ok(())
    }

    fn display_string(&self, _string: StringId, _out: &mut String) -> Result<(), Exhausted> {
        Ok(())
    }

    fn display_merged_solvables(
        &self,
        _solvables: &[u64],
        _out: &mut String,
    ) -> Result<(), Exhausted> {
        Ok(())
    }
}

impl DependencyProvider for Chain {
    type Cancel = u8;

    ghost may_cancel = { λ _ value. value ≡ 7 };

    ghost lawful_packages = { λ it. chain_packages_lawful it.reach it.paired };

    fn get_candidates(&self, name: u32) -> Result<Option<Candidates<u64>>, Exhausted> {
        if name >= PACKAGES {
            return Ok(None);
        }
        Ok(Some(Candidates {
            candidates: candidates_of(self.alloc, self.paired, name)?,
            favored: None,
            locked: None,
            hint_dependencies_available: HintDependenciesAvailable::None,
            excluded: Vec::new(self.alloc),
        }))
    }

    fn get_dependencies(&self, solvable: u64) -> Result<Dependencies, Exhausted> {
        let requirements = required_by(self.alloc, self.reach, solvable)?;
        Ok(Dependencies::Known(KnownDependencies {
            requirements,
            constrains: Vec::new(self.alloc),
        }))
    }

    fn filter_candidates(
        &self,
        candidates: &[u64],
        version_set: VersionSetId,
        inverse: bool,
    ) -> Result<Vec<u64>, Exhausted> {
        let mut kept = Vec::new(self.alloc);
        for solvable in candidates {
            if (*solvable % 4_294_967_296 == u64::from(version_set.0)) != inverse {
                kept.push(*solvable)?;
            }
        }
        Ok(kept)
    }

    fn sort_candidates(&self, _candidates: &mut Vec<u64>) -> Result<(), Exhausted> {
        Ok(())
    }

    fn should_cancel_with_value(&self) -> Option<u8> {
        None
    }
}

/// The parts of a problem.
#[derive(Clone, Copy)]
struct Asked<'x> {
    required: &'x [ConditionalRequirement],
    constrained: &'x [VersionSetId],
    soft: &'x [u64],
}

/// The expected result of a problem.
#[derive(Clone, Copy)]
enum Wanted<'x> {
    /// The first solvables are chosen, and of these the second ones are exempt.
    Answer(&'x [u64], &'x [u64]),
    /// Ids run out.
    Ids,
}

/// The version set of package 0.
const FIRST: ConditionalRequirement = ConditionalRequirement {
    condition: None,
    requirement: Requirement::Single(VersionSetId(0)),
};

type Outcome = Result<Vec<u64>, UnsolvableOrCancelled<Chain>>;

fn is_answer(outcome: &Outcome, wanted: &[u64]) -> bool {
    match outcome {
        Ok(chosen) => chosen.as_slice() == wanted,
        Err(_) => false,
    }
}

fn is_wanted(solver: &Solver<Chain>, outcome: &Outcome, wanted: &Wanted<'_>) -> bool {
    match wanted {
        Wanted::Answer(chosen, exempt) => {
            is_answer(outcome, chosen) & (solver.exempt_solvables() == *exempt)
        }
        Wanted::Ids => matches!(
            outcome,
            Err(UnsolvableOrCancelled::Exhausted(Exhausted::Ids))
        ),
    }
}

/// Returns whether a problem with these parts has this result.
fn ends_with(
    solver: &mut Solver<Chain>,
    required: Vec<ConditionalRequirement>,
    constrained: Vec<VersionSetId>,
    soft: Vec<u64>,
    wanted: &Wanted<'_>,
) -> bool
    requires { IsSound (chain_universe (provider_in solver.old).reach (provider_in solver.old).paired) solver.old }
{
    let problem = Problem::new()
        .requirements(required)
        .constraints(constrained)
        .soft_requirements(soft.into_iter());
    let outcome = solver.solve(problem);
    is_wanted(solver, &outcome, wanted)
}

/// Returns whether the problem with these parts has this result.
fn solves(
    solver: &mut Solver<Chain>,
    asked: &Asked<'_>,
    wanted: &Wanted<'_>,
) -> Result<bool, AllocError>
    requires { IsSound (chain_universe (provider_in solver.old).reach (provider_in solver.old).paired) solver.old }
{
    let required = Vec::from_slice(solver.alloc, asked.required)?;
    let constrained = Vec::from_slice(solver.alloc, asked.constrained)?;
    let soft = Vec::from_slice(solver.alloc, asked.soft)?;
    Ok(ends_with(solver, required, constrained, soft, wanted))
}

/// The same with room for this many variables.
fn solves_within(
    solver: &mut Solver<Chain>,
    room: u16,
    asked: &Asked<'_>,
    wanted: &Wanted<'_>,
) -> Result<bool, AllocError>
    requires { IsSound (chain_universe (provider_in solver.old).reach (provider_in solver.old).paired) solver.old }
{
    solver.variable_limit = room as usize;
    solves(solver, asked, wanted)
}

/// Returns whether these solvables are chosen and these exempt, if no candidate requires anything.
fn chooses<'x>(
    alloc: Global,
    asked: Asked<'x>,
    chosen: &'x [u64],
    exempt: &'x [u64],
) -> Result<bool, AllocError> {
    let chain = Chain {
        alloc,
        reach: 0,
        paired: false,
    };
    let mut solver = Solver::new(alloc, chain);
    let is_right = solves(&mut solver, &asked, &Wanted::Answer(chosen, exempt));
    drop(solver);
    is_right
}

#[test]
fn a_soft_requirement_that_no_package_lists_is_exempt(rt: HostRuntime) -> Result<(), Fail> {
    let asked = Asked {
        required: &[],
        constrained: &[],
        soft: &[STRANGER],
    };
    assert!(rt; chooses(rt.alloc(), asked, &[STRANGER], &[STRANGER])?);
    Ok(())
}

#[test]
fn one_whose_package_was_asked_is_not_exempt(rt: HostRuntime) -> Result<(), Fail> {
    let asked = Asked {
        required: &[],
        constrained: &[VersionSetId(0)],
        soft: &[STRANGER],
    };
    assert!(rt; chooses(rt.alloc(), asked, &[STRANGER], &[])?);
    Ok(())
}

#[test]
fn one_beside_what_is_chosen_of_its_package_is_refused(rt: HostRuntime) -> Result<(), Fail> {
    let asked = Asked {
        required: &[FIRST],
        constrained: &[],
        soft: &[STRANGER],
    };
    assert!(rt; chooses(rt.alloc(), asked, &[0], &[])?);
    Ok(())
}

/// Returns whether the requirement of package 0 has this result in an endless universe, with room for fifty variables.
fn ends_in_endless(alloc: Global, paired: bool, wanted: &Wanted<'_>) -> Result<bool, AllocError> {
    let asked = Asked {
        required: &[FIRST],
        constrained: &[],
        soft: &[],
    };
    let chain = Chain {
        alloc,
        reach: PACKAGES,
        paired,
    };
    let mut solver = Solver::new(alloc, chain);
    let is_right = solves_within(&mut solver, 50, &asked, wanted);
    drop(solver);
    is_right
}

#[test]
fn an_endless_universe_runs_out_of_variables(rt: HostRuntime) -> Result<(), Fail> {
    assert!(rt; ends_in_endless(rt.alloc(), false, &Wanted::Ids)?);
    Ok(())
}

#[test]
fn an_endless_universe_is_read_as_far_as_it_is_needed(rt: HostRuntime) -> Result<(), Fail> {
    assert!(rt; ends_in_endless(rt.alloc(), true, &Wanted::Answer(&[NEWER], &[]))?);
    Ok(())
}
