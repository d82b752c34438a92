//! A solver for the problem of an input. One function owns it, and the tests see its results.

use super::super::{InputError, Request, read_request};
use super::random_problems::{RandomProblem, Soft};
use crate::catalog::Catalog;
use crate::ids::SolvableId;
use crate::words::parse_spec;
use resolvo::{Problem, SoftRequirement, Solver, UnsolvableOrCancelled, VersionSetId};
use std::alloc::Global;
use std::test::Fail;

/// An input, and soft requirements that replace its own.
#[derive(Clone, Copy)]
pub struct Asked<'x> {
    pub input: &'x str,
    pub soft: &'x [Soft],
}

impl<'x> Asked<'x> {
    /// Returns an input without soft requirements.
    pub fn new(input: &'x str) -> Asked<'x> {
        Asked { input, soft: &[] }
    }
}

/// The outcome of a call, and the counts of the solver after it.
#[derive(Drop)]
pub struct Solved {
    pub outcome: Result<Vec<SolvableId>, UnsolvableOrCancelled<Catalog>>,
    pub clauses: usize,
    pub deferred: usize,
    pub exempt: u32,
}

impl Solved {
    /// Returns the chosen set, if there is an answer.
    pub fn chosen(&self) -> Option<u32> {
        match &self.outcome {
            Ok(chosen) => Some(set_of(chosen)),
            Err(_) => None,
        }
    }
}

/// Returns the set of one place. A set of solvables is a number with a binary digit for each of the first 32.
pub fn digit(place: u32) -> u32 {
    1u32.wrapping_shl(place)
}

pub fn set_of(solvables: &[SolvableId]) -> u32 {
    let mut set = 0;
    for solvable in solvables {
        set |= digit(solvable.0);
    }
    set
}

pub fn request(alloc: Global, input: &str) -> Result<Request, Fail> {
    match read_request(alloc, input.as_bytes()) {
        Ok(request) => Ok(request),
        Err(e) => Err(Fail::from(if matches!(&e, InputError::Exhausted(_)) {
            "refused"
        } else {
            "a bad statement"
        })),
    }
}

/// Soft requirements: first solvables, and then a list of any kind.
#[derive(Drop)]
struct SoftParts {
    first: Vec<SolvableId>,
    list: Vec<SoftRequirement<SolvableId>>,
}

impl SoftParts {
    /// Adds a soft requirement. Solvables before the first version set are not in the list.
    fn add(&mut self, alloc: Global, request: &mut Request, soft: Soft) -> Result<(), Fail> {
        match soft {
            Soft::Solvable(place) => {
                if self.list.is_empty() {
                    self.first.push(SolvableId(place))?;
                } else {
                    let solvable = SoftRequirement::Solvable(SolvableId(place));
                    self.list.push(solvable)?;
                }
            }
            Soft::Versions { package, low, high } => {
                let name = RandomProblem::name(package);
                let spec = format!(in alloc; "{name}@{low}..{high}")?;
                let version_set = version_set(request, &spec)?;
                self.list.push(SoftRequirement::Matching(version_set))?;
            }
        }
        Ok(())
    }
}

fn version_set(request: &mut Request, spec: &str) -> Result<VersionSetId, Fail> {
    let Some(spec) = parse_spec(spec.as_bytes()) else {
        return Err(Fail::from("no spec"));
    };
    match request.version_set(spec) {
        Ok(version_set) => Ok(version_set),
        Err(_) => Err(Fail::from("refused")),
    }
}

/// Solves the problem of a request with these soft requirements.
fn solve_request(alloc: Global, request: Request, soft: SoftParts) -> Solved {
    let problem = Problem::new()
        .requirements(request.requirements)
        .constraints(request.constraints)
        .soft_list(soft.list)
        .soft_requirements(soft.first.into_iter());
    let mut solver = Solver::new(alloc, request.catalog);
    let outcome = solver.solve(problem);
    let solved = Solved {
        outcome,
        clauses: solver.clause_count(),
        deferred: solver.deferred_requirements_count(),
        exempt: set_of(solver.exempt_solvables()),
    };
    drop(solver);
    solved
}

pub fn solve(alloc: Global, asked: Asked<'_>) -> Result<Solved, Fail> {
    let mut request = request(alloc, asked.input)?;
    let mut parts = SoftParts {
        first: Vec::new(alloc),
        list: Vec::new(alloc),
    };
    for soft in asked.soft {
        parts.add(alloc, &mut request, *soft)?;
    }
    Ok(solve_request(alloc, request, parts))
}
