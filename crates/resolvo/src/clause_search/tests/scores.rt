//! Scores that grow with learnt clauses, and the decisions that they lead to.

ghost use Rattle.resolvo.specs.ClauseSearches.{IsConsistent};

use super::{Requirements, finishes, load_given, provider_of_nothing, slot_of};
use crate::clause_search::ClauseSearch;
use crate::test_provider::TestProvider;
use resolver_clause_store::{Activity, Clauses, Literal, Owner, Variable, clause};
use std::alloc::{AllocError, Global};
use std::test::Fail;

/// A package whose requirement has three candidates.
const WIDE: usize = 0;

/// A package whose requirement has two candidates, and comes later than that of `WIDE`.
const NARROW: usize = 1;

/// A package that no requirement has in the end.
const OTHER: usize = 2;

/// The packages whose candidates are in a learnt clause, and the number of such clauses, which are learnt one after the
/// other.
type Learnt<'x> = (&'x [usize], usize);

/// The result of a search over the clauses of two requirements.
#[derive(Clone, Copy, PartialEq, Eq)]
struct Seen {
    /// The number of clauses that it learnt, and the number of those with just one solvable of the first package.
    learnt: usize,
    with_one: usize,
    /// The score that the search gives the first package in the end.
    score: u64,
    /// Whether the requirement with three candidates was decided before the one with two.
    wide_first: bool,
}

/// Clauses with their requirements, and the package of each variable.
#[derive(Drop)]
struct Given {
    alloc: Global,
    table: Clauses,
    requirements: Requirements,
    owners: Vec<Owner>,
    /// The number of the next variable.
    next: u16,
}

impl Given {
    fn new(alloc: Global) -> Given {
        Given {
            alloc,
            table: Clauses::new(alloc),
            requirements: Requirements::new(alloc),
            owners: Vec::new(alloc),
            next: 0,
        }
    }

    /// Adds a variable with this owner, and returns its number.
    fn add_variable(&mut self, owner: Owner) -> Result<u16, AllocError> {
        let number = self.next;
        self.owners.push(owner)?;
        self.next = number.wrapping_add(1);
        Ok(number)
    }

    fn add_clause(&mut self, literals: &[Literal], last: Literal) -> Result<(), AllocError> {
        let mut clause = Vec::from_slice(self.alloc, literals)?;
        clause.push(last)?;
        self.table.push(&clause)?;
        Ok(())
    }

    /// Adds the clause of a requirement.
    fn add_requirement(&mut self, clause: Vec<Literal>, of_root: bool) -> Result<(), AllocError> {
        let number = self.table.len();
        self.requirements.add(number, of_root, &[clause.len()])?;
        self.table.push(&clause)?;
        Ok(())
    }

    /// Adds a requirement of a requirer with this many candidates of a package.
    fn require(&mut self, requirer: u16, package: usize, count: usize) -> Result<(), AllocError> {
        let mut clause = vec![in self.alloc; is_false(requirer)]?;
        for _ in 0..count {
            clause.push(is_true(self.add_variable(Owner::package(package)?)?))?;
        }
        self.add_requirement(clause, false)?;
        Ok(())
    }

    /// Adds a requirement of the root that tries a candidate of a package first. Returns that candidate.
    fn require_one(&mut self, package: usize) -> Result<u16, AllocError> {
        let tried = self.add_variable(Owner::package(package)?)?;
        let left = self.add_variable(Owner::none())?;
        let mut clause = vec![in self.alloc; is_true(tried)]?;
        clause.push(is_true(left))?;
        self.add_requirement(clause, true)?;
        Ok(tried)
    }

    /// Adds requirements of the root whose first candidates, one of each package, contradict each other.
    ///
    /// A search then learns the clause that not all of them are chosen.
    fn add_clash(&mut self, packages: &[usize]) -> Result<(), AllocError> {
        let mut tried = Vec::new(self.alloc);
        for package in packages {
            tried.push(is_false(self.require_one(*package)?))?;
        }
        let both = self.add_variable(Owner::none())?;
        self.add_clause(&tried, is_true(both))?;
        self.add_clause(&tried, is_false(both))?;
        Ok(())
    }

    /// Adds requirements that lead to this many learnt clauses.
    fn add_clashes(&mut self, learnt: &Learnt<'_>) -> Result<(), AllocError> {
        for _ in 0..learnt.1 {
            self.add_clash(learnt.0)?;
        }
        Ok(())
    }
}

fn is_true(number: u16) -> Literal {
    Literal::new(Variable::new(u32::from(number)), true)
}

fn is_false(number: u16) -> Literal {
    Literal::new(Variable::new(u32::from(number)), false)
}

/// Returns the clauses of a chosen solvable that requires the first package and the second one, and those that lead to
/// learnt clauses.
///
/// The first candidates of the two packages are the literals 2 and 5, of variables 1 and 4.
fn given_for(alloc: Global, learnt: &[Learnt<'_>]) -> Result<Given, AllocError> {
    let mut given = Given::new(alloc);
    let requirer = given.add_variable(Owner::none())?;
    given.add_clause(&[], is_true(requirer))?;
    given.require(requirer, WIDE, 3)?;
    given.require(requirer, NARROW, 2)?;
    for clauses in learnt {
        given.add_clashes(clauses)?;
    }
    Ok(given)
}

/// Returns the number of a clause's literals that are of solvables of the first package.
fn count_in(clause: &[Literal], owners: &[Owner]) -> usize {
    let mut count = 0usize;
    for literal in clause {
        if let Some(owner) = owners.get(literal.variable().index()) {
            if owner.number() == Some(WIDE) {
                count = count.saturating_add(1);
            }
        }
    }
    count
}

/// Returns the number of clauses, from a number on, with just one solvable of the first package.
fn clauses_with_one(clauses: &Clauses, from: usize, owners: &[Owner]) -> usize {
    let mut count = 0usize;
    'clauses: for number in from..clauses.len() {
        if count_in(clause(clauses, number), owners) == 1 {
            count = count.saturating_add(1);
        }
    }
    count
}

/// Returns whether the first candidate of the first package was decided before that of the second one.
fn is_wide_first(search: &ClauseSearch) -> bool {
    match (slot_of(search, 2), slot_of(search, 5)) {
        (Some(wide), Some(narrow)) => wide.value && narrow.value && wide.place < narrow.place,
        _ => false,
    }
}

/// Returns the result of a search, if it finds values.
fn seen_in(
    alloc: Global,
    search: &mut ClauseSearch,
    provider: &TestProvider,
    given: &Given,
) -> Option<Seen>
    requires { IsConsistent search.old }
{
    let variables = given.owners.len();
    if !load_given(
        search,
        &given.table,
        &given.requirements,
        variables,
        &given.owners,
    ) {
        return None;
    }
    if !finishes(alloc, search, provider) {
        return None;
    }
    Some(Seen {
        learnt: search.learnt_count(),
        with_one: clauses_with_one(&search.table, given.table.len(), &given.owners),
        score: search.queue.score_of(Variable::new(1)),
        wide_first: is_wide_first(search),
    })
}

/// Returns the result of a new search that learns clauses with candidates of these packages.
///
/// Only this function owns a search.
fn seen_after(
    alloc: Global,
    activity: Activity,
    learnt: &[Learnt<'_>],
) -> Result<Option<Seen>, AllocError> {
    let given = given_for(alloc, learnt)?;
    let provider = provider_of_nothing(alloc);
    let mut search = ClauseSearch::new(alloc, activity);
    let seen = seen_in(alloc, &mut search, &provider, &given);
    drop(search);
    Ok(seen)
}

/// Returns whether a new search decides the requirement with three candidates first.
fn prefers_wide(
    alloc: Global,
    activity: Activity,
    learnt: &[Learnt<'_>],
) -> Result<Option<bool>, AllocError> {
    match seen_after(alloc, activity, learnt)? {
        Some(seen) => Ok(Some(seen.wide_first)),
        None => Ok(None),
    }
}

#[test]
fn a_package_of_each_learnt_clause_has_a_score(rt: HostRuntime) -> Result<(), Fail> {
    for (learnt, score) in [
        (0, 0),
        (1, 950000),
        (2, 1852500),
        (3, 2709875),
        (4, 3524381),
    ] {
        let wanted = Seen {
            learnt,
            with_one: learnt,
            score,
            wide_first: 0 < learnt,
        };
        let seen = seen_after(rt.alloc(), Activity::standard(), &[(&[WIDE], learnt)])?;
        assert!(rt; seen == Some(wanted), "after {learnt}");
    }
    Ok(())
}

#[test]
fn scores_fade_with_each_learnt_clause(rt: HostRuntime) -> Result<(), Fail> {
    let standard = Activity::standard();
    let later: [Learnt<'_>; 2] = [(&[NARROW], 1), (&[WIDE], 1)];
    assert!(rt; prefers_wide(rt.alloc(), standard, &later)? == Some(true));
    for (others, wanted) in [(12, true), (13, false)] {
        let learnt: [Learnt<'_>; 3] = [(&[WIDE], 2), (&[OTHER], others), (&[NARROW], 1)];
        assert!(rt;
            prefers_wide(rt.alloc(), standard, &learnt)? == Some(wanted),
            "after {others} other clauses"
        );
    }
    Ok(())
}

#[test]
fn each_solvable_of_a_learnt_clause_counts(rt: HostRuntime) -> Result<(), Fail> {
    let learnt: [Learnt<'_>; 1] = [(&[NARROW, WIDE, WIDE], 1)];
    assert!(rt; prefers_wide(rt.alloc(), Activity::standard(), &learnt)? == Some(true));
    Ok(())
}

#[test]
fn products_saturate_before_they_are_divided(rt: HostRuntime) -> Result<(), Fail> {
    let greatest = Activity {
        add: u64::MAX,
        decay: 950_000,
    };
    let wanted = Seen {
        learnt: 1,
        with_one: 1,
        score: 18446744073709,
        wide_first: true,
    };
    let seen = seen_after(rt.alloc(), greatest, &[(&[WIDE], 1)])?;
    assert!(rt; seen == Some(wanted));
    let half = Activity {
        add: 1 << 63,
        decay: 950_000,
    };
    let learnt: [Learnt<'_>; 1] = [(&[NARROW, WIDE, WIDE], 1)];
    assert!(rt; prefers_wide(rt.alloc(), half, &learnt)? == Some(false));
    Ok(())
}
