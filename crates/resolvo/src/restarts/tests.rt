//! When a restart is due, what comes before what, and which levels are kept.

ghost use Rattle.std.specs.Prelude.{◌≡◌, []};
ghost use Rattle.resolver_clause_store.specs.TrailView.{variable_count};

use super::*;
use resolver_clause_store::{Activity, Owner};
use std::alloc::Global;
use std::test::Fail;

#[test]
fn each_second_learnt_clause_makes_a_restart_due(rt: HostRuntime) -> Result<(), Fail> {
    assert!(rt; is_due(2, 1) && is_due(4, 1) && is_due(1000, 1));
    assert!(rt; !is_due(1, 1) && !is_due(3, 1) && !is_due(999, 1));
    Ok(())
}

#[test]
fn no_restart_is_due_above_four_levels(rt: HostRuntime) -> Result<(), Fail> {
    assert!(rt; is_due(2, 4) && !is_due(2, 5));
    Ok(())
}

#[test]
fn the_root_comes_before_higher_scores(rt: HostRuntime) -> Result<(), Fail> {
    let root = Precedence {
        of_root: true,
        score: 1,
    };
    let higher = Precedence {
        of_root: false,
        score: 3,
    };
    let lower = Precedence {
        of_root: false,
        score: 2,
    };
    assert!(rt; root.is_before(&higher) && !higher.is_before(&root));
    assert!(rt; higher.is_before(&lower) && !lower.is_before(&higher));
    assert!(rt; !lower.is_before(&lower));
    Ok(())
}

/// Returns the positive literal of a variable.
fn positive(number: u16) -> Literal
    ensures { result.variable ≡ number }
{
    Literal::new(Variable::new(u32::from(number)), true)
}

/// Decides the first of two candidates of different packages, and returns the level that is kept where the other comes next. The
/// package of the candidate with this number gets a score.
fn kept_after_one(
    table: &mut Clauses,
    queue: &mut DecideQueue,
    trail: &mut Trail,
    scored: u16,
) -> Result<usize, Fail>
    requires table { table.old ≡ [] }
    requires trail { variable_count trail.old ≡ 0 }
{
    table.push(&[positive(0)])?;
    table.push(&[positive(1)])?;
    queue.learn_owners(&[Owner::package(0)?, Owner::package(1)?])?;
    queue.learn(&[positive(scored)])?;
    trail.grow(2)?;
    trail.decide(positive(0), 0)?;
    let next = Choice {
        number: 1,
        place: 0,
    };
    Ok(kept_level(trail, table, &[], queue, 0, next))
}

fn kept_with_score(alloc: Global, scored: u16) -> Result<usize, Fail> {
    let mut table = Clauses::new(alloc);
    let mut queue = DecideQueue::new(alloc, Activity::standard());
    let mut trail = Trail::empty(alloc);
    kept_after_one(&mut table, &mut queue, &mut trail, scored)
}

#[test]
fn a_decision_that_would_come_later_now_is_taken_back(rt: HostRuntime) -> Result<(), Fail> {
    assert!(rt; kept_with_score(rt.alloc(), 0)? == 1);
    assert!(rt; kept_with_score(rt.alloc(), 1)? == 0);
    Ok(())
}
