//! Scores, worked out by hand.

use resolver_clause_store::{Activity, Scores};
use std::alloc::Global;
use std::test::Fail;

/// Returns the score of a package after this many learnt clauses, each with one of its solvables.
fn score_after(alloc: Global, activity: Activity, times: u64) -> Result<u64, Fail> {
    let mut scores = Scores::new(alloc, activity);
    for learnt in 0..times {
        scores.add(3, learnt)?;
    }
    Ok(scores.read(3, times))
}

#[test]
fn a_package_of_each_learnt_clause(rt: HostRuntime) -> Result<(), Fail> {
    for (times, wanted) in [(1, 950000), (2, 1852500), (3, 2709875), (4, 3524381)] {
        assert_eq!(rt;
            score_after(rt.alloc(), Activity::standard(), times)?,
            wanted
        );
    }
    Ok(())
}

#[test]
fn a_product_saturates_before_it_is_divided(rt: HostRuntime) -> Result<(), Fail> {
    let activity = Activity {
        add: u64::MAX,
        decay: 950_000,
    };
    assert_eq!(rt; score_after(rt.alloc(), activity, 1)?, 18446744073709);
    Ok(())
}

#[test]
fn scores_of_other_packages_fade_when_they_are_read(rt: HostRuntime) -> Result<(), Fail> {
    let mut scores = Scores::new(rt.alloc(), Activity::standard());
    scores.add(0, 0)?;
    assert_eq!(rt; scores.of(0, 3), 857375);
    assert_eq!(rt; scores.read(0, 2), 902500);
    assert_eq!(rt; scores.of(0, 3), 857375);
    assert_eq!(rt; scores.of(1, 3), 0);
    Ok(())
}
