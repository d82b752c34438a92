//! Turns of soft requirements.

ghost use Rattle.resolver_clause_store.specs.Caches.{IsTrueCache};
ghost use Rattle.resolver_encoding.specs.Encodings.{IsUnread};
ghost use Rattle.resolver_encoding.specs.Notes.{cache_in, notes_in};

use super::*;

/// Reads the root, begins the turn of a solvable, and reads these solvables, as if they were the chosen ones.
fn begin<
    N: Copy + Eq + Hash + Drop,
    S: Copy + Eq + Hash + Drop,
    D: DependencyProvider<NameId = N, SolvableId = S>,
>(
    alloc: Global,
    encoding: &mut Encoding<N, S>,
    provider: &D,
    requirements: &[ConditionalRequirement],
    solvable: S,
    given: &[S],
) -> Result<(), Interrupted<D::Cancel>>
    requires is_true { IsTrueCache (D.universe provider.now) (cache_in encoding.old) }
    requires nothing_read { IsUnread (notes_in encoding.old) }
    ensures is_true { IsTrueCache (D.universe provider.now) (cache_in encoding.new) }
{
    encoding.read_root(provider, requirements, &[])?;
    encoding.register(provider, solvable)?;
    encoding.begin_turn(provider, solvable)?;
    read_given(alloc, encoding, provider, given)?;
    Ok(())
}

/// Takes the turn of a solvable that is refused, and returns the counts.
pub fn refused<
    N: Copy + Eq + Hash + Drop,
    S: Copy + Eq + Hash + Drop,
    D: DependencyProvider<NameId = N, SolvableId = S>,
>(
    alloc: Global,
    encoding: &mut Encoding<N, S>,
    provider: &D,
    requirements: &[ConditionalRequirement],
    solvable: S,
    given: &[S],
) -> Result<Turn, Interrupted<D::Cancel>>
    requires is_true { IsTrueCache (D.universe provider.now) (cache_in encoding.old) }
    requires nothing_read { IsUnread (notes_in encoding.old) }
    ensures { IsTrueCache (D.universe provider.now) (cache_in encoding.new) }
{
    begin(alloc, encoding, provider, requirements, solvable, given)?;
    let clauses = encoding.clause_count();
    let exempt = encoding.exempt().len();
    encoding.end_turn(provider, exempt.saturating_sub(1))?;
    Ok((
        clauses,
        exempt,
        encoding.clause_count(),
        encoding.exempt().len(),
    ))
}

/// Returns whether the turn had this result.
pub fn is_turn(outcome: &Result<Turn, Interrupted<u8>>, wanted: Turn) -> bool {
    match outcome {
        Ok(turn) => *turn == wanted,
        Err(_) => false,
    }
}

/// Returns whether the refused turn of a solvable has this result, and the clauses are there at its end.
fn comes_to<'x>(
    alloc: Global,
    provider: TestProvider,
    requirements: &'x [ConditionalRequirement],
    solvable: u32,
    given: &'x [u32],
    turn: Turn,
    wanted: &'x [(usize, Literals<'x>)],
) -> bool {
    let case = Case {
        exempt: None,
        requirements,
        steps: Steps::Refused(solvable, given, turn),
        count: None,
        clauses: Some(wanted),
        asked: None,
    };
    holds(alloc, (100, 100), &provider, &case)
}

#[test]
fn a_lock_that_was_spared_comes_at_the_end_of_a_refused_turn(rt: HostRuntime) -> Result<(), Fail> {
    let provider = provider_of(rt.alloc(), &[(74, 70)], &[])?;
    let wanted: [(usize, Literals<'_>); 1] = [(4, &[ROOT, is_absent(74)])];
    assert!(rt; comes_to(rt.alloc(), provider, &[], 74, &[74], (4, 1, 5, 0), &wanted));
    Ok(())
}

#[test]
fn an_exclusion_that_was_spared_comes_at_the_end_of_a_refused_turn(
    rt: HostRuntime,
) -> Result<(), Fail> {
    let provider = provider_of(rt.alloc(), &[(84, 80)], &[])?;
    let wanted: [(usize, Literals<'_>); 1] = [(4, &[is_absent(84)])];
    assert!(rt; comes_to(rt.alloc(), provider, &[], 84, &[84], (4, 1, 5, 0), &wanted));
    Ok(())
}

#[test]
fn a_package_that_was_not_asked_brings_no_clause(rt: HostRuntime) -> Result<(), Fail> {
    let provider = provider_of(rt.alloc(), &[], &[])?;
    assert!(rt; comes_to(rt.alloc(), provider, &[], 74, &[74], (1, 1, 1, 0), &[]));
    Ok(())
}

#[test]
fn a_package_that_was_asked_spares_nobody(rt: HostRuntime) -> Result<(), Fail> {
    let provider = provider_of(rt.alloc(), &[], &[])?;
    let wanted: [(usize, Literals<'_>); 1] = [(1, &[ROOT, is_absent(74)])];
    assert!(rt;
        comes_to(
            rt.alloc(),
            provider,
            &[always(71)],
            74,
            &[],
            (5, 0, 5, 0),
            &wanted
        )
    );
    Ok(())
}

#[test]
fn a_soft_solvable_is_kept_apart_from_its_package(rt: HostRuntime) -> Result<(), Fail> {
    let provider = provider_of(rt.alloc(), &[], &[])?;
    let wanted: [(usize, Literals<'_>); 2] = [
        (2, &[is_absent(11), bit(1, 0, false)]),
        (3, &[is_absent(14), bit(1, 0, true)]),
    ];
    assert!(rt;
        comes_to(
            rt.alloc(),
            provider,
            &[always(11)],
            14,
            &[],
            (4, 0, 4, 0),
            &wanted
        )
    );
    Ok(())
}
