//! The chosen solvables of a small trail that grows, is cut, and grows in another way.

ghost use Rattle.std.specs.Prelude.{◌≡◌, IfOk, OnOk, length};
ghost use Rattle.resolver_clause_store.specs.TrailView.{variable_count};
ghost use Rattle.resolver_clause_store.specs.Variables.{AreDistinct, origins_in};

use resolver_clause_store::{
    Exhausted, Helper, Literal, Origin, Requirement, Trail, Variable, Variables, VersionSetId,
};
use resolver_encoding::Chosen;
use std::alloc::Global;
use std::test::Fail;

/// Returns the variables of the root, of three solvables, and of a gate between them.
fn variables(alloc: Global) -> Result<Variables<u32, u32>, Exhausted>
    ensures distinct { IfOk result (λ v. AreDistinct (origins_in v)) }
{
    let gate = Origin::Helper(Helper::Gate(Requirement::Single(VersionSetId(7))));
    let mut variables = Variables::new(alloc, 5);
    variables.intern(Origin::Root)?;
    variables.intern(Origin::Solvable(11))?;
    variables.intern(gate)?;
    variables.intern(Origin::Solvable(12))?;
    variables.intern(Origin::Solvable(13))?;
    Ok(variables)
}

/// Gives a variable a value, if there is such a variable and it has none.
fn add(trail: &mut Trail, number: u16, positive: bool) -> Result<(), Exhausted>
    ensures { OnOk result (variable_count trail.new ≡ variable_count trail.old) }
{
    let variable = Variable::new(u32::from(number));
    if variable.index() >= trail.variable_count() || trail.slot(variable).is_some() {
        return Ok(());
    }
    trail.force(Literal::new(variable, positive), 9)?;
    Ok(())
}

/// Takes back the last two values, if there are two.
fn undo_two(trail: &mut Trail)
    ensures { variable_count trail.new ≡ variable_count trail.old }
{
    if trail.len() < 2 {
        return;
    }
    trail.undo_last();
    trail.undo_last();
}

/// Returns whether these solvables are chosen, in order.
fn lists(alloc: Global, chosen: &Chosen<u32>, wanted: &[u32]) -> Result<bool, Exhausted> {
    let found = chosen.to_vec(alloc)?;
    Ok(found.as_slice() == wanted)
}

/// Returns whether the chosen solvables are as wanted at three times: after the trail grew, after it was cut and grew
/// in another way, and after one more cut.
fn goes(
    alloc: Global,
    chosen: &mut Chosen<u32>,
    variables: &Variables<u32, u32>,
    trail: &mut Trail,
    wanted: [&[u32]; 3],
) -> Result<bool, Exhausted>
    requires distinct { AreDistinct (origins_in variables.now) }
    requires size { variable_count trail.old ≡ length (origins_in variables.now) }
{
    add(trail, 0, true)?;
    add(trail, 4, true)?;
    add(trail, 2, true)?;
    add(trail, 1, true)?;
    chosen.follow(variables, trail)?;
    let first = lists(alloc, chosen, wanted[0])?;
    undo_two(trail);
    chosen.cut::<u32>(2);
    add(trail, 1, false)?;
    add(trail, 3, true)?;
    chosen.follow(variables, trail)?;
    let second = lists(alloc, chosen, wanted[1])?;
    chosen.cut::<u32>(3);
    let third = lists(alloc, chosen, wanted[2])?;
    Ok(first & second & third)
}

/// Returns whether they are as wanted over a trail of these variables.
fn is_followed(alloc: Global, wanted: [&[u32]; 3]) -> Result<bool, Fail> {
    let variables = variables(alloc)?;
    let mut trail = Trail::new(alloc, variables.len())?;
    let mut chosen = Chosen::new::<u32>(alloc);
    let outcome = goes(alloc, &mut chosen, &variables, &mut trail, wanted);
    Ok(matches!(outcome, Ok(true)))
}

#[test]
fn what_is_chosen_follows_the_trail(rt: HostRuntime) -> Result<(), Fail> {
    assert!(rt; is_followed(rt.alloc(), [&[13, 11], &[13, 12], &[13]])?);
    Ok(())
}
