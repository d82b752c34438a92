//! Cutting the trail back to before an assumption.

ghost use Rattle.std.specs.Prelude.{◌≡◌, ◌<◌, ◌≤◌, ℕ, List, OnOk, true};
ghost use Rattle.resolver_clause_store.specs.TrailView.{IsCut, length_of};
ghost use Rattle.resolver_clause_store.specs.Literals.{Literal};
ghost use Rattle.resolver_clause_store.specs.declared.Trail.{Trail};
ghost use Rattle.resolvo.specs.Returning.{BeginsLevel, FollowsTrailCut};
ghost use Rattle.resolvo.specs.Propagators.{IsPropagator};

use super::Propagator;
use resolver_clause_store::{Reason, Trail};
use std::alloc::AllocError;

/// Returns whether the entry at a place is a decision or an assumption, which begins a level.
pub fn begins_level(trail: &Trail, place: usize) -> bool
    requires { place < length_of trail.now }
    ensures { result ≡ true → BeginsLevel trail.now place }
{
    match trail.slot(trail.variable_at(place)) {
        Some(slot) => match slot.reason {
            Reason::Decided(_) => true,
            Reason::Assumed => true,
            Reason::Forced(_) => false,
        },
        None => false,
    }
}

impl Propagator {
    /// Follows a trail that was cut to its first entries. If a level began right after them, what was propagated of
    /// them stays propagated.
    pub fn return_to(&mut self, trail: &Trail, began: bool) -> Result<(), AllocError>
        ensures propagator { OnOk result (FollowsTrailCut began trail.now self.old self.new) }
        ensures watches { self.new.watches ≡ self.old.watches }
    {
        if began {
            self.cut(trail)?;
            return Ok(());
        }
        self.forget(trail)?;
        Ok(())
    }
}
