//! Hints about dependencies that are cheap to get.

ghost use Rattle.std.specs.Prelude.{◌≡◌, MatchBool, true};
ghost use Rattle.resolver_clause_store.specs.Caches.{Covers};
ghost use Rattle.resolver_clause_store.specs.Laws.{IsIdentity};
ghost use Rattle.resolver_clause_store.specs.Universe.{hint_none, hint_of};

use crate::data::HintDependenciesAvailable;
use crate::sets::has;

/// Returns whether a hint says that the dependencies of a solvable are cheap.
pub(crate) fn covers<S: Eq>(hint: &HintDependenciesAvailable<S>, solvable: &S) -> bool
    requires { IsIdentity S.eq }
    ensures { let covered = Covers (hint_of hint.now) solvable.now in MatchBool result covered (covered → ⊥) }
{
    match hint {
        HintDependenciesAvailable::None => false,
        HintDependenciesAvailable::All => true,
        HintDependenciesAvailable::Some(solvables) => has(solvables, solvable),
    }
}

/// Returns whether a hint says of no solvable that its dependencies are cheap.
pub(crate) fn covers_none<S>(hint: &HintDependenciesAvailable<S>) -> bool
    ensures { result ≡ true → hint_of hint.now ≡ hint_none }
{
    match hint {
        HintDependenciesAvailable::None => true,
        HintDependenciesAvailable::All => false,
        HintDependenciesAvailable::Some(_) => false,
    }
}
