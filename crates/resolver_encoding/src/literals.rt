//! The literals of a clause, by its kind.

ghost use Rattle.std.specs.Prelude.{◌≡◌, [], ◌∷◌, ◌++◌, IfErr, MatchBool, OnOk, false, true, ⊤};
ghost use Rattle.resolver_clause_store.specs.Laws.{IsIdentity};
ghost use Rattle.resolver_clause_store.specs.Universe.{Universe};
ghost use Rattle.resolver_clause_store.specs.Variables.{AreFull, limit_in, origins_in};
ghost use Rattle.resolver_encoding.specs.Atoms.{atom, excluded_of as excluded_origin, origin_by, parent_of as parent_origin, requirement_atoms, wanted};
ghost use Rattle.resolver_encoding.specs.Encodings.{Adds, Grows};
ghost use Rattle.resolver_encoding.specs.Refusals.{IsShortage};
ghost use Rattle.resolver_encoding.specs.Values.{AreAtoms, IsClauseOf};

use resolver_clause_store::{
    By, ClauseKind, Exhausted, Helper, Literal, Origin, Requirement, Variables, VersionSetId,
};
use std::hash::Hash;

/// Returns the origin of the root or of a solvable.
fn origin_of<N, S: Copy>(by: By<S>) -> Origin<N, S>
    ensures { result ≡ origin_by by }
{
    match by {
        By::Root => Origin::Root,
        By::Solvable(solvable) => Origin::Solvable(solvable),
    }
}

/// Returns the origin of who has a requirement: the root, a solvable, or the requirement's gate.
fn parent_of<N, S: Copy>(parent: Option<By<S>>, requirement: Requirement) -> Origin<N, S>
    ensures { result ≡ parent_origin parent requirement }
{
    match parent {
        Some(by) => origin_of(by),
        None => Origin::Helper(Helper::Gate(requirement)),
    }
}

/// Returns the origin of what a constraint excludes: a candidate, or the constraint's helper.
fn excluded_of<N, S: Copy>(candidate: Option<S>, version_set: VersionSetId) -> Origin<N, S>
    ensures { result ≡ excluded_origin candidate version_set }
{
    match candidate {
        Some(solvable) => Origin::Solvable(solvable),
        None => Origin::Helper(Helper::Constraint(version_set)),
    }
}

/// Appends the literal of an origin.
fn push_literal<N: Copy + Eq + Hash + Drop, S: Copy + Eq + Hash + Drop>(
    variables: &mut Variables<N, S>,
    literals: &mut Vec<Literal>,
    origin: Origin<N, S>,
    positive: bool,
) -> Result<(), Exhausted>
    requires names { IsIdentity N.eq }
    requires solvables { IsIdentity S.eq }
    ensures limit { limit_in variables.new ≡ limit_in variables.old }
    ensures grows { Grows (origins_in variables.old) (origins_in variables.new) }
    ensures added { OnOk result (Adds (origins_in variables.new) literals.old.items literals.new.items (atom origin positive ∷ [])) }
    ensures refusal { IfErr result (IsShortage (AreFull variables.new)) }
{
    let variable = variables.intern(origin)?;
    literals.push(Literal::new(variable, positive))?;
    Ok(())
}

/// Returns whether two values are the same.
fn is_same<T: Eq>(left: &T, right: &T) -> bool
    requires { IsIdentity T.eq }
    ensures { MatchBool result (left.now ≡ right.now) ⊤ }
{
    left == right
}

/// Appends the negated literals of two origins, one literal if a solvable excludes itself.
fn push_both<N: Copy + Eq + Hash + Drop, S: Copy + Eq + Hash + Drop>(
    variables: &mut Variables<N, S>,
    literals: &mut Vec<Literal>,
    first: Origin<N, S>,
    second: Origin<N, S>,
) -> Result<(), Exhausted>
    requires names { IsIdentity N.eq }
    requires solvables { IsIdentity S.eq }
    requires empty { literals.old.items ≡ [] }
    ensures limit { limit_in variables.new ≡ limit_in variables.old }
    ensures grows { Grows (origins_in variables.old) (origins_in variables.new) }
    ensures atoms { OnOk result (AreAtoms (origins_in variables.new) literals.new.items (atom first false ∷ atom second false ∷ [])) }
    ensures refusal { IfErr result (IsShortage (AreFull variables.new)) }
{
    push_literal(variables, literals, first, false)?;
    if is_same(&first, &second) {
        return Ok(());
    }
    push_literal(variables, literals, second, false)?;
    Ok(())
}

/// Appends the literals of a requirement clause: of its parent, of the condition helpers of its disjunct, and of the
/// candidates.
fn push_requirement<N: Copy + Eq + Hash + Drop, S: Copy + Eq + Hash + Drop>(
    variables: &mut Variables<N, S>,
    literals: &mut Vec<Literal>,
    parent: Origin<N, S>,
    disjunct: &[VersionSetId],
    candidates: &[S],
) -> Result<(), Exhausted>
    requires names { IsIdentity N.eq }
    requires solvables { IsIdentity S.eq }
    ensures limit { limit_in variables.new ≡ limit_in variables.old }
    ensures grows { Grows (origins_in variables.old) (origins_in variables.new) }
    ensures added { OnOk result
        (Adds (origins_in variables.new) literals.old.items literals.new.items (requirement_atoms parent disjunct.now candidates.now)) }
    ensures refusal { IfErr result (IsShortage (AreFull variables.new)) }
{
    push_literal(variables, literals, parent, false)?;
    for version_set in disjunct {
        let helper = Origin::Helper(Helper::Condition(*version_set));
        push_literal(variables, literals, helper, false)?;
    }
    for candidate in candidates {
        push_literal(variables, literals, Origin::Solvable(*candidate), true)?;
    }
    Ok(())
}

/// Appends the literals of a clause to an empty list: those of the atoms of its kind. Those of a requirement clause are
/// made for the given candidates.
pub(crate) fn push_atoms<N: Copy + Eq + Hash + Drop, S: Copy + Eq + Hash + Drop>(
    variables: &mut Variables<N, S>,
    literals: &mut Vec<Literal>,
    kind: &ClauseKind<N, S>,
    candidates: &[S],
) -> Result<(), Exhausted>
    requires names { IsIdentity N.eq }
    requires solvables { IsIdentity S.eq }
    requires empty { literals.old.items ≡ [] }
    ensures limit { limit_in variables.new ≡ limit_in variables.old }
    ensures grows { Grows (origins_in variables.old) (origins_in variables.new) }
    ensures clause { OnOk result ((u : Universe N S) → candidates.now ≡ wanted u kind.now →
        IsClauseOf u (origins_in variables.new) literals.new.items kind.now) }
    ensures refusal { IfErr result (IsShortage (AreFull variables.new)) }
{
    match kind {
        ClauseKind::InstallRoot => push_literal(variables, literals, Origin::Root, true),
        ClauseKind::Requires {
            parent,
            disjunct,
            requirement,
        } => {
            let parent = parent_of(*parent, *requirement);
            push_requirement(variables, literals, parent, disjunct, candidates)
        }
        ClauseKind::Implies {
            candidate,
            helper,
            value,
        } => {
            push_literal(variables, literals, Origin::Solvable(*candidate), false)?;
            push_literal(variables, literals, Origin::Helper(*helper), *value)
        }
        ClauseKind::Constrains {
            parent,
            version_set,
            candidate,
        } => {
            let excluded = excluded_of(*candidate, *version_set);
            push_both(variables, literals, origin_of(*parent), excluded)
        }
        ClauseKind::Lock { forbidden, .. } => {
            let forbidden = Origin::Solvable(*forbidden);
            push_both(variables, literals, Origin::Root, forbidden)
        }
        ClauseKind::Excluded { solvable, .. } => {
            push_literal(variables, literals, Origin::Solvable(*solvable), false)
        }
    }
}
