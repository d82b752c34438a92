//! The solvables that imply helpers.

ghost use Rattle.std.specs.Prelude.{◌≡◌, ◌++◌, ◌∷◌, ◌<◌, [], All, IfErr, IfOk, List, OnOk, length};
ghost use Rattle.resolver_clause_store.specs.Laws.{IsIdentity};
ghost use Rattle.resolver_clause_store.specs.declared.ClauseKind.{ClauseKind as Kind};
ghost use Rattle.resolver_encoding.specs.Sources.{AreSources};
ghost use Rattle.resolver_encoding.specs.Values.{kinds_at};

use crate::groups::Groups;
use resolver_clause_store::{ClauseKind, Exhausted, Helper};
use std::alloc::Global;
use std::hash::Hash;

/// Notes one more clause.
fn note<N: Copy + Eq + Hash + Drop, S: Copy + Drop>(
    sources: &mut Groups<Helper<N>, S>,
    kind: &ClauseKind<N, S>,
) -> Result<(), Exhausted>
    requires { IsIdentity N.eq }
    ensures noted { OnOk result ((kinds : List (Kind N S)) → AreSources kinds sources.old → AreSources (kinds ++ kind.now ∷ []) sources.new) }
    ensures memory { IfErr result (λ e. e ≡ Exhausted.Memory) }
{
    match kind {
        ClauseKind::Implies {
            candidate,
            helper,
            value,
        } => {
            if *value {
                sources.add(*helper, *candidate)?;
            }
            Ok(())
        }
        _ => Ok(()),
    }
}

/// Returns the solvables that imply each helper, according to the clauses with these numbers.
pub(crate) fn sources_of<N: Copy + Eq + Hash + Drop, S: Copy + Drop>(
    alloc: Global,
    kinds: &[ClauseKind<N, S>],
    numbers: &[usize],
) -> Result<Groups<Helper<N>, S>, Exhausted>
    requires names { IsIdentity N.eq }
    requires within { All (λ n. n < length kinds.now) numbers.now }
    ensures are { IfOk result (λ sources. AreSources (kinds_at kinds.now numbers.now) sources) }
    ensures memory { IfErr result (λ e. e ≡ Exhausted.Memory) }
{
    let mut sources = Groups::new(alloc);
    for number in numbers {
        note(&mut sources, &kinds[*number])?;
    }
    Ok(sources)
}
