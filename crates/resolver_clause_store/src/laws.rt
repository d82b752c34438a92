//! Laws of the definitions: two closures are least, and a run over no soft requirements changes nothing.

ghost use Rattle.std.specs.Prelude.{◌≡◌, Bool, Contains, List, []};
ghost use Rattle.resolver_clause_store.specs.FirstChoice.{IsFirst, IsFirstClosed, IsFirstNext};
ghost use Rattle.resolver_clause_store.specs.Lists.{Accepts};
ghost use Rattle.resolver_clause_store.specs.Near.{IsNear, IsNearClosed, IsNext};
ghost use Rattle.resolver_clause_store.specs.SoftRun.{RunEnds};
ghost use Rattle.resolver_clause_store.specs.Universe.{Demands, Universe};

/// The need closure of some seeds is the least set that has the seeds and all candidates of its active requirements.
///
/// Active requirements are those of the root and of the members. A test stands for a set: the closure is within each
/// test that accepts the seeds and these candidates.
pub fn the_need_closure_is_least_closed<N, S>()
    ensures seeds { (u : Universe N S) (root : Demands) (seeds : List S) (s : S) → Contains seeds s → IsNear u root seeds s }
    ensures closed { (u : Universe N S) (root : Demands) (seeds : List S) (s : S) → IsNext u root (IsNear u root seeds) s → IsNear u root seeds s }
    ensures least { (u : Universe N S) (root : Demands) (seeds : List S) (test : S → Bool) → IsNearClosed u root seeds test →
        Accepts test (IsNear u root seeds) }
{}

/// The first choices are the least set that has the first choice of each of its active requirements that is no union.
///
/// Active requirements are those of the root and of the members. A test stands for a set: the first choices are within
/// each test that accepts these choices.
pub fn first_choices_are_least_closed<N, S>()
    ensures closed { (u : Universe N S) (root : Demands) (s : S) → IsFirstNext u root (IsFirst u root) s → IsFirst u root s }
    ensures least { (u : Universe N S) (root : Demands) (test : S → Bool) → IsFirstClosed u root test → Accepts test (IsFirst u root) }
{}

/// A run over no soft requirements ends with the answer that it starts from and with no exemptions.
pub fn a_run_over_nothing_is_its_first_answer<N, S>()
    ensures chosen { (u : Universe N S) (root : Demands) (first chosen exempt : List S) → RunEnds u root first [] chosen exempt → chosen ≡ first }
    ensures exempt { (u : Universe N S) (root : Demands) (first chosen exempt : List S) → RunEnds u root first [] chosen exempt → exempt ≡ [] }
{}
