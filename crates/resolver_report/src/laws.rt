//! Laws of rules: what true rules mean for answers and for their graph, and which rules of a refuted list can go.

ghost use Rattle.std.specs.Prelude.{All, List, []};
ghost use Rattle.resolver_clause_store.specs.Universe.{Demands, Universe};
ghost use Rattle.resolver_clause_store.specs.Valid.{IsValid};
ghost use Rattle.resolver_report.specs.ReachedPlaces.{HasReachedGraph};
ghost use Rattle.resolver_report.specs.ReachedRules.{IsKept, LeavesKept};
ghost use Rattle.resolver_clause_store.specs.Rules.{IsRefuted, Obeys};
ghost use Rattle.resolver_clause_store.specs.TrueRules.{IsTrueRule};
ghost use Rattle.resolver_report.specs.TrueEdges.{HasTrueGraph};
ghost use Rattle.resolver_clause_store.specs.declared.Rule.{Rule};

/// A valid set without exemptions obeys every list of true rules.
///
/// So where true rules are refuted, the problem has no valid set without exemptions. The call does nothing: its
/// contract is the law.
pub fn valid_sets_obey_true_rules<N, S>()
    ensures { (u : Universe N S) (root : Demands) (rules : List (Rule N S)) (s : List S) → All (IsTrueRule u root) rules → IsValid u root s [] → Obeys s rules }
{}

/// A refuted list of rules stays refuted when only the rules about what is reached are kept.
///
/// A solvable is reached if it is a candidate of a requirement of the root or of a reached solvable, whatever the
/// conditions. If a set obeys the kept rules, its reached part obeys all rules: each candidate that this part requires
/// is reached as well, and the dropped rules are by, or about, solvables outside it. The call does nothing: its
/// contract is the law.
pub fn kept_rules_stay_refuted<N, S>()
    ensures { (rules kept : List (Rule N S)) → LeavesKept rules kept → IsRefuted rules → IsRefuted kept }
{}

/// The graph of true rules has true edges only.
///
/// Both ends of each edge are nodes of the graph. A requirement's edge leads from the root or a solvable that has the
/// requirement to one of its candidates, or to the unresolved node if it has none. A constraint's edge leads from its
/// requirer to a solvable that the constraint rules out, a lock's from the root to a solvable that the lock rules out,
/// and an exclusion's from a solvable to the reason for its exclusion. An edge between instances joins solvables of one
/// name. The call does nothing: its contract is the law.
pub fn graphs_of_true_rules_are_true<N, S>()
    ensures { (u : Universe N S) (root : Demands) (rules : List (Rule N S)) → All (IsTrueRule u root) rules → HasTrueGraph u root rules }
{}

/// In the graph of kept rules, which are all about what is reached, each node is reached from the root.
///
/// A path of requirement edges leads from the root to each solvable, through solvables only. To each other node, the
/// unresolved node or a reason, an edge leads from the root or from such a solvable. The call does nothing: its
/// contract is the law.
pub fn graphs_of_kept_rules_are_reached<N, S>()
    ensures { (rules : List (Rule N S)) → All (IsKept rules) rules → HasReachedGraph rules }
{}
