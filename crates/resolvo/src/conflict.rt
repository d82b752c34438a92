//! Conflicts: why a problem has no answer.

ghost use Rattle.std.specs.Prelude.{◌≡◌, All, IfErr, IfOk};
ghost use Rattle.resolver_clause_store.specs.Universe.{Demands, Universe};
ghost use Rattle.resolver_report.specs.ConflictGraphs.{shape_of};
ghost use Rattle.resolver_report.specs.Displays.{displayed_graph, interner_in};
ghost use Rattle.resolver_report.specs.Graphs.{graph_of as graph_of_rules};
ghost use Rattle.resolver_report.specs.ReachedPlaces.{AreNodesReached};
ghost use Rattle.resolver_report.specs.ReachedRules.{IsKept};
ghost use Rattle.resolver_clause_store.specs.Laws.{IsIdentity};
ghost use Rattle.resolver_clause_store.specs.Rules.{IsIrreducible, IsRefuted};
ghost use Rattle.resolvo.specs.Explanations.{Explains};
ghost use Rattle.resolvo.specs.Minimal.{CopiesLeft, CopiesPart};
ghost use Rattle.resolvo.specs.Solvers.{provider_in};

use crate::minimal::{copies_of, left_in_turn, trimmed_marks};
use crate::solver::Solver;
use resolver_clause_store::{DependencyProvider, Exhausted, Interner};
use resolver_report::{
    ConflictGraph, DisplayUnsat, Rule, graph_of, graphs_of_kept_rules_are_reached,
    graphs_of_true_rules_are_true, keep_reached,
};
use std::hash::Hash;

/// Rules that no set of solvables obeys together.
///
/// Each is about solvables that the root's requirements reach: its requirer, and the solvable that it forbids or lists
/// as an instance.
#[derive(Drop)]
pub struct Conflict<N, S> {
    pub(crate) rules: Vec<Rule<N, S>>,
}

impl<N, S> Conflict<N, S> {
    ghost use Rattle.resolvo.specs.Conflicts.{rules_in};

    /// Returns the rules. The provider or the problem states each of them.
    pub fn rules(&self) -> &[Rule<N, S>]
        ensures { result.now ≡ rules_in self.now }
    {
        &self.rules
    }
}

impl<N: Copy + Eq + Ord + Hash + Drop, S: Copy + Eq + Ord + Hash + Drop> Conflict<N, S> {
    ghost use Rattle.resolvo.specs.Conflicts.{HasTrueEdges, rules_in};

    /// Returns a conflict from which no rule can be left out: without any one of them, some set of solvables obeys the
    /// others.
    ///
    /// Each rule has its turn, first to last. It is left out exactly if no set obeys those kept so far together with
    /// those that follow. The others keep their order. A smaller conflict of other rules may exist.
    ///
    /// All this holds if no set obeys the rules, as for every conflict that `solve` returns. The error is always
    /// [`Exhausted::Memory`]. A turn takes at most one search over the clauses of the rules, and none if the last
    /// search failed without the rule.
    pub fn minimal(&self) -> Result<Conflict<N, S>, Exhausted>
        requires names { IsIdentity N.eq }
        requires solvables { IsIdentity S.eq }
        ensures part { IfOk result (λ minimal. CopiesPart (rules_in self.now) (rules_in minimal)) }
        ensures in_turn { IfOk result (λ minimal. IsRefuted (rules_in self.now) → CopiesLeft (rules_in self.now) (rules_in minimal)) }
        ensures irreducible { IfOk result (λ minimal. IsRefuted (rules_in self.now) → IsIrreducible (rules_in minimal)) }
        ensures explains { IfOk result (λ minimal.
            (u : Universe N S) (root : Demands) → Explains u root (rules_in self.now) → Explains u root (rules_in minimal)) }
        ensures memory { IfErr result (λ e. e ≡ Exhausted.Memory) }
    {
        let alloc = *self.rules.allocator();
        let marks = left_in_turn(alloc, self.rules())?;
        let copies = copies_of(alloc, self.rules(), &marks)?;
        let rules = keep_reached(alloc, copies)?;
        Ok(Conflict { rules })
    }

    /// Returns a conflict of fewer of the rules, in their order, as far as short searches over their clauses find one.
    ///
    /// Nothing is promised about its size. The error is always [`Exhausted::Memory`].
    pub(crate) fn trimmed(&self) -> Result<Conflict<N, S>, Exhausted>
        requires names { IsIdentity N.eq }
        requires solvables { IsIdentity S.eq }
        ensures explains { IfOk result (λ trimmed.
            (u : Universe N S) (root : Demands) → Explains u root (rules_in self.now) → Explains u root (rules_in trimmed)) }
        ensures memory { IfErr result (λ e. e ≡ Exhausted.Memory) }
    {
        let alloc = *self.rules.allocator();
        let marks = trimmed_marks(alloc, self.rules())?;
        let copies = copies_of(alloc, self.rules(), &marks)?;
        let rules = keep_reached(alloc, copies)?;
        Ok(Conflict { rules })
    }

    /// Returns the graph of the rules. It depends on the rules alone, not on what the solver has done since.
    ///
    /// For a conflict that `solve` returns, each edge is true and each node is reached from the root, since its rules
    /// are true and about what they reach.
    pub fn graph<D: DependencyProvider<NameId = N, SolvableId = S>>(
        &self,
        _solver: &Solver<D>,
    ) -> Result<ConflictGraph<S>, Exhausted>
        ensures graph { IfOk result (λ graph. shape_of graph ≡ graph_of_rules N.eq S.eq (rules_in self.now)) }
        ensures true_edges { IfOk result (λ graph. HasTrueEdges (rules_in self.now) (shape_of graph)) }
        ensures reached_nodes { IfOk result (λ graph. All (IsKept (rules_in self.now)) (rules_in self.now) → AreNodesReached (shape_of graph)) }
        ensures memory { IfErr result (λ e. e ≡ Exhausted.Memory) }
    {
        graphs_of_true_rules_are_true::<N, S>();
        graphs_of_kept_rules_are_reached::<N, S>();
        let graph = graph_of(*self.rules.allocator(), self.rules())?;
        Ok(graph)
    }

    /// Returns the message of the rules: a tree of lines that shows which packages are missing or incompatible.
    ///
    /// Its `Display` writes it, in the texts of the solver's provider. It does not depend on what the solver has done
    /// since. The error is always [`Exhausted::Memory`].
    pub fn display_user_friendly<'a, D: DependencyProvider<NameId = N, SolvableId = S>>(
        &self,
        solver: &'a Solver<D>,
    ) -> Result<DisplayUnsat<'a, D>, Exhausted>
        ensures graph { IfOk result (λ message. displayed_graph message ≡ graph_of_rules N.eq S.eq (rules_in self.now)) }
        ensures provider { IfOk result (λ message. interner_in message ≡ provider_in solver.now) }
        ensures memory { IfErr result (λ e. e ≡ Exhausted.Memory) }
    {
        Ok(DisplayUnsat::new(self.graph(solver)?, solver.provider()))
    }
}
