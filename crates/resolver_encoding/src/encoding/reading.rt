//! Reading: the requirements and constraints of the root and of solvables become clauses.

ghost use Rattle.std.specs.Prelude.{◌≡◌, ◌<◌, ◌≤◌, [], All, Contains, IfErr, IfOk, OnOk, drop, length, take, ⊤};
ghost use Rattle.resolver_clause_store.specs.Caches.{IsTrueCache};
ghost use Rattle.resolver_clause_store.specs.Universe.{Demands as DemandsOf, unknown};
ghost use Rattle.resolver_clause_store.specs.declared.ClauseKind.TheVariants.{Excluded as ExcludedKind};
ghost use Rattle.resolver_clause_store.specs.declared.Origin.TheVariants.{Solvable as SolvableOrigin};
ghost use Rattle.resolver_clause_store.specs.TrueRules.{demands_by};
ghost use Rattle.resolver_encoding.specs.Called.{IsPlainlyNamed, IsPlainlyNamedByEach};
ghost use Rattle.resolver_encoding.specs.Encodings.{AreDemandsRead, AreNamesAsked, AreNeedsRead, HasConstraints, HasRequirements, IsConstraintRead};
ghost use Rattle.resolver_encoding.specs.Encodings.{IsEncoding, IsEncodingOf, IsFull, IsLeft, IsStep, IsUnread};
ghost use Rattle.resolver_encoding.specs.Hints.{AreHintsRead, IsListedFrom};
ghost use Rattle.resolver_encoding.specs.ReadState.{IsReadRequirement};
ghost use Rattle.resolver_encoding.specs.Refusals.{IsShortage, IsStop};
ghost use Rattle.resolver_encoding.specs.SoFar.{HasRead, HasReadKnown, IsBare, IsHalfReading, IsMoreOrSame, IsProgress, IsReadMore, IsReadSoFar, IsReading};
ghost use Rattle.resolver_encoding.specs.SoFar.{IsReadingOf, progress_by};
ghost use Rattle.resolver_encoding.specs.Steps.{AreNearAny, AsksCalled, AsksOn, CallsOnly, IsConstraintsStep, IsDemandsStep};
ghost use Rattle.resolver_encoding.specs.Steps.{IsRequirementsStep, IsSolvableStep, ReadsOn, StaysNear, demands_with};

use super::Encoding;
use crate::progress::Progress;
use indexmap::IndexSet;
use resolver_clause_store::{
    By, ClauseKind, ConditionalRequirement, Dependencies, DependencyProvider, Exhausted, Interner,
    Interrupted, Origin, StringId, VersionSetId, append, is_among,
};
use std::hash::Hash;

/// Returns what one more reading did.
fn progress_of(read: bool, fired: bool) -> Progress
    ensures { result ≡ progress_by read fired }
{
    if read {
        return Progress::Read;
    }
    if fired {
        return Progress::Fired;
    }
    Progress::Nothing
}

/// The requirements and the constraints of the root or of a solvable.
#[derive(Clone, Copy)]
struct Demands<'a> {
    requirements: &'a [ConditionalRequirement],
    constraints: &'a [VersionSetId],
}

impl<N: Copy + Eq + Hash + Drop, S: Copy + Eq + Hash + Drop> Encoding<N, S> {
    ghost use Rattle.resolver_encoding.specs.DemandsView.{demands_in};
    ghost use Rattle.resolver_encoding.specs.Notes.{KeepsRoom, KeepsTrue, cache_in, notes_in};

    /// Forbids a solvable whose dependencies are unknown.
    fn forbid_unknown<D: DependencyProvider<NameId = N, SolvableId = S>>(
        &mut self,
        provider: &D,
        solvable: S,
        reason: StringId,
    ) -> Result<(), Exhausted>
        requires unknown { (D.universe provider.now).needs solvable ≡ unknown reason }
        ensures room { KeepsRoom self.old self.new }
        ensures step { OnOk result (IsStep (D.universe provider.now) (λ root. ⊤) (notes_in self.old) (notes_in self.new)) }
        ensures forbidden { OnOk result (Contains (notes_in self.new).kinds (ExcludedKind solvable reason)) }
        ensures refusal { IfErr result (IsShortage (IsFull (notes_in self.new))) }
    {
        self.add(ClauseKind::Excluded { solvable, reason })?;
        Ok(())
    }

    /// Asks the packages of a requirement, if it has no condition.
    fn ask_plain<D: DependencyProvider<NameId = N, SolvableId = S>>(
        &mut self,
        provider: &D,
        requirement: ConditionalRequirement,
    ) -> Result<(), Interrupted<D::Cancel>>
        requires is_true { IsTrueCache (D.universe provider.now) (cache_in self.old) }
        ensures room { KeepsTrue (D.universe provider.now) self.old self.new }
        ensures step { let u = D.universe provider.now in OnOk result
            (CallsOnly u (IsPlainlyNamed u requirement) (notes_in self.old) (notes_in self.new)) }
        ensures refusal { IfErr result (IsStop (D.may_cancel provider.now) (IsFull (notes_in self.new))) }
    {
        match requirement.condition {
            Some(_) => Ok(()),
            None => {
                self.ask_named(provider, requirement.requirement)?;
                Ok(())
            }
        }
    }

    /// Asks the packages of each requirement without a condition.
    fn ask_plain_each<D: DependencyProvider<NameId = N, SolvableId = S>>(
        &mut self,
        provider: &D,
        requirements: &[ConditionalRequirement],
    ) -> Result<(), Interrupted<D::Cancel>>
        requires is_true { IsTrueCache (D.universe provider.now) (cache_in self.old) }
        ensures room { KeepsTrue (D.universe provider.now) self.old self.new }
        ensures step { let u = D.universe provider.now in OnOk result
            (CallsOnly u (IsPlainlyNamedByEach u requirements.now) (notes_in self.old) (notes_in self.new)) }
        ensures refusal { IfErr result (IsStop (D.may_cancel provider.now) (IsFull (notes_in self.new))) }
    {
        for requirement in requirements {
            self.ask_plain(provider, *requirement)?;
        }
        Ok(())
    }

    /// Reads these requirements of the root or of a solvable.
    fn read_requirements<D: DependencyProvider<NameId = N, SolvableId = S>>(
        &mut self,
        provider: &D,
        chosen: &IndexSet<S>,
        by: By<S>,
        requirements: &[ConditionalRequirement],
    ) -> Result<(), Interrupted<D::Cancel>>
        requires is_true { IsTrueCache (D.universe provider.now) (cache_in self.old) }
        requires encoding { let u = D.universe provider.now in IsEncodingOf u (HasRequirements u by requirements.now) (notes_in self.old) }
        ensures room { KeepsTrue (D.universe provider.now) self.old self.new }
        ensures step { OnOk result
            (IsRequirementsStep (D.universe provider.now) chosen.now.keys by requirements.now (notes_in self.old) (notes_in self.new)) }
        ensures read { OnOk result (All
            (IsReadRequirement (D.universe provider.now) (notes_in self.new).kinds (IsLeft (notes_in self.new)) by) requirements.now) }
        ensures refusal { IfErr result (IsStop (D.may_cancel provider.now) (IsFull (notes_in self.new))) }
    {
        for requirement in requirements {
            self.read_requirement(provider, chosen, by, *requirement)?;
        }
        Ok(())
    }

    /// Reads these constraints of the root or of a solvable.
    fn read_constraints<D: DependencyProvider<NameId = N, SolvableId = S>>(
        &mut self,
        provider: &D,
        by: By<S>,
        constraints: &[VersionSetId],
    ) -> Result<(), Interrupted<D::Cancel>>
        requires is_true { IsTrueCache (D.universe provider.now) (cache_in self.old) }
        requires encoding { let u = D.universe provider.now in IsEncodingOf u (HasConstraints u by constraints.now) (notes_in self.old) }
        ensures room { KeepsTrue (D.universe provider.now) self.old self.new }
        ensures step { OnOk result (IsConstraintsStep (D.universe provider.now) by constraints.now (notes_in self.old) (notes_in self.new)) }
        ensures read { OnOk result (All (IsConstraintRead (D.universe provider.now) (notes_in self.new).kinds by) constraints.now) }
        ensures asked { OnOk result (AreNamesAsked (D.universe provider.now) (notes_in self.new) constraints.now) }
        ensures refusal { IfErr result (IsStop (D.may_cancel provider.now) (IsFull (notes_in self.new))) }
    {
        for version_set in constraints {
            self.read_constraint(provider, by, *version_set)?;
        }
        Ok(())
    }

    /// Reads the requirements and the constraints of the root or of a solvable.
    ///
    /// Before, it asks the packages of the constraints and of the requirements without a condition.
    fn read_demands<D: DependencyProvider<NameId = N, SolvableId = S>>(
        &mut self,
        provider: &D,
        chosen: &IndexSet<S>,
        by: By<S>,
        demands: Demands<'_>,
    ) -> Result<(), Interrupted<D::Cancel>>
        requires is_true { IsTrueCache (D.universe provider.now) (cache_in self.old) }
        requires encoding { let u = D.universe provider.now in IsEncodingOf u (λ root. demands_by u root by ≡ demands_in demands) (notes_in self.old) }
        ensures room { KeepsTrue (D.universe provider.now) self.old self.new }
        ensures step { OnOk result
            (IsDemandsStep (D.universe provider.now) chosen.now.keys by (demands_in demands.entry) (notes_in self.old) (notes_in self.new)) }
        ensures read { OnOk result (AreDemandsRead (D.universe provider.now) (notes_in self.new) by (demands_in demands.entry)) }
        ensures refusal { IfErr result (IsStop (D.may_cancel provider.now) (IsFull (notes_in self.new))) }
    {
        self.ask_plain_each(provider, demands.requirements)?;
        self.ask_each(provider, demands.constraints)?;
        self.read_requirements(provider, chosen, by, demands.requirements)?;
        self.read_constraints(provider, by, demands.constraints)?;
        Ok(())
    }

    /// Reads the requirements and the constraints of a solvable, or forbids it if they are unknown.
    fn read_solvable<D: DependencyProvider<NameId = N, SolvableId = S>>(
        &mut self,
        provider: &D,
        chosen: &IndexSet<S>,
        solvable: S,
    ) -> Result<(), Interrupted<D::Cancel>>
        requires is_true { IsTrueCache (D.universe provider.now) (cache_in self.old) }
        requires encoding { IsEncodingOf (D.universe provider.now) (λ root. ⊤) (notes_in self.old) }
        ensures room { KeepsTrue (D.universe provider.now) self.old self.new }
        ensures step { OnOk result (IsSolvableStep (D.universe provider.now) chosen.now.keys solvable (notes_in self.old) (notes_in self.new)) }
        ensures read { OnOk result (AreNeedsRead (D.universe provider.now) (notes_in self.new) solvable ((D.universe provider.now).needs solvable)) }
        ensures refusal { IfErr result (IsStop (D.may_cancel provider.now) (IsFull (notes_in self.new))) }
    {
        self.cache.fetch_dependencies(provider, solvable)?;
        match self.cache.dependencies(solvable) {
            Dependencies::Unknown(reason) => {
                let reason = *reason;
                self.forbid_unknown(provider, solvable, reason)?;
                Ok(())
            }
            Dependencies::Known(known) => {
                let requirements = Vec::from_slice(self.alloc, &known.requirements)?;
                let constraints = Vec::from_slice(self.alloc, &known.constrains)?;
                let demands = Demands {
                    requirements: &requirements,
                    constraints: &constraints,
                };
                self.read_demands(provider, chosen, By::Solvable(solvable), demands)?;
                Ok(())
            }
        }
    }

    /// Reads a solvable, if it was not read before.
    pub(super) fn read_new<D: DependencyProvider<NameId = N, SolvableId = S>>(
        &mut self,
        provider: &D,
        chosen: &IndexSet<S>,
        solvable: S,
    ) -> Result<(), Interrupted<D::Cancel>>
        requires is_true { IsTrueCache (D.universe provider.now) (cache_in self.old) }
        requires encoding { IsEncodingOf (D.universe provider.now) (λ root. ⊤) (notes_in self.old) }
        requires known { Contains (notes_in self.old).origins (SolvableOrigin solvable) }
        ensures room { KeepsTrue (D.universe provider.now) self.old self.new }
        ensures reading { OnOk result (IsReadingOf (D.universe provider.now) chosen.now.keys (λ s. solvable ≡ s) (notes_in self.old) (notes_in self.new)) }
        ensures here { OnOk result (Contains (notes_in self.new).read solvable) }
        ensures more { OnOk result (IsMoreOrSame (notes_in self.old) (notes_in self.new)) }
        ensures refusal { IfErr result (IsStop (D.may_cancel provider.now) (IsFull (notes_in self.new))) }
    {
        if is_among(&self.read, &solvable) {
            return Ok(());
        }
        self.read_solvable(provider, chosen, solvable)?;
        append(&mut self.read, solvable)?;
        Ok(())
    }

    /// Reads each new chosen solvable from this place on. Returns whether any solvable was new.
    fn read_each<D: DependencyProvider<NameId = N, SolvableId = S>>(
        &mut self,
        provider: &D,
        chosen: &IndexSet<S>,
        from: usize,
    ) -> Result<bool, Interrupted<D::Cancel>>
        requires is_true { IsTrueCache (D.universe provider.now) (cache_in self.old) }
        requires half { IsHalfReading (D.universe provider.now) (notes_in self.old) }
        requires known { All (λ s. Contains (notes_in self.old).origins (SolvableOrigin s)) chosen.now.keys }
        requires within { from ≤ length chosen.now.keys }
        ensures room { KeepsTrue (D.universe provider.now) self.old self.new }
        ensures reading { let set = chosen.now.keys in OnOk result
            (IsReadingOf (D.universe provider.now) set (Contains set) (notes_in self.old) (notes_in self.new)) }
        ensures here { OnOk result (All (Contains (notes_in self.new).read) (drop from chosen.now.keys)) }
        ensures any_new { IfOk result (HasRead (notes_in self.old) (notes_in self.new)) }
        ensures fit { OnOk result (HasReadKnown (notes_in self.new) → length (notes_in self.new).read ≤ length (notes_in self.new).origins) }
        ensures refusal { IfErr result (IsStop (D.may_cancel provider.now) (IsFull (notes_in self.new))) }
    {
        let before = self.read.len();
        for place in from..chosen.len() {
            let solvable = chosen.as_slice()[place];
            self.read_new(provider, chosen, solvable)?;
        }
        if before < self.read.len() {
            return Ok(true);
        }
        Ok(false)
    }

    /// Adds the variable of the root, and the clause that makes it true.
    fn install_root<D: DependencyProvider<NameId = N, SolvableId = S>>(
        &mut self,
        provider: &D,
    ) -> Result<(), Exhausted>
        requires nothing_read { IsUnread (notes_in self.old) }
        ensures room { KeepsRoom self.old self.new }
        ensures installed { OnOk result ((root : DemandsOf) → IsEncoding (D.universe provider.now) root (notes_in self.new)) }
        ensures nothing { OnOk result (IsBare (notes_in self.new)) }
        ensures exempt { OnOk result ((notes_in self.new).exempt ≡ (notes_in self.old).exempt) }
        ensures refusal { IfErr result (IsShortage (IsFull (notes_in self.new))) }
    {
        self.table.variables.intern(Origin::Root)?;
        self.add(ClauseKind::InstallRoot)?;
        Ok(())
    }

    /// Reads the root: adds the clauses of its requirements and constraints, and defers the disjuncts of its
    /// conditions.
    ///
    /// It also reads candidates whose dependencies are available. The packages that it asks are exactly those that
    /// constraints and requirements without a condition name, of the root or of a solvable that was read.
    pub fn read_root<D: DependencyProvider<NameId = N, SolvableId = S>>(
        &mut self,
        provider: &D,
        requirements: &[ConditionalRequirement],
        constraints: &[VersionSetId],
    ) -> Result<(), Interrupted<D::Cancel>>
        requires is_true { IsTrueCache (D.universe provider.now) (cache_in self.old) }
        requires nothing_read { IsUnread (notes_in self.old) }
        ensures read { let root = demands_with requirements.now constraints.now in OnOk result
            (IsReadSoFar (D.universe provider.now) root [] (notes_in self.new)) }
        ensures asked { let root = demands_with requirements.now constraints.now in OnOk result
            (AsksCalled (D.universe provider.now) [] root [] (notes_in self.new)) }
        ensures near { let root = demands_with requirements.now constraints.now in OnOk result
            (AreNearAny (D.universe provider.now) root (notes_in self.new)) }
        ensures reads { OnOk result ((s : S) → Contains (notes_in self.new).read s → IsListedFrom (D.universe provider.now) (notes_in self.new) 0 s) }
        ensures hinted { OnOk result (AreHintsRead (D.universe provider.now) 0 (notes_in self.new)) }
        ensures exempt { OnOk result ((notes_in self.new).exempt ≡ (notes_in self.old).exempt) }
        ensures limits { KeepsTrue (D.universe provider.now) self.old self.new }
        ensures refusal { IfErr result (IsStop (D.may_cancel provider.now) (IsFull (notes_in self.new))) }
    {
        self.install_root(provider)?;
        let none = IndexSet::new(self.alloc);
        let demands = Demands {
            requirements,
            constraints,
        };
        self.read_demands(provider, &none, By::Root, demands)?;
        self.read_hinted(provider, &none, 0)?;
        Ok(())
    }

    /// Reads the chosen solvables from this place on, and encodes the deferred disjuncts that are now met.
    ///
    /// It reads each new solvable, each candidate of a new requirement clause whose dependencies are available, and no
    /// other. The packages that it asks are exactly those that the root or a solvable that was read demands in the
    /// chosen set.
    pub fn read_chosen<D: DependencyProvider<NameId = N, SolvableId = S>>(
        &mut self,
        provider: &D,
        chosen: &IndexSet<S>,
        from: usize,
    ) -> Result<Progress, Interrupted<D::Cancel>>
        requires is_true { IsTrueCache (D.universe provider.now) (cache_in self.old) }
        requires reading { IsReading (D.universe provider.now) (take from chosen.now.keys) (notes_in self.old) }
        requires known { All (λ s. Contains (notes_in self.old).origins (SolvableOrigin s)) chosen.now.keys }
        requires within { from ≤ length chosen.now.keys }
        ensures read { let set = chosen.now.keys in OnOk result
            (ReadsOn (D.universe provider.now) set (take from set) (notes_in self.old) (notes_in self.new)) }
        ensures asked { let set = chosen.now.keys in OnOk result
            (AsksOn (D.universe provider.now) set (take from set) (notes_in self.old) (notes_in self.new)) }
        ensures near { let set = chosen.now.keys in OnOk result
            (StaysNear (D.universe provider.now) set (take from set) (notes_in self.old) (notes_in self.new)) }
        ensures hinted { OnOk result (AreHintsRead (D.universe provider.now) (length (notes_in self.old).kinds) (notes_in self.new)) }
        ensures more { OnOk result (IsReadMore (D.universe provider.now) chosen.now.keys (notes_in self.old) (notes_in self.new)) }
        ensures progress { IfOk result (IsProgress (notes_in self.old) (notes_in self.new)) }
        ensures fit { OnOk result (length (notes_in self.new).read ≤ (notes_in self.new).variable_limit) }
        ensures limits { KeepsTrue (D.universe provider.now) self.old self.new }
        ensures refusal { IfErr result (IsStop (D.may_cancel provider.now) (IsFull (notes_in self.new))) }
    {
        let clauses = self.clause_count();
        let read = self.read_each(provider, chosen, from)?;
        let fired = self.fire_deferred(provider, chosen, from)?;
        let hinted = self.read_hinted(provider, chosen, clauses)?;
        Ok(progress_of(read | hinted, fired))
    }
}
