//! Requests: the declarations of an input, and its problem.

ghost use Rattle.std.specs.Prelude.{◌≡◌, IfOk, IfErr, Some, OnOk, ◌≢◌, false, length, map, true};
ghost use Rattle.resolver_clause_store.specs.Laws.{HasLawfulIds, HasLawfulPackages};
ghost use Rattle.resolve.specs.declared.request.InputError.TheVariants.{Exhausted as RanOut};
ghost use Rattle.resolve.specs.Catalogs.{catalog_universe, tables_in};
ghost use Rattle.resolve.specs.Inputs.{IsInput, RefusesInput};
ghost use Rattle.resolve.specs.InputsView.{ReadsLine, RefusesLine, input_in};
ghost use Rattle.resolve.specs.KnownWords.{AreKnown};
ghost use Rattle.resolve.specs.Meaning.{no_input};
ghost use Rattle.resolve.specs.Tables.{AreTables};

use crate::catalog::Catalog;
use crate::condition::ConditionStep;
use crate::ids::SolvableId;
use crate::lines::{Line, Lines};
use crate::statement::{LineError, Statement, parse_line};
use crate::words::{SolvableText, Spec};
use known::KnownWords;
use resolver_clause_store::{
    ConditionId, ConditionalRequirement, Exhausted, LogicalOperator, Requirement, SoftRequirement,
    VersionSetId,
};
use std::alloc::Global;

/// The declarations of an input, and the problem to solve.
#[derive(Drop)]
pub struct Request {
    alloc: Global,
    pub catalog: Catalog,
    pub requirements: Vec<ConditionalRequirement>,
    pub constraints: Vec<VersionSetId>,
    /// The soft requirements, in the order of their statements.
    pub soft_requirements: Vec<SoftRequirement<SolvableId>>,
    /// The solvable of the last statement that names a solvable. Statements about the same solvable often follow each
    /// other.
    last: Option<SolvableId>,
}

/// Why an input gives no request.
#[derive(Clone, Copy, Debug, PartialEq, Eq)]
pub enum InputError {
    /// The line of the first bad statement, counted from 1.
    BadStatement(usize),

    /// Memory or ids ran out.
    Exhausted(Exhausted),
}

/// Reads the statements of an input, in order.
pub fn read_request(alloc: Global, input: &[u8]) -> Result<Request, InputError>
    ensures ids { IfOk result (λ request. HasLawfulIds (catalog_universe request.catalog)) }
    ensures packages { IfOk result (λ request. HasLawfulPackages (catalog_universe request.catalog)) }
    ensures input { IfOk result (λ request. IsInput input.now (input_in request)) }
    ensures bad { IfErr result (RefusesInput input.now) }
{
    let mut request = Request::new(alloc);
    let mut known = KnownWords::new(alloc);
    let read = read_lines(&mut request, &mut known, input);
    known.shrink();
    drop(known);
    match read {
        Ok(()) => Ok(request),
        Err(e) => {
            drop(request);
            Err(e)
        }
    }
}

fn read_lines<'a>(
    request: &mut Request,
    known: &mut KnownWords<'a>,
    input: &'a [u8],
) -> Result<(), InputError>
    requires start { input_in request.old ≡ no_input }
    requires tables { AreTables (tables_in request.old.catalog) }
    requires known { AreKnown known.old (tables_in request.old.catalog) }
    ensures input { OnOk result (IsInput input.now (input_in request.new)) }
    ensures bad { IfErr result (RefusesInput input.now) }
{
    for line in Lines::new(input) {
        read_any_line(request, known, line)?;
    }
    Ok(())
}

/// Reads a line in the fast way, or else in the slow one.
fn read_any_line<'a>(
    request: &mut Request,
    known: &mut KnownWords<'a>,
    line: Line<'a>,
) -> Result<(), InputError>
    requires tables { AreTables (tables_in request.old.catalog) }
    requires known { AreKnown known.old (tables_in request.old.catalog) }
    ensures tables { OnOk result (AreTables (tables_in request.new.catalog)) }
    ensures known { OnOk result (AreKnown known.new (tables_in request.new.catalog)) }
    ensures read { OnOk result (ReadsLine line.entry.bytes.now (input_in request.old) (input_in request.new)) }
    ensures bad { IfErr result (RefusesLine line.entry.bytes.now line.entry.number (input_in request.old)) }
{
    if request.read_short_line(known, line.bytes)? {
        return Ok(());
    }
    request.read_line(line.number, line.bytes)
}

impl From<Exhausted> for InputError {
    ghost from_gives = { λ e error. error ≡ RanOut e };

    fn from(e: Exhausted) -> InputError {
        InputError::Exhausted(e)
    }
}

impl Request {
    ghost use Rattle.resolve.specs.Catalogs.{tables_in};
    ghost use Rattle.resolve.specs.Evaluations.{Evaluates, Joins, Makes, evaluated};
    ghost use Rattle.resolve.specs.Guards.{AreNeed, postfix, step_seen};
    ghost use Rattle.resolve.specs.InputsView.{AddsStatement, ReadsLine, RefusesLine, input_in};
    ghost use Rattle.resolve.specs.StatementsSaid.{IsStatementOf, named_of};
    ghost use Rattle.resolve.specs.Meaning.{last_condition, need_in, no_input, set_id, solvable_in, union_id, with_guard, with_need, with_set, with_union};
    ghost use Rattle.resolve.specs.Said.{Guard, Need, Said, constrains_all, constrains_for, declares, excludes, favors, locks, requires_any, requires_for};
    ghost use Rattle.resolve.specs.Said.{soft_of, soft_one, unknown_for};
    ghost use Rattle.resolve.specs.Unions.{wanted_of};
    ghost use Rattle.resolve.specs.Tables.{AreTables};

    fn new(alloc: Global) -> Request
        ensures input { input_in result ≡ no_input }
        ensures tables { AreTables (tables_in result.catalog) }
    {
        Request {
            alloc,
            catalog: Catalog::new(alloc),
            requirements: Vec::new(alloc),
            constraints: Vec::new(alloc),
            soft_requirements: Vec::new(alloc),
            last: None,
        }
    }

    fn read_line(&mut self, number: usize, line: &[u8]) -> Result<(), InputError>
        requires { AreTables (tables_in self.old.catalog) }
        ensures tables { OnOk result (AreTables (tables_in self.new.catalog)) }
        ensures read { OnOk result (ReadsLine line.now (input_in self.old) (input_in self.new)) }
        ensures bad { IfErr result (RefusesLine line.now number (input_in self.old)) }
    {
        match parse_line(self.alloc, line) {
            Ok(None) => Ok(()),
            Ok(Some(statement)) => {
                if !self.add(statement)? {
                    return Err(InputError::BadStatement(number));
                }
                Ok(())
            }
            Err(LineError::Bad) => Err(InputError::BadStatement(number)),
            Err(LineError::Exhausted(e)) => Err(InputError::Exhausted(e)),
        }
    }

    /// Adds a statement. Returns `false` if it is bad; it then declares and requires nothing.
    fn add(&mut self, statement: Statement<'_>) -> Result<bool, Exhausted>
        requires { AreTables (tables_in self.old.catalog) }
        ensures adds { (said : Said) → IsStatementOf statement.entry said → IfOk result (AddsStatement self.old self.new said) }
        ensures tables { (said : Said) → IsStatementOf statement.entry said → IfOk result (λ added. added ≡ true → AreTables (tables_in self.new.catalog)) }
    {
        match statement {
            Statement::Package(solvable) => self.declare(solvable),
            Statement::Requires {
                solvable,
                union,
                condition,
            } => self.add_requirement(solvable, &union, &condition),
            Statement::Constrains { solvable, spec } => self.add_constraint(solvable, spec),
            Statement::Unknown { solvable, reason } => self.set_unknown(solvable, reason),
            Statement::Favor(solvable) => Ok(self.favor(solvable)),
            Statement::Lock(solvable) => Ok(self.lock(solvable)),
            Statement::Exclude { solvable, reason } => self.exclude(solvable, reason),
            Statement::Require { union, condition } => self.require(&union, &condition),
            Statement::Constrain(spec) => self.constrain(spec),
            Statement::Soft(solvable) => self.add_soft_requirement(solvable),
            Statement::SoftMatching(spec) => self.add_soft_version_set(spec),
        }
    }

    /// Returns the solvable, if it was declared.
    fn find(&mut self, solvable: SolvableText<'_>) -> Option<SolvableId>
        ensures only { self.new ≡ record self.old { last = self.new.last } }
        ensures exact { AreTables (tables_in self.old.catalog) → result ≡ solvable_in (tables_in self.old.catalog)
            (named_of solvable.entry) }
    {
        if let Some(last) = self.last {
            if self
                .catalog
                .is_version(last, solvable.name, solvable.version)
            {
                return Some(last);
            }
        }
        self.last = self.catalog.find_solvable(solvable.name, solvable.version);
        self.last
    }

    fn declare(&mut self, solvable: SolvableText<'_>) -> Result<bool, Exhausted>
        requires { AreTables (tables_in self.old.catalog) }
        ensures adds { IfOk result (AddsStatement self.old self.new (declares (named_of solvable.entry))) }
        ensures refused { IfOk result (λ added. added ≡ false → input_in self.new ≡ input_in self.old) }
        ensures tables { OnOk result (AreTables (tables_in self.new.catalog)) }
    {
        let name = self.catalog.name(solvable.name)?;
        self.catalog.packages.add_version(name, solvable.version)
    }

    fn add_requirement(
        &mut self,
        solvable: SolvableText<'_>,
        union: &[Spec<'_>],
        condition: &[ConditionStep<'_>],
    ) -> Result<bool, Exhausted>
        requires { AreTables (tables_in self.old.catalog) }
        ensures { (need : Need) → AreNeed union.entry.now condition.entry.now need →
            IfOk result (AddsStatement self.old self.new (requires_for (named_of solvable.entry) need)) }
    {
        let Some(solvable) = self.find(solvable) else {
            return Ok(false);
        };
        let Some(requirement) = self.requirement(union, condition)? else {
            return Ok(false);
        };
        self.catalog
            .packages
            .add_requirement(solvable, requirement)?;
        Ok(true)
    }

    fn add_constraint(
        &mut self,
        solvable: SolvableText<'_>,
        spec: Spec<'_>,
    ) -> Result<bool, Exhausted>
        requires { AreTables (tables_in self.old.catalog) }
        ensures { IfOk result (AddsStatement self.old self.new (constrains_for (named_of solvable.entry) (wanted_of spec.entry))) }
    {
        let Some(solvable) = self.find(solvable) else {
            return Ok(false);
        };
        let version_set = self.version_set(spec)?;
        self.catalog.packages.add_constraint(solvable, version_set)?;
        Ok(true)
    }

    fn set_unknown(&mut self, solvable: SolvableText<'_>, reason: &str) -> Result<bool, Exhausted>
        requires { AreTables (tables_in self.old.catalog) }
        ensures { IfOk result (AddsStatement self.old self.new (unknown_for (named_of solvable.entry) reason.entry.now)) }
    {
        let Some(solvable) = self.find(solvable) else {
            return Ok(false);
        };
        let reason = self.catalog.string(reason)?;
        Ok(self.catalog.packages.set_unknown(solvable, reason))
    }

    fn favor(&mut self, solvable: SolvableText<'_>) -> bool
        requires { AreTables (tables_in self.old.catalog) }
        ensures { AddsStatement self.old self.new (favors (named_of solvable.entry)) result }
    {
        match self.find(solvable) {
            None => false,
            Some(solvable) => self.catalog.packages.favor(solvable),
        }
    }

    fn lock(&mut self, solvable: SolvableText<'_>) -> bool
        requires { AreTables (tables_in self.old.catalog) }
        ensures { AddsStatement self.old self.new (locks (named_of solvable.entry)) result }
    {
        match self.find(solvable) {
            None => false,
            Some(solvable) => self.catalog.packages.lock(solvable),
        }
    }

    fn exclude(&mut self, solvable: SolvableText<'_>, reason: &str) -> Result<bool, Exhausted>
        requires { AreTables (tables_in self.old.catalog) }
        ensures { IfOk result (AddsStatement self.old self.new (excludes (named_of solvable.entry) reason.entry.now)) }
    {
        let Some(solvable) = self.find(solvable) else {
            return Ok(false);
        };
        let reason = self.catalog.string(reason)?;
        self.catalog.packages.exclude(solvable, reason)
    }

    fn require(
        &mut self,
        union: &[Spec<'_>],
        condition: &[ConditionStep<'_>],
    ) -> Result<bool, Exhausted>
        ensures { (need : Need) → AreNeed union.entry.now condition.entry.now need → IfOk result (AddsStatement self.old self.new (requires_any need)) }
    {
        let Some(requirement) = self.requirement(union, condition)? else {
            return Ok(false);
        };
        self.requirements.push(requirement)?;
        Ok(true)
    }

    fn constrain(&mut self, spec: Spec<'_>) -> Result<bool, Exhausted>
        ensures { IfOk result (AddsStatement self.old self.new (constrains_all (wanted_of spec.entry))) }
    {
        let version_set = self.version_set(spec)?;
        self.constraints.push(version_set)?;
        Ok(true)
    }

    /// Adds a soft requirement of a solvable. Returns `false` if it was not declared.
    fn add_soft_requirement(&mut self, solvable: SolvableText<'_>) -> Result<bool, Exhausted>
        requires { AreTables (tables_in self.old.catalog) }
        ensures { IfOk result (AddsStatement self.old self.new (soft_one (named_of solvable.entry))) }
    {
        let Some(found) = self.catalog.find_solvable(solvable.name, solvable.version) else {
            return Ok(false);
        };
        self.soft_requirements
            .push(SoftRequirement::Solvable(found))?;
        Ok(true)
    }

    /// Adds a soft requirement of a version set. It is not bad if the package has no candidates.
    fn add_soft_version_set(&mut self, spec: Spec<'_>) -> Result<bool, Exhausted>
        ensures { IfOk result (AddsStatement self.old self.new (soft_of (wanted_of spec.entry))) }
    {
        let version_set = self.version_set(spec)?;
        self.soft_requirements
            .push(SoftRequirement::Matching(version_set))?;
        Ok(true)
    }

    fn version_set(&mut self, spec: Spec<'_>) -> Result<VersionSetId, Exhausted>
        ensures only { self.new ≡ record self.old { catalog = self.new.catalog } }
        ensures exact { OnOk result (tables_in self.new.catalog ≡ with_set (tables_in self.old.catalog) (wanted_of spec.entry)) }
        ensures id { IfOk result (λ id. id ≡ set_id (tables_in self.old.catalog) (wanted_of spec.entry)) }
    {
        let name = self.catalog.name(spec.name)?;
        self.catalog.version_set(name, spec.versions)
    }

    /// Returns the requirement of a union under a condition in postfix order, and `None` if the steps are no condition.
    fn requirement(
        &mut self,
        union: &[Spec<'_>],
        condition: &[ConditionStep<'_>],
    ) -> Result<Option<ConditionalRequirement>, Exhausted>
        ensures only { self.new ≡ record self.old { catalog = self.new.catalog } }
        ensures need { (need : Need) → AreNeed union.entry.now condition.entry.now need →
            OnOk result (tables_in self.new.catalog ≡ with_need (tables_in self.old.catalog) need) }
        ensures id { (need : Need) → AreNeed union.entry.now condition.entry.now need →
            IfOk result (λ made. made ≡ Some (need_in (tables_in self.old.catalog) need)) }
    {
        let requirement = self.union(union)?;
        if condition.is_empty() {
            return Ok(Some(ConditionalRequirement {
                condition: None,
                requirement,
            }));
        }
        let Some(condition) = self.condition(condition)? else {
            return Ok(None);
        };
        Ok(Some(ConditionalRequirement {
            condition: Some(condition),
            requirement,
        }))
    }

    /// Returns the requirement of some specs. A single spec gives a version set, and no union.
    fn union(&mut self, union: &[Spec<'_>]) -> Result<Requirement, Exhausted>
        ensures only { self.new ≡ record self.old { catalog = self.new.catalog } }
        ensures exact { OnOk result (tables_in self.new.catalog ≡ with_union (tables_in self.old.catalog) (map wanted_of union.entry.now)) }
        ensures id { IfOk result (λ requirement. requirement ≡ union_id (tables_in self.old.catalog) (map wanted_of union.entry.now)) }
    {
        if let [spec] = union {
            return Ok(Requirement::Single(self.version_set(*spec)?));
        }
        self.joint_union(union)
    }

    /// Returns the requirement of no spec, or of two or more.
    fn joint_union(&mut self, union: &[Spec<'_>]) -> Result<Requirement, Exhausted>
        requires { length union.now ≢ 1 }
        ensures only { self.new ≡ record self.old { catalog = self.new.catalog } }
        ensures exact { OnOk result (tables_in self.new.catalog ≡ with_union (tables_in self.old.catalog) (map wanted_of union.entry.now)) }
        ensures id { IfOk result (λ requirement. requirement ≡ union_id (tables_in self.old.catalog) (map wanted_of union.entry.now)) }
    {
        let mut members = Vec::new(self.alloc);
        for spec in union {
            members.push(self.version_set(*spec)?)?;
        }
        Ok(Requirement::Union(self.catalog.union(members)?))
    }

    /// Returns the condition of steps in postfix order, and `None` if they are no condition.
    fn condition(&mut self, steps: &[ConditionStep<'_>]) -> Result<Option<ConditionId>, Exhausted>
        ensures only { self.new ≡ record self.old { catalog = self.new.catalog } }
        ensures exact { (g : Guard) → map step_seen steps.entry.now ≡ postfix g →
            OnOk result (tables_in self.new.catalog ≡ with_guard (tables_in self.old.catalog) g) }
        ensures id { (g : Guard) → map step_seen steps.entry.now ≡ postfix g →
            IfOk result (λ made. made ≡ Some (last_condition (with_guard (tables_in self.old.catalog) g))) }
    {
        let mut aside = Vec::new(self.alloc);
        for step in steps {
            let Some(condition) = self.condition_step(&mut aside, *step)? else {
                return Ok(None);
            };
            aside.push(condition)?;
        }
        Ok(aside.pop())
    }

    /// Makes the condition of one step, from those that are set aside. Returns `None` if one of its parts is missing.
    fn condition_step(
        &mut self,
        aside: &mut Vec<ConditionId>,
        step: ConditionStep<'_>,
    ) -> Result<Option<ConditionId>, Exhausted>
        ensures only { self.new ≡ record self.old { catalog = self.new.catalog } }
        ensures evaluates { IfOk result (Makes (Evaluates (step_seen step.entry)) (evaluated (tables_in self.old.catalog) aside.old.items)
            (tables_in self.new.catalog) aside.new.items) }
    {
        match step {
            ConditionStep::Version(spec) => {
                let version_set = self.version_set(spec)?;
                Ok(Some(self.catalog.conditions.add_on(version_set)?))
            }
            ConditionStep::And => self.join(aside, LogicalOperator::And),
            ConditionStep::Or => self.join(aside, LogicalOperator::Or),
        }
    }

    /// Joins the two topmost of the conditions that are set aside. Returns `None` if there are no two.
    fn join(
        &mut self,
        aside: &mut Vec<ConditionId>,
        operator: LogicalOperator,
    ) -> Result<Option<ConditionId>, Exhausted>
        ensures only { self.new ≡ record self.old { catalog = self.new.catalog } }
        ensures joins { IfOk result (Makes (Joins operator) (evaluated (tables_in self.old.catalog) aside.old.items)
            (tables_in self.new.catalog) aside.new.items) }
    {
        let Some(right) = aside.pop() else {
            return Ok(None);
        };
        let Some(left) = aside.pop() else {
            return Ok(None);
        };
        let joined = self.catalog.conditions.add_of(operator, left, right)?;
        Ok(joined)
    }
}

mod known;
#[cfg(test)]
mod tests;
