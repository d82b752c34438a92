//! The clauses of a list of rules.

ghost use Rattle.std.specs.Prelude.{[], ◌∷◌, ◌++◌, ◌≡◌, ◌≤◌, IfOk, OnOk, Some, false, length, slice_get};
ghost use Rattle.std.specs.List.{AllZip};
ghost use Rattle.resolver_clause_store.specs.Laws.{IsIdentity};
ghost use Rattle.resolver_clause_store.specs.Variables.{AreDistinct, Keeps};
ghost use Rattle.resolvo.specs.AddedLines.{AddsLines};
ghost use Rattle.resolvo.specs.RuleClauses.{ClausesDecide, DecideRules, IsLiteralOf, all_lines, requirer_atoms, requirement_line, requirement_lines, line_atom, bit_lines};
ghost use Rattle.resolvo.specs.RuleClauses.{candidate_atoms, condition_lines, list_atoms, member_lines, plain, rule_lines};
ghost use Rattle.resolvo.specs.declared.minimal.rule_clauses.Proposition.TheVariants.{Member};

use crate::minimal::rule_codes::{codes_of, count_of, place_among};
use indexmap::IndexSet;
use resolver_clause_store::{By, Exhausted, Literal, Rule, Variable};
use resolver_encoding::has_digit;
use std::alloc::{AllocError, Global};
use std::hash::Hash;
use std::mem::replace;

/// What a variable stands for.
#[derive(Clone, Copy, PartialEq, Eq, Hash)]
pub enum Proposition<N, S> {
    /// The solvable is in the set.
    Member(S),
    /// The set has a member of this list of the rule's condition.
    Listed { rule: usize, list: usize },
    /// A bit of the code of the instance of this name in the set.
    Bit { name: N, index: u32 },
}

/// A proposition, or its negation.
#[derive(Clone, Copy)]
pub struct Atom<N, S> {
    pub proposition: Proposition<N, S>,
    /// Whether the atom is the proposition itself.
    pub positive: bool,
}

/// A clause of a rule.
#[derive(Drop)]
pub struct RuleClause {
    /// The place of the rule.
    pub rule: usize,
    pub literals: Vec<Literal>,
    /// Whether its candidates are to be tried, in order.
    pub is_requirement: bool,
}

/// The clauses of rules decide whether a set obeys some of the rules.
///
/// The call does nothing: its contract is the law.
fn clauses_decide_rules<N: Eq, S: Eq>()
    requires names { IsIdentity N.eq }
    requires solvables { IsIdentity S.eq }
    ensures { ClausesDecide N S }
{}

/// The clauses of a list of rules.
#[derive(Drop)]
pub struct RuleClauses {
    /// The number of variables.
    pub variables: usize,
    pub clauses: Vec<RuleClause>,
}

/// The clauses that were made so far, and what their variables stand for.
#[derive(Drop)]
pub struct RuleDraft<N: Copy + Eq + Hash + Drop, S: Copy + Eq + Hash + Drop> {
    pub propositions: IndexSet<Proposition<N, S>>,
    pub clauses: Vec<RuleClause>,
}

/// Returns the variable of a proposition, which is added if it is new.
fn intern<N: Copy + Eq + Hash + Drop, S: Copy + Eq + Hash + Drop>(
    propositions: &mut IndexSet<Proposition<N, S>>,
    proposition: Proposition<N, S>,
) -> Result<Variable, Exhausted>
    requires names { IsIdentity N.eq }
    requires solvables { IsIdentity S.eq }
    ensures keeps { OnOk result (Keeps propositions.old.keys propositions.new.keys) }
    ensures here { IfOk result (λ v. slice_get propositions.new.keys v ≡ Some proposition) }
{
    let place = place_among(propositions, proposition)?;
    if place >= 1 << 31 {
        return Err(Exhausted::Ids);
    }
    Ok(Variable::new(place as u32))
}

/// Returns the number of variables.
fn variable_count<N: Copy + Eq + Hash + Drop, S: Copy + Eq + Hash + Drop>(
    propositions: &IndexSet<Proposition<N, S>>,
) -> usize
    requires names { IsIdentity N.eq }
    requires solvables { IsIdentity S.eq }
    ensures len { result ≡ length propositions.now.keys }
    ensures distinct { AreDistinct propositions.now.keys }
{
    count_of(propositions)
}

/// Returns the literal of an atom.
fn literal_of<N: Copy + Eq + Hash + Drop, S: Copy + Eq + Hash + Drop>(
    propositions: &mut IndexSet<Proposition<N, S>>,
    atom: Atom<N, S>,
) -> Result<Literal, Exhausted>
    requires names { IsIdentity N.eq }
    requires solvables { IsIdentity S.eq }
    ensures keeps { OnOk result (Keeps propositions.old.keys propositions.new.keys) }
    ensures literal { IfOk result (λ made. IsLiteralOf propositions.new.keys made atom) }
{
    let variable = intern(propositions, atom.proposition)?;
    Ok(Literal::new(variable, atom.positive))
}

/// Returns the literals of atoms.
fn literals_of<N: Copy + Eq + Hash + Drop, S: Copy + Eq + Hash + Drop>(
    alloc: Global,
    propositions: &mut IndexSet<Proposition<N, S>>,
    atoms: &[Atom<N, S>],
) -> Result<Vec<Literal>, Exhausted>
    requires names { IsIdentity N.eq }
    requires solvables { IsIdentity S.eq }
    ensures keeps { OnOk result (Keeps propositions.old.keys propositions.new.keys) }
    ensures literals { IfOk result (λ made. AllZip (IsLiteralOf propositions.new.keys) made.items atoms.now) }
{
    let mut literals = Vec::new(alloc);
    for atom in atoms {
        literals.push(literal_of(propositions, *atom)?)?;
    }
    Ok(literals)
}

/// Appends the clause of these atoms, whose candidates are to be tried.
fn add_requirement_clause<N: Copy + Eq + Hash + Drop, S: Copy + Eq + Hash + Drop>(
    draft: &mut RuleDraft<N, S>,
    rule: usize,
    atoms: &[Atom<N, S>],
) -> Result<(), Exhausted>
    requires names { IsIdentity N.eq }
    requires solvables { IsIdentity S.eq }
    ensures { OnOk result (AddsLines draft.old draft.new (requirement_line rule atoms.now ∷ [])) }
{
    let literals = literals_of(*draft.clauses.allocator(), &mut draft.propositions, atoms)?;
    draft.clauses.push(RuleClause {
        rule,
        literals,
        is_requirement: true,
    })?;
    Ok(())
}

/// Appends the clause of one atom.
fn add_single<N: Copy + Eq + Hash + Drop, S: Copy + Eq + Hash + Drop>(
    draft: &mut RuleDraft<N, S>,
    rule: usize,
    atom: Atom<N, S>,
) -> Result<(), Exhausted>
    requires names { IsIdentity N.eq }
    requires solvables { IsIdentity S.eq }
    ensures { OnOk result (AddsLines draft.old draft.new (plain rule (atom ∷ []) ∷ [])) }
{
    let literal = literal_of(&mut draft.propositions, atom)?;
    let literals = Vec::from_slice(*draft.clauses.allocator(), &[literal])?;
    draft.clauses.push(RuleClause {
        rule,
        literals,
        is_requirement: false,
    })?;
    Ok(())
}

/// Appends the clause of two atoms.
fn add_pair<N: Copy + Eq + Hash + Drop, S: Copy + Eq + Hash + Drop>(
    draft: &mut RuleDraft<N, S>,
    rule: usize,
    first: Atom<N, S>,
    second: Atom<N, S>,
) -> Result<(), Exhausted>
    requires names { IsIdentity N.eq }
    requires solvables { IsIdentity S.eq }
    ensures { OnOk result (AddsLines draft.old draft.new (plain rule (first ∷ second ∷ []) ∷ [])) }
{
    let left = literal_of(&mut draft.propositions, first)?;
    let right = literal_of(&mut draft.propositions, second)?;
    let literals = Vec::from_slice(*draft.clauses.allocator(), &[left, right])?;
    draft.clauses.push(RuleClause {
        rule,
        literals,
        is_requirement: false,
    })?;
    Ok(())
}

/// Appends the clauses of a list's members.
fn add_members<N: Copy + Eq + Hash + Drop, S: Copy + Eq + Hash + Drop>(
    draft: &mut RuleDraft<N, S>,
    rule: usize,
    list: usize,
    members: &[S],
) -> Result<(), Exhausted>
    requires names { IsIdentity N.eq }
    requires solvables { IsIdentity S.eq }
    ensures { OnOk result (AddsLines draft.old draft.new (member_lines rule list members.now)) }
{
    for member in members {
        let absent = Atom {
            proposition: Proposition::Member(*member),
            positive: false,
        };
        let listed = Atom {
            proposition: Proposition::Listed { rule, list },
            positive: true,
        };
        add_pair(draft, rule, absent, listed)?;
    }
    Ok(())
}

/// Appends the clauses of the lists of a condition.
fn add_condition<N: Copy + Eq + Hash + Drop, S: Copy + Eq + Hash + Drop>(
    draft: &mut RuleDraft<N, S>,
    rule: usize,
    when: &[Vec<S>],
) -> Result<(), Exhausted>
    requires names { IsIdentity N.eq }
    requires solvables { IsIdentity S.eq }
    ensures { OnOk result (AddsLines draft.old draft.new (condition_lines rule 0 when.now)) }
{
    for list in 0..when.len() {
        add_members(draft, rule, list, &when[list])?;
    }
    Ok(())
}

/// Appends the clauses of an instance, one for each bit of its code.
fn add_bits<N: Copy + Eq + Hash + Drop, S: Copy + Eq + Hash + Drop>(
    draft: &mut RuleDraft<N, S>,
    rule: usize,
    name: N,
    instance: S,
    code: usize,
    width: u32,
) -> Result<(), Exhausted>
    requires names { IsIdentity N.eq }
    requires solvables { IsIdentity S.eq }
    requires width { width ≤ 64 }
    ensures { OnOk result (AddsLines draft.old draft.new (bit_lines rule name instance code width)) }
{
    for index in 0..width {
        let absent = Atom {
            proposition: Proposition::Member(instance),
            positive: false,
        };
        let bit = Atom {
            proposition: Proposition::Bit { name, index },
            positive: has_digit(code, index),
        };
        add_pair(draft, rule, absent, bit)?;
    }
    Ok(())
}

/// Appends the atom that the requirer is not in the set. The root always is, and has no atom.
fn push_requirer<N: Copy, S: Copy>(atoms: &mut Vec<Atom<N, S>>, by: By<S>) -> Result<(), AllocError>
    ensures { OnOk result (atoms.new.items ≡ atoms.old.items ++ requirer_atoms by) }
{
    match by {
        By::Root => Ok(()),
        By::Solvable(solvable) => {
            atoms.push(Atom {
                proposition: Proposition::Member(solvable),
                positive: false,
            })?;
            Ok(())
        }
    }
}

/// Appends, for each list of the rule's condition, the atom that the list has no member in the set.
fn push_lists<N: Copy, S: Copy>(
    atoms: &mut Vec<Atom<N, S>>,
    rule: usize,
    count: usize,
) -> Result<(), AllocError>
    ensures { OnOk result (atoms.new.items ≡ atoms.old.items ++ list_atoms rule count) }
{
    for list in 0..count {
        atoms.push(Atom {
            proposition: Proposition::Listed { rule, list },
            positive: false,
        })?;
    }
    Ok(())
}

/// Appends the atoms of the candidates.
fn push_candidates<N: Copy, S: Copy>(
    atoms: &mut Vec<Atom<N, S>>,
    candidates: &[S],
) -> Result<(), AllocError>
    ensures { OnOk result (atoms.new.items ≡ atoms.old.items ++ candidate_atoms candidates.now) }
{
    for candidate in candidates {
        atoms.push(Atom {
            proposition: Proposition::Member(*candidate),
            positive: true,
        })?;
    }
    Ok(())
}

/// Returns the atoms of a requirement's clause: the requirer is not in the set, a list of the condition has no member
/// there, or a candidate is there.
fn requirement_atoms<N: Copy, S: Copy>(
    alloc: Global,
    rule: usize,
    by: By<S>,
    count: usize,
    candidates: &[S],
) -> Result<Vec<Atom<N, S>>, AllocError>
    ensures { IfOk result (λ made. made.items ≡ requirer_atoms by ++ (list_atoms rule count ++ candidate_atoms candidates.now)) }
{
    let mut atoms = Vec::new(alloc);
    push_requirer(&mut atoms, by)?;
    push_lists(&mut atoms, rule, count)?;
    push_candidates(&mut atoms, candidates)?;
    Ok(atoms)
}

/// Appends the clauses of a requirement.
fn add_requirement<N: Copy + Eq + Hash + Drop, S: Copy + Eq + Hash + Drop>(
    draft: &mut RuleDraft<N, S>,
    rule: usize,
    by: By<S>,
    candidates: &[S],
    when: &[Vec<S>],
) -> Result<(), Exhausted>
    requires names { IsIdentity N.eq }
    requires solvables { IsIdentity S.eq }
    ensures { OnOk result (AddsLines draft.old draft.new (requirement_lines rule by candidates.now when.now)) }
{
    let atoms = requirement_atoms(*draft.clauses.allocator(), rule, by, when.len(), candidates)?;
    add_requirement_clause(draft, rule, &atoms)?;
    add_condition(draft, rule, when)?;
    Ok(())
}

/// Appends the clause of a constraint: the requirer is not in the set, or the candidate is not.
fn add_constraint<N: Copy + Eq + Hash + Drop, S: Copy + Eq + Hash + Drop>(
    draft: &mut RuleDraft<N, S>,
    rule: usize,
    by: By<S>,
    candidate: S,
) -> Result<(), Exhausted>
    requires names { IsIdentity N.eq }
    requires solvables { IsIdentity S.eq }
    ensures { OnOk result (AddsLines draft.old draft.new (plain rule (requirer_atoms by ++ line_atom (Member candidate) false ∷ []) ∷ [])) }
{
    let excluded = Atom {
        proposition: Proposition::Member(candidate),
        positive: false,
    };
    match by {
        By::Root => {
            add_single(draft, rule, excluded)?;
            Ok(())
        }
        By::Solvable(solvable) => {
            let absent = Atom {
                proposition: Proposition::Member(solvable),
                positive: false,
            };
            add_pair(draft, rule, absent, excluded)?;
            Ok(())
        }
    }
}

/// Appends the clause of an exclusion: the solvable is not in the set.
fn add_exclusion<N: Copy + Eq + Hash + Drop, S: Copy + Eq + Hash + Drop>(
    draft: &mut RuleDraft<N, S>,
    rule: usize,
    solvable: S,
) -> Result<(), Exhausted>
    requires names { IsIdentity N.eq }
    requires solvables { IsIdentity S.eq }
    ensures { OnOk result (AddsLines draft.old draft.new (plain rule (line_atom (Member solvable) false ∷ []) ∷ [])) }
{
    let absent = Atom {
        proposition: Proposition::Member(solvable),
        positive: false,
    };
    add_single(draft, rule, absent)?;
    Ok(())
}

/// Appends the clauses of a rule.
fn add_rule<N: Copy + Eq + Hash + Drop, S: Copy + Eq + Hash + Drop>(
    draft: &mut RuleDraft<N, S>,
    width: u32,
    place: usize,
    code: usize,
    rule: &Rule<N, S>,
) -> Result<(), Exhausted>
    requires names { IsIdentity N.eq }
    requires solvables { IsIdentity S.eq }
    requires width { width ≤ 64 }
    ensures { OnOk result (AddsLines draft.old draft.new (rule_lines width place code rule.now)) }
{
    match rule {
        Rule::Requires {
            by,
            candidates,
            when,
            ..
        } => add_requirement(draft, place, *by, candidates, when),
        Rule::Constrains { by, candidate, .. } => add_constraint(draft, place, *by, *candidate),
        Rule::Lock { forbidden, .. } => add_exclusion(draft, place, *forbidden),
        Rule::Excluded { solvable, .. } => add_exclusion(draft, place, *solvable),
        Rule::OnePerPackage { name, instance } => add_bits(
            draft, place, *name, *instance, code, width,
        ),
    }
}

/// Appends the clauses of the rules.
fn add_rules<N: Copy + Eq + Hash + Drop, S: Copy + Eq + Hash + Drop>(
    draft: &mut RuleDraft<N, S>,
    width: u32,
    codes: &[usize],
    rules: &[Rule<N, S>],
) -> Result<(), Exhausted>
    requires names { IsIdentity N.eq }
    requires solvables { IsIdentity S.eq }
    requires width { width ≤ 64 }
    requires size { length rules.now ≡ length codes.now }
    ensures { OnOk result (AddsLines draft.old draft.new (all_lines width 0 rules.now codes.now)) }
{
    for place in 0..rules.len() {
        add_rule(draft, width, place, codes[place], &rules[place])?;
    }
    Ok(())
}

/// Returns the clauses of the rules, over the propositions of a draft without clauses.
fn clauses_over<N: Copy + Eq + Hash + Drop, S: Copy + Eq + Hash + Drop>(
    alloc: Global,
    draft: &mut RuleDraft<N, S>,
    rules: &[Rule<N, S>],
) -> Result<RuleClauses, Exhausted>
    requires names { IsIdentity N.eq }
    requires solvables { IsIdentity S.eq }
    requires blank { draft.old.clauses.items ≡ [] }
    ensures { IfOk result (λ made. DecideRules rules.now made.variables made.clauses.items) }
{
    let codes = codes_of(alloc, rules)?;
    add_rules(draft, codes.width, &codes.codes, rules)?;
    let variables = variable_count(&draft.propositions);
    let clauses = replace(&mut draft.clauses, Vec::new(alloc));
    clauses_decide_rules::<N, S>();
    Ok(RuleClauses { variables, clauses })
}

/// Returns the clauses of a list of rules, which decide whether a set obeys some of the rules.
///
/// The error is `Ids` if there would be more variables than a `u32` can number.
pub fn clauses_of<N: Copy + Eq + Hash + Drop, S: Copy + Eq + Hash + Drop>(
    alloc: Global,
    rules: &[Rule<N, S>],
) -> Result<RuleClauses, Exhausted>
    requires names { IsIdentity N.eq }
    requires solvables { IsIdentity S.eq }
    ensures { IfOk result (λ made. DecideRules rules.now made.variables made.clauses.items) }
{
    let mut draft = RuleDraft {
        propositions: IndexSet::new(alloc),
        clauses: Vec::new(alloc),
    };
    let made = clauses_over(alloc, &mut draft, rules)?;
    drop(draft);
    Ok(made)
}
