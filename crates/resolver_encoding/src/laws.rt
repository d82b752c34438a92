//! What clauses mean for sets of solvables.

ghost use Rattle.std.specs.Prelude.{All, Bool, Contains, List, length, map, ℕ, ◌<◌, ◌≡◌, ◌≤◌, []};
ghost use Rattle.resolver_clause_store.specs.FirstChoice.{TakesFirstChoices};
ghost use Rattle.resolver_clause_store.specs.Formula.{MakesTrue, Satisfies};
ghost use Rattle.resolver_clause_store.specs.Lists.{HasNoRepeats};
ghost use Rattle.resolver_clause_store.specs.Outcomes.{IsCore, IsFinished};
ghost use Rattle.resolver_clause_store.specs.TrailView.{KeepsPlaces, length_of, variable_count};
ghost use Rattle.resolver_clause_store.specs.Variables.{AreDistinct, Keeps};
ghost use Rattle.resolver_clause_store.specs.declared.RequirementClause.{RequirementClause};
ghost use Rattle.resolver_clause_store.specs.declared.Trail.{Trail};
ghost use Rattle.resolver_encoding.specs.Encodings.{IsEncoding, MayBeExempt, Notes};
ghost use Rattle.resolver_encoding.specs.SoFar.{IsReadSoFar};
ghost use Rattle.resolver_encoding.specs.Trails.{AreAssumed, Follows, solvables_before};
ghost use Rattle.resolver_encoding.specs.declared.chosen.Chosen.{Chosen};
ghost use Rattle.resolver_clause_store.specs.Laws.{HasLawfulPackages, IsIdentity};
ghost use Rattle.resolver_clause_store.specs.Universe.{Demands, Universe};
ghost use Rattle.resolver_clause_store.specs.Valid.{IsValid};
ghost use Rattle.resolver_clause_store.specs.declared.ClauseKind.{ClauseKind};
ghost use Rattle.resolver_clause_store.specs.Literals.{Literal};
ghost use Rattle.resolver_clause_store.specs.declared.Origin.{Origin};
ghost use Rattle.resolver_clause_store.specs.declared.Rule.{Rule};
ghost use Rattle.resolver_encoding.specs.Atoms.{Atom};
ghost use Rattle.resolver_encoding.specs.Core.{IsExplained, ListsOnlyRulesOf, ListsRulesOf};
ghost use Rattle.resolver_encoding.specs.Read.{AreValuesSettled};
ghost use Rattle.resolver_encoding.specs.ReadState.{AreSeeds, Deferred, IsRead, NoneFires};
ghost use Rattle.resolver_encoding.specs.TrailAtoms.{CoversReached, IsAnswerBy, IsChosenBy, IsTrail, Takes};
ghost use Rattle.resolver_encoding.specs.Truth.{HasLawfulSolvables, AreCodes, IsTrueClause, Spares, follows};
ghost use Rattle.resolver_encoding.specs.Values.{AreEncoded, extension, kinds_at, requirement_numbers};

/// The extension of a valid set satisfies every clause of an encoding. Exempt may be what is exempt now, and any other
/// solvable of a package that was not asked.
///
/// The extension is the values that a set gives to variables: a solvable is true if it is in the set, and a helper if a
/// member implies it. The call does nothing: its contract is the law.
pub fn valid_sets_satisfy_encodings<N, S>()
    ensures { (u : Universe N S) (root : Demands) (notes : Notes N S) (set exempt : List S) →
        HasLawfulSolvables u → (encoding : IsEncoding u root notes) → MayBeExempt u notes exempt → IsValid u root set exempt →
        Satisfies (extension u (follows u encoding.codes) notes.origins set) notes.table }
{}

/// If no values make some true clauses true together, the rules that these clauses state are true, and no set obeys
/// them.
///
/// The call does nothing: its contract is the law.
pub fn core_rules_explain<N, S>()
    ensures { (u : Universe N S) (same_name : N → N → Bool) (codes : N → ℕ → S → Bool) (root : Demands) (origins : List (Origin N S))
        (table : List (List Literal)) (kinds : List (ClauseKind N S)) (numbers : List ℕ) (rules : List (Rule N S)) →
        HasLawfulSolvables u → IsIdentity same_name → AreCodes u codes → AreEncoded u origins table kinds → All (IsTrueClause u codes root) kinds →
        All (λ n. n < length kinds) numbers →
        ListsRulesOf u same_name (kinds_at kinds numbers) rules → ListsOnlyRulesOf u same_name (kinds_at kinds numbers) rules →
        ((values : ℕ → Bool) → MakesTrue values table numbers → ⊥) →
        IsExplained u root rules }
{}

/// The solvables that a trail makes true, if it leaves nothing to set, are an answer, and each is reached by need.
///
/// The call does nothing: its contract is the law.
pub fn finished_trails_are_answers<N, S>()
    ensures { (u : Universe N S) (codes : N → ℕ → S → Bool) (root : Demands) (kinds : List (ClauseKind N S)) (trail : List (Atom N S))
        (chosen seeds refused exempt : List S) →
        HasLawfulSolvables u → AreCodes u codes → All (IsTrueClause u codes root) kinds → Spares u exempt kinds →
        IsTrail u kinds seeds refused trail → AreValuesSettled u kinds (Takes trail) → IsChosenBy trail chosen →
        CoversReached u root kinds chosen seeds exempt →
        IsAnswerBy u root chosen seeds exempt }
{}

/// The same for the clauses of what was read, if each chosen solvable that is registered was read.
///
/// The call does nothing: its contract is the law.
pub fn read_trails_are_answers<N, S>()
    ensures { (u : Universe N S) (codes : N → ℕ → S → Bool) (root : Demands) (kinds : List (ClauseKind N S)) (deferred : List (Deferred S)) (read : List S)
        (asked : List N) (registered exempt : List S) (trail : List (Atom N S)) (chosen seeds refused : List S) →
        HasLawfulSolvables u → HasLawfulPackages u → AreCodes u codes → All (IsTrueClause u codes root) kinds → Spares u exempt kinds →
        IsRead u root kinds (Contains deferred) read asked registered exempt → AreSeeds u seeds chosen asked registered exempt →
        ((s : S) → Contains chosen s → Contains registered s → Contains read s) → NoneFires u (Contains deferred) chosen →
        IsTrail u kinds seeds refused trail → AreValuesSettled u kinds (Takes trail) → IsChosenBy trail chosen →
        IsAnswerBy u root chosen seeds exempt }
{}

/// The solvables that the trail of a finished search makes true are an answer, each reached by need and none listed
/// twice.
///
/// Each of them has to have been read, and no deferred disjunct may be met in them. An assumed solvable counts as
/// needed if it is true, and as refused if it is false.
///
/// The call does nothing: its contract is the law.
pub fn finished_searches_are_answers<N, S>()
    ensures answer { (u : Universe N S) (root : Demands) (notes : Notes N S) (requirements : List RequirementClause) (trail : Trail) (seeds refused : List S) →
        HasLawfulSolvables u → HasLawfulPackages u → IsReadSoFar u root (solvables_before notes.origins trail (length_of trail)) notes →
        AreAssumed notes.origins seeds refused trail →
        AreSeeds u seeds (solvables_before notes.origins trail (length_of trail)) notes.asked notes.seen notes.exempt →
        map (λ r. r.number) requirements ≡ requirement_numbers notes.kinds → variable_count trail ≡ length notes.origins → IsFinished notes.table requirements trail →
        IsAnswerBy u root (solvables_before notes.origins trail (length_of trail)) seeds notes.exempt }
    ensures once { (origins : List (Origin N S)) (trail : Trail) → AreDistinct origins → variable_count trail ≡ length origins →
        HasNoRepeats (solvables_before origins trail (length_of trail)) }
{}

/// The answer of a finished search takes first choices, if nothing was assumed: where they are promised, it has exactly
/// their members.
///
/// The call does nothing: its contract is the law.
pub fn finished_searches_answer_first_choices<N, S>()
    ensures { (u : Universe N S) (root : Demands) (notes : Notes N S) (requirements : List RequirementClause) (trail : Trail) →
        HasLawfulSolvables u → HasLawfulPackages u → IsReadSoFar u root (solvables_before notes.origins trail (length_of trail)) notes →
        AreAssumed notes.origins [] [] trail →
        map (λ r. r.number) requirements ≡ requirement_numbers notes.kinds → variable_count trail ≡ length notes.origins → IsFinished notes.table requirements trail →
        TakesFirstChoices u root (solvables_before notes.origins trail (length_of trail)) }
{}

/// The rules that the core of an encoding's clauses states are true, and no set obeys them.
///
/// The call does nothing: its contract is the law.
pub fn cores_of_encodings_explain<N, S>()
    ensures { (u : Universe N S) (same_name : N → N → Bool) (root : Demands) (notes : Notes N S) (numbers : List ℕ) (rules : List (Rule N S)) →
        HasLawfulSolvables u → IsIdentity same_name → IsEncoding u root notes → IsCore notes.table numbers →
        ListsRulesOf u same_name (kinds_at notes.kinds numbers) rules → ListsOnlyRulesOf u same_name (kinds_at notes.kinds numbers) rules →
        IsExplained u root rules }
{}

/// A list of chosen solvables still follows a trail whose first entries stay, even if variables were added.
///
/// The call does nothing: its contract is the law.
pub fn chosen_lists_stay<N, S>()
    ensures { (chosen : Chosen S) (origins more : List (Origin N S)) (old new : Trail) (count : ℕ) →
        Keeps origins more → variable_count old ≤ length origins → KeepsPlaces old new count →
        Follows chosen origins old count → Follows chosen more new count }
{}
