//! What statements mean, as their lines tell it.
//!
//! The calls do nothing: their contracts are laws of the definitions.

ghost use Rattle.std.specs.Prelude.{List};
ghost use Rattle.resolve.specs.InputLaws.{AreAlone, AreDeclared, AreDemanded, AreFound, AreRequired, AreSpecs};
ghost use Rattle.resolve.specs.Meaning.{Input, Means};
ghost use Rattle.resolve.specs.Said.{Said};

/// The k-th solvable is that of the k-th `package` line.
pub fn solvables_are_declared()
    ensures { (said : List Said) (input : Input) → Means said input → AreDeclared said input.tables }
{}

/// A name and a version find the solvable that a line declared as such.
pub fn declared_solvables_are_found()
    ensures { (said : List Said) (input : Input) → Means said input → AreFound said input.tables }
{}

/// Equal specs have one id, and other specs have others.
pub fn equal_specs_have_one_id()
    ensures { (said : List Said) (input : Input) → Means said input → AreAlone input.tables }
{}

/// Each version set is that of a spec, and has the id that the spec has.
pub fn version_sets_are_specs()
    ensures { (said : List Said) (input : Input) → Means said input → AreSpecs input.tables }
{}

/// The requirements of a solvable are those of its lines, in order, with their unions and conditions.
pub fn requirements_are_those_of_lines()
    ensures { (said : List Said) (input : Input) → Means said input → AreRequired said input.tables }
{}

/// The requirements of the problem are those of the `require` lines, in order, with their unions and conditions.
pub fn demands_are_those_of_lines()
    ensures { (said : List Said) (input : Input) → Means said input → AreDemanded said input }
{}
