//! Problems drawn from a seed, each as an input and as statements about sets.
//!
//! A set of solvables is a number with a binary digit for each solvable. The solvables of an input are in the order of
//! their places, and the version of each is its place. One more solvable has the place after them: no package lists it,
//! and a catalog takes an unknown id for a version of the first package.

use super::solving::digit;
use std::alloc::Global;
use std::fmt::Write;
use std::test::Fail;

/// Names of packages. The last one has no versions.
const NAMES: [&str; 5] = ["a", "b", "c", "d", "m"];

/// The condition of a requirement: the sets that the chosen one has to meet.
#[derive(Clone, Copy)]
pub enum When {
    Always,
    Meets(u32),
    MeetsEither(u32, u32),
    MeetsBoth(u32, u32),
    MeetsFirstAndEither(u32, u32, u32),
}

impl When {
    pub fn holds(self, set: u32) -> bool {
        match self {
            When::Always => true,
            When::Meets(one) => set & one != 0,
            When::MeetsEither(one, other) => set & (one | other) != 0,
            When::MeetsBoth(one, other) => set & one != 0 && set & other != 0,
            When::MeetsFirstAndEither(first, one, other) => {
                set & first != 0 && set & (one | other) != 0
            }
        }
    }
}

/// A statement about sets. It is the root's if `by` is empty. Sets of packages are numbers, too.
#[derive(Clone, Copy)]
pub enum Statement {
    /// If all of `by` is chosen, one of `candidates` has to be.
    Requires {
        by: u32,
        packages: u32,
        candidates: u32,
        when: When,
    },
    /// If all of `by` is chosen, nothing of `forbidden` may be.
    Constrains {
        by: u32,
        packages: u32,
        forbidden: u32,
    },
    /// None of these is ever chosen.
    Unknown(u32),
    /// None of these is chosen, unless it is exempt.
    LockedOutOrExcluded(u32),
    /// At most one of these is chosen.
    OnePackage(u32),
}

/// A linear congruential generator.
#[derive(Drop)]
struct Random {
    state: u64,
}

impl Random {
    /// Draws a number below the bound.
    fn below(&mut self, bound: u32) -> u32 {
        let multiplied = self.state.wrapping_mul(6_364_136_223_846_793_005);
        self.state = multiplied.wrapping_add(1_442_695_040_888_963_407);
        let drawn = (self.state >> 33) as u32;
        drawn % bound.max(1)
    }
}

/// The solvables that a union matches, and the packages that it names.
#[derive(Clone, Copy)]
struct Taken {
    packages: u32,
    set: u32,
}

/// A soft requirement: the solvable at a place, or the versions of a package from `low` up to but not including `high`.
#[derive(Clone, Copy)]
pub enum Soft {
    Solvable(u32),
    Versions { package: u32, low: u32, high: u32 },
}

/// A problem that is being drawn.
#[derive(Drop)]
pub struct RandomProblem {
    random: Random,
    pub input: String,
    pub statements: Vec<Statement>,
    /// The number of listed solvables.
    count: u32,
    /// The package of each of them.
    packages: Vec<u32>,
    /// The solvables whose needs are unknown.
    unknown: u32,
}

impl RandomProblem {
    pub fn new(alloc: Global, seed: u64) -> Result<RandomProblem, Fail> {
        let mut problem = RandomProblem {
            random: Random { state: seed },
            input: String::new(alloc),
            statements: Vec::new(alloc),
            count: 0,
            packages: Vec::new(alloc),
            unknown: 0,
        };
        problem.draw()?;
        Ok(problem)
    }

    fn draw(&mut self) -> Result<(), Fail> {
        self.declare_all()?;
        self.restrict_all()?;
        for package in 0..4u32 {
            self.allow_one(package)?;
            self.lock(package)?;
        }
        self.require_some()?;
        self.constrain_some()?;
        Ok(())
    }

    /// Returns the package of a place. The place after the listed ones is of the first package.
    pub fn package(&self, place: u32) -> u32 {
        match self.packages.get(place as usize) {
            None => 0,
            Some(package) => *package,
        }
    }

    /// Draws a soft requirement: some versions of a package, or a solvable, possibly the unlisted one.
    pub fn soft_requirement(&mut self) -> Soft {
        let count = self.count.wrapping_add(1);
        if self.random.below(3) == 0 {
            let package = self.random.below(4);
            let low = self.random.below(count);
            let high = low.wrapping_add(self.random.below(count)).wrapping_add(1);
            return Soft::Versions { package, low, high };
        }
        Soft::Solvable(self.random.below(count))
    }

    /// Returns the solvables that meet a soft requirement.
    pub fn options(&self, soft: Soft) -> u32 {
        match soft {
            Soft::Solvable(place) => digit(place),
            Soft::Versions { package, low, high } => self.listed(digit(package), low, high),
        }
    }

    /// Returns the listed solvables of these packages with places from `low` up to but not including `high`.
    fn listed(&self, packages: u32, low: u32, high: u32) -> u32 {
        let mut set = 0;
        for place in 0..self.count {
            if digit(self.package(place)) & packages != 0 && low <= place && place < high {
                set |= digit(place);
            }
        }
        set
    }

    /// Returns the name of a package.
    pub fn name(package: u32) -> &'static str {
        match NAMES.get(package as usize) {
            None => "m",
            Some(name) => name,
        }
    }

    /// Declares one to seven solvables of up to four packages, of which the first one is of the first package.
    fn declare_all(&mut self) -> Result<(), Fail> {
        self.count = self.random.below(7).wrapping_add(1);
        for place in 0..self.count {
            let package = if place == 0 { 0 } else { self.random.below(4) };
            self.packages.push(package)?;
            let name = RandomProblem::name(package);
            write!(self.input, "package {name}={place}\n")?;
        }
        Ok(())
    }

    /// States that at most one solvable of a package is chosen.
    fn allow_one(&mut self, package: u32) -> Result<(), Fail> {
        let unlisted = if package == 0 { digit(self.count) } else { 0 };
        let members = self.listed(digit(package), 0, self.count) | unlisted;
        self.statements.push(Statement::OnePackage(members))?;
        Ok(())
    }

    /// Excludes some solvables, or makes their needs unknown.
    fn restrict_all(&mut self) -> Result<(), Fail> {
        for place in 0..self.count {
            self.restrict(place)?;
        }
        Ok(())
    }

    fn restrict(&mut self, place: u32) -> Result<(), Fail> {
        let name = RandomProblem::name(self.package(place));
        match self.random.below(8) {
            0 => {
                write!(self.input, "unknown {name}={place} lost\n")?;
                self.unknown |= digit(place);
                self.statements.push(Statement::Unknown(digit(place)))?;
            }
            1 => {
                write!(self.input, "exclude {name}={place} old\n")?;
                let barred = Statement::LockedOutOrExcluded(digit(place));
                self.statements.push(barred)?;
            }
            _ => {}
        }
        Ok(())
    }

    /// Locks a package to one of its versions, in some cases.
    fn lock(&mut self, package: u32) -> Result<(), Fail> {
        let place = self.random.below(8);
        let locked = self.listed(digit(package), place, place.wrapping_add(1));
        if locked == 0 {
            return Ok(());
        }
        let name = RandomProblem::name(package);
        write!(self.input, "lock {name}={place}\n")?;
        let others = self.listed(digit(package), 0, self.count) & !locked;
        self.statements
            .push(Statement::LockedOutOrExcluded(others))?;
        Ok(())
    }

    /// Writes a spec.
    fn spec(&mut self) -> Result<Taken, Fail> {
        let count = self.count;
        let place = self.random.below(count);
        let package = self.package(place);
        let packages = digit(package);
        let name = RandomProblem::name(package);
        let high = place.wrapping_add(1).wrapping_add(self.random.below(4));
        match self.random.below(12) {
            0 => {
                write!(self.input, "m")?;
                Ok(Taken {
                    packages: digit(4),
                    set: 0,
                })
            }
            1..6 => {
                write!(self.input, "{name}")?;
                let set = self.listed(packages, 0, count);
                Ok(Taken { packages, set })
            }
            6..9 => {
                write!(self.input, "{name}@{place}")?;
                let set = digit(place);
                Ok(Taken { packages, set })
            }
            _ => {
                write!(self.input, "{name}@{place}..{high}")?;
                let set = self.listed(packages, place, high);
                Ok(Taken { packages, set })
            }
        }
    }

    /// Writes one to three specs.
    fn union(&mut self) -> Result<Taken, Fail> {
        let first = self.spec()?;
        let mut packages = first.packages;
        let mut set = first.set;
        for _ in 0..self.random.below(3) {
            write!(self.input, " | ")?;
            let next = self.spec()?;
            packages |= next.packages;
            set |= next.set;
        }
        Ok(Taken { packages, set })
    }

    /// Writes a condition, in some cases.
    fn condition(&mut self) -> Result<When, Fail> {
        let form = self.random.below(8);
        if 4 <= form {
            return Ok(When::Always);
        }
        write!(self.input, " if ")?;
        let first = self.spec()?.set;
        match form {
            0 => Ok(When::Meets(first)),
            1 => {
                write!(self.input, " or ")?;
                Ok(When::MeetsEither(first, self.spec()?.set))
            }
            2 => {
                write!(self.input, " and ")?;
                Ok(When::MeetsBoth(first, self.spec()?.set))
            }
            _ => {
                write!(self.input, " and ( ")?;
                let one = self.spec()?.set;
                write!(self.input, " or ")?;
                let other = self.spec()?.set;
                write!(self.input, " )")?;
                Ok(When::MeetsFirstAndEither(first, one, other))
            }
        }
    }

    /// Writes the keyword of a statement, and the solvable if it is not the root's.
    fn asker(&mut self, root_asks: &str, solvable_asks: &str) -> Result<u32, Fail> {
        let count = self.count;
        let place = self.random.below(count.wrapping_add(2));
        if count <= place {
            write!(self.input, "{root_asks} ")?;
            return Ok(0);
        }
        let name = RandomProblem::name(self.package(place));
        write!(self.input, "{solvable_asks} {name}={place} ")?;
        Ok(digit(place))
    }

    /// Adds a statement, unless it is of a solvable whose needs are unknown.
    fn state(&mut self, by: u32, statement: Statement) -> Result<(), Fail> {
        if by & self.unknown == 0 {
            self.statements.push(statement)?;
        }
        Ok(())
    }

    fn require_some(&mut self) -> Result<(), Fail> {
        for _ in 0..self.random.below(10) {
            self.require()?;
        }
        Ok(())
    }

    fn require(&mut self) -> Result<(), Fail> {
        let by = self.asker("require", "requires")?;
        let taken = self.union()?;
        let when = self.condition()?;
        write!(self.input, "\n")?;
        let statement = Statement::Requires {
            by,
            packages: taken.packages,
            candidates: taken.set,
            when,
        };
        self.state(by, statement)
    }

    fn constrain_some(&mut self) -> Result<(), Fail> {
        for _ in 0..self.random.below(4) {
            self.constrain()?;
        }
        Ok(())
    }

    fn constrain(&mut self) -> Result<(), Fail> {
        let by = self.asker("constrain", "constrains")?;
        let taken = self.spec()?;
        write!(self.input, "\n")?;
        let listed = self.listed(taken.packages, 0, self.count);
        let statement = Statement::Constrains {
            by,
            packages: taken.packages,
            forbidden: listed & !taken.set,
        };
        self.state(by, statement)
    }
}
