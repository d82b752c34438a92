//! The indent of a line in a tree.

ghost use Rattle.std.specs.Prelude.{◌≡◌, ◌+◌, ◌-◌, ◌<◌, ◌==◌, ◌++◌, ◌∷◌, [], Bool, List, IfOk, IfErr, OnOk, length};
ghost use Rattle.resolver_report.specs.Forests.{branch_text, indent, indent_from, stem_text};
ghost use Rattle.resolver_report.specs.Indents.{Writes, WritesFirst, indent_of, is_last_child, levels_in};

use resolver_clause_store::Exhausted;
use std::alloc::Global;

/// Whether a line has siblings below it.
#[derive(Clone, Copy, PartialEq, Eq)]
pub enum ChildOrder {
    HasRemainingSiblings,
    Last,
}

/// The levels above a line, from the top, each with the order of its line.
#[derive(Drop)]
pub struct Indenter {
    levels: Vec<ChildOrder>,
    top_level_indent: bool,
}

impl ChildOrder {
    /// The order of the child at `place` among `count` children.
    pub fn at(place: usize, count: usize) -> ChildOrder
        requires { place < count }
        ensures { is_last_child result ≡ (count - (place + 1) == 0) }
    {
        if count - (place + 1) == 0 {
            ChildOrder::Last
        } else {
            ChildOrder::HasRemainingSiblings
        }
    }

    /// The order of the child that comes just before `rest`.
    pub fn before<T>(rest: &[T]) -> ChildOrder
        ensures { is_last_child result ≡ (length rest.now == 0) }
    {
        if rest.is_empty() {
            ChildOrder::Last
        } else {
            ChildOrder::HasRemainingSiblings
        }
    }
}

/// Writes the branch at the deepest level of a line.
pub fn write_branch(order: ChildOrder, out: &mut String) -> Result<(), Exhausted>
    ensures ok { OnOk result (Writes out.old out.new (branch_text (is_last_child order))) }
    ensures memory { IfErr result (λ e. e ≡ Exhausted.Memory) }
{
    match order {
        ChildOrder::Last => {
            out.push_str("└─ ")?;
            Ok(())
        }
        ChildOrder::HasRemainingSiblings => {
            out.push_str("├─ ")?;
            Ok(())
        }
    }
}

/// Writes the stem at a level above the deepest.
fn write_stem(order: ChildOrder, out: &mut String) -> Result<(), Exhausted>
    ensures ok { OnOk result (Writes out.old out.new (stem_text (is_last_child order))) }
    ensures memory { IfErr result (λ e. e ≡ Exhausted.Memory) }
{
    match order {
        ChildOrder::Last => {
            out.push_str("   ")?;
            Ok(())
        }
        ChildOrder::HasRemainingSiblings => {
            out.push_str("│  ")?;
            Ok(())
        }
    }
}

/// Writes one level of an indent: a branch if no level is below it, else a stem.
fn write_level(order: ChildOrder, below: &[ChildOrder], out: &mut String) -> Result<(), Exhausted>
    ensures ok { OnOk result (WritesFirst indent_of out.old out.new order below.now) }
    ensures memory { IfErr result (λ e. e ≡ Exhausted.Memory) }
{
    if below.is_empty() {
        write_branch(order, out)?;
        return Ok(());
    }
    write_stem(order, out)?;
    Ok(())
}

/// Writes the indent of a line at these levels.
fn write_levels(levels: &[ChildOrder], out: &mut String) -> Result<(), Exhausted>
    ensures ok { OnOk result (Writes out.old out.new (indent_of levels.now)) }
    ensures memory { IfErr result (λ e. e ≡ Exhausted.Memory) }
{
    let mut rest = levels;
    while let [order, below @ ..] = rest {
        write_level(*order, below, out)?;
        rest = below;
    }
    Ok(())
}

impl Indenter {
    /// No levels yet. Without a top-level indent, the first level writes nothing.
    pub fn new(alloc: Global, top_level_indent: bool) -> Indenter
        ensures levels { levels_in result ≡ [] }
        ensures top { result.top_level_indent ≡ top_level_indent }
    {
        Indenter {
            levels: Vec::new(alloc),
            top_level_indent,
        }
    }

    /// The levels of a child, one deeper.
    pub fn deeper(&self, order: ChildOrder) -> Result<Indenter, Exhausted>
        ensures levels { IfOk result (λ deeper. levels_in deeper ≡ levels_in self.now ++ is_last_child order ∷ []) }
        ensures top { IfOk result (λ deeper. deeper.top_level_indent ≡ self.now.top_level_indent) }
        ensures memory { IfErr result (λ e. e ≡ Exhausted.Memory) }
    {
        let mut levels = Vec::from_slice(*self.levels.allocator(), &self.levels)?;
        levels.push(order)?;
        Ok(Indenter {
            levels,
            top_level_indent: self.top_level_indent,
        })
    }

    /// Removes the deepest level.
    pub fn rise(&mut self)
        ensures levels { (levels : List Bool) (last : Bool) → levels_in self.old ≡ levels ++ last ∷ [] → levels_in self.new ≡ levels }
        ensures top { self.new.top_level_indent ≡ self.old.top_level_indent }
    {
        self.levels.pop();
    }

    /// Writes the indent of a line at these levels.
    pub fn write(&self, out: &mut String) -> Result<(), Exhausted>
        ensures ok { OnOk result (Writes out.old out.new (indent_from self.now.top_level_indent (levels_in self.now))) }
        ensures memory { IfErr result (λ e. e ≡ Exhausted.Memory) }
    {
        if self.top_level_indent {
            write_levels(&self.levels, out)?;
            return Ok(());
        }
        let [_, below @ ..] = self.levels.as_slice() else {
            return Ok(());
        };
        write_levels(below, out)?;
        Ok(())
    }
}
