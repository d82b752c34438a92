//! The message of a conflict graph.

ghost use Rattle.std.specs.Prelude.{◌≡◌, Some, IfOk, IfErr, OnOk, filter, string_bytes};
ghost use Rattle.resolver_report.specs.ConflictGraphs.{shape_of};
ghost use Rattle.resolver_report.specs.MessageParts.{message_in, missing_in, incompatible_in, conflict_in};
ghost use Rattle.resolver_report.specs.Messages.{message};
ghost use Rattle.resolver_report.specs.Picks.{has_mark};
ghost use Rattle.resolver_report.specs.Tellings.{IsOutline};
ghost use Rattle.resolver_report.specs.Indents.{Writes};

use crate::findings::findings_of;
use crate::graph::{ConflictGraph, Edge};
use crate::marks::{is_marked, missing};
use crate::outline::node_stories;
use crate::runs::outgoing;
use crate::texts::write_conflicts;
use crate::tree::{Outline, reserve_edges, tell_edges, write_end};
use itertools::Itertools;
use resolver_clause_store::{Exhausted, Interner};
use std::alloc::Global;
use std::fmt;

/// The number of bytes of the line between the two trees of a message.
const HEADING_LENGTH: usize = 40;

/// Filters the edges by whether their target is marked.
fn edges_by_mark<S: Copy + Drop>(
    alloc: Global,
    edges: &[Edge<S>],
    marks: &[bool],
    wanted: bool,
) -> Result<Vec<Edge<S>>, Exhausted>
    ensures value { IfOk result (λ v. v.items ≡ filter (has_mark marks.now wanted) edges.now) }
    ensures memory { IfErr result (λ e. e ≡ Exhausted.Memory) }
{
    let found = edges
        .iter()
        .copied()
        .filter(|edge| is_marked(marks, edge.target) == wanted);
    Ok(found.collect_vec(alloc)?)
}

/// Works out what the message tells of the graph.
fn outline_of<'i, I: Interner>(
    interner: &'i I,
    graph: &'i ConflictGraph<I::SolvableId>,
) -> Result<Outline<'i, I>, Exhausted>
    ensures outline { IfOk result (λ outline. IsOutline I.universe outline I.SolvableId.eq) }
    ensures interner { IfOk result (λ outline. outline.interner.now ≡ interner.now) }
    ensures graph { IfOk result (λ outline. outline.findings.graph.now ≡ graph.now) }
    ensures memory { IfErr result (λ e. e ≡ Exhausted.Memory) }
{
    let alloc = graph.graph.allocator();
    let groups = graph.simplify(interner)?;
    let findings = findings_of(alloc, interner, graph, &groups)?;
    let nodes = node_stories(alloc, &findings)?;
    Ok(Outline {
        interner,
        findings,
        groups,
        nodes,
    })
}

/// Writes the part about requirements that nothing can fulfil.
fn write_missing_part<I: Interner>(
    outline: &Outline<'_, I>,
    edges: &[Edge<I::SolvableId>],
    out: &mut String,
) -> Result<(), Exhausted>
    requires { IsOutline I.universe outline.now I.SolvableId.eq }
    ensures ok { OnOk result (Writes out.old out.new (missing_in I.universe outline.now edges.now)) }
    ensures memory { IfErr result (λ e. e ≡ Exhausted.Memory) }
{
    let [_, ..] = edges else {
        return Ok(());
    };
    tell_edges(outline, edges, false, out)?;
    Ok(())
}

/// Writes the tree of what is incompatible, and the conflicts of the root itself.
fn write_incompatible<I: Interner>(
    outline: &Outline<'_, I>,
    root_edges: &[Edge<I::SolvableId>],
    edges: &[Edge<I::SolvableId>],
    out: &mut String,
) -> Result<(), Exhausted>
    requires { IsOutline I.universe outline.now I.SolvableId.eq }
    ensures ok { OnOk result (Writes out.old out.new (incompatible_in I.universe outline.now root_edges.now edges.now)) }
    ensures memory { IfErr result (λ e. e ≡ Exhausted.Memory) }
{
    write_end("The following packages are incompatible", out)?;
    tell_edges(outline, edges, true, out)?;
    write_conflicts(outline.interner, root_edges, out)?;
    Ok(())
}

/// Writes the part about what is incompatible, if there is anything.
fn write_conflict_part<I: Interner>(
    outline: &Outline<'_, I>,
    root_edges: &[Edge<I::SolvableId>],
    edges: &[Edge<I::SolvableId>],
    out: &mut String,
) -> Result<(), Exhausted>
    requires { IsOutline I.universe outline.now I.SolvableId.eq }
    ensures ok { OnOk result (Writes out.old out.new (conflict_in I.universe outline.now root_edges.now edges.now)) }
    ensures memory { IfErr result (λ e. e ≡ Exhausted.Memory) }
{
    let [_, ..] = edges else {
        return Ok(());
    };
    write_incompatible(outline, root_edges, edges, out)?;
    Ok(())
}

/// An outline, and the edges of the root in two parts.
#[derive(Drop)]
struct MessageParts<'i, I: Interner> {
    outline: Outline<'i, I>,
    /// The edges of the root, newest first.
    root_edges: Vec<Edge<I::SolvableId>>,
    /// The root's edges to missing nodes.
    lost: Vec<Edge<I::SolvableId>>,
    /// The root's other edges.
    left: Vec<Edge<I::SolvableId>>,
}

/// Works out the parts of a graph's message.
fn parts_of<'i, I: Interner>(
    interner: &'i I,
    graph: &'i ConflictGraph<I::SolvableId>,
) -> Result<MessageParts<'i, I>, Exhausted>
    ensures outline { IfOk result (λ parts. IsOutline I.universe parts.outline I.SolvableId.eq) }
    ensures message { IfOk result (λ parts. message_in I.universe parts ≡ message (I.universe interner.now) (shape_of graph.now)) }
    ensures memory { IfErr result (λ e. e ≡ Exhausted.Memory) }
{
    let alloc = graph.graph.allocator();
    let missing = missing(alloc, graph)?;
    let root_edges = outgoing(alloc, &graph.graph, graph.root_node)?;
    let lost = edges_by_mark(alloc, &root_edges, &missing, true)?;
    let left = edges_by_mark(alloc, &root_edges, &missing, false)?;
    let outline = outline_of(interner, graph)?;
    Ok(MessageParts {
        outline,
        root_edges,
        lost,
        left,
    })
}

/// Reserves room in an empty text for the two trees of a message and the line between them. A first pass counts the bytes.
fn reserve_trees<I: Interner>(
    parts: &MessageParts<'_, I>,
    out: &mut String,
) -> Result<(), Exhausted>
    requires { IsOutline I.universe parts.now.outline I.SolvableId.eq }
    ensures kept { OnOk result (string_bytes out.new ≡ string_bytes out.old) }
    ensures memory { IfErr result (λ e. e ≡ Exhausted.Memory) }
{
    let room = reserve_edges(&parts.outline, &parts.lost, false, HEADING_LENGTH, out)?;
    reserve_edges(&parts.outline, &parts.left, true, room, out)?;
    Ok(())
}

/// Writes a message.
fn write_message<I: Interner>(
    parts: &MessageParts<'_, I>,
    out: &mut String,
) -> Result<(), Exhausted>
    requires { IsOutline I.universe parts.now.outline I.SolvableId.eq }
    ensures ok { OnOk result (Writes out.old out.new (message_in I.universe parts.now)) }
    ensures memory { IfErr result (λ e. e ≡ Exhausted.Memory) }
{
    write_missing_part(&parts.outline, &parts.lost, out)?;
    write_conflict_part(&parts.outline, &parts.root_edges, &parts.left, out)?;
    Ok(())
}

/// Writes a message into a text of its own.
fn message_text<I: Interner>(
    alloc: Global,
    parts: &MessageParts<'_, I>,
) -> Result<String, Exhausted>
    requires { IsOutline I.universe parts.now.outline I.SolvableId.eq }
    ensures value { IfOk result (λ text. string_bytes text ≡ message_in I.universe parts.now) }
    ensures memory { IfErr result (λ e. e ≡ Exhausted.Memory) }
{
    let mut text = String::new(alloc);
    reserve_trees(parts, &mut text)?;
    write_message(parts, &mut text)?;
    Ok(text)
}

/// The message of a conflict's graph: a tree of lines that shows which packages are missing or incompatible.
///
/// Its `Display` makes the whole text before it writes the first byte. An error comes only from the formatter, or where
/// memory is refused.
#[derive(Drop)]
pub struct DisplayUnsat<'i, I: Interner> {
    graph: ConflictGraph<I::SolvableId>,
    interner: &'i I,
}

impl<'i, I: Interner> DisplayUnsat<'i, I> {
    ghost use Rattle.resolver_report.specs.Displays.{displayed, displayed_graph, interner_in};

    /// The message of a graph, in the texts of this interner.
    pub fn new(graph: ConflictGraph<I::SolvableId>, interner: &'i I) -> Self
        ensures graph { displayed_graph result ≡ shape_of graph }
        ensures interner { interner_in result ≡ interner.now }
    {
        DisplayUnsat { graph, interner }
    }

    /// The text of the message. This takes half the memory of formatting it into a `String`.
    ///
    /// The error is [`Exhausted::Memory`] alone. The bytes are counted first, so a message that is too long for memory
    /// is refused before it is written.
    pub fn text(&self) -> Result<String, Exhausted>
        ensures value { IfOk result (λ text. string_bytes text ≡ displayed I.universe self.now) }
        ensures memory { IfErr result (λ e. e ≡ Exhausted.Memory) }
    {
        let parts = parts_of(self.interner, &self.graph)?;
        let text = message_text(self.graph.graph.allocator(), &parts);
        drop(parts);
        Ok(text?)
    }
}

impl<'i, I: Interner> fmt::Display for DisplayUnsat<'i, I> {
    ghost use Rattle.resolver_report.specs.Displays.{displayed};

    ghost output = { λ d. Some (displayed I.universe d) };

    fn fmt<W: fmt::Write>(&self, f: &mut fmt::Formatter<W>) -> fmt::Result {
        let Ok(text) = self.text() else {
            return Err(fmt::Error);
        };
        f.write_str(text.as_str())
    }
}
