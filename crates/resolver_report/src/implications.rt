//! The fewest marks of nodes that obey a list of implications, found with a work list.

ghost use Rattle.std.specs.Prelude.{◌≡◌, ◌<◌, All, IfOk, IfErr, OnOk, length, map};
ghost use Rattle.resolver_report.specs.EdgePlaces.{appended, lists_in};
ghost use Rattle.resolver_report.specs.Implications.{HasLeastMarks, implied};
ghost use Rattle.resolver_report.specs.WorkLists.{AreTended, IsRight, IsSameWork, advanced, after_mark, after_waits};
ghost use Rattle.resolver_report.specs.WorkLists.{IsNextReady, is_ready as is_ready_in, last_is_marked as has_mark_in, left_at, up_to_unmarked as up_to_unmarked_in, work_view};

use crate::graph::{NodeId, empty_lists, push_at};
use crate::marks::some_marked;
use resolver_clause_store::Exhausted;
use std::alloc::Global;

/// An implication: if each group has a marked node, `node` is marked.
#[derive(Drop)]
pub struct Implication {
    pub groups: Vec<Vec<NodeId>>,
    pub node: NodeId,
}

/// An implication that waits for a mark in the last of its groups that are left.
#[derive(Clone, Copy)]
pub struct Waiting {
    implication: usize,
    left: usize,
}

/// The marks so far, and the implications that wait for more.
#[derive(Drop)]
pub struct Marking {
    marks: Vec<bool>,
    /// For each implication, how many groups are left. Each group after those has a mark.
    left: Vec<usize>,
    /// For each node, what waits for its mark.
    waiting: Vec<Vec<Waiting>>,
    /// What a new mark has woken, and is still to be looked at.
    woken: Vec<Waiting>,
}

/// How many groups of an implication are left.
fn left_of(marking: &Marking, place: usize) -> usize
    ensures { result ≡ left_at (work_view marking.now) place }
{
    match marking.left.get(place) {
        Some(left) => *left,
        None => 0,
    }
}

/// Whether the last of the first `left` groups has a mark.
fn has_mark(marks: &[bool], groups: &[Vec<NodeId>], left: usize) -> bool
    ensures { result ≡ has_mark_in marks.now (lists_in groups.now) left }
{
    if left == 0 {
        return false;
    }
    match groups.get(left - 1) {
        Some(group) => some_marked(marks, group),
        None => false,
    }
}

/// Drops marked groups from the end of the first `left`, and counts the others.
fn up_to_unmarked(marks: &[bool], groups: &[Vec<NodeId>], left: usize) -> usize
    ensures { result ≡ up_to_unmarked_in marks.now (lists_in groups.now) left }
{
    let mut rest = left;
    while has_mark(marks, groups, rest) {
        rest -= 1;
    }
    rest
}

/// Whether a woken implication still waits for a mark in the group that woke it.
fn is_ready(implications: &[Implication], marking: &Marking, woken: Waiting) -> bool
    ensures { result ≡ is_ready_in (map implied implications.now) (work_view marking.now) woken }
{
    if left_of(marking, woken.implication) != woken.left {
        return false;
    }
    match implications.get(woken.implication) {
        Some(implication) => has_mark(&marking.marks, &implication.groups, woken.left),
        None => false,
    }
}

/// Marks a node, and wakes what waits for it.
fn mark(marking: &mut Marking, n: NodeId) -> Result<(), Exhausted>
    requires marks { n.0 < length marking.old.marks.items }
    requires waiting { n.0 < length marking.old.waiting.items }
    ensures ok { OnOk result (work_view marking.new ≡ after_mark (work_view marking.old) n.0) }
    ensures memory { IfErr result (λ e. e ≡ Exhausted.Memory) }
{
    marking.marks[n.0] = true;
    marking.woken.append(&mut marking.waiting[n.0])?;
    Ok(())
}

/// Adds a waiting implication to a node's list. A node past the end of the table has none.
fn wait_at(table: &mut Vec<Vec<Waiting>>, n: NodeId, waiting: Waiting) -> Result<(), Exhausted>
    ensures ok { OnOk result (lists_in table.new.items ≡ appended (lists_in table.old.items) n.0 waiting) }
    ensures memory { IfErr result (λ e. e ≡ Exhausted.Memory) }
{
    if n.0 >= table.len() {
        return Ok(());
    }
    push_at(table, n.0, waiting)?;
    Ok(())
}

/// Adds a waiting implication to the list of each of these nodes.
fn wait_at_each(
    table: &mut Vec<Vec<Waiting>>,
    nodes: &[NodeId],
    waiting: Waiting,
) -> Result<(), Exhausted>
    ensures ok { OnOk result (lists_in table.new.items ≡ after_waits (lists_in table.old.items) nodes.now waiting) }
    ensures memory { IfErr result (λ e. e ≡ Exhausted.Memory) }
{
    for n in nodes {
        wait_at(table, *n, waiting)?;
    }
    Ok(())
}

/// Moves an implication on to its last group without a mark, where it waits. If there is none, marks its node.
fn advance(
    implications: &[Implication],
    marking: &mut Marking,
    place: usize,
) -> Result<(), Exhausted>
    requires within { place < length implications.now }
    requires right { IsRight (map implied implications.now) (work_view marking.old) }
    ensures ok { OnOk result (work_view marking.new ≡ advanced (map implied implications.now) (work_view marking.old) place) }
    ensures memory { IfErr result (λ e. e ≡ Exhausted.Memory) }
{
    let implication = &implications[place];
    let left = up_to_unmarked(&marking.marks, &implication.groups, marking.left[place]);
    marking.left[place] = left;
    if left == 0 {
        mark(marking, implication.node)?;
        return Ok(());
    }
    let waiting = Waiting {
        implication: place,
        left,
    };
    wait_at_each(&mut marking.waiting, &implication.groups[left - 1], waiting)?;
    Ok(())
}

/// Pops woken implications until one of them can move on.
fn next_ready(implications: &[Implication], marking: &mut Marking) -> Option<usize>
    requires { IsRight (map implied implications.now) (work_view marking.old) }
    ensures same { IsSameWork (work_view marking.old) (work_view marking.new) }
    ensures found { IsNextReady (map implied implications.now) (work_view marking.old) (work_view marking.new) result }
{
    while let Some(woken) = marking.woken.pop() {
        if is_ready(implications, marking, woken) {
            return Some(woken.implication);
        }
    }
    None
}

/// The start: no node is marked, and no implication waits yet.
fn unmarked(alloc: Global, count: usize, implications: &[Implication]) -> Result<Marking, Exhausted>
    requires { All (λ i. i.node.0 < count) implications.now }
    ensures right { IfOk result (λ m. IsRight (map implied implications.now) (work_view m)) }
    ensures long { IfOk result (λ m. length m.marks.items ≡ count) }
    ensures memory { IfErr result (λ e. e ≡ Exhausted.Memory) }
{
    let marks = vec![in alloc; false; count]?;
    let mut left = Vec::new(alloc);
    for implication in implications {
        left.push(implication.groups.len())?;
    }
    Ok(Marking {
        marks,
        left,
        waiting: empty_lists(alloc, count)?,
        woken: Vec::new(alloc),
    })
}

/// Lets each implication wait for its first mark, or marks its node at once.
fn start(implications: &[Implication], marking: &mut Marking) -> Result<(), Exhausted>
    requires { IsRight (map implied implications.now) (work_view marking.old) }
    ensures right { OnOk result (IsRight (map implied implications.now) (work_view marking.new)) }
    ensures tended { OnOk result (AreTended (map implied implications.now) (work_view marking.new)) }
    ensures long { OnOk result (length marking.new.marks.items ≡ length marking.old.marks.items) }
    ensures memory { IfErr result (λ e. e ≡ Exhausted.Memory) }
{
    for place in 0..implications.len() {
        advance(implications, marking, place)?;
    }
    Ok(())
}

/// Follows the marks until no woken implication is left.
fn follow(implications: &[Implication], marking: &mut Marking) -> Result<(), Exhausted>
    requires right { IsRight (map implied implications.now) (work_view marking.old) }
    requires tended { AreTended (map implied implications.now) (work_view marking.old) }
    ensures least { OnOk result (HasLeastMarks (length marking.old.marks.items) (map implied implications.now) marking.new.marks.items) }
    ensures memory { IfErr result (λ e. e ≡ Exhausted.Memory) }
{
    while let Some(place) = next_ready(implications, marking) {
        advance(implications, marking, place)?;
    }
    Ok(())
}

/// The fewest marks of `count` nodes that obey the implications.
///
/// The time is linear in the total length of the groups: a group is looked at when its implication comes to it, and
/// once for each of its nodes that is marked later.
pub fn least_marks(
    alloc: Global,
    count: usize,
    implications: &[Implication],
) -> Result<Vec<bool>, Exhausted>
    requires { All (λ i. i.node.0 < count) implications.now }
    ensures value { IfOk result (λ v. HasLeastMarks count (map implied implications.now) v.items) }
    ensures memory { IfErr result (λ e. e ≡ Exhausted.Memory) }
{
    let mut marking = unmarked(alloc, count, implications)?;
    start(implications, &mut marking)?;
    follow(implications, &mut marking)?;
    Ok(marking.marks)
}
