//! What is still to be told of a tree.
//!
//! A tree is as deep as a chain of packages is long, so the position in it is kept in a list and not on the call stack.

ghost use Rattle.std.specs.Prelude.{◌≡◌, IfErr, IfOk, OnOk, not, slice_set};
ghost use Rattle.resolver_report.specs.PendingTexts.{HasLevels, entered, is_none, left, pending_view, whole_tree};
ghost use Rattle.resolver_report.specs.Outlines.{runs_view};

use crate::graph::NodeId;
use crate::indenter::Indenter;
use crate::outline::RunOutline;
use resolver_clause_store::Exhausted;
use std::alloc::Global;

/// Sets the mark of a node.
pub fn set_mark(marks: &mut Vec<bool>, n: usize, mark: bool)
    ensures { marks.new.items ≡ slice_set marks.old.items n mark }
{
    if n < marks.len() {
        marks[n] = mark;
    }
}

/// A candidate whose tree is being told, and what comes after that tree.
#[derive(Drop)]
pub struct Frame<'s> {
    pub node: NodeId,
    /// The candidates after this one in its run.
    pub candidates: &'s [NodeId],
    /// The runs after that run.
    pub runs: &'s [RunOutline],
}

/// What is still to be told.
#[derive(Drop)]
pub struct Pending<'s> {
    /// The candidates whose trees are being told, from the top.
    pub frames: Vec<Frame<'s>>,
    /// The candidates of the present run that are left.
    pub candidates: &'s [NodeId],
    /// The runs after the present one.
    pub runs: &'s [RunOutline],
    /// The indent of the present tree.
    pub indenter: Indenter,
    /// The groups that are reported already.
    pub reported: Vec<bool>,
    /// The candidates on the present branch.
    pub branch: Vec<bool>,
    /// How many candidates a branch may have.
    pub limit: usize,
}

impl<'s> Pending<'s> {
    /// A whole tree to be told, with at most `limit` candidates on a branch.
    pub fn whole(
        alloc: Global,
        runs: &'s [RunOutline],
        top_level_indent: bool,
        limit: usize,
    ) -> Result<Self, Exhausted>
        ensures view { IfOk result (λ pending. pending_view pending ≡ whole_tree top_level_indent limit (runs_view runs.now)) }
        ensures levels { IfOk result HasLevels }
        ensures memory { IfErr result (λ e. e ≡ Exhausted.Memory) }
    {
        Ok(Pending {
            frames: Vec::new(alloc),
            candidates: &[],
            runs,
            indenter: Indenter::new(alloc, top_level_indent),
            reported: vec![in alloc; false; limit]?,
            branch: vec![in alloc; false; limit]?,
            limit,
        })
    }

    /// Descends into the tree of a candidate.
    pub fn enter(
        &mut self,
        node: NodeId,
        candidates: &'s [NodeId],
        runs: &'s [RunOutline],
        indenter: Indenter,
    ) -> Result<(), Exhausted>
        ensures view { OnOk result (pending_view self.new ≡ entered (pending_view self.old) node.0 candidates.now (runs_view runs.now) indenter.top_level_indent) }
        ensures indenter { OnOk result (self.new.indenter ≡ indenter) }
        ensures memory { IfErr result (λ e. e ≡ Exhausted.Memory) }
    {
        self.frames.push(Frame {
            node,
            candidates,
            runs: self.runs,
        })?;
        set_mark(&mut self.branch, node.0, true);
        self.candidates = &[];
        self.runs = runs;
        self.indenter = indenter;
        Ok(())
    }

    /// Returns from a finished tree to the one above. `false` if the whole tree is finished.
    pub fn leave(&mut self) -> bool
        requires { HasLevels self.old }
        ensures found { result ≡ not (is_none (pending_view self.old).frames) }
        ensures view { pending_view self.new ≡ left (pending_view self.old) }
        ensures levels { HasLevels self.new }
    {
        let Some(frame) = self.frames.pop() else {
            return false;
        };
        set_mark(&mut self.branch, frame.node.0, false);
        self.indenter.rise();
        self.indenter.rise();
        self.candidates = frame.candidates;
        self.runs = frame.runs;
        true
    }
}
