//! What has been made of statements, from the last one on.

ghost use Rattle.std.specs.Prelude.{◌≡◌, ◌++◌, ◌∷◌, ◌+◌, [], length, IfOk, OnOk, map};
ghost use Rattle.sub_nodes.specs.Code.{head_nodes, number, before, placed};
ghost use Rattle.sub_split.specs.Makes.{next_view, head_view, nodes_view, made_view, Makes};
ghost use Rattle.sub_split.specs.Views.{node_view, piece_view, way_on_view};

use crate::table::{Node, Piece, Segment, WayOn};
use std::alloc::{AllocError, Global};
use vl_design::Text;
use vl_design::design::SysCall;

/// What comes behind a stretch of statements.
#[derive(Drop)]
pub(crate) enum Next<'a> {
    /// A call in an instance of this path, behind which this node is next.
    Calls(&'a Text, &'a SysCall, u32),
    /// A way on.
    Leads(WayOn<'a>),
}

/// How statements begin.
#[derive(Drop)]
pub(crate) struct Head<'a> {
    /// The stretch up to the first act, its last statement first.
    statements: Vec<Piece<'a>>,
    /// What comes behind it.
    next: Next<'a>,
}

/// Nodes that are numbered from a number on.
#[derive(Drop)]
pub(crate) struct Nodes<'a> {
    /// The number of the first one.
    pub(crate) from: u32,
    /// The nodes.
    pub(crate) all: Vec<Node<'a>>,
}

/// A copy of a way on.
fn copied_way<'a>(alloc: Global, on: &WayOn<'a>) -> Result<WayOn<'a>, AllocError>
    ensures { IfOk result (λ x. way_on_view x ≡ way_on_view on.now) }
{
    match on {
        WayOn::Go(to) => Ok(WayOn::Go(*to)),
        WayOn::Branch(test, first, second) => Ok(WayOn::Branch(test, *first, *second)),
        WayOn::Switch(subject, ways, otherwise) => {
            let ways = Vec::from_slice(alloc, ways.as_slice())?;
            Ok(WayOn::Switch(subject, ways, *otherwise))
        }
        WayOn::Commit(to) => Ok(WayOn::Commit(*to)),
    }
}

/// A copy of what comes behind a stretch.
fn copied_next<'a>(alloc: Global, next: &Next<'a>) -> Result<Next<'a>, AllocError>
    ensures { IfOk result (λ x. next_view x ≡ next_view next.now) }
{
    match next {
        Next::Calls(path, call, to) => Ok(Next::Calls(path, call, *to)),
        Next::Leads(on) => {
            let on = copied_way(alloc, on)?;
            Ok(Next::Leads(on))
        }
    }
}

impl<'a> Head<'a> {
    /// No statement before this.
    pub(crate) fn new(alloc: Global, next: Next<'a>) -> Self
        ensures { head_view result ≡ record { statements = []; next = next_view next.entry } }
    {
        Head {
            statements: Vec::new(alloc),
            next,
        }
    }

    /// With a statement before it.
    pub(crate) fn with(self, piece: Piece<'a>) -> Result<Head<'a>, AllocError>
        ensures { IfOk result (λ h. head_view h ≡ record { statements = piece_view piece.entry ∷ (head_view self.entry).statements; next = (head_view self.entry).next }) }
    {
        let mut head = self;
        head.statements.push(piece)?;
        Ok(head)
    }

    /// A copy.
    pub(crate) fn copied(&self, alloc: Global) -> Result<Head<'a>, AllocError>
        ensures { IfOk result (λ h. head_view h ≡ head_view self.now) }
    {
        let statements = Vec::from_slice(alloc, self.statements.as_slice())?;
        let next = copied_next(alloc, &self.next)?;
        Ok(Head { statements, next })
    }
}

impl<'a> Nodes<'a> {
    /// No nodes, which are numbered from a number on.
    pub(crate) fn new(alloc: Global, from: u32) -> Self
        ensures from { result.from ≡ from }
        ensures nodes { nodes_view result ≡ [] }
    {
        Nodes {
            from,
            all: Vec::new(alloc),
        }
    }

    /// The number of the next node. A number that is too long is want of memory.
    pub(crate) fn number(&self) -> Result<u32, AllocError>
        ensures { IfOk result (λ n. n ≡ number self.now.from (nodes_view self.now)) }
    {
        let Ok(count) = u32::try_from(self.all.len()) else {
            return Err(AllocError);
        };
        match self.from.checked_add(count) {
            Some(number) => Ok(number),
            None => Err(AllocError),
        }
    }

    /// The number of the node behind the next one.
    fn next_number(&self) -> Result<u32, AllocError>
        ensures { IfOk result (λ n. n ≡ number self.now.from (nodes_view self.now) + 1) }
    {
        match self.number()?.checked_add(1) {
            Some(number) => Ok(number),
            None => Err(AllocError),
        }
    }

    /// Adds a node.
    fn push(&mut self, node: Node<'a>) -> Result<(), AllocError>
        ensures from { OnOk result (self.new.from ≡ self.old.from) }
        ensures nodes { OnOk result (nodes_view self.new ≡ nodes_view self.old ++ node_view node.entry ∷ []) }
    {
        self.all.push(node)?;
        Ok(())
    }

    /// Adds the nodes of statements that begin so; before them the clock rises or not.
    pub(crate) fn place(&mut self, rises: bool, head: Head<'a>) -> Result<(), AllocError>
        ensures from { OnOk result (self.new.from ≡ self.old.from) }
        ensures nodes { OnOk result (nodes_view self.new ≡ nodes_view self.old ++ head_nodes (head_view head.entry) (record { rises = rises; statements = [] }) (number self.old.from (nodes_view self.old))) }
    {
        let Head {
            mut statements,
            next,
        } = head;
        statements.reverse();
        let segment = Segment { rises, statements };
        match next {
            Next::Calls(path, call, to) => {
                let trap = self.next_number()?;
                self.push(Node::Run(segment, WayOn::Go(trap)))?;
                self.push(Node::Trap(path, call, to))
            }
            Next::Leads(on) => self.push(Node::Run(segment, on)),
        }
    }

    /// Adds the nodes of statements that begin so, and begins anew with what comes behind a stretch.
    pub(crate) fn follow(
        &mut self,
        alloc: Global,
        head: Head<'a>,
        next: Next<'a>,
    ) -> Result<Head<'a>, AllocError>
        ensures { IfOk result (λ h. Makes self.old self.new h (record { nodes = placed self.old.from (nodes_view self.old) (head_view head.entry); head = record { statements = []; next = next_view next.entry } })) }
    {
        self.place(false, head)?;
        Ok(Head::new(alloc, next))
    }
}
