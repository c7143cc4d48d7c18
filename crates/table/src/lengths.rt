// Reads a table from its first node on, and notes at each node the length of the stretch that it ends.
ghost use Rattle.std.specs.Prelude.{◌≡◌, ◌<◌, ◌≤◌, length, drop};
ghost use Rattle.table.specs.Walk.{Short, Low, Brief, step_back, walk, start_of, stretch_of, whole_of};
ghost use Rattle.table.specs.Measured.{measured, Noted};

use crate::node::{Sort, formed};
use language::{Fault, Kind, Node, TableCause};

// A table that is read as far as the node `at`: at each node before it the length of the stretch that it ends is noted.
// The nodes are the caller's, read-only, and the lengths stand in a list that is lent for them: so they are two slices, and
// the list is longer than what is noted in it.
#[derive(Clone, Copy)]
pub struct Reading<'a> {
    nodes: &'a [Node],
    lens: &'a [usize],
    at: usize,
    ghost nodes_within: { at ≤ length nodes.now },
    ghost lens_within: { at ≤ length lens.now },
    ghost short: { Short lens.now at },
}

impl<'a> Reading<'a> {
    // Where the piece of this sort begins that ends right before `end`.
    fn back_one(self, sort: Sort, end: usize) -> Option<usize>
        requires before { end ≤ self.at }
        ensures is { result ≡ step_back self.entry.nodes.now self.entry.lens.now sort end }
        ensures low { Low result end }
    {
        let last = end.checked_sub(1)?;
        let kind = Kind::try_from(self.nodes[last].kind).ok()?;
        if Sort::from(kind) == sort {
            Some(end - self.lens[last])
        } else {
            None
        }
    }

    // Where the last `count` pieces of this sort begin that end right before `end`.
    fn back(self, sort: Sort, count: u16, end: usize) -> Option<usize>
        requires before { end ≤ self.at }
        ensures is { result ≡ walk self.entry.nodes.now self.entry.lens.now sort count end }
        ensures low { Low result end }
    {
        let mut from = end;
        for _ in 0..count {
            from = self.back_one(sort, from)?;
        }
        Some(from)
    }

    // Where the pieces begin that the next node takes.
    fn start_of(self, kind: Kind, node: Node) -> Option<usize>
        ensures is { result ≡ start_of kind node self.entry.nodes.now self.entry.lens.now self.entry.at }
        ensures low { Low result self.entry.at }
    {
        let at = self.at;
        match kind {
            Kind::Truth | Kind::Whole | Kind::Read | Kind::Null | Kind::Argument | Kind::Decl => {
                Some(at)
            }
            Kind::Plus | Kind::Less | Kind::Or => {
                let right = self.back_one(Sort::Expression, at)?;
                self.back_one(Sort::Expression, right)
            }
            Kind::Assign => self.back_one(Sort::Expression, at),
            Kind::If => {
                let other = self.back_one(Sort::Command, at)?;
                let then = self.back_one(Sort::Command, other)?;
                self.back_one(Sort::Expression, then)
            }
            Kind::While => {
                let body = self.back_one(Sort::Command, at)?;
                self.back_one(Sort::Expression, body)
            }
            Kind::Call => self.back(Sort::Argument, node.a, at),
            Kind::Proc => {
                let body = self.back_one(Sort::Command, at)?;
                self.back(Sort::Declaration, node.a, body)
            }
            Kind::Block => {
                let commands = self.back(Sort::Command, node.c, at)?;
                let procedures = self.back(Sort::Procedure, node.b, commands)?;
                self.back(Sort::Declaration, node.a, procedures)
            }
        }
    }

    // The length of the stretch that the next node ends.
    fn stretch(self) -> Result<usize, Fault>
        requires next { self.at < length self.nodes.now }
        ensures is { result ≡ stretch_of self.entry.nodes.now self.entry.lens.now self.entry.at }
        ensures brief { Brief result self.entry.at }
    {
        let at = self.at;
        let node = self.nodes[at];
        let kind = Kind::try_from(node.kind).or(Err(Fault::new(TableCause::Kind.into(), at)))?;
        if !formed(kind, node) {
            return Err(Fault::new(TableCause::Fields.into(), at));
        }
        let start = self
            .start_of(kind, node)
            .ok_or(Fault::new(TableCause::Pieces.into(), at))?;
        Ok(at + 1 - start)
    }
}

// Whether one command takes up the whole table: refused at the last node if not.
fn whole(nodes: &[Node], lens: &[usize]) -> Result<(), Fault>
    requires some { 0 < length nodes.now }
    requires room { length nodes.now ≤ length lens.now }
    requires short { Short lens.now (length nodes.now) }
    ensures { result ≡ whole_of nodes.now lens.now }
{
    let at = nodes.len();
    match (Reading { nodes, lens, at }).back_one(Sort::Command, at) {
        Some(0) => Ok(()),
        _ => Err(Fault::new(TableCause::Whole.into(), at - 1)),
    }
}

// Reads a table as a rule, node by node, and notes in `lens` at each node the length of the stretch that it ends.
// An empty table, and then a list shorter than the table, is refused before anything is noted.
pub fn measure(nodes: &[Node], lens: &mut [usize]) -> Result<(), Fault>
    ensures answer { result ≡ measured nodes.now (length lens.old) }
    ensures stretches { Noted nodes.now lens.new result }
    ensures rest_kept { drop (length nodes.now) lens.new ≡ drop (length nodes.now) lens.old }
    ensures short_list_kept { length lens.old < length nodes.now → lens.new ≡ lens.old }
{
    if nodes.is_empty() {
        return Err(Fault::new(TableCause::Length.into(), 0));
    }
    if lens.len() < nodes.len() {
        return Err(Fault::new(TableCause::WorkLists.into(), 0));
    }
    for at in 0..nodes.len() {
        let reading = Reading { nodes, lens, at };
        let len = reading.stretch()?;
        lens[at] = len;
    }
    whole(nodes, lens)
}
