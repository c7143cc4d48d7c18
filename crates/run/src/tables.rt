// A rule's table with the length of the stretch that each node ends. The nodes are the caller's, read-only, and the lengths
// stand in a list that is lent: so they are two slices. A node's number has to be in range wherever it is used, as an index has.
ghost use Rattle.std.specs.Prelude.{◌≡◌, ◌+◌, ◌<◌, length};
ghost use Rattle.table.specs.Measured.{Lengths};
ghost use Rattle.table.specs.Stretches.{node_at};
ghost use Rattle.table.specs.Walk.{start_at};
ghost use Rattle.run.specs.Fit.{Lengths-prop};
ghost use Rattle.run.specs.Shapes.{kind_at};

use language::{Kind, Node};

#[derive(Clone, Copy)]
pub struct Table<'a> {
    pub nodes: &'a [Node],
    pub lens: &'a [usize],
    ghost size: { length lens.now ≡ length nodes.now },
    ghost lengths: { Lengths nodes.now lens.now } by { Lengths-prop nodes.now lens.now },
}

impl<'a> Table<'a> {
    pub(crate) fn node(self, at: usize) -> Node
        requires inside { at < length self.nodes.now }
        ensures node { result ≡ node_at self.entry.nodes.now at }
    {
        self.nodes[at]
    }

    pub(crate) fn kind(self, at: usize) -> Option<Kind>
        requires inside { at < length self.nodes.now }
        ensures kind { result ≡ kind_at self.entry.nodes.now at }
    {
        Kind::try_from(self.nodes[at].kind).ok()
    }

    // Where the stretch begins that the node ends.
    pub(crate) fn start(self, at: usize) -> usize
        requires inside { at < length self.nodes.now }
        ensures start { result ≡ start_at self.entry.lens.now at }
    {
        (at + 1).saturating_sub(self.lens[at])
    }

    // The place after that stretch.
    pub(crate) fn end(self, at: usize) -> usize
        requires inside { at < length self.nodes.now }
        ensures end { result ≡ at + 1 }
    {
        at + 1
    }
}
