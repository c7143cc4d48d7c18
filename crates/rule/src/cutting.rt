// Parts of a table cut into the parts of their pieces.
ghost use Rattle.std.specs.Prelude.{◌≡◌, ℕ, ◌-◌, ◌≤◌, true, is_some, Some, MatchOption};
ghost use Rattle.language.specs.Kinds.{with_number};
ghost use Rattle.rule.specs.Pieces.{long, last_node, placed, Cut, Ended, begins, Halved, Halves, Thirded, Thirds, Lasts, RowEnds, skipped, Blocked, BlockCuts, ProcEnds, ProcCuts};

use crate::parts::Part;
use language::{Kind, Node};

impl<'a> Part<'a> {
    // The nodes from `start` to `end`.
    pub(crate) fn cut(self, start: usize, end: usize) -> Part<'a>
        requires order { start ≤ end }
        requires within { end ≤ long self }
        ensures cut { Cut self.entry result start end }
    {
        Part {
            nodes: &self.nodes[start..end],
            lens: &self.lens[start..end],
            first: self.first + start,
        }
    }

    // The node that ends the part. A part can be a row of no pieces, so this, `place`, `kind` and `body` ask for one.
    pub(crate) fn last(self) -> Node
        requires some { 1 ≤ long self }
        ensures node { result ≡ last_node self.entry }
    {
        self.nodes[self.nodes.len() - 1]
    }

    // The number of that node.
    pub(crate) fn place(self) -> usize
        requires some { 1 ≤ long self }
        ensures number { result ≡ placed self.entry }
    {
        self.first + (self.nodes.len() - 1)
    }

    // The kind of that node.
    pub(crate) fn kind(self) -> Kind
        requires some { 1 ≤ long self }
        requires known { is_some (with_number (last_node self).kind) ≡ true }
        ensures kind { with_number (last_node self.entry).kind ≡ Some result }
    {
        Kind::try_from(self.last().kind).unwrap()
    }

    // Where the piece that ends right before `end` begins.
    pub(crate) fn start_of(self, end: usize) -> usize
        requires ended { Ended self end }
        ensures begins { result ≡ begins self.entry end }
    {
        end - self.lens[end - 1]
    }

    // The two pieces in front of the last node.
    pub(crate) fn halves(self) -> (Part<'a>, Part<'a>)
        requires halved { Halved self }
        ensures halves { Halves self.entry result.0 result.1 }
    {
        let end = self.nodes.len() - 1;
        let middle = self.start_of(end);
        (self.cut(0, middle), self.cut(middle, end))
    }

    // The three pieces in front of the last node.
    pub(crate) fn thirds(self) -> (Part<'a>, Part<'a>, Part<'a>)
        requires thirded { Thirded self }
        ensures thirds { Thirds self.entry result.0 result.1 result.2 }
    {
        let end = self.nodes.len() - 1;
        let third = self.start_of(end);
        let second = self.start_of(third);
        (
            self.cut(0, second),
            self.cut(second, third),
            self.cut(third, end),
        )
    }

    // All but the last node.
    pub(crate) fn body(self) -> Part<'a>
        requires some { 1 ≤ long self }
        ensures cut { Cut self.entry result 0 (long self.entry - 1) }
    {
        self.cut(0, self.nodes.len() - 1)
    }

    // The piece that ends the part, after what stands before it, unless there are no nodes.
    pub(crate) fn split_last(self) -> Option<(Part<'a>, Part<'a>)>
        requires ended { 1 ≤ long self → Ended self (long self) }
        ensures lasts { MatchOption result (long self.entry ≡ 0) (λ parts. Lasts self.entry parts.0 parts.1) }
    {
        let end = self.nodes.len();
        if end == 0 {
            return None;
        }
        let start = self.start_of(end);
        Some((self.cut(0, start), self.cut(start, end)))
    }

    // Where the last `count` pieces that end right before `end` begin.
    fn skip(self, end: usize, count: u16) -> usize
        requires row { RowEnds self count end }
        ensures skipped { result ≡ skipped self.entry count end }
    {
        let mut start = end;
        for _ in 0..count {
            start = self.start_of(start);
        }
        start
    }

    // The variables, the procedures and the commands of a block.
    pub(crate) fn block_parts(self) -> (Part<'a>, Part<'a>, Part<'a>)
        requires blocked { Blocked self }
        ensures cuts { BlockCuts self.entry result.0 result.1 result.2 }
    {
        let node = self.last();
        let variables = node.a as usize;
        let end = self.nodes.len() - 1;
        let commands = self.skip(end, node.c);
        (
            self.cut(0, variables),
            self.cut(variables, commands),
            self.cut(commands, end),
        )
    }

    // The formals and the body of a procedure.
    pub(crate) fn procedure_parts(self) -> (Part<'a>, Part<'a>)
        requires ends { ProcEnds self }
        ensures cuts { ProcCuts self.entry result.0 result.1 }
    {
        let formals = self.last().a as usize;
        (
            self.cut(0, formals),
            self.cut(formals, self.nodes.len() - 1),
        )
    }
}
