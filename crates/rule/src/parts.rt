// Parts of a table, each the stretch of one piece: handed on to the check of that piece.
ghost use Rattle.std.specs.Prelude.{◌≡◌, ◌+◌, ◌≤◌, length};

use language::Node;

// Some nodes of a table with the length of the piece that each one ends, and the number of the first of them. Each node
// has its length, and a number that a table has. The nodes are the caller's, read-only, and the lengths stand in a list
// that is lent: so they are two slices. Unlike the table that is read or run, a part is numbered from its place in a table.
#[derive(Clone, Copy)]
pub struct Part<'a> {
    pub nodes: &'a [Node],
    pub lens: &'a [usize],
    pub first: usize,
    ghost a_length_each: { length lens.now ≡ length nodes.now },
    ghost numbered: { first + length nodes.now ≤ 4096 },
}
