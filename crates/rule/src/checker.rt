// What the check of a table's names and types works with.
ghost use Rattle.std.specs.Prelude.{◌≤◌, length};

use crate::entries::Entry;
use language::{Node, Scalar};
use scope::Scope;

// The table, the names in sight, and the list for the types of a call's arguments, in which each node has room.
#[derive(Drop)]
pub struct Checker<'t, 's, 'y> {
    pub table: &'t [Node],
    pub scope: Scope<'s, Entry>,
    pub types: &'y mut [Scalar],
    ghost roomy: { length table.now ≤ length types.now },
}
