// Declarations in a row: a block's variables, or a procedure's formals.
ghost use Rattle.std.specs.Prelude.{◌≡◌, ◌+◌, ◌≤◌, [], length};
ghost use Rattle.language.specs.Sight.{member};
ghost use Rattle.language.specs.Names.{check_decls};
ghost use Rattle.rule.specs.Seen.{sight, room, Grown};
ghost use Rattle.rule.specs.Rows.{decls_from, names_of, entered};

use crate::checker::Checker;
use crate::entries::Entry;
use crate::parts::Part;
use language::{Fault, Name, NamesCause, Node, same_name};

// One of the first `count` nodes has this name.
fn declared(nodes: &[Node], count: usize, name: Name) -> bool
    requires within { count ≤ length nodes.now }
    ensures found { result ≡ member name (names_of nodes.now count) }
{
    nodes[..count].iter().any(|node| same_name(name, node.name))
}

// Each declaration's name differs from the earlier ones.
pub(crate) fn check_names(part: Part<'_>) -> Result<(), Fault>
    ensures says { result ≡ check_decls [] (decls_from part.entry.first part.entry.nodes.now) }
{
    for (k, node) in part.nodes.iter().enumerate() {
        if declared(part.nodes, k, node.name) {
            return Err(Fault::new(NamesCause::Repeated.into(), part.first + k));
        }
    }
    Ok(())
}

impl Checker<'_, '_, '_> {
    // Brings the declared variables into sight.
    pub(crate) fn enter_all(&mut self, nodes: &[Node])
        requires room { self.old.scope.top + length nodes.now ≤ room self.old }
        ensures sight { sight self.new ≡ entered nodes.now (sight self.old) }
        ensures grown { Grown self.old self.new (length nodes.now) }
    {
        for node in nodes {
            self.enter(node.name, Entry::Variable(node.declared_type()));
        }
    }
}
