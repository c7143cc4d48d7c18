// Accepted tables.
ghost use Rattle.std.specs.Prelude.{◌≡◌, ℕ, ◌+◌, ◌≤◌, true, [], ◌∷◌, length, pos, MatchResult};
ghost use Rattle.language.specs.Check.{read_rule, check as checks};
ghost use Rattle.table.specs.Measured.{Lengths};
ghost use Rattle.rule.specs.Accepted.{accepted, Accepted, need_of, verdict};

use crate::checker::Checker;
use crate::entries::Entry;
use crate::parts::Part;
use language::{Fault, IN, Kind, Node, OUT, Scalar, TableCause};
use scope::{Record, Scope};
use table::measure;

const MOST_NODES: usize = 4096;

// The table of the rule that does nothing: one node, of the kind `null`.
static NOTHING: [Node; 1] = [Node {
    kind: Kind::Null as u8,
    name: 0,
    value: 0,
    a: 0,
    b: 0,
    c: 0,
}];

// A table that check accepted, with the locations that a run of it needs.
#[derive(Clone, Copy)]
pub struct Rule<'a> {
    nodes: &'a [Node],
    need: usize,
    ghost accepted: { accepted nodes.now need ≡ true },
}

impl<'a> Rule<'a> {
    // The rule that does nothing.
    pub fn built_in() -> Rule<'a>
        ensures table { result.nodes.now ≡ record { kind = 6; name = 0; value = pos 0; a = 0; b = 0; c = 0 } ∷ [] }
        ensures need { result.need ≡ 2 }
    {
        Rule {
            nodes: &NOTHING,
            need: 2,
        }
    }

    #[tactic(auto, using(crate::proofs::Whole::accepted_is))]
    pub fn nodes(&self) -> &'a [Node]
        ensures nodes { result.now ≡ self.now.nodes.now }
        ensures accepted { Accepted result.now self.now.need }
    {
        self.nodes
    }

    #[tactic(auto, using(crate::proofs::Whole::accepted_is))]
    pub fn need(&self) -> usize
        ensures need { result ≡ self.now.need }
        ensures accepted { Accepted self.now.nodes.now result }
    {
        self.need
    }
}

// The lists that a check works in: the lengths of a table's stretches, the names in sight, and the types of a call's
// arguments.
#[derive(Drop)]
pub struct CheckLists<'l, 'n, 't> {
    pub lens: &'l mut [usize],
    pub names: &'n mut [Record<Entry>],
    pub types: &'t mut [Scalar],
}

// The names and types of the table, whose lengths were noted. At the outset `in` and `out` are in sight.
fn consistent(nodes: &[Node], lists: CheckLists<'_, '_, '_>) -> Result<usize, Fault>
    requires lengths { Lengths nodes.now lists.lens.now }
    requires most { length nodes.now ≤ 4096 }
    requires lens { length nodes.now ≤ length lists.lens.now }
    requires names { length nodes.now + 2 ≤ length lists.names.now }
    requires types { length nodes.now ≤ length lists.types.now }
    ensures says { result ≡ need_of (read_rule nodes.now) }
{
    let CheckLists { lens, names, types } = lists;
    let part = Part {
        nodes,
        lens: &lens[..nodes.len()],
        first: 0,
    };
    let mut checker = Checker {
        table: nodes,
        scope: Scope::new(names),
        types,
    };
    checker.enter(IN, Entry::Variable(Scalar::Whole));
    checker.enter(OUT, Entry::Variable(Scalar::Whole));
    let need = checker.command(part)?;
    Ok(need + 2)
}

// The need of a table that is accepted.
fn needed(nodes: &[Node], lists: CheckLists<'_, '_, '_>) -> Result<usize, Fault>
    ensures says { result ≡ need_of (checks nodes.now (length lists.entry.lens.now) (length lists.entry.names.now) (length lists.entry.types.now)) }
{
    let CheckLists { lens, names, types } = lists;
    let count = nodes.len();
    if !(1..=MOST_NODES).contains(&count) {
        return Err(Fault::new(TableCause::Length.into(), 0));
    }
    let least = count + 2;
    if lens.len() < least || names.len() < least || types.len() < least {
        return Err(Fault::new(TableCause::WorkLists.into(), 0));
    }
    measure(nodes, lens)?;
    consistent(nodes, CheckLists { lens, names, types })
}

// Checks the table, with the three lists to work in, which are the memory and not the question: puts an accepted one into the place, and leaves the place as it
// was where the table is refused.
pub fn check<'a>(
    place: &mut Rule<'a>,
    nodes: &'a [Node],
    lists: CheckLists<'_, '_, '_>,
) -> Result<(), Fault>
    ensures answers { result ≡ verdict (checks nodes.now (length lists.entry.lens.now) (length lists.entry.names.now) (length lists.entry.types.now)) }
    ensures fills { MatchResult result (λ _. (place.new.nodes.now ≡ nodes.now) × Accepted nodes.now place.new.need) (λ _. place.new ≡ place.old) }
{
    // a struct of `&mut` slices is not proved where it is handed on whole, so it is taken apart and made again
    let CheckLists { lens, names, types } = lists;
    let need = needed(nodes, CheckLists { lens, names, types })?;
    *place = Rule { nodes, need };
    Ok(())
}
