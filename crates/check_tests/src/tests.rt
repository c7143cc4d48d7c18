// Check on every sample, and at the bounds of tables and work lists.
use language::{Fault, Kind, Layer, Name, NamesCause, Node, Scalar, TableCause};
use rule::{CheckLists, Entry, Routine, Rule, check as check_rule};
use samples::{Sample, call_samples, flow_samples, form_refusals, name_refusals, sample_lines};
use scope::Record;
use std::alloc::{AllocError, Global};
use std::process::Abort;
use std::test::Fail;

// Not the code's own table, so that the tests do not lean on it.
const NULL: Node = Node {
    kind: 6,
    name: 0,
    value: 0,
    a: 0,
    b: 0,
    c: 0,
};

// What each work list of the longest table holds.
const LONGEST: usize = 4098;

// ---- nodes by their words; every field that is not given is 0

fn plain(kind: Kind) -> Node {
    Node {
        kind: kind as u8,
        ..NULL
    }
}

fn named(kind: Kind, name: Name) -> Node {
    Node {
        name,
        ..plain(kind)
    }
}

fn read(name: Name) -> Node {
    named(Kind::Read, name)
}

fn assign(name: Name) -> Node {
    named(Kind::Assign, name)
}

fn argument(name: Name) -> Node {
    named(Kind::Argument, name)
}

fn whole(value: i32) -> Node {
    Node {
        value,
        ..plain(Kind::Whole)
    }
}

fn truth(value: i32) -> Node {
    Node {
        value,
        ..plain(Kind::Truth)
    }
}

// A declaration of a whole number.
fn decl(name: Name) -> Node {
    named(Kind::Decl, name)
}

// A declaration of a truth.
fn truth_decl(name: Name) -> Node {
    Node {
        value: 1,
        ..decl(name)
    }
}

fn call(name: Name, a: u16) -> Node {
    Node {
        a,
        ..named(Kind::Call, name)
    }
}

fn procedure(name: Name, a: u16) -> Node {
    Node {
        a,
        ..named(Kind::Proc, name)
    }
}

fn block(a: u16, b: u16, c: u16) -> Node {
    Node {
        a,
        b,
        c,
        ..plain(Kind::Block)
    }
}

// ---- the work lists, and what check answers with them

// The three work lists, with records that no check left.
#[derive(Drop)]
struct Lists {
    lens: Vec<usize>,
    names: Vec<Record<Entry>>,
    types: Vec<Scalar>,
}

fn filled<T: Copy>(heap: Global, value: T, count: usize) -> Result<Vec<T>, AllocError> {
    let mut items = Vec::new(heap);
    for _ in 0..count {
        items.push(value)?;
    }
    Ok(items)
}

fn work_lists(heap: Global, count: usize) -> Result<Lists, AllocError> {
    Ok(Lists {
        lens: filled(heap, 77, count)?,
        names: filled(heap, Record::blank(Entry::Variable(Scalar::Truth)), count)?,
        types: filled(heap, Scalar::Truth, count)?,
    })
}

impl Lists {
    fn check<'a>(&mut self, place: &mut Rule<'a>, nodes: &'a [Node]) -> Result<(), Fault> {
        check_rule(
            place,
            nodes,
            CheckLists {
                lens: &mut self.lens,
                names: &mut self.names,
                types: &mut self.types,
            },
        )
    }

    // The answer of check with the first `count` records of each list, or with all where there are fewer.
    fn check_with<'a>(
        &mut self,
        count: usize,
        place: &mut Rule<'a>,
        nodes: &'a [Node],
    ) -> Result<(), Fault> {
        let (l, n, t) = (self.lens.len(), self.names.len(), self.types.len());
        check_rule(
            place,
            nodes,
            CheckLists {
                lens: &mut self.lens[..count.min(l)],
                names: &mut self.names[..count.min(n)],
                types: &mut self.types[..count.min(t)],
            },
        )
    }

    // Refused so, and the place that held a rule holds it still.
    fn refuses(&mut self, nodes: &[Node], layer: Layer, at: usize) -> bool {
        let held = [decl(2), NULL, block(1, 0, 1)];
        let mut place = Rule::built_in();
        self.check(&mut place, &held) == Ok(())
            && self.check(&mut place, nodes) == Err(Fault::new(layer, at))
            && place.need() == 3
            && place.nodes() == &held[..]
    }

    // Accepted with this need, and the place holds the table.
    fn accepts(&mut self, nodes: &[Node], need: usize) -> bool {
        let mut place = Rule::built_in();
        self.check(&mut place, nodes) == Ok(()) && place.need() == need && place.nodes() == nodes
    }
}

// ---- the samples, and the bounds of tables and work lists

// The refusal of check that is due, if the table is to be refused at all.
fn due(sample: &Sample) -> Result<(), Fault> {
    match sample.due {
        Err(fault) => match fault.layer {
            Layer::Table(_) | Layer::Names(_) => Err(fault),
            _ => Ok(()),
        },
        Ok(_) => Ok(()),
    }
}

fn check_all(rt: &impl Abort, heap: Global, samples: &[Sample]) -> Result<(), Fail> {
    for sample in samples {
        let mut work = work_lists(heap, sample.work)?;
        let mut place = Rule::built_in();
        assert!(rt;
            work.check(&mut place, sample.nodes) == due(sample),
            "{}",
            sample.name
        );
    }
    Ok(())
}

#[test]
fn every_sample_is_answered_as_due(rt: HostRuntime) -> Result<(), Fail> {
    check_all(&rt, rt.alloc(), &sample_lines())?;
    check_all(&rt, rt.alloc(), &call_samples())?;
    check_all(&rt, rt.alloc(), &flow_samples())?;
    check_all(&rt, rt.alloc(), &form_refusals())?;
    check_all(&rt, rt.alloc(), &name_refusals())
}

// As many nulls, and then the last node.
fn nulls(heap: Global, count: usize, last: Node) -> Result<Vec<Node>, AllocError> {
    let mut nodes = filled(heap, NULL, count)?;
    nodes.push(last)?;
    Ok(nodes)
}

#[test]
fn a_table_has_1_to_4096_nodes(rt: HostRuntime) -> Result<(), Fail> {
    let mut work = work_lists(rt.alloc(), LONGEST + 1)?;
    let mut place = Rule::built_in();
    let long = Err(Fault::new(Layer::Table(TableCause::Length), 0));
    assert!(rt; work.check(&mut place, &[]) == long);
    let nodes = nulls(
        rt.alloc(),
        4095,
        Node {
            kind: 14,
            c: 4095,
            ..NULL
        },
    )?;
    assert!(rt; work.check(&mut place, &nodes) == Ok(()));
    let nodes = nulls(
        rt.alloc(),
        4096,
        Node {
            kind: 14,
            c: 4096,
            ..NULL
        },
    )?;
    assert!(rt; work.check(&mut place, &nodes) == long);
    Ok(())
}

#[test]
fn each_work_list_is_two_records_longer(rt: HostRuntime) -> Result<(), Fail> {
    let short = Err(Fault::new(Layer::Table(TableCause::WorkLists), 0));
    let nodes = [NULL];
    let mut place = Rule::built_in();
    let mut work = work_lists(rt.alloc(), 3)?;
    assert!(rt; work.check(&mut place, &nodes) == Ok(()));
    let _ = work.lens.pop();
    assert!(rt; work.check(&mut place, &nodes) == short);
    let mut work = work_lists(rt.alloc(), 3)?;
    let _ = work.names.pop();
    assert!(rt; work.check(&mut place, &nodes) == short);
    let mut work = work_lists(rt.alloc(), 3)?;
    let _ = work.types.pop();
    assert!(rt; work.check(&mut place, &nodes) == short);
    Ok(())
}

#[test]
fn the_deepest_tables_are_accepted(rt: HostRuntime) -> Result<(), Fail> {
    let mut work = work_lists(rt.alloc(), LONGEST)?;
    let mut place = Rule::built_in();
    let mut blocks = filled(rt.alloc(), NULL, 1)?;
    for _ in 0..4095 {
        blocks.push(Node {
            kind: 14,
            c: 1,
            ..NULL
        })?;
    }
    assert!(rt; work.check(&mut place, &blocks) == Ok(()));
    let mut sums = filled(
        rt.alloc(),
        Node {
            kind: 1,
            value: 1,
            ..NULL
        },
        2048,
    )?;
    for _ in 0..2047 {
        sums.push(Node { kind: 3, ..NULL })?;
    }
    sums.push(Node {
        kind: 7,
        name: 1,
        ..NULL
    })?;
    assert!(rt; work.check(&mut place, &sums) == Ok(()));
    Ok(())
}

// Levels one in the other: the nodes that begin each, what stands in the middle, and the nodes that end each.
fn nested(
    heap: Global,
    begin: &[Node],
    middle: Node,
    end: &[Node],
    levels: usize,
) -> Result<Vec<Node>, AllocError> {
    let mut nodes = Vec::new(heap);
    for _ in 0..levels {
        nodes.extend_from_slice(begin)?;
    }
    nodes.push(middle)?;
    for _ in 0..levels {
        nodes.extend_from_slice(end)?;
    }
    Ok(nodes)
}

#[test]
fn the_deepest_commands_are_accepted(rt: HostRuntime) -> Result<(), Fail> {
    let heap = rt.alloc();
    let mut work = work_lists(heap, LONGEST)?;
    let mut place = Rule::built_in();
    let truth = [Node { kind: 0, ..NULL }];
    let block = Node {
        kind: 14,
        c: 1,
        ..NULL
    };
    let blocks = nested(heap, &[], NULL, &[block], 4095)?;
    assert!(rt; work.check(&mut place, &blocks) == Ok(()));
    let conditionals = nested(heap, &truth, NULL, &[NULL, Node { kind: 8, ..NULL }], 1365)?;
    assert!(rt; work.check(&mut place, &conditionals) == Ok(()));
    let loops = nested(heap, &truth, NULL, &[Node { kind: 9, ..NULL }], 2047)?;
    assert!(rt; work.check(&mut place, &loops) == Ok(()));
    let procedure = Node {
        kind: 13,
        name: 2,
        ..NULL
    };
    let around = Node {
        kind: 14,
        b: 1,
        ..NULL
    };
    let procedures = nested(heap, &[], NULL, &[procedure, around], 2047)?;
    assert!(rt; work.check(&mut place, &procedures) == Ok(()));
    Ok(())
}

#[test]
fn the_deepest_sums_are_accepted(rt: HostRuntime) -> Result<(), Fail> {
    let heap = rt.alloc();
    let mut work = work_lists(heap, LONGEST)?;
    let mut place = Rule::built_in();
    let one = Node {
        kind: 1,
        value: 1,
        ..NULL
    };
    let plus = Node { kind: 3, ..NULL };
    let to_out = Node {
        kind: 7,
        name: 1,
        ..NULL
    };
    let mut right = nested(heap, &[one], one, &[plus], 2047)?;
    right.push(to_out)?;
    assert!(rt; work.check(&mut place, &right) == Ok(()));
    let mut left = nested(heap, &[], one, &[one, plus], 2047)?;
    left.push(to_out)?;
    assert!(rt; work.check(&mut place, &left) == Ok(()));
    Ok(())
}

#[test]
fn a_refusal_leaves_the_place(rt: HostRuntime) -> Result<(), Fail> {
    let mut work = work_lists(rt.alloc(), 64)?;
    let mut place = Rule::built_in();
    let nodes = [
        Node {
            kind: 12,
            name: 2,
            ..NULL
        },
        NULL,
        Node {
            kind: 14,
            a: 1,
            c: 1,
            ..NULL
        },
    ];
    assert!(rt; work.check(&mut place, &nodes) == Ok(()));
    assert!(rt; place.need() == 3 && place.nodes().len() == 3);
    let unknown = [
        Node {
            kind: 2,
            name: 9,
            ..NULL
        },
        Node {
            kind: 7,
            name: 1,
            ..NULL
        },
    ];
    assert!(rt;
        work.check(&mut place, &unknown) == Err(Fault::new(Layer::Names(NamesCause::Variable), 0))
    );
    assert!(rt; place.need() == 3 && place.nodes().len() == 3);
    Ok(())
}

// ---- each refusal at several places, with lists that hold what earlier checks left

// The kinds of 0 to 14 in order: whether each lists its name, its value, and its counts a, b and c.
const LISTED: [[bool; 5]; 15] = [
    [false, true, false, false, false],
    [false, true, false, false, false],
    [true, false, false, false, false],
    [false, false, false, false, false],
    [false, false, false, false, false],
    [false, false, false, false, false],
    [false, false, false, false, false],
    [true, false, false, false, false],
    [false, false, false, false, false],
    [false, false, false, false, false],
    [true, false, true, false, false],
    [true, false, false, false, false],
    [true, true, false, false, false],
    [true, false, true, false, false],
    [false, false, true, true, true],
];

// A node of the kind with nothing but one field, which is 1.
fn with_field(kind: u8, field: usize) -> Node {
    let node = Node { kind, ..NULL };
    match field {
        0 => Node { name: 1, ..node },
        1 => Node { value: 1, ..node },
        2 => Node { a: 1, ..node },
        3 => Node { b: 1, ..node },
        _ => Node { c: 1, ..node },
    }
}

#[test]
fn each_field_that_a_kind_does_not_list_is_asked(rt: HostRuntime) -> Result<(), Fail> {
    let mut work = work_lists(rt.alloc(), 64)?;
    let fields = Layer::Table(TableCause::Fields);
    for (kind, listed) in (0..15u8).zip(&LISTED) {
        for (field, is_listed) in listed.iter().enumerate() {
            let node = with_field(kind, field);
            assert!(rt;
                work.refuses(&[node], fields, 0) != *is_listed,
                "kind {}, field {}",
                kind,
                field
            );
            let later = [NULL, NULL, NULL, node, NULL];
            assert!(rt;
                work.refuses(&later, fields, 3) != *is_listed,
                "kind {}, field {}",
                kind,
                field
            );
        }
    }
    Ok(())
}

#[test]
fn a_listed_value_is_0_or_1(rt: HostRuntime) -> Result<(), Fail> {
    let mut work = work_lists(rt.alloc(), 64)?;
    let fields = Layer::Table(TableCause::Fields);
    for value in [2, -1, 256, i32::MAX, i32::MIN] {
        assert!(rt; work.refuses(&[truth(value), NULL], fields, 0));
        let declared = Node { value, ..decl(2) };
        assert!(rt; work.refuses(&[NULL, NULL, declared], fields, 2));
    }
    Ok(())
}

#[test]
fn a_kind_is_at_most_14(rt: HostRuntime) -> Result<(), Fail> {
    let mut work = work_lists(rt.alloc(), 64)?;
    let unknown = Layer::Table(TableCause::Kind);
    for kind in 15..=255u8 {
        let node = Node {
            kind,
            name: 1,
            value: 9,
            a: 1,
            b: 1,
            c: 1,
        };
        assert!(rt; work.refuses(&[node], unknown, 0), "kind {}", kind);
        assert!(rt;
            work.refuses(&[NULL, NULL, node, node], unknown, 2),
            "kind {}",
            kind
        );
    }
    Ok(())
}

#[test]
fn the_first_node_has_its_pieces(rt: HostRuntime) -> Result<(), Fail> {
    let mut work = work_lists(rt.alloc(), 64)?;
    let pieces = Layer::Table(TableCause::Pieces);
    let first = [
        plain(Kind::Plus),
        plain(Kind::Less),
        plain(Kind::Or),
        assign(1),
        plain(Kind::If),
        plain(Kind::While),
        call(2, 1),
        procedure(2, 0),
        block(1, 0, 0),
        block(0, 1, 0),
        block(0, 0, 1),
    ];
    for node in first {
        assert!(rt; work.refuses(&[node], pieces, 0), "kind {}", node.kind);
    }
    Ok(())
}

#[test]
fn each_piece_stands_right_before_its_node(rt: HostRuntime) -> Result<(), Fail> {
    let mut work = work_lists(rt.alloc(), 64)?;
    let no = Layer::Table(TableCause::Pieces);
    assert!(rt; work.refuses(&[NULL, plain(Kind::Plus), NULL], no, 1));
    assert!(rt; work.refuses(&[read(0), NULL, plain(Kind::If)], no, 2));
    assert!(rt; work.refuses(&[NULL, NULL, NULL, plain(Kind::If)], no, 3));
    assert!(rt; work.refuses(&[NULL, NULL, plain(Kind::While)], no, 2));
    assert!(rt; work.refuses(&[argument(0), whole(1), call(2, 1)], no, 2));
    assert!(rt; work.refuses(&[argument(0), argument(0), call(2, 3)], no, 2));
    assert!(rt; work.refuses(&[NULL, NULL, procedure(2, 1)], no, 2));
    assert!(rt; work.refuses(&[decl(2), whole(1), procedure(2, 1)], no, 2));
    assert!(rt; work.refuses(&[NULL, NULL, block(0, 0, 3)], no, 2));
    assert!(rt; work.refuses(&[NULL, procedure(2, 0), block(0, 0, 1)], no, 2));
    assert!(rt; work.refuses(&[NULL, procedure(2, 0), decl(3), block(1, 1, 0)], no, 3));
    assert!(rt; work.refuses(&[NULL, block(0, 0, 65535)], no, 1));
    Ok(())
}

#[test]
fn one_command_is_left(rt: HostRuntime) -> Result<(), Fail> {
    let mut work = work_lists(rt.alloc(), LONGEST)?;
    let no = Layer::Table(TableCause::Whole);
    assert!(rt; work.refuses(&[truth(1)], no, 0));
    assert!(rt; work.refuses(&[decl(2)], no, 0));
    assert!(rt; work.refuses(&[argument(0)], no, 0));
    assert!(rt; work.refuses(&[NULL, procedure(2, 0)], no, 1));
    assert!(rt; work.refuses(&[NULL, whole(1)], no, 1));
    assert!(rt; work.refuses(&[whole(1), NULL], no, 1));
    assert!(rt; work.refuses(&[NULL, NULL, NULL], no, 2));
    assert!(rt; work.refuses(&[decl(2), NULL, NULL, block(0, 0, 2)], no, 3));
    let most = filled(rt.alloc(), NULL, 4096)?;
    assert!(rt; work.refuses(&most, no, 4095));
    Ok(())
}

#[test]
fn repeated_names_are_refused_where_they_stand(rt: HostRuntime) -> Result<(), Fail> {
    let mut work = work_lists(rt.alloc(), 64)?;
    let no = Layer::Names(NamesCause::Repeated);
    let third = [decl(2), decl(3), decl(2), block(3, 0, 0)];
    assert!(rt; work.refuses(&third, no, 2));
    let inner = [NULL, decl(2), decl(2), block(2, 0, 0), block(0, 0, 2)];
    assert!(rt; work.refuses(&inner, no, 2));
    let formal = [
        decl(2),
        decl(3),
        decl(4),
        decl(3),
        NULL,
        procedure(5, 4),
        block(0, 1, 0),
    ];
    assert!(rt; work.refuses(&formal, no, 3));
    let second = [
        NULL,
        procedure(2, 0),
        decl(4),
        decl(4),
        NULL,
        procedure(3, 2),
        block(0, 2, 0),
    ];
    assert!(rt; work.refuses(&second, no, 3));
    let apart = [
        NULL,
        procedure(2, 0),
        NULL,
        procedure(3, 0),
        NULL,
        procedure(2, 0),
        block(0, 3, 0),
    ];
    assert!(rt; work.refuses(&apart, no, 5));
    Ok(())
}

#[test]
fn one_name_serves_for_several_sorts(rt: HostRuntime) -> Result<(), Fail> {
    let mut work = work_lists(rt.alloc(), 64)?;
    let both = [decl(2), NULL, procedure(2, 0), block(1, 1, 0)];
    assert!(rt; work.accepts(&both, 3));
    let formal = [decl(2), decl(2), NULL, procedure(2, 1), block(1, 1, 0)];
    assert!(rt; work.accepts(&formal, 3));
    let inner = [decl(2), decl(2), block(1, 0, 0), block(1, 0, 1)];
    assert!(rt; work.accepts(&inner, 4));
    Ok(())
}

#[test]
fn unknown_variables_are_refused_where_they_stand(rt: HostRuntime) -> Result<(), Fail> {
    let mut work = work_lists(rt.alloc(), 64)?;
    let no = Layer::Names(NamesCause::Variable);
    let right = [whole(1), read(9), plain(Kind::Plus), assign(1)];
    assert!(rt; work.refuses(&right, no, 1));
    let of_procedure = [NULL, procedure(2, 0), read(2), assign(1), block(0, 1, 1)];
    assert!(rt; work.refuses(&of_procedure, no, 2));
    let after_block = [decl(2), block(1, 0, 0), read(2), assign(1), block(0, 0, 2)];
    assert!(rt; work.refuses(&after_block, no, 2));
    let after_body = [
        decl(4),
        NULL,
        procedure(2, 1),
        read(4),
        assign(1),
        block(0, 1, 1),
    ];
    assert!(rt; work.refuses(&after_body, no, 3));
    let second = [
        decl(4),
        decl(5),
        NULL,
        procedure(2, 2),
        argument(0),
        argument(9),
        call(2, 2),
        block(0, 1, 1),
    ];
    assert!(rt; work.refuses(&second, no, 5));
    assert!(rt; work.refuses(&[argument(9), call(7, 1)], no, 0));
    Ok(())
}

#[test]
fn unknown_procedures_are_refused_where_they_stand(rt: HostRuntime) -> Result<(), Fail> {
    let mut work = work_lists(rt.alloc(), 64)?;
    let no = Layer::Names(NamesCause::Procedure);
    let earlier = [
        NULL,
        procedure(2, 0),
        call(2, 0),
        procedure(3, 0),
        block(0, 2, 0),
    ];
    assert!(rt; work.refuses(&earlier, no, 2));
    let later = [
        call(3, 0),
        procedure(2, 0),
        NULL,
        procedure(3, 0),
        block(0, 2, 0),
    ];
    assert!(rt; work.refuses(&later, no, 0));
    let of_formal = [decl(4), call(4, 0), procedure(2, 1), block(0, 1, 0)];
    assert!(rt; work.refuses(&of_formal, no, 1));
    let after_block = [
        NULL,
        procedure(2, 0),
        block(0, 1, 0),
        call(2, 0),
        block(0, 0, 2),
    ];
    assert!(rt; work.refuses(&after_block, no, 3));
    assert!(rt; work.refuses(&[argument(0), call(7, 1)], no, 1));
    Ok(())
}

#[test]
fn arguments_are_counted_at_the_call(rt: HostRuntime) -> Result<(), Fail> {
    let mut work = work_lists(rt.alloc(), 64)?;
    let no = Layer::Names(NamesCause::Arguments);
    let second = [
        decl(4),
        decl(5),
        NULL,
        procedure(2, 2),
        NULL,
        argument(0),
        call(2, 1),
        block(0, 1, 2),
    ];
    assert!(rt; work.refuses(&second, no, 6));
    let before_types = [
        truth_decl(4),
        NULL,
        procedure(2, 1),
        argument(0),
        argument(1),
        call(2, 2),
        block(0, 1, 1),
    ];
    assert!(rt; work.refuses(&before_types, no, 5));
    Ok(())
}

#[test]
fn types_are_refused_at_the_node(rt: HostRuntime) -> Result<(), Fail> {
    let mut work = work_lists(rt.alloc(), 64)?;
    let no = Layer::Names(NamesCause::Types);
    let (plus, less, or) = (plain(Kind::Plus), plain(Kind::Less), plain(Kind::Or));
    let (branch, repeat) = (plain(Kind::If), plain(Kind::While));
    for operator in [plus, less] {
        assert!(rt; work.refuses(&[truth(1), whole(1), operator, NULL, repeat], no, 2));
        assert!(rt; work.refuses(&[whole(1), truth(1), operator, NULL, repeat], no, 2));
    }
    assert!(rt; work.refuses(&[whole(1), truth(1), or, NULL, repeat], no, 2));
    assert!(rt; work.refuses(&[truth(1), whole(1), or, NULL, repeat], no, 2));
    assert!(rt; work.refuses(&[whole(1), whole(1), plus, NULL, repeat], no, 4));
    assert!(rt; work.refuses(&[whole(1), whole(1), plus, NULL, NULL, branch], no, 5));
    assert!(rt; work.refuses(&[truth(1), truth(0), or, assign(1)], no, 3));
    let kept = [truth_decl(2), whole(1), assign(2), block(1, 0, 1)];
    assert!(rt; work.refuses(&kept, no, 2));
    assert!(rt; work.refuses(&[NULL, read(0), NULL, repeat, block(0, 0, 2)], no, 3));
    Ok(())
}

#[test]
fn each_argument_has_its_formals_type(rt: HostRuntime) -> Result<(), Fail> {
    let mut work = work_lists(rt.alloc(), 64)?;
    let swapped = [
        truth_decl(6),
        decl(4),
        truth_decl(5),
        NULL,
        procedure(2, 2),
        argument(6),
        argument(0),
        call(2, 2),
        block(1, 1, 1),
    ];
    assert!(rt; work.refuses(&swapped, Layer::Names(NamesCause::Types), 7));
    let mut straight = swapped;
    straight[5] = argument(0);
    straight[6] = argument(6);
    assert!(rt; work.accepts(&straight, 3));
    straight[6] = argument(0);
    assert!(rt; work.refuses(&straight, Layer::Names(NamesCause::Types), 7));
    Ok(())
}

#[test]
fn a_nodes_question_comes_after_those_before_it(rt: HostRuntime) -> Result<(), Fail> {
    let mut work = work_lists(rt.alloc(), 64)?;
    let no = Layer::Names(NamesCause::Variable);
    let second = [whole(1), NULL, read(9), assign(1), plain(Kind::If)];
    assert!(rt; work.refuses(&second, no, 2));
    let body = [whole(1), read(9), assign(1), plain(Kind::While)];
    assert!(rt; work.refuses(&body, no, 1));
    let value = [read(9), assign(8)];
    assert!(rt; work.refuses(&value, no, 0));
    let left = [truth(1), read(9), plain(Kind::Plus), assign(1)];
    assert!(rt; work.refuses(&left, no, 1));
    let twice = [decl(2), decl(2), read(9), assign(1), block(2, 0, 1)];
    assert!(rt; work.refuses(&twice, Layer::Names(NamesCause::Repeated), 1));
    Ok(())
}

// Each table has an unknown variable and an unknown procedure, or a repeated name and an unknown variable.
#[test]
fn the_first_no_is_the_answer(rt: HostRuntime) -> Result<(), Fail> {
    let mut work = work_lists(rt.alloc(), 64)?;
    let no = Layer::Names(NamesCause::Variable);
    let commands = [read(9), assign(1), call(7, 0), block(0, 0, 2)];
    assert!(rt; work.refuses(&commands, no, 0));
    let branches = [truth(1), read(9), assign(1), call(7, 0), plain(Kind::If)];
    assert!(rt; work.refuses(&branches, no, 1));
    let body_first = [
        read(9),
        assign(1),
        procedure(2, 0),
        call(7, 0),
        block(0, 1, 1),
    ];
    assert!(rt; work.refuses(&body_first, no, 0));
    assert!(rt; work.refuses(&[argument(9), argument(8), call(7, 2)], no, 0));
    let no = Layer::Names(NamesCause::Repeated);
    let variables = [
        decl(2),
        decl(2),
        read(9),
        assign(1),
        procedure(3, 0),
        block(2, 1, 0),
    ];
    assert!(rt; work.refuses(&variables, no, 1));
    let formals = [
        decl(4),
        decl(4),
        read(9),
        assign(1),
        procedure(2, 2),
        block(0, 1, 0),
    ];
    assert!(rt; work.refuses(&formals, no, 1));
    Ok(())
}

#[test]
fn the_need_is_the_most_at_once(rt: HostRuntime) -> Result<(), Fail> {
    let mut work = work_lists(rt.alloc(), 64)?;
    let (one, two) = (block(1, 0, 0), block(2, 0, 0));
    assert!(rt; work.accepts(&[NULL], 2));
    assert!(rt; work.accepts(&[decl(2), one], 3));
    assert!(rt; work.accepts(&[decl(2), decl(3), one, block(1, 0, 1)], 4));
    let larger_last = [
        truth(1),
        decl(2),
        one,
        decl(2),
        decl(3),
        two,
        plain(Kind::If),
    ];
    assert!(rt; work.accepts(&larger_last, 4));
    let larger_first = [
        truth(1),
        decl(2),
        decl(3),
        two,
        decl(2),
        one,
        plain(Kind::If),
    ];
    assert!(rt; work.accepts(&larger_first, 4));
    assert!(rt; work.accepts(&[truth(0), decl(2), one, plain(Kind::While)], 3));
    let row = [decl(2), one, decl(2), decl(3), two, NULL, block(0, 0, 3)];
    assert!(rt; work.accepts(&row, 4));
    Ok(())
}

#[test]
fn a_call_needs_what_the_body_needs(rt: HostRuntime) -> Result<(), Fail> {
    let mut work = work_lists(rt.alloc(), 64)?;
    let not_called = [decl(3), block(1, 0, 0), procedure(5, 0), block(0, 1, 0)];
    assert!(rt; work.accepts(&not_called, 2));
    let called = [
        decl(6),
        decl(3),
        decl(4),
        block(2, 0, 0),
        procedure(5, 1),
        argument(0),
        call(5, 1),
        block(0, 1, 1),
    ];
    assert!(rt; work.accepts(&called, 4));
    Ok(())
}

// ---- the longest tables

#[test]
fn a_table_is_measured_before_its_lists(rt: HostRuntime) -> Result<(), Fail> {
    let mut work = work_lists(rt.alloc(), LONGEST + 1)?;
    let mut place = Rule::built_in();
    let length = Layer::Table(TableCause::Length);
    let short = Err(Fault::new(TableCause::WorkLists.into(), 0));
    assert!(rt; work.refuses(&[], length, 0));
    assert!(rt; work.check_with(0, &mut place, &[]) == Err(Fault::new(length, 0)));
    let most = filled(rt.alloc(), Node { kind: 15, ..NULL }, 4096)?;
    assert!(rt; work.check_with(4097, &mut place, &most) == short);
    assert!(rt; work.check_with(0, &mut place, &most) == short);
    assert!(rt; work.refuses(&most, Layer::Table(TableCause::Kind), 0));
    let long = filled(rt.alloc(), NULL, 4097)?;
    assert!(rt; work.refuses(&long, length, 0));
    assert!(rt; work.check_with(0, &mut place, &long) == Err(Fault::new(length, 0)));
    Ok(())
}

#[test]
fn the_longest_table_wants_each_record(rt: HostRuntime) -> Result<(), Fail> {
    let short = Layer::Table(TableCause::WorkLists);
    let mut nodes = filled(rt.alloc(), NULL, 4095)?;
    nodes.push(block(0, 0, 4095))?;
    let mut work = work_lists(rt.alloc(), LONGEST)?;
    assert!(rt; work.accepts(&nodes, 2));
    let _ = work.lens.pop();
    assert!(rt; work.refuses(&nodes, short, 0));
    let mut work = work_lists(rt.alloc(), LONGEST)?;
    let _ = work.names.pop();
    assert!(rt; work.refuses(&nodes, short, 0));
    let mut work = work_lists(rt.alloc(), LONGEST)?;
    let _ = work.types.pop();
    assert!(rt; work.refuses(&nodes, short, 0));
    Ok(())
}

// A declaration of each name from 2 on.
fn decls(heap: Global, count: u16) -> Result<Vec<Node>, AllocError> {
    let mut nodes = Vec::new(heap);
    for k in 0..count {
        nodes.push(decl(k.wrapping_add(2)))?;
    }
    Ok(nodes)
}

#[test]
fn the_most_names_are_in_sight(rt: HostRuntime) -> Result<(), Fail> {
    let heap = rt.alloc();
    let mut work = work_lists(heap, LONGEST)?;
    let mut different = decls(heap, 4095)?;
    different.push(block(4095, 0, 0))?;
    assert!(rt; work.accepts(&different, 4097));
    let mut repeated = decls(heap, 4094)?;
    repeated.push(decl(2))?;
    repeated.push(block(4095, 0, 0))?;
    assert!(rt; work.refuses(&repeated, Layer::Names(NamesCause::Repeated), 4094));
    let levels = nested(heap, &[decl(2)], NULL, &[block(1, 0, 1)], 2047)?;
    assert!(rt; work.accepts(&levels, 2049));
    let unknown = nested(heap, &[decl(2)], call(2, 0), &[block(1, 0, 1)], 2047)?;
    assert!(rt; work.refuses(&unknown, Layer::Names(NamesCause::Procedure), 2047));
    Ok(())
}

// A procedure with 2,046 formals, the last of them as given, called with whole numbers.
fn called(heap: Global, last: Node) -> Result<Vec<Node>, AllocError> {
    let mut nodes = decls(heap, 2045)?;
    nodes.push(last)?;
    nodes.push(NULL)?;
    nodes.push(procedure(9, 2046))?;
    for _ in 0..2046 {
        nodes.push(argument(0))?;
    }
    nodes.push(call(9, 2046))?;
    nodes.push(block(0, 1, 1))?;
    Ok(nodes)
}

#[test]
fn the_most_arguments_are_compared(rt: HostRuntime) -> Result<(), Fail> {
    let mut work = work_lists(rt.alloc(), LONGEST)?;
    let fits = called(rt.alloc(), decl(1))?;
    assert!(rt; work.accepts(&fits, 2));
    let differs = called(rt.alloc(), truth_decl(1))?;
    assert!(rt; work.refuses(&differs, Layer::Names(NamesCause::Types), 4094));
    Ok(())
}

// ---- what lists held before

// The samples' answers with lists that every check before has used.
fn check_in_turn(rt: &impl Abort, work: &mut Lists, samples: &[Sample]) -> Result<(), Fail> {
    for sample in samples {
        let mut place = Rule::built_in();
        assert!(rt;
            work.check_with(sample.work, &mut place, sample.nodes) == due(sample),
            "{}",
            sample.name
        );
    }
    Ok(())
}

#[test]
fn no_answer_depends_on_leftovers(rt: HostRuntime) -> Result<(), Fail> {
    let heap = rt.alloc();
    let routine = Routine {
        first: usize::MAX,
        count: usize::MAX,
        need: usize::MAX,
    };
    let mut work = Lists {
        lens: filled(heap, usize::MAX, 64)?,
        names: filled(heap, Record::blank(Entry::Procedure(routine)), 64)?,
        types: filled(heap, Scalar::Whole, 64)?,
    };
    check_in_turn(&rt, &mut work, &name_refusals())?;
    check_in_turn(&rt, &mut work, &call_samples())?;
    check_in_turn(&rt, &mut work, &form_refusals())?;
    check_in_turn(&rt, &mut work, &sample_lines())?;
    check_in_turn(&rt, &mut work, &flow_samples())
}
