// Runs on both stores: every sample, stores in use, and the bounds of units, room and work lists.
use byte_store::ByteStore;
use language::{
    Fault, Graded, Layer, Name, Node, Number, OUT, PieceCause, RunCause, Scalar, TableCause, Value,
};
use record_store::{Cell, RecordStore};
use rule::{CheckLists, Entry, Rule, check};
use run::{Binding, Level, RunLists, run};
use samples::{Sample, call_samples, flow_samples, form_refusals, name_refusals, sample_lines};
use scope::Record;
use std::alloc::{AllocError, Global};
use std::process::Abort;
use std::test::Fail;
use store::{Full, Store};

const CELLS: usize = 64;

const BYTES: usize = 5 * CELLS;

const LONGEST: usize = 4098;

const NULL: Node = Node {
    kind: 6,
    name: 0,
    value: 0,
    a: 0,
    b: 0,
    c: 0,
};

const BLOCK: Node = Node {
    kind: 14,
    c: 1,
    ..NULL
};

// A block whose commands see one procedure.
const AROUND: Node = Node { b: 1, ..BLOCK };

const VARIABLE: Node = Node {
    kind: 12,
    name: 2,
    ..NULL
};

const READ_IN: Node = Node { kind: 2, ..NULL };

const ONE: Node = Node {
    kind: 1,
    value: 1,
    ..NULL
};

const PLUS: Node = Node { kind: 3, ..NULL };

// Gives the variable 2 a value.
const ASSIGN: Node = Node {
    kind: 7,
    name: 2,
    ..NULL
};

// The work lists of check and of a run, with records that neither left.
#[derive(Drop)]
struct Work {
    lens: Vec<usize>,
    entries: Vec<Record<Entry>>,
    types: Vec<Scalar>,
    names: Vec<Record<Binding>>,
    levels: Vec<Level>,
}

impl Work {
    fn new(heap: Global, count: usize) -> Result<Work, AllocError> {
        Ok(Work {
            lens: vec![in heap; 77usize; count]?,
            entries: vec![in heap; Record::blank(Entry::Hidden); count]?,
            types: vec![in heap; Scalar::Truth; count]?,
            names: vec![in heap; Record::blank(Binding::Procedure(77, 77)); count]?,
            levels: vec![in heap; Level::blank(); count]?,
        })
    }

    fn accept<'a>(&mut self, nodes: &'a [Node]) -> Result<Rule<'a>, Fault> {
        let mut place = Rule::built_in();
        let lists = CheckLists {
            lens: &mut self.lens,
            names: &mut self.entries,
            types: &mut self.types,
        };
        check(&mut place, nodes, lists)?;
        Ok(place)
    }

    fn run<S: Store>(
        &mut self,
        rule: &Rule<'_>,
        step: Number,
        allowance: u32,
        store: &mut S,
    ) -> Result<Graded, Fault> {
        let lists = RunLists {
            lens: &mut self.lens,
            names: &mut self.names,
            levels: &mut self.levels,
        };
        run(rule, step, allowance, store, lists)
    }

    // What check says where it refuses the table, else what the run comes to.
    fn answer<S: Store>(
        &mut self,
        nodes: &[Node],
        step: Number,
        allowance: u32,
        store: &mut S,
    ) -> Result<Graded, Fault> {
        let rule = self.accept(nodes)?;
        self.run(&rule, step, allowance, store)
    }
}

fn run_all(rt: &impl Abort, heap: Global, samples: &[Sample]) -> Result<(), Fail> {
    for sample in samples {
        let Sample {
            name,
            nodes,
            step,
            allowance,
            due,
            ..
        } = *sample;
        let mut work = Work::new(heap, sample.work)?;
        let mut cells = [Cell::free(); CELLS];
        let answer = work.answer(nodes, step, allowance, &mut RecordStore::over(&mut cells));
        assert!(rt; answer == due, "{name}");
        let mut bytes = [0; BYTES];
        let answer = work.answer(nodes, step, allowance, &mut ByteStore::over(&mut bytes));
        assert!(rt; answer == due, "{name}");
    }
    Ok(())
}

#[test]
fn every_sample_is_answered_as_due(rt: HostRuntime) -> Result<(), Fail> {
    run_all(&rt, rt.alloc(), &sample_lines())?;
    run_all(&rt, rt.alloc(), &call_samples())?;
    run_all(&rt, rt.alloc(), &flow_samples())?;
    run_all(&rt, rt.alloc(), &form_refusals())?;
    run_all(&rt, rt.alloc(), &name_refusals())
}

// What lies in a store beside a run: three values, with a free location before the last.
const BESIDE: [Value; 3] = [
    Value::Whole(-7),
    Value::Truth(true),
    Value::Whole(2147483647),
];

fn take_beside<S: Store>(store: &mut S) -> Result<[u16; 3], Full> {
    let first = store.take(BESIDE[0])?;
    let second = store.take(BESIDE[1])?;
    let free = store.take(Value::Whole(1))?;
    let third = store.take(BESIDE[2])?;
    let _ = store.release(free);
    Ok([first, second, third])
}

fn is_beside<S: Store>(store: &S, locations: [u16; 3]) -> bool {
    let [first, second, third] = locations;
    store.count() == 3
        && store.read(first) == Ok(BESIDE[0])
        && store.read(second) == Ok(BESIDE[1])
        && store.read(third) == Ok(BESIDE[2])
}

// One and the same work lists serve all runs, so that each finds what the run before it left.
fn run_beside<S: Store>(
    rt: &impl Abort,
    heap: Global,
    store: &mut S,
    samples: &[Sample],
) -> Result<(), Fail> {
    let mut work = Work::new(heap, CELLS)?;
    let locations = take_beside(store)?;
    for sample in samples {
        let Sample {
            name,
            nodes,
            step,
            allowance,
            due,
            ..
        } = *sample;
        assert!(rt; work.answer(nodes, step, allowance, store) == due, "{name}");
        assert!(rt; is_beside(store, locations), "{name}");
    }
    Ok(())
}

fn run_beside_on_both(rt: &impl Abort, heap: Global, samples: &[Sample]) -> Result<(), Fail> {
    let mut cells = [Cell::free(); CELLS];
    run_beside(rt, heap, &mut RecordStore::over(&mut cells), samples)?;
    let mut bytes = [0; BYTES];
    run_beside(rt, heap, &mut ByteStore::over(&mut bytes), samples)
}

// A sum out of range while the variable of a block is live: `2 := in + 1` at the highest step.
const STOPPED_INSIDE: Sample = Sample {
    name: "stopped inside a block",
    nodes: &[VARIABLE, READ_IN, ONE, PLUS, ASSIGN, Node { a: 1, ..BLOCK }],
    work: 8,
    step: 2147483647,
    allowance: 1000,
    due: Err(Fault {
        layer: Layer::Run(RunCause::Sum),
        place: 3,
        point: None,
    }),
};

// Among the samples are runs that are stopped by 19 and by 20.
#[test]
fn other_locations_are_kept(rt: HostRuntime) -> Result<(), Fail> {
    run_beside_on_both(&rt, rt.alloc(), &sample_lines())?;
    run_beside_on_both(&rt, rt.alloc(), &call_samples())?;
    run_beside_on_both(&rt, rt.alloc(), &flow_samples())?;
    run_beside_on_both(&rt, rt.alloc(), &[STOPPED_INSIDE])
}

const NO_ROOM: Result<Graded, Fault> = Err(Fault {
    layer: Layer::Piece(PieceCause::Room),
    place: 0,
    point: None,
});

// Rule A, which needs 2, on stores of 2 cells and of 1, and of 4 and of 3 where two locations are live beside it.
#[test]
fn the_room_is_just_the_need(rt: HostRuntime) -> Result<(), Fail> {
    let mut work = Work::new(rt.alloc(), CELLS)?;
    let nodes = sample_lines()[0].nodes;
    let due = Ok(Graded { shift: 6, units: 1 });
    for (count, beside, due) in [(2, 0, due), (1, 0, NO_ROOM), (4, 2, due), (3, 2, NO_ROOM)] {
        let mut cells = vec![in rt.alloc(); Cell::free(); count]?;
        let mut records = RecordStore::over(&mut cells);
        let mut memory = vec![in rt.alloc(); 0u8; 5 * count]?;
        let mut bytes = ByteStore::over(&mut memory);
        for _ in 0..beside {
            assert!(rt; records.take(Value::Truth(true)).is_ok());
            assert!(rt; bytes.take(Value::Truth(true)).is_ok());
        }
        assert!(rt; work.answer(nodes, 5, 1000, &mut records) == due, "{count}");
        assert!(rt; work.answer(nodes, 5, 1000, &mut bytes) == due, "{count}");
        assert!(rt;
            records.count() == beside && bytes.count() == beside,
            "{count}"
        );
    }
    Ok(())
}

// The commands of sample N in the order in which they begin: with this allowance, the run is stopped at this node.
const BEGUN: [(u32, usize); 13] = [
    (0, 16),
    (1, 15),
    (2, 10),
    (3, 7),
    (4, 9),
    (5, 14),
    (6, 16),
    (7, 15),
    (8, 10),
    (9, 7),
    (10, 9),
    (11, 14),
    (12, 16),
];

#[test]
fn the_allowance_is_just_the_units(rt: HostRuntime) -> Result<(), Fail> {
    let mut work = Work::new(rt.alloc(), CELLS)?;
    let nodes = sample_lines()[13].nodes;
    let mut cells = [Cell::free(); CELLS];
    let mut store = RecordStore::over(&mut cells);
    for (allowance, node) in BEGUN {
        let stopped = Err(Fault::new(RunCause::Unit.into(), node));
        assert!(rt;
            work.answer(nodes, 0, allowance, &mut store) == stopped,
            "{allowance}"
        );
    }
    let due = Ok(Graded {
        shift: 0,
        units: 13,
    });
    assert!(rt; work.answer(nodes, 0, 13, &mut store) == due);
    Ok(())
}

#[test]
fn each_work_list_is_two_records_longer(rt: HostRuntime) -> Result<(), Fail> {
    let short = Err(Fault::new(TableCause::WorkLists.into(), 0));
    let due = Ok(Graded {
        shift: 750,
        units: 14,
    });
    let nodes = sample_lines()[2].nodes;
    let rule = Work::new(rt.alloc(), CELLS)?.accept(nodes)?;
    let mut cells = [Cell::free(); CELLS];
    let mut store = RecordStore::over(&mut cells);
    let mut work = Work::new(rt.alloc(), 17)?;
    assert!(rt; work.run(&rule, 3, 14, &mut store) == due);
    let _ = work.lens.pop();
    assert!(rt; work.run(&rule, 3, 14, &mut store) == short);
    let mut work = Work::new(rt.alloc(), 17)?;
    let _ = work.names.pop();
    assert!(rt; work.run(&rule, 3, 14, &mut store) == short);
    let mut work = Work::new(rt.alloc(), 17)?;
    let _ = work.levels.pop();
    assert!(rt; work.run(&rule, 3, 14, &mut store) == short);
    Ok(())
}

fn call(name: Name, a: u16) -> Node {
    Node {
        kind: 10,
        name,
        a,
        ..NULL
    }
}

fn procedure(name: Name, a: u16) -> Node {
    Node {
        kind: 13,
        name,
        a,
        ..NULL
    }
}

fn argument(name: Name) -> Node {
    Node {
        kind: 11,
        name,
        ..NULL
    }
}

// One `null` in as many blocks as a table holds.
fn nested_blocks(heap: Global) -> Result<Vec<Node>, AllocError> {
    let mut nodes = vec![in heap; BLOCK; 4096]?;
    nodes[0] = NULL;
    Ok(nodes)
}

// One `null` in as many blocks as a table holds that have a variable each.
fn nested_variables(heap: Global) -> Result<Vec<Node>, AllocError> {
    let mut nodes = vec![in heap; VARIABLE; 2047]?;
    nodes.push(NULL)?;
    for _ in 0..2047 {
        nodes.push(Node { a: 1, ..BLOCK })?;
    }
    Ok(nodes)
}

// As many procedures as a table holds, each of which calls the one before it; the first does nothing.
fn nested_calls(heap: Global) -> Result<Vec<Node>, AllocError> {
    let mut nodes = Vec::new(heap);
    nodes.push(NULL)?;
    for name in 2..1367 {
        nodes.push(procedure(name, 0))?;
        nodes.push(call(name, 0))?;
    }
    for _ in 2..1367 {
        nodes.push(AROUND)?;
    }
    Ok(nodes)
}

// As many procedures with a formal as a table holds, each of which hands it to the one before; the first does
// `2 := 2 + 1`. The last is called with `out`.
fn nested_arguments(heap: Global) -> Result<Vec<Node>, AllocError> {
    let mut nodes = Vec::new(heap);
    nodes.push(VARIABLE)?;
    nodes.push(Node { name: 2, ..READ_IN })?;
    nodes.push(ONE)?;
    nodes.push(PLUS)?;
    nodes.push(ASSIGN)?;
    for name in 3..820 {
        nodes.push(procedure(name, 1))?;
        nodes.push(VARIABLE)?;
        nodes.push(argument(2))?;
        nodes.push(call(name, 1))?;
    }
    nodes.push(procedure(820, 1))?;
    nodes.push(argument(OUT))?;
    nodes.push(call(820, 1))?;
    for _ in 3..821 {
        nodes.push(AROUND)?;
    }
    Ok(nodes)
}

// With just the units that it takes, the run comes to its end.
fn ends<S: Store>(rt: &impl Abort, work: &mut Work, store: &mut S, nodes: &[Node], graded: Graded) {
    let answer = work.answer(nodes, 0, graded.units, store);
    assert!(rt; answer == Ok(graded), "{}", graded.units);
}

// Units: each block and each call takes one, and so does the command in the middle.
fn run_deepest<S: Store>(rt: &impl Abort, heap: Global, store: &mut S) -> Result<(), Fail> {
    let mut work = Work::new(heap, LONGEST)?;
    let graded = |shift, units| Graded { shift, units };
    ends(rt, &mut work, store, &nested_blocks(heap)?, graded(0, 4096));
    ends(
        rt,
        &mut work,
        store,
        &nested_variables(heap)?,
        graded(0, 2048),
    );
    ends(rt, &mut work, store, &nested_calls(heap)?, graded(0, 2731));
    ends(
        rt,
        &mut work,
        store,
        &nested_arguments(heap)?,
        graded(1, 1637),
    );
    Ok(())
}

#[test]
fn the_deepest_rules_are_run_to_their_end(rt: HostRuntime) -> Result<(), Fail> {
    let mut cells = vec![in rt.alloc(); Cell::free(); 2049]?;
    run_deepest(&rt, rt.alloc(), &mut RecordStore::over(&mut cells))?;
    let mut bytes = vec![in rt.alloc(); 0u8; 5 * 2049]?;
    run_deepest(&rt, rt.alloc(), &mut ByteStore::over(&mut bytes))
}
