// The two stores against hand-written memory and against each other.
use byte_store::ByteStore;
use language::Value;
use record_store::{Cell, Mark, RecordStore};
use std::test::Fail;
use store::{Dead, Full, Store, WriteRefusal};

// A negative number, both truths, and a cell that was released: all that the memory of three cells can show.
fn fill<S: Store>(store: &mut S) -> Result<(), Full> {
    store.take(Value::Whole(-2))?;
    store.take(Value::Truth(true))?;
    store.take(Value::Truth(false))?;
    let last = store.take(Value::Whole(77))?;
    let _ = store.release(last);
    Ok(())
}

#[test]
fn bytes_are_as_written_by_hand(rt: HostRuntime) {
    let mut bytes = [9; 23];
    assert!(rt; fill(&mut ByteStore::over(&mut bytes)).is_ok());
    assert!(rt;
        bytes
            == [
                2, 254, 255, 255, 255, 1, 1, 0, 0, 0, 1, 0, 0, 0, 0, 0, 0, 0, 0, 0, 9, 9, 9,
            ]
    );
}

#[test]
fn cells_are_as_written_by_hand(rt: HostRuntime) {
    let mut cells = [Cell {
        mark: Mark::Whole,
        number: 9,
    }; 4];
    assert!(rt; fill(&mut RecordStore::over(&mut cells)).is_ok());
    assert!(rt;
        cells[3]
            == Cell {
                mark: Mark::Whole,
                number: -2,
            }
    );
    assert!(rt;
        cells[2]
            == Cell {
                mark: Mark::Truth,
                number: 1,
            }
    );
    assert!(rt;
        cells[1]
            == Cell {
                mark: Mark::Truth,
                number: 0,
            }
    );
    assert!(rt;
        cells[0]
            == Cell {
                mark: Mark::Free,
                number: 0,
            }
    );
}

// What a script of calls was answered, without the locations, which each store chooses.
#[derive(Clone, Copy, PartialEq, Eq)]
struct Answers {
    limit: u32,
    counts: [u32; 3],
    first: Result<Value, Dead>,
    kind: Result<(), WriteRefusal>,
    written: Result<Value, Dead>,
    dead: Result<(), WriteRefusal>,
    twice: Result<(), Dead>,
    full: bool,
}

fn script<S: Store>(store: &mut S) -> Result<Answers, Full> {
    let a = store.take(Value::Whole(-5))?;
    let b = store.take(Value::Truth(true))?;
    let live = store.count();
    let first = store.read(a);
    let kind = store.write(a, Value::Truth(true));
    let _ = store.write(a, Value::Whole(2147483647));
    let written = store.read(a);
    let _ = store.release(b);
    let dead = store.write(b, Value::Truth(false));
    let twice = store.release(b);
    let fewer = store.count();
    let _ = store.take(Value::Whole(1))?;
    let full = store.take(Value::Whole(2)).is_err();
    let counts = [live, fewer, store.count()];
    Ok(Answers {
        limit: store.limit(),
        counts,
        first,
        kind,
        written,
        dead,
        twice,
        full,
    })
}

#[test]
fn both_stores_answer_a_script_alike(rt: HostRuntime) {
    let expected = Answers {
        limit: 2,
        counts: [2, 1, 2],
        first: Ok(Value::Whole(-5)),
        kind: Err(WriteRefusal::Kind),
        written: Ok(Value::Whole(2147483647)),
        dead: Err(WriteRefusal::Dead),
        twice: Err(Dead),
        full: true,
    };
    let mut cells = [Cell::free(); 2];
    let mut bytes = [0; 12];
    assert!(rt; script(&mut RecordStore::over(&mut cells)) == Ok(expected));
    assert!(rt; script(&mut ByteStore::over(&mut bytes)) == Ok(expected));
}

#[test]
fn takes_go_down_or_round(rt: HostRuntime) {
    let mut cells = [Cell::free(); 3];
    let mut records = RecordStore::over(&mut cells);
    assert!(rt; records.take(Value::Whole(1)) == Ok(2));
    assert!(rt; records.take(Value::Whole(1)) == Ok(1));
    assert!(rt; records.release(2).is_ok());
    assert!(rt; records.take(Value::Whole(1)) == Ok(2));
    let mut memory = [0; 15];
    let mut bytes = ByteStore::over(&mut memory);
    assert!(rt; bytes.take(Value::Whole(1)) == Ok(0));
    assert!(rt; bytes.take(Value::Whole(1)) == Ok(1));
    assert!(rt; bytes.release(0).is_ok());
    assert!(rt; bytes.take(Value::Whole(1)) == Ok(2));
    assert!(rt; bytes.take(Value::Whole(1)) == Ok(0));
}

#[test]
fn only_the_first_65536_cells_count(rt: HostRuntime) -> Result<(), Fail> {
    let kept = Cell {
        mark: Mark::Truth,
        number: 5,
    };
    let mut cells = vec![in rt.alloc(); kept; 65540]?;
    let mut records = RecordStore::over(&mut cells);
    assert!(rt; records.limit() == 65536);
    assert!(rt; records.take(Value::Whole(1)) == Ok(65535));
    assert!(rt; cells.len() == 65540);
    assert!(rt; cells[65536] == kept && cells[65539] == kept);
    let mut memory = vec![in rt.alloc(); 7u8; 327687]?;
    let mut bytes = ByteStore::over(&mut memory);
    assert!(rt; bytes.limit() == 65536);
    assert!(rt; bytes.take(Value::Whole(1)) == Ok(0));
    assert!(rt; memory.len() == 327687);
    assert!(rt; memory[327679] == 0 && memory[327680] == 7 && memory[327686] == 7);
    Ok(())
}
