// Calls of pieces on both stores, with the answers that the documents give.
ghost use Rattle.piece.specs.Views.{Sound};

use byte_store::ByteStore;
use history::{Answer, Shown};
use language::{
    Fault, Graded, Layer, Node, Number, PieceCause, RunCause, Scalar, TableCause, Value,
};
use piece::{Call, Grading, Piece, ReplayLists, Returned, SoundPiece, Ticket, replay};
use record_store::{Cell, RecordStore};
use rule::{CheckLists, Entry, Rule, check};
use run::{Binding, Level, RunLists};
use samples::{Sample, sample_lines};
use scope::Record;
use std::alloc::{AllocError, Global};
use std::process::Abort;
use std::test::Fail;
use store::{Dead, Full, Store, WriteRefusal};

const CELLS: usize = 64;

// Records in each work list: enough for every sample line.
const WORK: usize = 64;

const NUMBER: u32 = 3;

// The work lists of check and of a run.
#[derive(Drop)]
struct Work {
    lens: Vec<usize>,
    entries: Vec<Record<Entry>>,
    types: Vec<Scalar>,
    names: Vec<Record<Binding>>,
    levels: Vec<Level>,
}

impl Work {
    fn new(heap: Global, count: usize) -> Result<Work, AllocError> {
        Ok(Work {
            lens: vec![in heap; 0usize; count]?,
            entries: vec![in heap; Record::blank(Entry::Hidden); count]?,
            types: vec![in heap; Scalar::Whole; count]?,
            names: vec![in heap; Record::blank(Binding::Place(0)); count]?,
            levels: vec![in heap; Level::blank(); count]?,
        })
    }

    fn accept<'a>(&mut self, nodes: &'a [Node]) -> Result<Rule<'a>, Fault> {
        let mut place = Rule::built_in();
        let lists = CheckLists {
            lens: &mut self.lens,
            names: &mut self.entries,
            types: &mut self.types,
        };
        check(&mut place, nodes, lists)?;
        Ok(place)
    }

    fn lists(&mut self) -> RunLists<'_, '_, '_> {
        RunLists {
            lens: &mut self.lens,
            names: &mut self.names,
            levels: &mut self.levels,
        }
    }
}

impl Work {
    fn replay_lists(&mut self) -> ReplayLists<'_, '_, '_, '_, '_> {
        ReplayLists {
            lens: &mut self.lens,
            names: &mut self.entries,
            types: &mut self.types,
            bindings: &mut self.names,
            levels: &mut self.levels,
        }
    }
}

// Rule A of the samples, which gives the step plus 1.
fn rule_a(work: &mut Work) -> Result<Rule<'static>, Fault> {
    work.accept(sample_lines()[0].nodes)
}

fn no(cause: PieceCause, place: usize) -> Fault {
    Fault::new(cause.into(), place)
}

fn given(step: Number) -> Result<Graded, Fault> {
    Ok(Graded {
        shift: step,
        units: 1,
    })
}

fn shows<S: Store>(piece: &Piece<S>, point: u16, due: (Number, Number)) -> bool
    requires { Sound S.Store piece.now }
{
    match piece.show(point) {
        Ok(Shown { shift, step }) => (shift, step) == due,
        Err(_) => false,
    }
}

// The step with which a resize ended.
fn ended(rt: &impl Abort, answer: Result<Number, Returned>) -> Number {
    match answer {
        Ok(step) => step,
        Err(returned) => panic!(rt; "{}", returned.fault),
    }
}

// The ticket that comes back with this refusal.
fn returned(rt: &impl Abort, answer: Result<Number, Returned>, due: Fault) -> Ticket {
    match answer {
        Ok(step) => panic!(rt; "ended at {step}"),
        Err(Returned { fault, ticket }) => {
            assert!(rt; fault == due, "{fault}");
            ticket
        }
    }
}

// ---- the worked resize of the document of pieces

fn worked_resize<S: Store + Drop>(rt: &impl Abort, work: &mut Work, store: S) -> Result<(), Fail> {
    let a = rule_a(work)?;
    let mut piece = Piece::new(store, NUMBER);
    piece.lay(2)?;
    assert!(rt; shows(&piece, 0, (0, 0)) && shows(&piece, 1, (0, 0)));
    let ticket = piece.open(4)?;
    assert!(rt; piece.grade(&ticket, 0, &a, 1000, work.lists()) == given(5));
    let ticket = returned(rt, piece.keep(ticket), no(PieceCause::Ungraded, 1));
    assert!(rt; shows(&piece, 0, (5, 0)) && shows(&piece, 1, (0, 0)));
    assert!(rt; piece.grade(&ticket, 1, &a, 1000, work.lists()) == given(5));
    assert!(rt; ended(rt, piece.keep(ticket)) == 4);
    assert!(rt; shows(&piece, 0, (5, 4)) && shows(&piece, 1, (5, 4)));
    let ticket = piece.open(9)?;
    assert!(rt; piece.grade(&ticket, 1, &a, 1000, work.lists()) == given(10));
    assert!(rt; shows(&piece, 0, (5, 4)) && shows(&piece, 1, (10, 4)));
    assert!(rt; ended(rt, piece.undo(ticket)) == 4);
    assert!(rt; shows(&piece, 0, (5, 4)) && shows(&piece, 1, (5, 4)));
    Ok(())
}

#[test]
fn the_worked_resize_on_records(rt: HostRuntime) -> Result<(), Fail> {
    let mut work = Work::new(rt.alloc(), WORK)?;
    let mut cells = [Cell::free(); CELLS];
    worked_resize(&rt, &mut work, RecordStore::over(&mut cells))
}

#[test]
fn the_worked_resize_on_bytes(rt: HostRuntime) -> Result<(), Fail> {
    let mut work = Work::new(rt.alloc(), WORK)?;
    let mut bytes = [0; 5 * CELLS];
    worked_resize(&rt, &mut work, ByteStore::over(&mut bytes))
}

// One point of two is graded, so the keep is refused; the undo takes its shift back.
#[test]
fn an_undo_after_a_refused_keep(rt: HostRuntime) -> Result<(), Fail> {
    let mut work = Work::new(rt.alloc(), WORK)?;
    let a = rule_a(&mut work)?;
    let mut cells = [Cell::free(); CELLS];
    let mut piece = Piece::new(RecordStore::over(&mut cells), NUMBER);
    piece.lay(2)?;
    let ticket = piece.open(4)?;
    assert!(rt; piece.grade(&ticket, 0, &a, 1000, work.lists()) == given(5));
    let ticket = returned(&rt, piece.keep(ticket), no(PieceCause::Ungraded, 1));
    assert!(rt; ended(&rt, piece.undo(ticket)) == 0);
    assert!(rt; shows(&piece, 0, (0, 0)));
    Ok(())
}

// ---- the refusals, in the order of the calls

#[test]
fn each_refusal_has_its_number(rt: HostRuntime) -> Result<(), Fail> {
    let layers = [
        (Layer::Table(TableCause::WorkLists), 2),
        (Layer::Piece(PieceCause::NotBare), 12),
        (Layer::Piece(PieceCause::Points), 13),
        (Layer::Piece(PieceCause::Store), 14),
        (Layer::Piece(PieceCause::NotReady), 15),
        (Layer::Piece(PieceCause::Ticket), 16),
        (Layer::Piece(PieceCause::Point), 17),
        (Layer::Piece(PieceCause::Room), 18),
        (Layer::Run(RunCause::Sum), 19),
        (Layer::Run(RunCause::Unit), 20),
        (Layer::Piece(PieceCause::Ungraded), 21),
    ];
    for (layer, number) in layers {
        assert!(rt; layer.number() == number, "{number}");
    }
    Ok(())
}

#[test]
fn a_lay_is_refused(rt: HostRuntime) -> Result<(), Fail> {
    let mut cells = [Cell::free(); 2];
    let mut piece = Piece::new(RecordStore::over(&mut cells), NUMBER);
    assert!(rt; piece.lay(0) == Err(no(PieceCause::Points, 0)));
    assert!(rt; piece.lay(257) == Err(no(PieceCause::Points, 0)));
    assert!(rt; piece.lay(3) == Err(no(PieceCause::Store, 0)));
    piece.lay(2)?;
    assert!(rt; piece.lay(2) == Err(no(PieceCause::NotBare, 0)));
    assert!(rt; shows(&piece, 1, (0, 0)));
    Ok(())
}

#[test]
fn a_lay_wants_an_empty_store(rt: HostRuntime) -> Result<(), Fail> {
    let mut bytes = [0; 5 * CELLS];
    let mut store = ByteStore::over(&mut bytes);
    let _ = store.take(Value::Whole(7))?;
    let mut piece = Piece::new(store, NUMBER);
    assert!(rt; piece.lay(1) == Err(no(PieceCause::Store, 0)));
    Ok(())
}

#[test]
fn the_most_points_are_laid(rt: HostRuntime) -> Result<(), Fail> {
    let mut cells = [Cell::free(); 256];
    let mut piece = Piece::new(RecordStore::over(&mut cells), NUMBER);
    piece.lay(256)?;
    assert!(rt; shows(&piece, 255, (0, 0)));
    Ok(())
}

// The refusal of an open.
fn not_opened<S: Store>(rt: &impl Abort, piece: &mut Piece<S>) -> Fault
    requires { Sound S.Store piece.old }
    ensures { Sound S.Store piece.new }
{
    match piece.open(4) {
        Ok(_ticket) => panic!(rt; "opened"),
        Err(fault) => fault,
    }
}

#[test]
fn an_open_is_refused(rt: HostRuntime) -> Result<(), Fail> {
    let mut cells = [Cell::free(); CELLS];
    let mut piece = Piece::new(RecordStore::over(&mut cells), NUMBER);
    assert!(rt; not_opened(&rt, &mut piece) == no(PieceCause::NotReady, 0));
    piece.lay(1)?;
    let ticket = piece.open(4)?;
    assert!(rt; not_opened(&rt, &mut piece) == no(PieceCause::NotReady, 0));
    assert!(rt; ended(&rt, piece.undo(ticket)) == 0);
    Ok(())
}

// The ticket of an open, where a `?` would let another ticket go.
fn opened<S: Store>(rt: &impl Abort, piece: &mut Piece<S>) -> Ticket
    requires { Sound S.Store piece.old }
    ensures { Sound S.Store piece.new }
{
    match piece.open(9) {
        Ok(ticket) => ticket,
        Err(fault) => panic!(rt; "{fault}"),
    }
}

// Calls with the ticket of a piece of another number.
#[test]
fn a_ticket_of_another_number_is_refused(rt: HostRuntime) -> Result<(), Fail> {
    let mut work = Work::new(rt.alloc(), WORK)?;
    let a = rule_a(&mut work)?;
    let no = no(PieceCause::Ticket, 0);
    let (mut cells, mut others) = ([Cell::free(); CELLS], [Cell::free(); CELLS]);
    let mut piece = Piece::new(RecordStore::over(&mut cells), NUMBER);
    let mut other = Piece::new(RecordStore::over(&mut others), NUMBER + 1);
    piece.lay(1)?;
    other.lay(1)?;
    let own = piece.open(4)?;
    let ticket = opened(&rt, &mut other);
    assert!(rt; piece.grade(&ticket, 0, &a, 1000, work.lists()) == Err(no));
    let ticket = returned(&rt, piece.keep(ticket), no);
    let ticket = returned(&rt, piece.undo(ticket), no);
    assert!(rt; ended(&rt, piece.undo(own)) == 0);
    assert!(rt; shows(&piece, 0, (0, 0)));
    assert!(rt; ended(&rt, other.undo(ticket)) == 0);
    Ok(())
}

#[test]
fn a_ticket_wants_an_open_resize(rt: HostRuntime) -> Result<(), Fail> {
    let mut work = Work::new(rt.alloc(), WORK)?;
    let a = rule_a(&mut work)?;
    let no = no(PieceCause::Ticket, 0);
    let (mut cells, mut others) = ([Cell::free(); CELLS], [Cell::free(); CELLS]);
    let mut piece = Piece::new(RecordStore::over(&mut cells), NUMBER);
    let mut other = Piece::new(RecordStore::over(&mut others), NUMBER);
    piece.lay(1)?;
    other.lay(1)?;
    let ticket = other.open(9)?;
    assert!(rt; piece.grade(&ticket, 0, &a, 1000, work.lists()) == Err(no));
    let ticket = returned(&rt, piece.keep(ticket), no);
    let ticket = returned(&rt, piece.undo(ticket), no);
    assert!(rt; ended(&rt, other.undo(ticket)) == 0);
    Ok(())
}

#[test]
fn a_point_past_the_last_is_refused(rt: HostRuntime) -> Result<(), Fail> {
    let mut work = Work::new(rt.alloc(), WORK)?;
    let a = rule_a(&mut work)?;
    let mut cells = [Cell::free(); CELLS];
    let mut piece = Piece::new(RecordStore::over(&mut cells), NUMBER);
    assert!(rt; matches!(piece.show(0), Err(fault) if fault == no(PieceCause::Point, 0)));
    piece.lay(2)?;
    assert!(rt; matches!(piece.show(2), Err(fault) if fault == no(PieceCause::Point, 2)));
    let ticket = piece.open(4)?;
    let answer = piece.grade(&ticket, 2, &a, 1000, work.lists());
    assert!(rt; answer == Err(no(PieceCause::Point, 2)));
    assert!(rt; ended(&rt, piece.undo(ticket)) == 0);
    Ok(())
}

// The need of rule A is 2, beside the location of the point.
#[test]
fn a_grade_wants_room(rt: HostRuntime) -> Result<(), Fail> {
    let mut work = Work::new(rt.alloc(), WORK)?;
    let a = rule_a(&mut work)?;
    for (count, due) in [(2, Err(no(PieceCause::Room, 0))), (3, given(5))] {
        let mut cells = vec![in rt.alloc(); Cell::free(); count]?;
        let mut piece = Piece::new(RecordStore::over(&mut cells), NUMBER);
        piece.lay(1)?;
        let ticket = piece.open(4)?;
        assert!(rt;
            piece.grade(&ticket, 0, &a, 1000, work.lists()) == due,
            "{count}"
        );
        assert!(rt; ended(&rt, piece.undo(ticket)) == 0);
    }
    Ok(())
}

// ---- what comes from below a grade, with the point; a refused grade changes nothing

// A grade of the second of two points at the highest step is refused, and then the piece is as before: the shifts and the
// step are shown, and neither point is graded.
fn second_point_refused(
    rt: &impl Abort,
    work: &mut Work,
    short: &mut Work,
    allowance: u32,
    due: Fault,
) -> Result<(), Fail> {
    let a = rule_a(work)?;
    let mut cells = [Cell::free(); CELLS];
    let mut piece = Piece::new(RecordStore::over(&mut cells), NUMBER);
    piece.lay(2)?;
    let ticket = piece.open(4)?;
    assert!(rt; piece.grade(&ticket, 0, &a, 1000, work.lists()) == given(5));
    assert!(rt; piece.grade(&ticket, 1, &a, 1000, work.lists()) == given(5));
    assert!(rt; ended(rt, piece.keep(ticket)) == 4);
    let ticket = piece.open(2147483647)?;
    let answer = piece.grade(&ticket, 1, &a, allowance, short.lists());
    assert!(rt; answer == Err(due.at_point(1)));
    assert!(rt; shows(&piece, 0, (5, 4)) && shows(&piece, 1, (5, 4)));
    let ticket = returned(rt, piece.keep(ticket), no(PieceCause::Ungraded, 0));
    assert!(rt; ended(rt, piece.undo(ticket)) == 4);
    Ok(())
}

// Rule A has 4 nodes, so each list wants 6 records; its sum is node 2, and its command node 3.
#[test]
fn a_refused_grade_changes_nothing(rt: HostRuntime) -> Result<(), Fail> {
    let mut work = Work::new(rt.alloc(), WORK)?;
    let lists = Fault::new(TableCause::WorkLists.into(), 0);
    let sum = Fault::new(RunCause::Sum.into(), 2);
    let unit = Fault::new(RunCause::Unit.into(), 3);
    for (count, allowance, due) in [(5, 1000, lists), (6, 1000, sum), (6, 0, unit)] {
        let mut short = Work::new(rt.alloc(), count)?;
        second_point_refused(&rt, &mut work, &mut short, allowance, due)?;
    }
    Ok(())
}

// ---- the sample lines

// The answer of check if it refuses the table, else of a grade of a piece of one point, at the sample's step.
fn graded_by_a_piece(rt: &impl Abort, work: &mut Work, sample: Sample) -> Result<Graded, Fault> {
    let rule = work.accept(sample.nodes)?;
    let mut cells = [Cell::free(); CELLS];
    let mut piece = Piece::new(RecordStore::over(&mut cells), NUMBER);
    piece.lay(1)?;
    let ticket = piece.open(sample.step)?;
    let answer = piece.grade(&ticket, 0, &rule, sample.allowance, work.lists());
    assert!(rt; ended(rt, piece.undo(ticket)) == 0);
    answer
}

// A refusal of the run has the point; one of check has none.
fn at_first_point(fault: Fault) -> Fault {
    match fault.layer {
        Layer::Run(_) => fault.at_point(0),
        _ => fault,
    }
}

#[test]
fn the_sample_lines_are_answered_as_due(rt: HostRuntime) -> Result<(), Fail> {
    for sample in sample_lines() {
        let mut work = Work::new(rt.alloc(), sample.work)?;
        let answer = graded_by_a_piece(&rt, &mut work, sample);
        assert!(rt;
            answer == sample.due.map_err(at_first_point),
            "{}",
            sample.name
        );
    }
    Ok(())
}

// ---- a list of calls, as values

#[test]
fn a_replay_answers_each_call(rt: HostRuntime) -> Result<(), Fail> {
    let mut work = Work::new(rt.alloc(), WORK)?;
    let mut cells = [Cell::free(); CELLS];
    let unused = Err(no(PieceCause::Store, 0));
    let mut answers = [unused; 7];
    let calls = [
        Call::Lay(2),
        Call::Open(4),
        Call::Grade(Grading {
            ticket: NUMBER,
            point: 0,
            table: 0,
            allowance: 1000,
        }),
        Call::Keep(NUMBER),
        Call::Undo(NUMBER),
        Call::Show(0),
    ];
    let count = replay(
        RecordStore::over(&mut cells),
        NUMBER,
        &[sample_lines()[0].nodes],
        &calls,
        &mut answers,
        work.replay_lists(),
    );
    let shown = Shown { shift: 0, step: 0 };
    assert!(rt; count == 6);
    assert!(rt; answers[0] == Ok(Answer::Laid));
    assert!(rt; answers[1] == Ok(Answer::Ticket(NUMBER)));
    assert!(rt; answers[2] == Ok(Answer::Graded(Graded { shift: 5, units: 1 })));
    assert!(rt; answers[3] == Err(no(PieceCause::Ungraded, 1)));
    assert!(rt; answers[4] == Ok(Answer::Undone(0)));
    assert!(rt; answers[5] == Ok(Answer::Shown(shown)));
    assert!(rt; answers[6] == unused);
    Ok(())
}

// ---- pieces in types of a caller's: such types build

// A store that counts the takes of another.
#[derive(Drop)]
struct Counted<T: Store> {
    inner: T,
    takes: u64,
}

impl<T: Store> Store for Counted<T> {
    ghost bound = { λ s. T.Store.bound s.inner };

    ghost at = { λ s. T.Store.at s.inner };

    ghost low = { λ s l h. T.Store.low s.inner l h };

    ghost within = { λ s. T.Store.within s.inner };

    fn limit(&self) -> u32 {
        self.inner.limit()
    }

    fn count(&self) -> u32 {
        self.inner.count()
    }

    fn take(&mut self, value: Value) -> Result<u16, Full> {
        self.takes = self.takes.wrapping_add(1);
        self.inner.take(value)
    }

    fn read(&self, location: u16) -> Result<Value, Dead> {
        self.inner.read(location)
    }

    fn write(&mut self, location: u16, value: Value) -> Result<(), WriteRefusal> {
        self.inner.write(location, value)
    }

    fn release(&mut self, location: u16) -> Result<(), Dead> {
        self.inner.release(location)
    }
}

// Generic in the store, and it refers back to itself.
#[derive(Drop)]
struct Row<S: Store> {
    piece: Piece<S>,
    next: Option<Box<Row<S>>>,
}

// Generic in a store that the caller's own store goes around.
#[derive(Drop)]
struct Desk<T: Store> {
    piece: Piece<Counted<T>>,
}

fn laid_in_a_row<S: Store + Drop>(store: S) -> Result<bool, Fault> {
    let mut row = Row {
        piece: Piece::new(store, NUMBER),
        next: None,
    };
    row.piece.lay(2)?;
    Ok(row.next.is_none() && shows(&row.piece, 1, (0, 0)))
}

fn laid_on_a_desk<T: Store + Drop>(inner: T) -> Result<bool, Fault> {
    let mut desk = Desk {
        piece: Piece::new(Counted { inner, takes: 0 }, NUMBER),
    };
    desk.piece.lay(2)?;
    Ok(shows(&desk.piece, 1, (0, 0)))
}

#[test]
fn pieces_stand_in_types_of_a_caller(rt: HostRuntime) -> Result<(), Fail> {
    let mut cells = [Cell::free(); 2];
    assert!(rt; laid_in_a_row(RecordStore::over(&mut cells))?);
    assert!(rt; laid_on_a_desk(RecordStore::over(&mut cells))?);
    Ok(())
}

// ---- pieces with their facts in their type: no function here asks anything of them

// A caller's own question, which asks nothing.
trait Shifts {
    fn shift(&self, point: u16) -> Option<Number>;
}

impl<S: Store> Shifts for SoundPiece<S> {
    fn shift(&self, point: u16) -> Option<Number> {
        self.show(point).ok().map(|shown| shown.shift)
    }
}

// Grades both points of a piece at a step, and keeps that: a keep before the second point is graded is refused.
fn resized<S: Store>(
    rt: &impl Abort,
    work: &mut Work,
    piece: &mut SoundPiece<S>,
    step: Number,
) -> Result<Number, Fail> {
    let a = rule_a(work)?;
    let due = given(step.wrapping_add(1));
    let ticket = piece.open(step)?;
    assert!(rt; piece.grade(&ticket, 0, &a, 1000, work.lists()) == due);
    let ticket = returned(rt, piece.keep(ticket), no(PieceCause::Ungraded, 1));
    assert!(rt; piece.grade(&ticket, 1, &a, 1000, work.lists()) == due);
    Ok(ended(rt, piece.keep(ticket)))
}

// Grades the second point at a step, and undoes that.
fn undone<S: Store>(
    rt: &impl Abort,
    work: &mut Work,
    piece: &mut SoundPiece<S>,
    step: Number,
) -> Result<Number, Fail> {
    let a = rule_a(work)?;
    let ticket = piece.open(step)?;
    let answer = piece.grade(&ticket, 1, &a, 1000, work.lists());
    assert!(rt; answer == given(step.wrapping_add(1)));
    assert!(rt; piece.shift(1) == Some(step.wrapping_add(1)));
    Ok(ended(rt, piece.undo(ticket)))
}

fn a_sound_piece<S: Store + Drop>(rt: &impl Abort, work: &mut Work, store: S) -> Result<(), Fail> {
    let mut piece = SoundPiece::new(store, NUMBER);
    assert!(rt; piece.lay(257) == Err(no(PieceCause::Points, 0)));
    piece.lay(2)?;
    assert!(rt; piece.lay(2) == Err(no(PieceCause::NotBare, 0)));
    assert!(rt; piece.shift(1) == Some(0) && piece.shift(2).is_none());
    assert!(rt; resized(rt, work, &mut piece, 4)? == 4);
    assert!(rt; undone(rt, work, &mut piece, 9)? == 4);
    assert!(rt; piece.show(1) == Ok(Shown { shift: 5, step: 4 }));
    Ok(())
}

#[test]
fn a_sound_piece_on_both_stores(rt: HostRuntime) -> Result<(), Fail> {
    let mut work = Work::new(rt.alloc(), WORK)?;
    let mut cells = [Cell::free(); CELLS];
    let mut bytes = [0; 5 * CELLS];
    a_sound_piece(&rt, &mut work, RecordStore::over(&mut cells))?;
    a_sound_piece(&rt, &mut work, ByteStore::over(&mut bytes))
}

// A caller's type that says nothing of its pieces.
#[derive(Drop)]
struct Jacket<S: Store> {
    front: SoundPiece<S>,
    back: SoundPiece<S>,
}

impl<S: Store> Jacket<S> {
    fn lay(&mut self, points: u16) -> Result<(), Fault> {
        self.front.lay(points)?;
        self.back.lay(points)
    }
}

#[test]
fn sound_pieces_in_a_type_of_a_caller(rt: HostRuntime) -> Result<(), Fail> {
    let mut work = Work::new(rt.alloc(), WORK)?;
    let (mut front, mut back) = ([Cell::free(); CELLS], [Cell::free(); CELLS]);
    let mut jacket = Jacket {
        front: SoundPiece::new(RecordStore::over(&mut front), NUMBER),
        back: SoundPiece::new(RecordStore::over(&mut back), NUMBER + 1),
    };
    jacket.lay(2)?;
    assert!(rt; resized(&rt, &mut work, &mut jacket.back, 7)? == 7);
    assert!(rt; jacket.front.shift(0) == Some(0) && jacket.back.shift(0) == Some(8));
    Ok(())
}
