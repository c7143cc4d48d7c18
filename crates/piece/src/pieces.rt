// A piece, and what it is asked.
ghost use Rattle.std.specs.Prelude.{◌≡◌, ◌<◌};
ghost use Rattle.history.specs.States.{Accepted, Does, fresh, grade as grades, lay as lays, open_to as opens, keep as keeps, undo as undoes, show as shows};
ghost use Rattle.piece.specs.Runs.{below, lengths, RanOn};
ghost use Rattle.piece.specs.Views.{Sound, view, said, said_back, Back, ticket_answer, with_shift};

use crate::points::{Point, first_ungraded, put_back, remember, shift_at, take_locations};
use history::{Answer, Shown};
use language::{Fault, Graded, Layer, Number, PieceCause, Value};
use rule::Rule;
use run::{RunLists, run};
use store::Store;

const MOST_POINTS: u16 = 256;

// Given by open, and spent by keep or undo: it cannot be dropped.
pub struct Ticket {
    pub(crate) number: u32,
}

// A ticket that was not spent, and why.
pub struct Returned {
    pub fault: Fault,
    pub ticket: Ticket,
}

impl Returned {
    // The refusal alone, where the ticket is none that a caller holds. No `From`: as a public one it would let a caller let
    // a ticket go.
    pub(crate) fn into_fault(self) -> Fault
        ensures { result ≡ self.fault }
    {
        let Returned {
            fault,
            ticket: Ticket { number: _ },
        } = self;
        fault
    }
}

#[derive(Clone, Copy)]
enum Phase {
    Bare,
    Laid,
    // a resize is open, at this new step
    Open(Number),
}

// The laid points have locations of their own, and exactly those are live, each holding a shift: the calls ask for this and
// keep it, as `Sound`. It is no fact of the type: a struct with a fact and a bound of its own may not stand in a caller's
// struct such as `struct Row<S: Store> { piece: Piece<S>, next: Option<Box<Row<S>>> }`. `SoundPiece` has it in its type.
#[derive(Drop)]
pub struct Piece<S: Store> {
    store: S,
    number: u32,
    step: Number,
    phase: Phase,
    // how many of the records are laid: the table is a plain inner one, of a fixed length, so the count stands beside it
    laid: u16,
    points: [Point; 256],
}

// A run's answer, with the point added to what comes from below the piece.
fn from_below(point: u16, answer: Result<Graded, Fault>) -> Result<Graded, Fault>
    ensures { result ≡ below point answer }
{
    answer.map_err(|fault| match fault.layer {
        Layer::Piece(_) => fault,
        _ => fault.at_point(point),
    })
}

impl<S: Store> Piece<S> {
    // A bare piece, at step 0.
    pub fn new(store: S, number: u32) -> Piece<S>
        ensures sound { Sound S.Store result }
        ensures bare { view S.Store result ≡ fresh number (S.Store.bound store) (S.Store.at store) }
        ensures store { result.store ≡ store }
    {
        let blank = Point {
            location: 0,
            remembered: 0,
            graded: false,
        };
        Piece {
            store,
            number,
            step: 0,
            phase: Phase::Bare,
            laid: 0,
            points: [blank; 256],
        }
    }

    // A point's shift, and the piece's step.
    pub fn show(&self, point: u16) -> Result<Shown, Fault>
        requires { Sound S.Store self.now }
        ensures { Does (view S.Store self.now) (shows point) (said Answer.Shown result) (view S.Store self.now) }
    {
        if point >= self.laid {
            return Err(Fault::new(PieceCause::Point.into(), point as usize));
        }
        let shift = shift_at(&self.store, self.points[point as usize].location);
        Ok(Shown {
            shift,
            step: self.step,
        })
    }

    // Lays the points, each at a location of its own that holds 0.
    pub fn lay(&mut self, points: u16) -> Result<(), Fault>
        requires { Sound S.Store self.old }
        ensures sound { Sound S.Store self.new }
        ensures does { Does (view S.Store self.old) (lays points) (said (λ _. Answer.Laid) result) (view S.Store self.new) }
    {
        let Phase::Bare = self.phase else {
            return Err(Fault::new(PieceCause::NotBare.into(), 0));
        };
        if !(1..=MOST_POINTS).contains(&points) {
            return Err(Fault::new(PieceCause::Points.into(), 0));
        }
        if self.store.count() != 0 || self.store.limit() < u32::from(points) {
            return Err(Fault::new(PieceCause::Store.into(), 0));
        }
        take_locations(&mut self.store, &mut self.points, points as usize);
        self.laid = points;
        self.phase = Phase::Laid;
        Ok(())
    }

    // Begins a resize to a new step: remembers each shift, and gives the ticket that ends it.
    pub fn open(&mut self, step: Number) -> Result<Ticket, Fault>
        requires { Sound S.Store self.old }
        ensures sound { Sound S.Store self.new }
        ensures does { Does (view S.Store self.old) (opens step) (said (λ t. Answer.Ticket t.number) result) (view S.Store self.new) }
    {
        let Phase::Laid = self.phase else {
            return Err(Fault::new(PieceCause::NotReady.into(), 0));
        };
        remember(&self.store, &mut self.points, self.laid as usize);
        self.phase = Phase::Open(step);
        Ok(Ticket {
            number: self.number,
        })
    }

    // The new step of the open resize, if there is one and the ticket is this piece's.
    fn resize(&self, ticket: &Ticket) -> Result<Number, Fault>
        ensures { result ≡ ticket_answer self.now.phase self.now.number ticket.now.number }
    {
        match self.phase {
            Phase::Open(step) if ticket.number == self.number => Ok(step),
            _ => Err(Fault::new(PieceCause::Ticket.into(), 0)),
        }
    }

    // Puts a shift into the location of a laid point, and marks the point graded.
    fn put_shift(&mut self, point: u16, shift: Number)
        requires sound { Sound S.Store self.old }
        requires laid { point < self.old.laid }
        ensures sound { Sound S.Store self.new }
        ensures put { view S.Store self.new ≡ with_shift (view S.Store self.old) point shift }
    {
        let location = self.points[point as usize].location;
        self.store.write(location, Value::Whole(shift)).unwrap();
        self.points[point as usize].graded = true;
    }

    // Runs the rule at the new step, and gives the point its shift.
    pub fn grade(
        &mut self,
        ticket: &Ticket,
        point: u16,
        rule: &Rule<'_>,
        allowance: u32,
        lists: RunLists<'_, '_, '_>,
    ) -> Result<Graded, Fault>
        requires { Sound S.Store self.old }
        ensures sound { Sound S.Store self.new }
        ensures does { (a : Accepted) → a.table ≡ rule.now.nodes.now → Does (view S.Store self.old) (grades ticket.now.number point a allowance (lengths lists.entry)) (said Answer.Graded result) (view S.Store self.new) }
        ensures ran { (a : Accepted) → a.table ≡ rule.now.nodes.now → RanOn (view S.Store self.old) a allowance result }
    {
        let step = self.resize(ticket)?;
        if point >= self.laid {
            return Err(Fault::new(PieceCause::Point.into(), point as usize));
        }
        // a struct of `&mut` slices is not proved where it is handed on whole, so it is made again
        let RunLists {
            lens,
            names,
            levels,
        } = lists;
        let lists = RunLists {
            lens,
            names,
            levels,
        };
        let answer = run(rule, step, allowance, &mut self.store, lists);
        let graded = from_below(point, answer)?;
        self.put_shift(point, graded.shift);
        Ok(graded)
    }

    // Ends the resize if every point is graded: the new step becomes the piece's.
    #[tactic(auto, using(crate::proofs::Passes::position_ungraded))]
    pub fn keep(&mut self, ticket: Ticket) -> Result<Number, Returned>
        requires { Sound S.Store self.old }
        ensures sound { Sound S.Store self.new }
        ensures back { Back ticket result }
        ensures does { Does (view S.Store self.old) (keeps ticket.number) (said_back Answer.Kept result) (view S.Store self.new) }
    {
        // the ticket goes back with a refusal, and a closure that holds it could not be dropped: hence no `map_err` and `?`
        let step = match self.resize(&ticket) {
            Ok(step) => step,
            Err(fault) => return Err(Returned { fault, ticket }),
        };
        if let Some(point) = first_ungraded(&self.points[..self.laid as usize]) {
            return Err(Returned {
                fault: Fault::new(PieceCause::Ungraded.into(), point),
                ticket,
            });
        }
        let Ticket { number: _ } = ticket;
        self.step = step;
        self.phase = Phase::Laid;
        Ok(step)
    }

    // Ends the resize: the shifts that it remembers are put back.
    pub fn undo(&mut self, ticket: Ticket) -> Result<Number, Returned>
        requires { Sound S.Store self.old }
        ensures sound { Sound S.Store self.new }
        ensures back { Back ticket result }
        ensures does { Does (view S.Store self.old) (undoes ticket.number) (said_back Answer.Undone result) (view S.Store self.new) }
    {
        // as in `keep`, the ticket goes back with the refusal
        if let Err(fault) = self.resize(&ticket) {
            return Err(Returned { fault, ticket });
        }
        put_back(&mut self.store, &self.points[..self.laid as usize]);
        let Ticket { number: _ } = ticket;
        self.phase = Phase::Laid;
        Ok(self.step)
    }
}
