// A piece with what always holds of it in its type: the calls ask nothing of a caller, and promise what those of `Piece` do.
ghost use Rattle.std.specs.Prelude.{◌≡◌};
ghost use Rattle.history.specs.States.{Accepted, Does, fresh, grade as grades, lay as lays, open_to as opens, keep as keeps, undo as undoes, show as shows};
ghost use Rattle.piece.specs.Runs.{lengths, RanOn};
ghost use Rattle.piece.specs.Views.{Sound, Sound_prop, view, said, said_back, Back};

use crate::pieces::{Piece, Returned, Ticket};
use history::{Answer, Shown};
use language::{Fault, Graded, Number};
use rule::Rule;
use run::RunLists;
use store::Store;

// It goes around a `Piece`, which may stand in types of a caller's in which this one may not, as the comment there says.
#[derive(Drop)]
pub struct SoundPiece<S: Store> {
    piece: Piece<S>,
    ghost sound: { Sound S.Store piece } by { Sound_prop S.Store piece },
}

impl<S: Store> SoundPiece<S> {
    // A bare piece, at step 0.
    pub fn new(store: S, number: u32) -> SoundPiece<S>
        ensures bare { view S.Store result.piece ≡ fresh number (S.Store.bound store) (S.Store.at store) }
        ensures store { result.piece.store ≡ store }
    {
        SoundPiece {
            piece: Piece::new(store, number),
        }
    }

    // A point's shift, and the piece's step.
    pub fn show(&self, point: u16) -> Result<Shown, Fault>
        ensures { Does (view S.Store self.now.piece) (shows point) (said Answer.Shown result) (view S.Store self.now.piece) }
    {
        self.piece.show(point)
    }

    // Lays the points, each at a location of its own that holds 0.
    pub fn lay(&mut self, points: u16) -> Result<(), Fault>
        ensures { Does (view S.Store self.old.piece) (lays points) (said (λ _. Answer.Laid) result) (view S.Store self.new.piece) }
    {
        self.piece.lay(points)
    }

    // Begins a resize to a new step, and gives the ticket that ends it.
    pub fn open(&mut self, step: Number) -> Result<Ticket, Fault>
        ensures { Does (view S.Store self.old.piece) (opens step) (said (λ t. Answer.Ticket t.number) result) (view S.Store self.new.piece) }
    {
        self.piece.open(step)
    }

    // Runs the rule at the new step, and gives the point its shift.
    pub fn grade(
        &mut self,
        ticket: &Ticket,
        point: u16,
        rule: &Rule<'_>,
        allowance: u32,
        lists: RunLists<'_, '_, '_>,
    ) -> Result<Graded, Fault>
        ensures does { (a : Accepted) → a.table ≡ rule.now.nodes.now → Does (view S.Store self.old.piece) (grades ticket.now.number point a allowance (lengths lists.entry)) (said Answer.Graded result) (view S.Store self.new.piece) }
        ensures ran { (a : Accepted) → a.table ≡ rule.now.nodes.now → RanOn (view S.Store self.old.piece) a allowance result }
    {
        // a struct of `&mut` slices is not proved where it is handed on whole, so it is made again
        let RunLists {
            lens,
            names,
            levels,
        } = lists;
        let lists = RunLists {
            lens,
            names,
            levels,
        };
        self.piece.grade(ticket, point, rule, allowance, lists)
    }

    // Ends the resize if every point is graded: the new step becomes the piece's.
    pub fn keep(&mut self, ticket: Ticket) -> Result<Number, Returned>
        ensures back { Back ticket result }
        ensures does { Does (view S.Store self.old.piece) (keeps ticket.number) (said_back Answer.Kept result) (view S.Store self.new.piece) }
    {
        self.piece.keep(ticket)
    }

    // Ends the resize: the shifts that it remembers are put back.
    pub fn undo(&mut self, ticket: Ticket) -> Result<Number, Returned>
        ensures back { Back ticket result }
        ensures does { Does (view S.Store self.old.piece) (undoes ticket.number) (said_back Answer.Undone result) (view S.Store self.new.piece) }
    {
        self.piece.undo(ticket)
    }
}
