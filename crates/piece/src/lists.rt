// Whole lists of calls, performed on a piece that is set down for them.
ghost use Rattle.std.specs.Prelude.{◌≡◌, min, length, take, drop};
ghost use Rattle.history.specs.States.{Accepted, Call as Asked, grade as grades, Does};
ghost use Rattle.piece.specs.Replay.{Meant, table_at, checked, check_lengths, run_lengths, SameLengths, Replayed, start};
ghost use Rattle.piece.specs.Views.{Sound, view, said};

use crate::pieces::{Piece, Returned, Ticket};
use history::Answer;
use language::{Fault, Graded, Node, Number, Scalar};
use rule::{CheckLists, Entry, Rule, check};
use run::{Binding, Level, RunLists};
use scope::Record;
use store::Store;

// A grade, with its rule by the place of the table in a list: a rule in its place would ask more of callers.
#[derive(Clone, Copy)]
pub struct Grading {
    pub ticket: u32,
    pub point: u16,
    pub table: usize,
    pub allowance: u32,
}

// What a piece is asked, with tickets by their number.
#[derive(Clone, Copy)]
pub enum Call {
    Lay(u16),
    Open(Number),
    Grade(Grading),
    Keep(u32),
    Undo(u32),
    Show(u16),
}

// The lists that a replay works in: those of check, and those of the runs. Both share the lengths of stretches.
#[derive(Drop)]
pub struct ReplayLists<'l, 'n, 't, 'b, 'v> {
    pub lens: &'l mut [usize],
    pub names: &'n mut [Record<Entry>],
    pub types: &'t mut [Scalar],
    pub bindings: &'b mut [Record<Binding>],
    pub levels: &'v mut [Level],
}

// The table at a place of the list; past its end the empty table, which no check accepts.
fn table_at<'a>(tables: &[&'a [Node]], place: usize) -> &'a [Node]
    ensures { result.now ≡ table_at tables.now place }
{
    tables.get(place).copied().unwrap_or(&[])
}

impl<S: Store> Piece<S> {
    // Grades by the table if check accepts it, and else by the built-in rule.
    fn grade_by_table(
        &mut self,
        grading: Grading,
        nodes: &[Node],
        lists: &mut ReplayLists<'_, '_, '_, '_, '_>,
    ) -> Result<Graded, Fault>
        requires { Sound S.Store self.old }
        ensures sound { Sound S.Store self.new }
        ensures lists_kept { SameLengths lists.old lists.new }
        ensures does { (a : Accepted) → a.table ≡ checked nodes.now (check_lengths lists.old) → Does (view S.Store self.old) (grades grading.ticket grading.point a grading.allowance (run_lengths lists.old)) (said Answer.Graded result) (view S.Store self.new) }
    {
        let mut rule = Rule::built_in();
        let checked = CheckLists {
            lens: &mut *lists.lens,
            names: &mut *lists.names,
            types: &mut *lists.types,
        };
        let _ = check(&mut rule, nodes, checked);
        let Grading {
            ticket,
            point,
            table: _,
            allowance,
        } = grading;
        let ticket = Ticket { number: ticket };
        let lists = RunLists {
            lens: &mut *lists.lens,
            names: &mut *lists.bindings,
            levels: &mut *lists.levels,
        };
        let answer = self.grade(&ticket, point, &rule, allowance, lists);
        let Ticket { number: _ } = ticket;
        answer
    }

    // One call, with a ticket by its number.
    fn perform(
        &mut self,
        call: Call,
        tables: &[&[Node]],
        lists: &mut ReplayLists<'_, '_, '_, '_, '_>,
    ) -> Result<Answer, Fault>
        requires { Sound S.Store self.old }
        ensures sound { Sound S.Store self.new }
        ensures lists_kept { SameLengths lists.old lists.new }
        ensures does { (c : Asked) → Meant tables.now (check_lengths lists.old) (run_lengths lists.old) call c → Does (view S.Store self.old) c result (view S.Store self.new) }
    {
        let answer = match call {
            Call::Lay(points) => {
                self.lay(points)?;
                Answer::Laid
            }
            Call::Open(step) => {
                let Ticket { number } = self.open(step)?;
                Answer::Ticket(number)
            }
            Call::Grade(grading) => {
                let nodes = table_at(tables, grading.table);
                Answer::Graded(self.grade_by_table(grading, nodes, lists)?)
            }
            Call::Keep(number) => {
                let kept = self.keep(Ticket { number });
                Answer::Kept(kept.map_err(Returned::into_fault)?)
            }
            Call::Undo(number) => {
                let undone = self.undo(Ticket { number });
                Answer::Undone(undone.map_err(Returned::into_fault)?)
            }
            Call::Show(point) => Answer::Shown(self.show(point)?),
        };
        Ok(answer)
    }
}

// Sets a piece down on the store, and performs as many of the calls as there is room for answers, which is lent since
// nothing here allocates; gives how many that is.
pub fn replay<S: Store + Drop>(
    store: S,
    number: u32,
    tables: &[&[Node]],
    calls: &[Call],
    answers: &mut [Result<Answer, Fault>],
    lists: ReplayLists<'_, '_, '_, '_, '_>,
) -> usize
    ensures count { result ≡ min (length calls.now) (length answers.old) }
    ensures rest_kept { drop result answers.new ≡ drop result answers.old }
    ensures replayed { Replayed (start S.Store store number) tables.now (check_lengths lists.entry) (run_lengths lists.entry) (take result calls.now) (take result answers.new) }
{
    // a struct of `&mut` slices that comes as a parameter is not proved where it is lent on whole, so it is made again
    let ReplayLists {
        lens,
        names,
        types,
        bindings,
        levels,
    } = lists;
    let mut lists = ReplayLists {
        lens,
        names,
        types,
        bindings,
        levels,
    };
    let count = calls.len().min(answers.len());
    let mut piece = Piece::new(store, number);
    // by place: after a zip over the answers the proof does not know what they hold
    for (i, answer) in answers[..count].iter_mut().enumerate() {
        *answer = piece.perform(calls[i], tables, &mut lists);
    }
    count
}
