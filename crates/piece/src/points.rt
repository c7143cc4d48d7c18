// The records of a piece's points, and what is done with all of them.
ghost use Rattle.std.specs.Prelude.{◌≡◌, ◌≤◌, not, map, length, take, position};
ghost use Rattle.language.specs.Memory.{live};
ghost use Rattle.history.specs.States.{holding, Free, lowest_false};
ghost use Rattle.piece.specs.Views.{shift_in, HoldsShift, AllHoldShifts, locations, shifts, remembered as memories, marks, remembering, Placed};

use language::{Number, Value};
use store::Store;

// Where a point's shift is held, the shift that the open resize remembers, and whether the point is graded in it: no
// option of the shift beside it, which is remembered of each point.
#[derive(Clone, Copy)]
pub struct Point {
    pub location: u16,
    pub remembered: Number,
    pub graded: bool,
}

// The shift at a location that holds one. Store and points are no struct, which would be taken apart at once.
pub(crate) fn shift_at<S: Store>(store: &S, location: u16) -> Number
    requires whole { HoldsShift (S.Store.at store.now) location }
    ensures shift { result ≡ shift_in (S.Store.at store.now location) }
{
    match store.read(location) {
        Ok(Value::Whole(shift)) => shift,
        _ => unreachable(),
    }
}

// Takes a location for each of the first points, holding 0.
pub(crate) fn take_locations<S: Store>(store: &mut S, points: &mut [Point], count: usize)
    requires within { count ≤ length points.old }
    requires empty { live (S.Store.at store.old) ≡ 0 }
    requires room { count ≤ S.Store.bound store.old }
    ensures limit_kept { S.Store.bound store.new ≡ S.Store.bound store.old }
    ensures placed { Placed (S.Store.at store.new) (take count points.new) }
{
    for point in &mut points[..count] {
        point.location = store.take(Value::Whole(0)).unwrap();
    }
}

// Remembers the shift of each of the first points, and takes their marks away.
pub(crate) fn remember<S: Store>(store: &S, points: &mut [Point], count: usize)
    requires within { count ≤ length points.old }
    requires whole { AllHoldShifts (S.Store.at store.now) (take count points.old) }
    ensures remembers { take count points.new ≡ map (remembering (S.Store.at store.now)) (take count points.old) }
{
    for point in &mut points[..count] {
        point.remembered = shift_at(store, point.location);
        point.graded = false;
    }
}

// Puts the remembered shift of each point back.
pub(crate) fn put_back<S: Store>(store: &mut S, points: &[Point])
    requires free { Free (locations points.now) }
    requires held { S.Store.at store.old ≡ holding (locations points.now) (shifts (S.Store.at store.old) points.now) }
    ensures limit_kept { S.Store.bound store.new ≡ S.Store.bound store.old }
    ensures restored { S.Store.at store.new ≡ holding (locations points.now) (memories points.now) }
{
    for point in points {
        store
            .write(point.location, Value::Whole(point.remembered))
            .unwrap();
    }
}

// The lowest point that is not graded.
pub(crate) fn first_ungraded(points: &[Point]) -> Option<usize>
    ensures { result ≡ position (λ point. not point.graded) points.now }
{
    points.iter().position(|point| !point.graded)
}
