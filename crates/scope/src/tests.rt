// Names that hide one another, and positions that are gone back to.
use crate::{NoRoom, NotThere, Record, Scope};

// Whether the names 7 and 8 have these entries.
fn sees(scope: &Scope<char>, seven: Option<char>, eight: Option<char>) -> bool {
    scope.find(7) == seven && scope.find(8) == eight
}

#[test]
fn the_latest_entry_counts_until_its_mark(rt: HostRuntime) {
    let mut records = [Record::blank('-'); 3];
    let mut scope = Scope::new(&mut records);
    let _ = scope.enter(7, 'a');
    let mark = scope.mark();
    let _ = scope.enter(8, 'b');
    let _ = scope.enter(7, 'c');
    assert!(rt; sees(&scope, Some('c'), Some('b')));
    assert!(rt; scope.back_to(mark).is_ok());
    assert!(rt; sees(&scope, Some('a'), None));
}

#[test]
fn an_older_position_sees_past_newer_records(rt: HostRuntime) {
    let mut records = [Record::blank('-'); 3];
    let mut scope = Scope::new(&mut records);
    let _ = scope.enter(7, 'a');
    let older = scope.position();
    let _ = scope.enter(7, 'b');
    let newer = scope.position();
    assert!(rt; scope.see_from(older).is_ok());
    assert!(rt; sees(&scope, Some('a'), None));
    let _ = scope.enter(8, 'c');
    assert!(rt; sees(&scope, Some('a'), Some('c')));
    assert!(rt; scope.see_from(newer).is_ok());
    assert!(rt; sees(&scope, Some('b'), None));
}

#[test]
fn a_refusal_changes_nothing(rt: HostRuntime) {
    let mut records = [Record::blank('-'); 1];
    let mut scope = Scope::new(&mut records);
    let empty = scope.mark();
    let _ = scope.enter(7, 'a');
    let full = scope.mark();
    assert!(rt; scope.enter(8, 'b') == Err(NoRoom));
    assert!(rt; scope.see_from(2) == Err(NotThere));
    assert!(rt; sees(&scope, Some('a'), None));
    assert!(rt; scope.back_to(empty).is_ok());
    assert!(rt; scope.back_to(full) == Err(NotThere));
    assert!(rt; sees(&scope, None, None));
}
