// The laws between the definitions of a rule. Each function does nothing: its contract is the law, and without
// the law's proof the crate is refused.
ghost use Rattle.language.specs.Laws.{ReadExactly, AcceptedExactly, JudgedExactly, GivesExactly, Settled, Steady, SoundRuns, RunsExist, NeverStuck};

// A table is read into a tree exactly when it is that tree written out.
pub fn reading_is_exact()
    ensures read_exactly { ReadExactly }
{}

// The names check accepts exactly the well-formed rules.
pub fn acceptance_is_exact()
    ensures accepted_exactly { AcceptedExactly }
{}

// A table is accepted exactly when its size is right, the work lists are long enough and it is a well-formed rule written out.
pub fn tables_are_judged_exactly()
    ensures judged_exactly { JudgedExactly }
{}

// The reference gives a shift exactly when the rule means it, every sum stays in range and the units fit.
pub fn shifts_are_exact()
    ensures gives_exactly { GivesExactly }
{}

// Where a rule means something, the meaning settles the answer at every allowance, with the place of a stop.
pub fn answers_follow_meaning()
    ensures settled { Settled }
{}

// A shift after u units is the answer at every allowance from u on; below u the run stops at the command that wanted the unit.
pub fn answers_are_steady()
    ensures steady { Steady }
{}

// Every run of an accepted rule on any store with room for its need is the reference's, and leaves the store as found.
pub fn runs_are_sound()
    ensures sound_runs { SoundRuns }
    ensures never_stuck { NeverStuck }
{}

// Such a run exists on every store whose limit is at most the number of locations.
pub fn runs_exist()
    ensures runs_exist { RunsExist }
{}
