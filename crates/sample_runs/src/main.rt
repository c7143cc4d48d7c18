// Checks each sample rule and runs it on a record store of 64 cells: prints the shift and the units, or the refusal.
#![tactic(auto)]

use language::{Fault, Graded, Scalar};
use record_store::{Cell, RecordStore};
use rule::{CheckLists, Entry, Rule, check};
use run::{Binding, Level, RunLists, run};
use samples::{Sample, sample_lines};
use scope::Record;

const CELLS: usize = 64;

// Records in each work list: enough for every sample.
const WORK: usize = 64;

// Fills the place with the sample's rule, if it is accepted.
fn accept<'a>(place: &mut Rule<'a>, sample: Sample) -> Result<(), Fault> {
    let mut lens = [0; WORK];
    let mut names = [Record::blank(Entry::Hidden); WORK];
    let mut types = [Scalar::Whole; WORK];
    let lists = CheckLists {
        lens: &mut lens,
        names: &mut names,
        types: &mut types,
    };
    check(place, sample.nodes, lists)
}

fn answer(sample: Sample) -> Result<Graded, Fault> {
    let mut rule = Rule::built_in();
    accept(&mut rule, sample)?;
    let mut lens = [0; WORK];
    let mut names = [Record::blank(Binding::Place(0)); WORK];
    let mut levels = [Level::blank(); WORK];
    let mut cells = [Cell::free(); CELLS];
    run(
        &rule,
        sample.step,
        sample.allowance,
        &mut RecordStore::over(&mut cells),
        RunLists {
            lens: &mut lens,
            names: &mut names,
            levels: &mut levels,
        },
    )
}

fn show(rt: &HostRuntime, name: &str, answer: Result<Graded, Fault>) -> anyhow::Result<()> {
    match answer {
        Ok(graded) => println!(rt; "{name} {graded}")?,
        Err(fault) => println!(rt; "{name} {fault}")?,
    }
    Ok(())
}

fn main(rt: HostRuntime) -> anyhow::Result<()> {
    for sample in sample_lines() {
        show(&rt, sample.name, answer(sample))?;
    }
    Ok(())
}
