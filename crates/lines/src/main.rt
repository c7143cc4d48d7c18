// Checks every sample rule; then holds one size's shifts of a small piece on each store, and shows what a store refuses.
#![tactic(auto)]

use byte_store::ByteStore;
use language::{Number, Scalar, Value};
use record_store::{Cell, RecordStore};
use rule::{CheckLists, Entry, Rule, check};
use samples::{Sample, sample_lines};
use scope::Record;
use store::{Dead, Full, Store, WriteRefusal};

#[cfg(test)]
mod tests;

// Records in each work list: enough for every sample.
const WORK: usize = 64;

const POINTS: usize = 4;

// The shifts of the piece's points, in hundredths of a millimetre.
const SHIFTS: [Number; POINTS] = [150, -75, 0, 1200];

fn show_count<S: Store>(rt: &HostRuntime, store: &S) -> anyhow::Result<()> {
    println!(rt; "limit {} live {}", store.limit(), store.count())?;
    Ok(())
}

// A location for each point, holding 0.
fn take_points<S: Store>(store: &mut S) -> Result<[u16; POINTS], Full> {
    let mut locations = [0; POINTS];
    for location in &mut locations {
        *location = store.take(Value::Whole(0))?;
    }
    Ok(locations)
}

// This and the next print other words, so they are two.
fn show_read(rt: &HostRuntime, location: u16, answer: Result<Value, Dead>) -> anyhow::Result<()> {
    match answer {
        Ok(value) => println!(rt; "location {location} holds {value}")?,
        Err(refusal) => println!(rt; "location {location}: {refusal}")?,
    }
    Ok(())
}

fn show_write(
    rt: &HostRuntime,
    location: u16,
    answer: Result<(), WriteRefusal>,
) -> anyhow::Result<()> {
    match answer {
        Ok(()) => println!(rt; "location {location} written")?,
        Err(refusal) => println!(rt; "location {location}: {refusal}")?,
    }
    Ok(())
}

// The whole task on one store: take, write, read back, two refusals, release.
fn hold_shifts<S: Store>(rt: &HostRuntime, store: &mut S) -> anyhow::Result<()> {
    show_count(rt, store)?;
    let locations = take_points(store)?;
    for (location, shift) in locations.into_iter().zip(SHIFTS) {
        show_write(rt, location, store.write(location, Value::Whole(shift)))?;
    }
    for location in locations {
        show_read(rt, location, store.read(location))?;
    }
    show_write(
        rt,
        locations[0],
        store.write(locations[0], Value::Truth(true)),
    )?;
    show_count(rt, store)?;
    for location in locations {
        let _ = store.release(location);
    }
    show_read(rt, locations[0], store.read(locations[0]))?;
    show_count(rt, store)
}

// The need of a sample rule, or the number and the place of its refusal.
fn check_sample(rt: &HostRuntime, sample: Sample) -> anyhow::Result<()> {
    let mut lens = [0; WORK];
    let mut names = [Record::blank(Entry::Hidden); WORK];
    let mut types = [Scalar::Whole; WORK];
    let mut rule = Rule::built_in();
    let name = sample.name;
    let lists = CheckLists {
        lens: &mut lens,
        names: &mut names,
        types: &mut types,
    };
    match check(&mut rule, sample.nodes, lists) {
        Ok(()) => println!(rt; "{name} accepted {}", rule.need())?,
        Err(fault) => println!(rt; "{name} {fault}")?,
    }
    Ok(())
}

fn main(rt: HostRuntime) -> anyhow::Result<()> {
    for sample in sample_lines() {
        check_sample(&rt, sample)?;
    }
    println!(rt; "record store")?;
    let mut cells = [Cell::free(); 64];
    hold_shifts(&rt, &mut RecordStore::over(&mut cells))?;
    println!(rt; "byte store")?;
    let mut bytes = [9; 33];
    hold_shifts(&rt, &mut ByteStore::over(&mut bytes))?;
    println!(rt;
        "the last three bytes, in no cell: {} {} {}",
        bytes[30], bytes[31], bytes[32]
    )?;
    Ok(())
}
