// What a sample rule is, and how one is written.
use language::{Fault, Graded, Node, Number};

// A table, the length of each work list, the step and the allowance to grade with, and the answer that is due.
#[derive(Clone, Copy)]
pub struct Sample {
    pub name: &'static str,
    pub nodes: &'static [Node],
    pub work: usize,
    pub step: Number,
    pub allowance: u32,
    pub due: Result<Graded, Fault>,
}

// A node by its word and the fields that its kind lists; `raw` has all six, by number, for nodes that break a form.
macro_rules! node {
    (truth $value:literal) => { node!(of Truth 0 $value 0 0 0) };
    (whole $value:literal) => { node!(of Whole 0 $value 0 0 0) };
    (read $name:literal) => { node!(of Read $name 0 0 0 0) };
    (plus) => { node!(of Plus 0 0 0 0 0) };
    (less) => { node!(of Less 0 0 0 0 0) };
    (or) => { node!(of Or 0 0 0 0 0) };
    (null) => { node!(of Null 0 0 0 0 0) };
    (assign $name:literal) => { node!(of Assign $name 0 0 0 0) };
    (if) => { node!(of If 0 0 0 0 0) };
    (while) => { node!(of While 0 0 0 0 0) };
    (call $name:literal $a:literal) => { node!(of Call $name 0 $a 0 0) };
    (argument $name:literal) => { node!(of Argument $name 0 0 0 0) };
    (decl $name:literal $type:literal) => { node!(of Decl $name $type 0 0 0) };
    (proc $name:literal $a:literal) => { node!(of Proc $name 0 $a 0 0) };
    (block $a:literal $b:literal $c:literal) => { node!(of Block 0 0 $a $b $c) };
    (of $kind:ident $name:literal $value:literal $a:literal $b:literal $c:literal) => {
        Node { kind: Kind::$kind as u8, name: $name, value: $value, a: $a, b: $b, c: $c }
    };
    (raw $kind:literal $name:literal $value:literal $a:literal $b:literal $c:literal) => {
        Node { kind: $kind, name: $name, value: $value, a: $a, b: $b, c: $c }
    };
}

// A table, its nodes in order.
macro_rules! nodes {
    ($($word:tt $($field:literal)*),*) => { &[$(node!($word $($field)*)),*] };
}

// The answer that is due: a shift and its units, or the refusing layer with its cause, and the place.
macro_rules! due {
    (ok $shift:literal $units:literal) => { Ok(Graded { shift: $shift, units: $units }) };
    (no table $cause:ident $place:literal) => { due!(at $place Layer::Table(TableCause::$cause)) };
    (no names $cause:ident $place:literal) => { due!(at $place Layer::Names(NamesCause::$cause)) };
    (no run $cause:ident $place:literal) => { due!(at $place Layer::Run(RunCause::$cause)) };
    (at $place:literal $layer:expr) => { Err(Fault { layer: $layer, place: $place, point: None }) };
}

macro_rules! sample {
    ($name:literal: $nodes:expr, lists $work:literal, step $step:literal, allowance $allowance:literal, $($due:tt)*) => {
        Sample { name: $name, nodes: $nodes, work: $work, step: $step, allowance: $allowance, due: due!($($due)*) }
    };
}

pub(crate) use due;
pub(crate) use node;
pub(crate) use nodes;
pub(crate) use sample;
