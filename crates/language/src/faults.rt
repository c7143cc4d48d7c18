// Refusals: which question said no, in which layer, and where.
ghost use Rattle.std.specs.Prelude.{◌≡◌, Some, None};
ghost use Rattle.language.specs.declared.faults.Layer.TheVariants as layers;
ghost use Rattle.language.specs.Faults.{number_of, place_of, fault};

use std::error::Error;
use std::fmt;

// Why a table is not the form of a rule.
#[derive(Clone, Copy, Debug, PartialEq, Eq)]
pub enum TableCause {
    Length,
    WorkLists,
    Kind,
    Fields,
    Pieces,
    Whole,
}

// Why a rule's names and types do not fit.
#[derive(Clone, Copy, Debug, PartialEq, Eq)]
pub enum NamesCause {
    Repeated,
    Variable,
    Procedure,
    Arguments,
    Types,
}

// Why a run was stopped.
#[derive(Clone, Copy, Debug, PartialEq, Eq)]
pub enum RunCause {
    Sum,
    Unit,
}

// Why a piece declines a call.
#[derive(Clone, Copy, Debug, PartialEq, Eq)]
pub enum PieceCause {
    NotBare,
    Points,
    Store,
    NotReady,
    Ticket,
    Point,
    Room,
    Ungraded,
}

#[derive(Clone, Copy, Debug, PartialEq, Eq)]
pub enum Layer {
    Table(TableCause),
    Names(NamesCause),
    Run(RunCause),
    Piece(PieceCause),
}

// What the place of a refusal counts.
#[derive(Clone, Copy, Debug, PartialEq, Eq)]
pub enum PlaceKind {
    Node,
    Point,
    Nothing,
}

// A refusal, in the form that is fixed: the layer with its cause, the place, and the point that a grade adds to what comes from below it.
#[derive(Clone, Copy, Debug, PartialEq, Eq)]
pub struct Fault {
    pub layer: Layer,
    pub place: usize,
    pub point: Option<u16>,
}

impl From<TableCause> for Layer {
    ghost from_gives = { λ cause layer. layer ≡ layers.Table cause };

    fn from(cause: TableCause) -> Layer {
        Layer::Table(cause)
    }
}

impl From<NamesCause> for Layer {
    ghost from_gives = { λ cause layer. layer ≡ layers.Names cause };

    fn from(cause: NamesCause) -> Layer {
        Layer::Names(cause)
    }
}

impl From<RunCause> for Layer {
    ghost from_gives = { λ cause layer. layer ≡ layers.Run cause };

    fn from(cause: RunCause) -> Layer {
        Layer::Run(cause)
    }
}

impl From<PieceCause> for Layer {
    ghost from_gives = { λ cause layer. layer ≡ layers.Piece cause };

    fn from(cause: PieceCause) -> Layer {
        Layer::Piece(cause)
    }
}

impl Layer {
    // The number of the question that said no; as a `From` it would not be said at its uses what the number is.
    pub fn number(self) -> u8
        ensures { result ≡ number_of self }
    {
        match self {
            Layer::Table(cause) => 1 + cause as u8,
            Layer::Names(cause) => 7 + cause as u8,
            Layer::Piece(PieceCause::Ungraded) => 21,
            Layer::Piece(cause) => 12 + cause as u8,
            Layer::Run(cause) => 19 + cause as u8,
        }
    }

    pub fn place_kind(self) -> PlaceKind
        ensures { result ≡ place_of self }
    {
        match self {
            Layer::Table(TableCause::Length | TableCause::WorkLists) => PlaceKind::Nothing,
            Layer::Table(_) | Layer::Names(_) | Layer::Run(_) => PlaceKind::Node,
            Layer::Piece(PieceCause::Point | PieceCause::Ungraded) => PlaceKind::Point,
            Layer::Piece(_) => PlaceKind::Nothing,
        }
    }
}

impl Fault {
    pub fn new(layer: Layer, place: usize) -> Fault
        ensures { result ≡ fault layer place }
    {
        Fault {
            layer,
            place,
            point: None,
        }
    }

    // The same refusal, with the point that was to be graded.
    pub fn at_point(self, point: u16) -> Fault
        ensures { result ≡ record { layer = self.layer; place = self.place; point = Some point } }
    {
        Fault {
            point: Some(point),
            ..self
        }
    }
}

// The answer as it is printed: that it is none, the number of the question that said no, and the place.
impl fmt::Display for Fault {
    ghost use Rattle.language.specs.Printed.{fault_text};

    ghost output = { λ fault. Some (fault_text fault) };

    fn fmt<W: fmt::Write>(&self, f: &mut fmt::Formatter<W>) -> fmt::Result {
        write!(f, "no {} {}", self.layer.number(), self.place)
    }
}

impl Error for Fault {}
