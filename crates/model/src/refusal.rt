// Why something was refused, and how that is told.
ghost use Rattle.std.specs.Prelude.{◌≡◌};
ghost use Rattle.model.specs.declared.refusal.CaseRefusal.TheVariants.{Step};
ghost use Rattle.model.specs.Refusals.{schema_reason, case_reason};

use crate::Unspelled;
use std::error::Error;
use std::fmt;

// Why a schema line was refused: the first of these that applies, in this order.
#[derive(Clone, Copy, PartialEq, Eq, Debug)]
pub enum SchemaRefusal {
    // the line is not the writing of a schema record
    Line,
    // too many elements or edges
    Size,
    // an element's kind or id byte, or an id used earlier
    Element { place: usize },
    // a block does not close, or is closed or divided by a foreign element
    Block { place: usize },
    // a sync edge breaks the edge rule or closes a cycle
    Edge { place: usize, source: u8 },
}

// Why a step is refused.
#[derive(Clone, Copy, PartialEq, Eq, Debug)]
pub enum StepRefusal {
    // the entry is none, or there is no node of its kind with the id, or no such branch
    Node,
    // the node is not in the state that the step needs
    State,
}

// Bytes that spell no entry are refused as such a step.
impl From<Unspelled> for StepRefusal {
    ghost use Rattle.model.specs.declared.refusal.StepRefusal.TheVariants.{Node};

    ghost from_gives = { λ _ refusal. refusal ≡ Node };

    fn from(_unspelled: Unspelled) -> StepRefusal {
        Self::Node
    }
}

impl StepRefusal {
    // A case is refused for it: the step is of this node, and at this place if it is an entry of a record.
    pub fn at(self, place: Option<usize>, id: u8) -> CaseRefusal
        ensures { result ≡ Step place id self }
    {
        CaseRefusal::Step {
            place,
            id,
            refusal: self,
        }
    }
}

// Why a case was refused: the line, or a step of it. A step that is no entry of a record has no place.
#[derive(Clone, Copy, PartialEq, Eq, Debug)]
pub enum CaseRefusal {
    Line,
    Step {
        place: Option<usize>,
        id: u8,
        refusal: StepRefusal,
    },
}

// A refusal as it is told: its number, the layer of checks that gave it, the place in what was checked and
// the id concerned, where there are such. It is only told: code goes by the enums that it is made from.
#[derive(Clone, Copy, PartialEq, Eq, Debug)]
pub struct Reason {
    pub place: Option<usize>,
    pub id: Option<u8>,
    pub number: u8,
    pub layer: u8,
}

impl From<SchemaRefusal> for Reason {
    ghost from_gives = { λ refusal reason. reason ≡ schema_reason refusal };

    fn from(refusal: SchemaRefusal) -> Reason
        ensures { result ≡ schema_reason refusal }
    {
        let (number, layer, place, id) = match refusal {
            SchemaRefusal::Line => (1, 1, None, None),
            SchemaRefusal::Size => (10, 2, None, None),
            SchemaRefusal::Element { place } => (11, 2, Some(place), None),
            SchemaRefusal::Block { place } => (13, 2, Some(place), None),
            SchemaRefusal::Edge { place, source } => (14, 2, Some(place), Some(source)),
        };
        Reason {
            place,
            id,
            number,
            layer,
        }
    }
}

impl From<CaseRefusal> for Reason {
    ghost from_gives = { λ refusal reason. reason ≡ case_reason refusal };

    fn from(refusal: CaseRefusal) -> Reason
        ensures { result ≡ case_reason refusal }
    {
        let (number, layer, place, id) = match refusal {
            CaseRefusal::Line => (1, 5, None, None),
            CaseRefusal::Step { place, id, refusal } => {
                let number = match refusal {
                    StepRefusal::Node => 30,
                    StepRefusal::State => 31,
                };
                (number, 6, place, Some(id))
            }
        };
        Reason {
            place,
            id,
            number,
            layer,
        }
    }
}

// A refusal prints as its reason.
impl fmt::Display for SchemaRefusal {
    fn fmt<W: fmt::Write>(&self, f: &mut fmt::Formatter<W>) -> fmt::Result {
        write!(f, "{}", Reason::from(*self))
    }
}

impl Error for SchemaRefusal {}

impl fmt::Display for CaseRefusal {
    fn fmt<W: fmt::Write>(&self, f: &mut fmt::Formatter<W>) -> fmt::Result {
        write!(f, "{}", Reason::from(*self))
    }
}

impl Error for CaseRefusal {}

// As programs print it.
impl fmt::Display for Reason {
    fn fmt<W: fmt::Write>(&self, f: &mut fmt::Formatter<W>) -> fmt::Result {
        let number = self.number;
        let layer = self.layer;
        let place = OrNone(self.place);
        let id = OrNone(self.id);
        write!(f, "refused {number}, layer {layer}, place {place}, id {id}")
    }
}

// Prints as its value, or as the word "none".
#[derive(Clone, Copy)]
struct OrNone<T>(Option<T>);

impl<T: fmt::Display> fmt::Display for OrNone<T> {
    fn fmt<W: fmt::Write>(&self, f: &mut fmt::Formatter<W>) -> fmt::Result {
        match &self.0 {
            Some(value) => write!(f, "{value}"),
            None => f.write_str("none"),
        }
    }
}
