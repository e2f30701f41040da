// Which changes of a schema a draft admits, and why others are refused.
#![tactic(auto)]

ghost use Rattle.std.specs.Prelude.{◌≡◌};
ghost use Rattle.draft_rules.specs.Reasons.{plan_reason};

pub mod judgements;
pub mod passing;

use model::refusal::Reason;
use std::error::Error;
use std::fmt;

// Why a change is refused: the first of these that applies, in this order.
#[derive(Clone, Copy, PartialEq, Eq, Debug)]
pub enum ChangeRefusal {
    // its bytes spell no change, an id is above 63, or it takes out after others have put in
    Form,
    // its edge, activity, gap or whole items are not there
    Missing,
    // its new id was in the row at first, or was put in since
    Used,
    // too many changes, elements or edges
    Full,
    // its edge breaks the edge rule or closes a cycle
    Edge,
}

// Why a plan is refused: its line, or the change at a place, with the byte that stands where its id does.
#[derive(Clone, Copy, PartialEq, Eq, Debug)]
pub enum PlanRefusal {
    Line,
    Change {
        place: usize,
        id: u8,
        refusal: ChangeRefusal,
    },
}

impl From<PlanRefusal> for Reason {
    ghost from_gives = { λ refusal reason. reason ≡ plan_reason refusal };

    fn from(refusal: PlanRefusal) -> Reason
        ensures { result ≡ plan_reason refusal }
    {
        let (number, layer, place, id) = match refusal {
            PlanRefusal::Line => (1, 3, None, None),
            PlanRefusal::Change { place, id, refusal } => {
                let number = match refusal {
                    ChangeRefusal::Form => 20,
                    ChangeRefusal::Missing => 22,
                    ChangeRefusal::Used => 23,
                    ChangeRefusal::Full => 24,
                    ChangeRefusal::Edge => 14,
                };
                (number, 4, Some(place), Some(id))
            }
        };
        Reason {
            place,
            id,
            number,
            layer,
        }
    }
}

// A refusal prints as its reason.
impl fmt::Display for PlanRefusal {
    fn fmt<W: fmt::Write>(&self, f: &mut fmt::Formatter<W>) -> fmt::Result {
        write!(f, "{}", Reason::from(*self))
    }
}

impl Error for PlanRefusal {}
