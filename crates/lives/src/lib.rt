// What holds of all lives of all cases: the contract is the law. And why a call on a case is refused.
#![tactic(auto)]

ghost use Rattle.std.specs.Prelude.{◌≡◌, None};
ghost use Rattle.model.specs.Refusals.{reason};
ghost use Rattle.lives.specs.declared.CallRefusal.TheVariants.{Case};
ghost use Rattle.lives.specs.Laws.{LivesKeepTheirPromises, OffersMayBeStarted};
ghost use Rattle.lives.specs.Refusals.{call_reason};

use model::refusal::{CaseRefusal, Reason};
use std::error::Error;
use std::fmt;

// Why a call on a case was refused: as the replay of a record refuses its line or a step, or since the store has no place.
#[derive(Clone, Copy, PartialEq, Eq, Debug)]
pub enum CallRefusal {
    Case(CaseRefusal),
    // a step that is no entry of a record has no place
    Store { place: Option<usize>, id: u8 },
    // of a move: the case is finished
    Finished,
    // the plan's base is not the case's schema
    OtherBase,
    // the change at this place fails, by this node
    Change { place: usize, id: u8 },
}

impl From<CaseRefusal> for CallRefusal {
    ghost from_gives = { λ refusal call. call ≡ Case refusal };

    fn from(refusal: CaseRefusal) -> CallRefusal {
        CallRefusal::Case(refusal)
    }
}

// A move that is refused as a whole.
fn of_move(number: u8) -> Reason
    ensures { result ≡ reason number 6 None None }
{
    Reason {
        place: None,
        id: None,
        number,
        layer: 6,
    }
}

impl From<CallRefusal> for Reason {
    ghost from_gives = { λ refusal reason. reason ≡ call_reason refusal };

    fn from(refusal: CallRefusal) -> Reason
        ensures { result ≡ call_reason refusal }
    {
        match refusal {
            CallRefusal::Case(case) => Reason::from(case),
            CallRefusal::Store { place, id } => Reason {
                place,
                id: Some(id),
                number: 40,
                layer: 7,
            },
            CallRefusal::Finished => of_move(33),
            CallRefusal::OtherBase => of_move(34),
            CallRefusal::Change { place, id } => Reason {
                place: Some(place),
                id: Some(id),
                number: 35,
                layer: 6,
            },
        }
    }
}

// It prints as its reason.
impl fmt::Display for CallRefusal {
    fn fmt<W: fmt::Write>(&self, f: &mut fmt::Formatter<W>) -> fmt::Result {
        write!(f, "{}", Reason::from(*self))
    }
}

impl Error for CallRefusal {}

#[tactic(auto, using(crate::proofs::Keeping::promises_kept))]
pub fn lives_keep_their_promises()
    ensures { LivesKeepTheirPromises }
{}

#[tactic(auto, using(crate::proofs::Offering::may_be_started))]
pub fn offers_may_be_started()
    ensures { OffersMayBeStarted }
{}
