// The judgement of a case by its line.
ghost use Rattle.std.specs.Prelude.{◌≡◌, ℕ, ◌↔◌, List, None, Ok, Err};
ghost use Rattle.record.specs.Lines.{held_of};
ghost use Rattle.model.specs.declared.refusal.Reason.{Reason};
ghost use Rattle.drafts.specs.Views.{planned};
ghost use Rattle.draft_rules.specs.Plans.{PlanParts};
ghost use Rattle.lives.specs.Lives.{Life};
ghost use Rattle.case.specs.CaseViews.{view_of};
ghost use Rattle.judging.specs.Judgements.{judged, answered};
ghost use Rattle.judging.specs.Laws.{Movable, judged_history};
ghost use Rattle.judging.specs.Batches.{batch_of};

use crate::batch::Batch;
use crate::lines::characters;
use crate::ready::Ready;
use case::case::Case;
use history::Store;
use lives::CallRefusal;
use model::refusal::Reason;
use record::LineBuffer;
use verdicts::Verdict;
use worklist::Worklist;

// How the answer of a call is told.
fn told(answer: Result<(), CallRefusal>) -> Option<Reason>
    ensures { result ≡ answered answer }
{
    match answer {
        Ok(()) => None,
        Err(refusal) => Some(Reason::from(refusal)),
    }
}

impl Ready {
    // Loads the case that a line writes, and moves it.
    fn take<'s, S: Store, W: Worklist>(&'s self, case: &mut Case<'s, S, W>, line: &[u8]) -> Verdict
        ensures verdict { result ≡ (judged (Ok (planned self.now.plan)) line.now (view_of S.view W.offered case.old)).verdict }
        ensures after { view_of S.view W.offered case.new ≡ (judged (Ok (planned self.now.plan)) line.now (view_of S.view W.offered case.old)).after }
    {
        let mut answer = case.load_on(&self.schema, line);
        if answer.is_ok() {
            answer = case.migrate(&self.plan);
        }
        Verdict {
            refusal: told(answer),
            case: case.number(),
        }
    }
}

impl Batch {
    // Judges the case that a line writes: it is loaded on the batch's schema, whatever it was on before, and moved by the plan.
    // It is moved exactly if its history runs on the changed schema (`moves`), and its life begins with this line (`life`).
    pub fn judge<'s, S: Store, W: Worklist>(
        &'s self,
        case: &mut Case<'s, S, W>,
        line: &[u8],
    ) -> Verdict
        ensures verdict { result ≡ (judged (batch_of self.now) line.now (view_of S.view W.offered case.old)).verdict }
        ensures after { view_of S.view W.offered case.new ≡ (judged (batch_of self.now) line.now (view_of S.view W.offered case.old)).after }
        ensures moves { (p : PlanParts) → batch_of self.now ≡ Ok p → (result.refusal ≡ None) ↔ Movable p line.now (view_of S.view W.offered case.old).store.capacity }
        ensures life { (p : PlanParts) → batch_of self.now ≡ Ok p → Life S.Cost.PLACES (judged_history p line.now (view_of S.view W.offered case.old)) (view_of S.view W.offered case.new) }
        ensures same { (r : Reason) → batch_of self.now ≡ Err r → case.new ≡ case.old }
    {
        match self {
            Batch::Ready(ready) => ready.take(case, line),
            Batch::Refused(reason) => Verdict {
                refusal: Some(*reason),
                case: 0,
            },
        }
    }

    // The same for a line that came in through a buffer.
    pub fn judge_buffered<'s, S: Store, W: Worklist>(
        &'s self,
        case: &mut Case<'s, S, W>,
        line: &LineBuffer,
    ) -> Verdict
        ensures verdict { (cs : List ℕ) → line.now ≡ held_of cs → result ≡ (judged (batch_of self.now) cs (view_of S.view W.offered case.old)).verdict }
        ensures after { (cs : List ℕ) → line.now ≡ held_of cs → view_of S.view W.offered case.new ≡ (judged (batch_of self.now) cs (view_of S.view W.offered case.old)).after }
        ensures moves { (cs : List ℕ) (p : PlanParts) → line.now ≡ held_of cs → batch_of self.now ≡ Ok p → (result.refusal ≡ None) ↔ Movable p cs (view_of S.view W.offered case.old).store.capacity }
        ensures life { (cs : List ℕ) (p : PlanParts) → line.now ≡ held_of cs → batch_of self.now ≡ Ok p → Life S.Cost.PLACES (judged_history p cs (view_of S.view W.offered case.old)) (view_of S.view W.offered case.new) }
        ensures same { (r : Reason) → batch_of self.now ≡ Err r → case.new ≡ case.old }
    {
        self.judge(case, characters(line))
    }
}
