// The move of a case to the schema that a plan gives.
ghost use Rattle.std.specs.Prelude.{◌≡◌, List, Ok, Err};
ghost use Rattle.model.specs.declared.Entry.{Entry};
ghost use Rattle.draft_rules.specs.Plans.{Released};
ghost use Rattle.drafts.specs.Views.{planned};
ghost use Rattle.lives.specs.declared.CallRefusal.{CallRefusal};
ghost use Rattle.lives.specs.Moves.{move_outcome};
ghost use Rattle.lives.specs.Lives.{Life, moved_history};
ghost use Rattle.lives.specs.Laws.{LivesKeepTheirPromises, MoveHasCause, Landed};
ghost use Rattle.case.specs.CaseViews.{view_of, Continues};

use crate::case::Case;
use drafts::plan::Plan;
use history::Store;
use lives::CallRefusal;
use worklist::Worklist;

impl<'s, S: Store, W: Worklist> Case<'s, S, W> {
    // Moves the running case to the schema that a released plan gives, or refuses and changes nothing. It looks at a few states
    // and at the order of entries in the history; that this is replaying the history on the changed schema is the promise.
    pub fn migrate(&mut self, plan: &'s Plan) -> Result<(), CallRefusal>
        ensures answer { result ≡ (move_outcome (planned plan.now) (view_of S.view W.offered self.old)).answer }
        ensures after { view_of S.view W.offered self.new ≡ (move_outcome (planned plan.now) (view_of S.view W.offered self.old)).after }
        ensures facts { self.new.course.facts ≡ self.old.course.facts }
        ensures store { self.new.course.store ≡ self.old.course.store }
        ensures same { (r : CallRefusal) → result ≡ Err r → self.new ≡ self.old }
        ensures life { Continues S.Cost.PLACES moved_history (view_of S.view W.offered self.old) (view_of S.view W.offered self.new) }
        ensures own { (H : List Entry) → Life S.Cost.PLACES H (view_of S.view W.offered self.old) → MoveHasCause H (view_of S.view W.offered self.old) (planned plan.now) }
        ensures landed { (H : List Entry) → Life S.Cost.PLACES H (view_of S.view W.offered self.old) → result ≡ Ok tt → Landed (planned plan.now) H (view_of S.view W.offered self.old) (view_of S.view W.offered self.new) }
        ensures promise { LivesKeepTheirPromises }
    {
        if let Some(refusal) = self.course.move_refusal(plan) {
            return Err(refusal);
        }
        self.course.go_on(plan);
        self.refresh();
        Ok(())
    }
}
