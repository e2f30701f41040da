// The steps of a case: each changes the case itself, or is refused and changes nothing.
ghost use Rattle.std.specs.Prelude.{◌≡◌, Ok, Err};
ghost use Rattle.model.specs.declared.Entry.TheVariants.{Start, End, Choose, Leave};
ghost use Rattle.lives.specs.declared.CallRefusal.{CallRefusal};
ghost use Rattle.lives.specs.Calls.{step_outcome, again_outcome};
ghost use Rattle.lives.specs.Lives.{Leaves, stepped_history, repeated_history};
ghost use Rattle.entering.specs.Courses.{schema_of};
ghost use Rattle.case.specs.CaseViews.{view_of, refreshed, Continues};

use crate::case::Case;
use entering::offers::activated_activities;
use history::Store;
use lives::CallRefusal;
use model::Entry;
use worklist::{Worklist, bring_in_step};

// Each call states its answer and the view after it, the values themselves, in two clauses: one name for both would be a
// name for a set of values.
impl<'s, S: Store, W: Worklist> Case<'s, S, W> {
    // Brings the worklist in step with the facts.
    pub(crate) fn refresh(&mut self)
        ensures after { view_of S.view W.offered self.new ≡ refreshed (view_of S.view W.offered self.old) }
        ensures course { self.new.course ≡ self.old.course }
    {
        let wanted = activated_activities(self.course.schema, &self.course.facts);
        bring_in_step(&mut self.worklist, wanted);
    }

    // Takes the step of this entry.
    fn take_step(&mut self, entry: Entry) -> Result<(), CallRefusal>
        ensures answer { result ≡ (step_outcome entry (view_of S.view W.offered self.old)).answer }
        ensures after { view_of S.view W.offered self.new ≡ (step_outcome entry (view_of S.view W.offered self.old)).after }
        ensures life { Continues S.Cost.PLACES (stepped_history entry) (view_of S.view W.offered self.old) (view_of S.view W.offered self.new) }
        ensures same { (r : CallRefusal) → result ≡ Err r → self.new ≡ self.old }
    {
        self.course.enter(None, entry)?;
        self.refresh();
        Ok(())
    }

    // Begins an Activated activity. It, finish, choose and leave are calls of their own, and not one that takes an entry,
    // since they are what a user does.
    pub fn start(&mut self, id: u8) -> Result<(), CallRefusal>
        ensures answer { result ≡ (step_outcome (Start id) (view_of S.view W.offered self.old)).answer }
        ensures after { view_of S.view W.offered self.new ≡ (step_outcome (Start id) (view_of S.view W.offered self.old)).after }
        ensures life { Continues S.Cost.PLACES (stepped_history (Start id)) (view_of S.view W.offered self.old) (view_of S.view W.offered self.new) }
        ensures same { (r : CallRefusal) → result ≡ Err r → self.new ≡ self.old }
    {
        self.take_step(Entry::Start(id))
    }

    // Ends a Running activity.
    pub fn finish(&mut self, id: u8) -> Result<(), CallRefusal>
        ensures answer { result ≡ (step_outcome (End id) (view_of S.view W.offered self.old)).answer }
        ensures after { view_of S.view W.offered self.new ≡ (step_outcome (End id) (view_of S.view W.offered self.old)).after }
        ensures life { Continues S.Cost.PLACES (stepped_history (End id)) (view_of S.view W.offered self.old) (view_of S.view W.offered self.new) }
        ensures same { (r : CallRefusal) → result ≡ Err r → self.new ≡ self.old }
    {
        self.take_step(Entry::End(id))
    }

    // Decides an Activated decision for one of its branches.
    pub fn choose(&mut self, id: u8, branch: u8) -> Result<(), CallRefusal>
        ensures answer { result ≡ (step_outcome (Choose id branch) (view_of S.view W.offered self.old)).answer }
        ensures after { view_of S.view W.offered self.new ≡ (step_outcome (Choose id branch) (view_of S.view W.offered self.old)).after }
        ensures life { Continues S.Cost.PLACES (stepped_history (Choose id branch)) (view_of S.view W.offered self.old) (view_of S.view W.offered self.new) }
        ensures same { (r : CallRefusal) → result ≡ Err r → self.new ≡ self.old }
    {
        self.take_step(Entry::Choose(id, branch))
    }

    // Leaves the loop of an Activated test.
    pub fn leave(&mut self, id: u8) -> Result<(), CallRefusal>
        ensures answer { result ≡ (step_outcome (Leave id) (view_of S.view W.offered self.old)).answer }
        ensures after { view_of S.view W.offered self.new ≡ (step_outcome (Leave id) (view_of S.view W.offered self.old)).after }
        ensures life { Continues S.Cost.PLACES (stepped_history (Leave id)) (view_of S.view W.offered self.old) (view_of S.view W.offered self.new) }
        ensures same { (r : CallRefusal) → result ≡ Err r → self.new ≡ self.old }
    {
        self.take_step(Entry::Leave(id))
    }

    // Goes round once more in the loop of an Activated test: what happened between its start and its end is forgotten.
    pub fn again(&mut self, test: u8) -> Result<(), CallRefusal>
        ensures answer { result ≡ (again_outcome S.Cost.PLACES test (S.view self.new.course.store).free (view_of S.view W.offered self.old)).answer }
        ensures after { view_of S.view W.offered self.new ≡ (again_outcome S.Cost.PLACES test (S.view self.new.course.store).free (view_of S.view W.offered self.old)).after }
        ensures bounds { result ≡ Ok tt → Leaves S.Cost.PLACES test (S.view self.new.course.store).free (schema_of self.old.course) (S.view self.old.course.store) }
        ensures life { Continues S.Cost.PLACES (repeated_history S.Cost.PLACES test (S.view self.new.course.store).free) (view_of S.view W.offered self.old) (view_of S.view W.offered self.new) }
        ensures same { (r : CallRefusal) → result ≡ Err r → self.new ≡ self.old }
    {
        self.course.repeat(test)?;
        self.refresh();
        Ok(())
    }
}
