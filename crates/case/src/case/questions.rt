// What a case tells; nothing changes by it.
ghost use Rattle.std.specs.Prelude.{◌≡◌};
ghost use Rattle.marking.specs.Markings.{MarkingOf};
ghost use Rattle.marking.specs.States.{state_in, finished_in};
ghost use Rattle.entering.specs.Courses.{schema_of};

use crate::case::Case;
use history::Store;
use marking::marking::Marking;
use model::State;
use schema::schema::Schema;
use worklist::Worklist;

impl<'s, S: Store, W: Worklist> Case<'s, S, W> {
    // The states of all nodes, the decided branches, and whether the case is finished.
    pub fn marking(&self) -> Marking
        ensures { MarkingOf (schema_of self.now.course).row (schema_of self.now.course).edges self.now.course.facts result }
    {
        self.course.marking()
    }

    // The state of one node, if the schema has it.
    pub fn state(&self, id: u8) -> Option<State>
        ensures { result ≡ state_in (schema_of self.now.course).row (schema_of self.now.course).edges self.now.course.facts id }
    {
        self.course.state(id)
    }

    pub fn is_finished(&self) -> bool
        ensures { result ≡ finished_in (schema_of self.now.course).row self.now.course.facts }
    {
        self.course.is_finished()
    }

    pub fn number(&self) -> u32
        ensures { result ≡ self.now.number }
    {
        self.number
    }

    pub fn schema(&self) -> &'s Schema
        ensures { result.now ≡ self.now.course.schema.now }
    {
        self.course.schema
    }

    pub fn store(&self) -> &S
        ensures { result.now ≡ self.now.course.store }
    {
        &self.course.store
    }

    pub fn worklist(&self) -> &W
        ensures { result.now ≡ self.now.worklist }
    {
        &self.worklist
    }

    // Takes the case apart.
    pub fn into_parts(self) -> (S, W)
        ensures store { result.0 ≡ self.entry.course.store }
        ensures worklist { result.1 ≡ self.entry.worklist }
    {
        let Case {
            course,
            worklist,
            number: _,
        } = self;
        (course.store, worklist)
    }
}
