// How the life of a case begins: opened, or loaded from a line.
ghost use Rattle.std.specs.Prelude.{◌≡◌, List, Some, None};
ghost use Rattle.case_record.specs.Readings.{raw};
ghost use Rattle.schema.specs.Schemas.{parts};
ghost use Rattle.lives.specs.Calls.{opened, opened_on, by_record, load_outcome};
ghost use Rattle.lives.specs.Laws.{LivesKeepTheirPromises};
ghost use Rattle.lives.specs.Lives.{Life, opened_history, loaded_history};
ghost use Rattle.case.specs.CaseViews.{view_of, emptied};

use crate::case::Case;
use case_record::CaseRecord;
use entering::course::Course;
use history::Store;
use lives::CallRefusal;
use model::refusal::CaseRefusal;
use record::Record;
use schema::schema::Schema;
use worklist::Worklist;

impl<'s, S: Store, W: Worklist> Case<'s, S, W> {
    // A case of this schema, opened; what store and worklist held is cleared.
    pub fn new(schema: &'s Schema, store: S, worklist: W, number: u32) -> Case<'s, S, W>
        ensures after { view_of S.view W.offered result ≡ opened_on number (parts schema.now) (S.view store) }
        ensures life { Life S.Cost.PLACES opened_history (view_of S.view W.offered result) }
    {
        let mut case = Case {
            course: Course::new(schema, store),
            worklist,
            number,
        };
        case.open(number);
        case
    }

    // Nothing has happened, and nothing is offered yet.
    fn begin(&mut self, number: u32)
        ensures { view_of S.view W.offered self.new ≡ emptied number (view_of S.view W.offered self.old) }
    {
        self.number = number;
        self.course.begin();
        self.worklist.clear();
    }

    // Opens the case, since a line was none.
    fn refuse_line(&mut self) -> Result<(), CallRefusal>
        ensures answer { result ≡ (by_record (view_of S.view W.offered self.old) None).answer }
        ensures after { view_of S.view W.offered self.new ≡ (by_record (view_of S.view W.offered self.old) None).after }
    {
        self.open(0);
        Err(CaseRefusal::Line.into())
    }

    // Begins with the history of a record.
    fn load_history(&mut self, history: CaseRecord<'_>) -> Result<(), CallRefusal>
        ensures answer { result ≡ (by_record (view_of S.view W.offered self.old) (Some (raw history.entry))).answer }
        ensures after { view_of S.view W.offered self.new ≡ (by_record (view_of S.view W.offered self.old) (Some (raw history.entry))).after }
    {
        self.begin(history.number);
        let taken = self.course.take_all(history);
        match taken {
            Ok(()) => self.refresh(),
            Err(_) => self.open(history.number),
        }
        taken
    }

    // Begins a new life on the same schema, store and worklist.
    pub fn open(&mut self, number: u32)
        ensures after { view_of S.view W.offered self.new ≡ opened number (view_of S.view W.offered self.old) }
        ensures life { Life S.Cost.PLACES opened_history (view_of S.view W.offered self.new) }
    {
        self.begin(number);
        self.refresh();
    }

    // Begins a new life on another schema, with the same store and worklist.
    pub fn open_on(&mut self, schema: &'s Schema, number: u32)
        ensures after { view_of S.view W.offered self.new ≡ opened_on number (parts schema.now) (S.view self.old.course.store) }
        ensures life { Life S.Cost.PLACES opened_history (view_of S.view W.offered self.new) }
    {
        self.number = number;
        self.course.begin_on(schema);
        self.worklist.clear();
        self.refresh();
    }

    // Begins a new life with the case that a line writes, each entry judged in full before the next. A refused load
    // leaves the case opened and empty.
    #[tactic(auto, using(crate::proofs::Living::life_loaded, schema::proofs::Checked::schema_checked))]
    pub fn load(&mut self, line: &[u8]) -> Result<(), CallRefusal>
        ensures answer { result ≡ (load_outcome line.now (view_of S.view W.offered self.old)).answer }
        ensures after { view_of S.view W.offered self.new ≡ (load_outcome line.now (view_of S.view W.offered self.old)).after }
        ensures life { Life S.Cost.PLACES (loaded_history line.now (view_of S.view W.offered self.old)) (view_of S.view W.offered self.new) }
        ensures promise { LivesKeepTheirPromises }
    {
        // the history borrows the record, so no one call gives both and one `else` answers for both
        let Ok(record) = Record::try_from(line) else {
            return self.refuse_line();
        };
        let Ok(history) = CaseRecord::try_from(record.bytes()) else {
            return self.refuse_line();
        };
        self.load_history(history)
    }

    // Begins a new life on another schema, the base of what is to come, with the case that a line writes: as opening on it and
    // then loading would, but what an opened case offers is not worked out.
    pub fn load_on(&mut self, base: &'s Schema, line: &[u8]) -> Result<(), CallRefusal>
        ensures answer { result ≡ (load_outcome line.now (opened_on self.old.number (parts base.now) (S.view self.old.course.store))).answer }
        ensures after { view_of S.view W.offered self.new ≡ (load_outcome line.now (opened_on self.old.number (parts base.now) (S.view self.old.course.store))).after }
        ensures life { Life S.Cost.PLACES (loaded_history line.now (opened_on self.old.number (parts base.now) (S.view self.old.course.store))) (view_of S.view W.offered self.new) }
    {
        self.course.begin_on(base);
        self.load(line)
    }
}
