// What holds of the format itself: there is nothing to run.
ghost use Rattle.plan_record.specs.Laws.{ReadingInvertsWriting};

pub fn reading_inverts_writing()
    ensures { ReadingInvertsWriting }
{}
