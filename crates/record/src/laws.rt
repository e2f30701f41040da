// What holds of the format itself: there is nothing to run.
ghost use Rattle.record.specs.Laws.{DecodingInvertsHex, ReadingInvertsWriting};

pub fn decoding_inverts_hex()
    ensures { DecodingInvertsHex }
{}

pub fn reading_inverts_writing()
    ensures { ReadingInvertsWriting }
{}
