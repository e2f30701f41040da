// Plan records and the changes that they list.
#![tactic(auto)]

mod laws;
mod plans;
#[cfg(test)]
mod tests;

pub use laws::reading_inverts_writing;

// A change as it stands in a record; nothing of it is judged yet.
#[derive(Clone, Copy, PartialEq, Eq, Debug)]
pub struct RawChange {
    pub kind: u8,
    pub a: u8,
    pub b: u8,
    pub c: u8,
}

// A change's bytes in their order.
impl From<[u8; 4]> for RawChange {
    ghost use Rattle.std.specs.Prelude.{◌≡◌};
    ghost use Rattle.plan_record.specs.Changes.{change_from};

    ghost from_gives = { λ bytes change. change ≡ change_from bytes };

    fn from(bytes: [u8; 4]) -> RawChange {
        let [kind, a, b, c] = bytes;
        RawChange { kind, a, b, c }
    }
}

// A plan record as it stands in a line. No model: a type that borrows and is `Copy` can't have one.
#[derive(Clone, Copy)]
pub struct PlanRecord<'a> {
    // four bytes a change
    changes: &'a [[u8; 4]],
}
