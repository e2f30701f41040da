// What holds of every table. There is nothing to run: the contract is the law.
ghost use Rattle.table.specs.Tables.{ATableIsTight};

#[tactic(auto, using(crate::specs::Tables::table_tight))]
pub fn a_table_is_tight()
    ensures { ATableIsTight }
{}
