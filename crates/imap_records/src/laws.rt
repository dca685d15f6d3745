//! What holds of tables that stand for worlds.

ghost use Rattle.imap_records.specs.Laws.{NewStoresStand, StandForOne};

/// New tables stand for the world without mailboxes.
pub fn new_store_stands()
    ensures { NewStoresStand }
{}

/// Tables stand for one world at most of those that are kept soundly and whose values the columns can hold.
pub fn tables_stand_for_one()
    ensures { StandForOne }
{}
