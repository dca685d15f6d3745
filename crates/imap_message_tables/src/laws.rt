//! What holds of messages in three tables, and of the one table that fits them.

ghost use Rattle.imap_message_tables.specs.Adopting.{AdoptedFits};
ghost use Rattle.imap_message_tables.specs.Copying.{RowsAreCopied};
ghost use Rattle.imap_message_tables.specs.Laws.{AddedFits, CascadeFits, EmptyFits, FitsOne, FlaggedFits};
ghost use Rattle.imap_message_tables.specs.Laws.{OthersFit, RemovedFits, SplitShows};
ghost use Rattle.imap_message_tables.specs.Loading.{FittingIsRead, ReadFits};
ghost use Rattle.imap_message_tables.specs.Unique.{AddedIsFresh, IndexesKey};
ghost use Rattle.imap_message_tables.specs.Writing.{WritingFits};

/// One table at most fits.
pub fn fits_one()
    ensures { FitsOne }
{}

/// Rows of the three tables can be read if those of the one table can.
pub fn split_shows()
    ensures { SplitShows }
{}

/// Tables without a message fit.
pub fn empty_fits()
    ensures { EmptyFits }
{}

/// A message that is added.
pub fn added_fits()
    ensures { AddedFits }
{}

/// A message that gets flags: only the words that differ are written.
pub fn flagged_fits()
    ensures { FlaggedFits }
{}

/// A message that goes.
pub fn removed_fits()
    ensures { RemovedFits }
{}

/// Mailboxes that go with all that is below them.
pub fn cascade_fits()
    ensures { CascadeFits }
{}

/// A change of another table.
pub fn others_fit()
    ensures { OthersFit }
{}

/// All rows of the one table are copied.
pub fn rows_are_copied()
    ensures { RowsAreCopied }
{}

/// The tables of the first version are taken over.
pub fn adopted_fits()
    ensures { AdoptedFits }
{}

/// The rows of tables that fit, as they are read.
pub fn fitting_is_read()
    ensures { FittingIsRead }
{}

/// Rows that fit are those of tables that fit.
pub fn read_fits()
    ensures { ReadFits }
{}

/// Unique indexes keep keys apart.
pub fn indexes_key()
    ensures { IndexesKey }
{}

/// The key of a row that was added was free.
pub fn added_is_fresh()
    ensures { AddedIsFresh }
{}

/// Row changes that are written to three tables are made in the one table.
pub fn writing_fits()
    ensures { WritingFits }
{}
