//! Laws of folder names.

ghost use Rattle.imap_maildir_names.specs.Laws.{AreApart, IsFoundAgain};

/// The mailbox of a folder is the one whose folder it is, so no two mailboxes have one folder.
pub fn names_are_found_again()
    ensures found { IsFoundAgain }
    ensures apart { AreApart }
{}
