//! Laws of every login.

ghost use Rattle.imap_login.specs.Laws.{AnyCut, EntersByLogin, FailsThreeTimes, GreetsAsPrinted, SameIsEqual};

/// Two texts are the same if they differ at no place.
pub fn same_is_equal()
    ensures { SameIsEqual }
{}

/// A client that waits enters by the user's name and secret, and by nothing else.
pub fn enters_by_login()
    ensures { EntersByLogin }
{}

/// Whatever a client sends, three wrong logins are answered at most.
pub fn fails_three_times()
    ensures { FailsThreeTimes }
{}

/// Where the octets of a client are cut makes no difference.
pub fn any_cut()
    ensures { AnyCut }
{}

/// The first line of a session is the greeting that the server prints, in its own words.
pub fn greets_as_printed()
    ensures { GreetsAsPrinted }
{}
