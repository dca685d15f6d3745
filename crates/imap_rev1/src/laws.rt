//! Laws of the dialect.

ghost use Rattle.imap_rev1.specs.FetchLaws.{AsksMacro, AsksMessage, AsksSection, AsksSections, PrintsNotices};
ghost use Rattle.imap_rev1.specs.FetchLaws.{PrintsUnlabelled, TellsAsAsked, TellsLabel, TellsListedLabel};
ghost use Rattle.imap_rev1.specs.FetchLaws.{AsksForFields, TellsFields, TellsListedPart, TellsPart};
ghost use Rattle.imap_rev1.specs.Laws.{AllAreRead, AsksMessages, ChecksByNoop, EachIsOneLine, EndsByRev2};
ghost use Rattle.imap_rev1.specs.Laws.{HandsOthersOn, IsReadAsOne, KeepsTags, ListsSubscribed};
ghost use Rattle.imap_rev1.specs.Laws.{PrintsConditions, PrintsOthers, SearchesByKeys, StaysCommand};
ghost use Rattle.imap_rev1.specs.Laws.{StaysEnabled, StaysUntilEnabled, StringsStay, TellsRecent};

/// A frame that is not named is handed on, and one that is stays a command with its tag and its
/// literals.
pub fn keeps_frames()
    ensures others { HandsOthersOn }
    ensures tags { KeepsTags }
    ensures command { StaysCommand }
    ensures one { IsReadAsOne }
{}

/// CHECK is NOOP, LSUB is LIST of the subscribed names, and the words of a SEARCH that say which
/// messages are recent are exchanged. What stands in quotes stays.
pub fn exchanges_words()
    ensures check { ChecksByNoop }
    ensures lsub { ListsSubscribed }
    ensures search { SearchesByKeys }
    ensures strings { StringsStay }
{}

/// MESSAGES is asked in place of RECENT in STATUS, and its value is told as `RECENT 0`.
pub fn tells_recent()
    ensures asked { AsksMessages }
    ensures told { TellsRecent }
{}

/// Another item of FETCH is asked in place of each label and part, and its section is told under the label.
/// Messages are printed if no label or part was asked for, or if they have no section.
pub fn tells_labels()
    ensures sections { AsksSections }
    ensures section { AsksSection }
    ensures macros { AsksMacro }
    ensures as_asked { TellsAsAsked }
    ensures label { TellsLabel }
    ensures listed { TellsListedLabel }
    ensures unlabelled { PrintsUnlabelled }
    ensures notices { PrintsNotices }
{}

/// The message is asked in place of a part, and the part is told from it. So are header fields of a part.
pub fn tells_parts()
    ensures asked { AsksMessage }
    ensures told { TellsPart }
    ensures listed { TellsListedPart }
    ensures asks_for_fields { AsksForFields }
    ensures fields { TellsFields }
{}

/// A client reads each line in which a reply is told as one line, and just these lines in all, if
/// the names and other texts in the replies have neither CR nor LF.
pub fn tells_lines()
    ensures one { EachIsOneLine }
    ensures all { AllAreRead }
{}

/// Replies to frames that are not named are printed, and conditions whatever the frame is.
pub fn prints_others()
    ensures others { PrintsOthers }
    ensures conditions { PrintsConditions }
{}

/// IMAP4rev1 ends by a reply that says that IMAP4rev2 is enabled, and by no other. From then on only CHECK,
/// LSUB and FETCH are named.
pub fn ends_by_enabled()
    ensures ends { EndsByRev2 }
    ensures before { StaysUntilEnabled }
    ensures after { StaysEnabled }
{}
