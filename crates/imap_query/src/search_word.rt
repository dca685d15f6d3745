//! The words of SEARCH.

ghost use Rattle.std.specs.Char.{is_ascii_alphabetic};

use imap_lex::OctetClass;
use imap_syntax::Keyword;

/// The class of the letters of ASCII.
pub(crate) struct Letter;

impl OctetClass for Letter {
    ghost test = { is_ascii_alphabetic };

    fn has(octet: u8) -> bool {
        octet.is_ascii_alphabetic()
    }
}

/// The word of a key.
#[derive(Clone, Copy)]
pub(crate) enum SearchWord {
    All,
    Answered,
    Bcc,
    Before,
    Body,
    Cc,
    Deleted,
    Draft,
    Flagged,
    From,
    Header,
    Keyword,
    Larger,
    ModSeq,
    Not,
    On,
    Or,
    Seen,
    SentBefore,
    SentOn,
    SentSince,
    Since,
    Smaller,
    Subject,
    Text,
    To,
    Uid,
    Unanswered,
    Undeleted,
    Undraft,
    Unflagged,
    Unkeyword,
    Unseen,
}

pub(crate) const SEARCH_WORDS: [SearchWord; 33] = [
    SearchWord::All,
    SearchWord::Answered,
    SearchWord::Bcc,
    SearchWord::Before,
    SearchWord::Body,
    SearchWord::Cc,
    SearchWord::Deleted,
    SearchWord::Draft,
    SearchWord::Flagged,
    SearchWord::From,
    SearchWord::Header,
    SearchWord::Keyword,
    SearchWord::Larger,
    SearchWord::ModSeq,
    SearchWord::Not,
    SearchWord::On,
    SearchWord::Or,
    SearchWord::Seen,
    SearchWord::SentBefore,
    SearchWord::SentOn,
    SearchWord::SentSince,
    SearchWord::Since,
    SearchWord::Smaller,
    SearchWord::Subject,
    SearchWord::Text,
    SearchWord::To,
    SearchWord::Uid,
    SearchWord::Unanswered,
    SearchWord::Undeleted,
    SearchWord::Undraft,
    SearchWord::Unflagged,
    SearchWord::Unkeyword,
    SearchWord::Unseen,
];

impl Keyword for SearchWord {
    ghost use Rattle.imap_query.specs.SearchWords.{search_name};
    ghost use Rattle.imap_query.specs.declared.search_word.TheConstants.{SEARCH_WORDS};

    type Class = Letter;

    ghost name_of = { search_name };

    ghost table = { SEARCH_WORDS };

    fn name(self) -> &'static [u8] {
        match self {
            SearchWord::All => b"ALL",
            SearchWord::Answered => b"ANSWERED",
            SearchWord::Bcc => b"BCC",
            SearchWord::Before => b"BEFORE",
            SearchWord::Body => b"BODY",
            SearchWord::Cc => b"CC",
            SearchWord::Deleted => b"DELETED",
            SearchWord::Draft => b"DRAFT",
            SearchWord::Flagged => b"FLAGGED",
            SearchWord::From => b"FROM",
            SearchWord::Header => b"HEADER",
            SearchWord::Keyword => b"KEYWORD",
            SearchWord::Larger => b"LARGER",
            SearchWord::ModSeq => b"MODSEQ",
            SearchWord::Not => b"NOT",
            SearchWord::On => b"ON",
            SearchWord::Or => b"OR",
            SearchWord::Seen => b"SEEN",
            SearchWord::SentBefore => b"SENTBEFORE",
            SearchWord::SentOn => b"SENTON",
            SearchWord::SentSince => b"SENTSINCE",
            SearchWord::Since => b"SINCE",
            SearchWord::Smaller => b"SMALLER",
            SearchWord::Subject => b"SUBJECT",
            SearchWord::Text => b"TEXT",
            SearchWord::To => b"TO",
            SearchWord::Uid => b"UID",
            SearchWord::Unanswered => b"UNANSWERED",
            SearchWord::Undeleted => b"UNDELETED",
            SearchWord::Undraft => b"UNDRAFT",
            SearchWord::Unflagged => b"UNFLAGGED",
            SearchWord::Unkeyword => b"UNKEYWORD",
            SearchWord::Unseen => b"UNSEEN",
        }
    }

    fn all() -> &'static [SearchWord] {
        &SEARCH_WORDS
    }
}

/// The type of an entry of MODSEQ (RFC 7162, section 3.1.5).
#[derive(Clone, Copy)]
pub(crate) enum EntryType {
    All,
    Private,
    Shared,
}

pub(crate) const ENTRY_TYPES: [EntryType; 3] = [
    EntryType::All,
    EntryType::Private,
    EntryType::Shared,
];

impl Keyword for EntryType {
    ghost use Rattle.imap_query.specs.SearchWords.{entry_type_name};
    ghost use Rattle.imap_query.specs.declared.search_word.TheConstants.{ENTRY_TYPES};

    type Class = Letter;

    ghost name_of = { entry_type_name };

    ghost table = { ENTRY_TYPES };

    fn name(self) -> &'static [u8] {
        match self {
            EntryType::All => b"ALL",
            EntryType::Private => b"PRIV",
            EntryType::Shared => b"SHARED",
        }
    }

    fn all() -> &'static [EntryType] {
        &ENTRY_TYPES
    }
}
