//! The words of FETCH, and its modifiers.

ghost use Rattle.std.specs.Prelude.{◌≡◌};
ghost use Rattle.imap_query.specs.FetchWords.{is_section_char};

use imap_lex::{AstringChar, OctetClass};
use imap_syntax::{Keyword, WordChar};

/// The characters of the words of sections: letters and `.`.
pub(crate) fn is_section_char(octet: u8) -> bool
    ensures { result ≡ is_section_char octet }
{
    octet.is_ascii_alphabetic() || octet == b'.'
}

/// The class of [`is_section_char`].
pub(crate) struct SectionChar;

impl OctetClass for SectionChar {
    ghost test = { is_section_char };

    fn has(octet: u8) -> bool {
        is_section_char(octet)
    }
}

/// RFC 7162, sections 3.1.4.1 and 3.2.6.
#[derive(Clone, Copy)]
pub(crate) enum Modifier {
    ChangedSince(u64),
    Vanished,
}

/// The modifiers of a FETCH.
#[derive(Clone, Copy)]
pub struct Modifiers {
    /// Only messages with a greater mod-sequence are wanted (RFC 7162, section 3.1.4.1). At least 1.
    pub changed_since: Option<u64>,
    /// Whether the expunged messages are wanted too (RFC 7162, section 3.2.6).
    pub vanished: bool,
}

/// The word of an item or a macro.
#[derive(Clone, Copy)]
pub(crate) enum FetchWord {
    All,
    Binary,
    BinaryPeek,
    BinarySize,
    Body,
    BodyPeek,
    BodyStructure,
    Envelope,
    Fast,
    Flags,
    Full,
    InternalDate,
    ModSeq,
    Rfc822Size,
    Uid,
}

pub(crate) const FETCH_WORDS: [FetchWord; 15] = [
    FetchWord::All,
    FetchWord::Binary,
    FetchWord::BinaryPeek,
    FetchWord::BinarySize,
    FetchWord::Body,
    FetchWord::BodyPeek,
    FetchWord::BodyStructure,
    FetchWord::Envelope,
    FetchWord::Fast,
    FetchWord::Flags,
    FetchWord::Full,
    FetchWord::InternalDate,
    FetchWord::ModSeq,
    FetchWord::Rfc822Size,
    FetchWord::Uid,
];

impl Keyword for FetchWord {
    ghost use Rattle.imap_query.specs.FetchWords.{fetch_name};
    ghost use Rattle.imap_query.specs.declared.fetch_word.TheConstants.{FETCH_WORDS};

    type Class = WordChar;

    ghost name_of = { fetch_name };

    ghost table = { FETCH_WORDS };

    fn name(self) -> &'static [u8] {
        match self {
            FetchWord::All => b"ALL",
            FetchWord::Binary => b"BINARY",
            FetchWord::BinaryPeek => b"BINARY.PEEK",
            FetchWord::BinarySize => b"BINARY.SIZE",
            FetchWord::Body => b"BODY",
            FetchWord::BodyPeek => b"BODY.PEEK",
            FetchWord::BodyStructure => b"BODYSTRUCTURE",
            FetchWord::Envelope => b"ENVELOPE",
            FetchWord::Fast => b"FAST",
            FetchWord::Flags => b"FLAGS",
            FetchWord::Full => b"FULL",
            FetchWord::InternalDate => b"INTERNALDATE",
            FetchWord::ModSeq => b"MODSEQ",
            FetchWord::Rfc822Size => b"RFC822.SIZE",
            FetchWord::Uid => b"UID",
        }
    }

    fn all() -> &'static [FetchWord] {
        &FETCH_WORDS
    }
}

/// The word of a section.
#[derive(Clone, Copy)]
pub(crate) enum SectionWord {
    Fields,
    FieldsNot,
    Header,
    Mime,
    Text,
}

pub(crate) const SECTION_WORDS: [SectionWord; 5] = [
    SectionWord::Fields,
    SectionWord::FieldsNot,
    SectionWord::Header,
    SectionWord::Mime,
    SectionWord::Text,
];

impl Keyword for SectionWord {
    ghost use Rattle.imap_query.specs.FetchWords.{section_name};
    ghost use Rattle.imap_query.specs.declared.fetch_word.TheConstants.{SECTION_WORDS};

    type Class = SectionChar;

    ghost name_of = { section_name };

    ghost table = { SECTION_WORDS };

    fn name(self) -> &'static [u8] {
        match self {
            SectionWord::Fields => b"HEADER.FIELDS",
            SectionWord::FieldsNot => b"HEADER.FIELDS.NOT",
            SectionWord::Header => b"HEADER",
            SectionWord::Mime => b"MIME",
            SectionWord::Text => b"TEXT",
        }
    }

    fn all() -> &'static [SectionWord] {
        &SECTION_WORDS
    }
}

/// The word of a modifier.
#[derive(Clone, Copy)]
pub(crate) enum ModifierWord {
    ChangedSince,
    Vanished,
}

pub(crate) const MODIFIER_WORDS: [ModifierWord; 2] = [
    ModifierWord::ChangedSince,
    ModifierWord::Vanished,
];

impl Keyword for ModifierWord {
    ghost use Rattle.imap_query.specs.FetchWords.{modifier_name};
    ghost use Rattle.imap_query.specs.declared.fetch_word.TheConstants.{MODIFIER_WORDS};

    type Class = AstringChar;

    ghost name_of = { modifier_name };

    ghost table = { MODIFIER_WORDS };

    fn name(self) -> &'static [u8] {
        match self {
            ModifierWord::ChangedSince => b"CHANGEDSINCE",
            ModifierWord::Vanished => b"VANISHED",
        }
    }

    fn all() -> &'static [ModifierWord] {
        &MODIFIER_WORDS
    }
}
