//! The words of commands by which a client of IMAP may begin.

ghost use Rattle.std.specs.Prelude.{◌≡◌};
ghost use Rattle.std.specs.List.{list_any};
ghost use Rattle.std.specs.Str.{str_eq_ignore_ascii_case};
ghost use Rattle.imap_service.specs.FirstLine.{is_command_word};

/// How many octets the longest word has.
pub(crate) const LONGEST_WORD: usize = 17;

/// The words of the commands of RFC 3501 and RFC 9051, of their extensions (IANA, "IMAP Capabilities"), and of others
/// that clients send before they know the server.
const COMMAND_WORDS: &[&[u8]] = &[
    b"CAPABILITY",
    b"NOOP",
    b"LOGOUT",
    b"STARTTLS",
    b"AUTHENTICATE",
    b"LOGIN",
    b"ENABLE",
    b"SELECT",
    b"EXAMINE",
    b"CREATE",
    b"DELETE",
    b"RENAME",
    b"SUBSCRIBE",
    b"UNSUBSCRIBE",
    b"LIST",
    b"LSUB",
    b"NAMESPACE",
    b"STATUS",
    b"APPEND",
    b"IDLE",
    b"CHECK",
    b"CLOSE",
    b"UNSELECT",
    b"EXPUNGE",
    b"SEARCH",
    b"FETCH",
    b"STORE",
    b"COPY",
    b"MOVE",
    b"UID",
    b"ID",
    b"COMPRESS",
    b"SORT",
    b"THREAD",
    b"ESEARCH",
    b"NOTIFY",
    b"REPLACE",
    b"UNAUTHENTICATE",
    b"GETACL",
    b"SETACL",
    b"DELETEACL",
    b"LISTRIGHTS",
    b"MYRIGHTS",
    b"GETQUOTA",
    b"GETQUOTAROOT",
    b"SETQUOTA",
    b"GETMETADATA",
    b"SETMETADATA",
    b"GETANNOTATION",
    b"SETANNOTATION",
    b"LANGUAGE",
    b"COMPARATOR",
    b"RLIST",
    b"RLSUB",
    b"GENURLAUTH",
    b"RESETKEY",
    b"URLFETCH",
    b"CONVERSIONS",
    b"CONVERT",
    b"CANCELUPDATE",
    b"GETJMAPACCESS",
    b"PROXYAUTH",
    b"XLIST",
    b"XAPPLEPUSHSERVICE",
];

/// Whether this is the word of a command, in any ASCII case.
pub(crate) fn is_command_word(word: &[u8]) -> bool
    ensures { result ≡ is_command_word word.now }
{
    is_one_of(word, COMMAND_WORDS)
}

/// Whether this is one of the words, in any ASCII case.
fn is_one_of(word: &[u8], words: &[&[u8]]) -> bool
    ensures { result ≡ list_any (λ known. str_eq_ignore_ascii_case word.now known.now) words.now }
{
    words.iter().any(
        |known: &&[u8]| -> bool
            ensures { result ≡ str_eq_ignore_ascii_case word.entry.now known.now.now }
        { word.eq_ignore_ascii_case(known) },
    )
}
