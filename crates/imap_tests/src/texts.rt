//! Texts that are looked for, and those of errors and rights.

use crate::wanted::expect_text;
use imap_mailbox::{MailboxError, PartsError};
use imap_modseq::ClocksError;
use imap_names::NameError;
use imap_rights::Rights;
use imap_text::contains_fold;

/// Texts, others that are looked for, and whether these are found.
const FOLDED: &[(&str, &str, bool)] = &[
    ("Hello", "ELL", true),
    ("Hello", "elo", false),
    ("Hello", "", true),
    ("", "", true),
    ("", "a", false),
    (" x\r\n", "X\r\n", true),
    ("aab", "ab", true),
    // U+00DF and U+1E9E fold to two letters.
    ("Stra\u{df}e", "STRASSE", true),
    ("strasse", "STRA\u{df}E", true),
    ("stra\u{df}e", "as", true),
    ("Stra\u{1e9e}e", "asse", true),
    // U+0130 folds to i and a dot above.
    ("\u{130}stanbul", "i", true),
    ("\u{130}stanbul", "istanbul", false),
    ("\u{130}stanbul", "i\u{307}STANBUL", true),
    ("I\u{307}stanbul", "\u{130}s", true),
    // A letter with its accent is one letter, in either form.
    ("caf\u{e9}", "CAFE\u{301}", true),
    ("cafe\u{301}", "CAF\u{c9}", true),
    ("cafe\u{301}", "cafe", false),
    ("q\u{307}\u{323}", "Q\u{323}\u{307}", true),
    // U+01F0 folds to j and a caron, which are not joined again.
    ("\u{1f0}", "J", true),
    ("\u{1f0}", "J\u{30c}", true),
    ("\u{3c3}\u{3c2}", "\u{3a3}\u{3a3}", true),
    ("\u{e9}", "e", false),
];

/// Octets, others that are looked for, and whether these are found. Each maximal part that is no UTF-8 counts as one
/// U+FFFD, `EF BF BD` in UTF-8.
const NO_UTF8: &[(&[u8], &[u8], bool)] = &[
    (b"a\xffb", b"A\xef\xbf\xbdB", true),
    (b"\xe2\x82b", b"\xef\xbf\xbdb", true),
    (b"\xe2\x82b", b"\xef\xbf\xbd\xef\xbf\xbd", false),
    (
        b"\xf0\x80\x80",
        b"\xef\xbf\xbd\xef\xbf\xbd\xef\xbf\xbd",
        true,
    ),
    (b"\xed\xa0\x80", b"\xff\xfe\xfd", true),
    (b"\xef\xbf\xbd", b"\xc3", true),
    (b"\xc3\xa9", b"\xa9", false),
    (b"\xc3\xa9", b"\xc3", false),
];

#[test]
fn folded_text_is_found(rt: HostRuntime) {
    for &(whole, wanted, is_found) in FOLDED {
        let found = contains_fold(rt.alloc(), whole.as_bytes(), wanted.as_bytes());
        assert!(rt; found == Ok(is_found), "{wanted:?} in {whole:?}");
    }
    for &(whole, wanted, is_found) in NO_UTF8 {
        let found = contains_fold(rt.alloc(), whole, wanted);
        assert!(rt; found == Ok(is_found), "{wanted:?} in {whole:?}");
    }
}

#[test]
fn errors_and_rights_are_printed(rt: HostRuntime) {
    const CLOCKS: &[(ClocksError, &str)] = &[
        (
            ClocksError::Exhausted,
            "the mailbox has no further mod-sequence",
        ),
        (ClocksError::Memory, "out of memory"),
    ];
    for (error, wanted) in CLOCKS {
        expect_text(&rt, error.to_string(rt.alloc()), wanted);
    }
    let (mailbox, parts) = (MailboxError::Memory, PartsError::Memory);
    expect_text(&rt, mailbox.to_string(rt.alloc()), "out of memory");
    expect_text(&rt, parts.to_string(rt.alloc()), "out of memory");
    let (depth, reserved) = (NameError::TooDeep, NameError::Reserved);
    expect_text(
        &rt,
        depth.to_string(rt.alloc()),
        "the path has more than 16 components",
    );
    expect_text(&rt, reserved.to_string(rt.alloc()), "the name is reserved");
    expect_text(
        &rt,
        format!(in rt.alloc(); "{}", Rights::ALL),
        "lrswipkxtea",
    );
}
