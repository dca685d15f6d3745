//! Configuration files.

use crate::command_lines::{Kept, said_of, shown_task, words};
use crate::wanted::{expect, expect_text};
use imap_options::{CommandLineError, Task, read_words_after};
use std::alloc::{AllocError, Global};

/// What these words ask for after the options of a file `x.conf`.
fn task(alloc: Global, text: &str, texts: &[&str]) -> Result<Task, CommandLineError> {
    match words(alloc, texts) {
        Ok(words) => read_words_after(alloc, &Kept { alloc }, &words, "x.conf", text),
        Err(_) => Err(CommandLineError::Memory),
    }
}

fn shown(alloc: Global, text: &str, texts: &[&str]) -> Result<Vec<u8>, AllocError> {
    shown_task(alloc, task(alloc, text, texts))
}

/// The text of a file, the words after `imapd serve --config x.conf`, and what is asked for.
const ROWS: &[(&str, &[&str], &[u8])] = &[
    (
        "# who is served\n\ndb /x y\r\n  admin   root \n\t\nlisten ann=/run/ann\nlisten bob=1143",
        &["--listen=cat=1144", "--log=connections"],
        b"/x y root 100000 33554432 connections ann=/run/ann bob=1143 cat=1144",
    ),
    (
        "member staff=ann\nmax-messages 7\nmax-octets 8\n#log off",
        &["--db=x", "--admin=root", "--listen=ann=1"],
        b"x root 7 8 ann=1",
    ),
    (
        "secret ann=s3cret\ndialect rev1",
        &["--db=x", "--admin=root", "--listen=ann=1"],
        b"x root 100000 33554432 rev1 ann=1 secret",
    ),
    ("", &["--db=x", "--admin=root"], b"none"),
    (
        "db x",
        &["--db=x", "--admin=root", "--listen=ann=1"],
        b"none",
    ),
];

#[test]
fn reads_configuration_files(rt: HostRuntime) {
    for &(text, rest, wanted) in ROWS {
        let made = match rest {
            [a, b, c] => shown(
                rt.alloc(),
                text,
                &["imapd", "serve", "--config=x.conf", a, b, c],
            ),
            [a, b] => shown(
                rt.alloc(),
                text,
                &["imapd", "serve", "--config=x.conf", a, b],
            ),
            _ => shown(rt.alloc(), text, &["imapd"]),
        };
        expect(&rt, made, wanted);
    }
}

/// What is said of a file that is refused.
fn said(alloc: Global, text: &str) -> Result<String, AllocError> {
    const WORDS: &[&str] = &["imapd", "serve", "--db=x", "--admin=root", "--listen=bob=1"];
    said_of(alloc, task(alloc, text, WORDS))
}

/// The second line names the file, the line and its words.
#[test]
fn says_which_line_is_wrong(rt: HostRuntime) {
    const LINES: &[(&str, &str)] = &[
        ("frob x", "line 1: frob x: there is no such option"),
        ("\n--log off", "line 2: --log off: there is no such option"),
        ("config y", "line 1: config y: there is no such option"),
        ("# a\nlisten", "line 2: listen: a value is wanted"),
        ("log off\nlog off", "line 2: log off: it is given before"),
        (
            "listen ann=1\nlisten ann=/x",
            "line 2: listen ann=/x: the user is named before",
        ),
        (
            "listen ann=0",
            "line 1: listen ann=0: NAME=PORT is wanted, PORT from 1 to 65535",
        ),
        (
            "member staff=bob\n\nmember staff=cat",
            "line 3: member cat: this is neither a user who is served nor the administrator",
        ),
        (
            "secret bob=s3cret\nsecret bob=/s=3",
            "line 2: secret bob=/s=3: the user has a secret before",
        ),
        (
            "max-octets 0",
            "line 1: max-octets 0: 1 to 1073741824 are wanted",
        ),
    ];
    for &(text, wanted) in LINES {
        let wanted: Result<String, AllocError> = format!(in rt.alloc();
            "imapd: bad command line\nimapd: x.conf, {wanted}\n"
        );
        match wanted {
            Ok(wanted) => expect_text(&rt, said(rt.alloc(), text), wanted.as_str()),
            Err(_) => panic!(rt; "out of memory"),
        }
    }
    let given_here = said(rt.alloc(), "listen bob=2");
    expect_text(
        &rt,
        given_here,
        "imapd: bad command line\nimapd: --listen bob=1: the user is named before\n",
    );
}
