//! Mailboxes as folders of messages.

use crate::owned::both;
use crate::wanted::{expect, expect_text};
use imap_keeper::ListKeeper;
use imap_lex::Octets;
use imap_mailbox::{Row, SharedFlags};
use imap_maildir::{
    KeptMailboxes, Layout, Loaded, MailboxList, MaildirError, Progress, StateLine, UidRange,
    UidState, date_at, dump, load, read_lists, read_state_line, seconds_of, with_line_ends,
    without_nul,
};
use imap_maildir_names::{
    KeywordLetters, MessageFlags, file_moment, is_own_file, mailbox_folder, mailbox_name,
    message_file, message_flags, name_of_levels, read_courier_subscriptions, read_keywords,
    read_subscriptions,
};
use imap_names::{Name, UserName, read_full, show_name};
use imap_rights::{Acl, Identifier, read_rights};
use imap_syntax::{Atom, DateTime, Keywords};
use imap_world::{World, WorldError};
use std::alloc::{AllocError, Global};
use std::fs;
use std::rt::{Clock, Files};
use std::time::{Duration, SystemTime};

const FOLDERS: &[(&str, &str)] = &[
    ("Shared/News", "to/Shared/News"),
    (
        "Other Users/ann/INBOX/cur/current",
        "to/Other Users/ann/INBOX/%63ur/current",
    ),
    ("Other Users/.a/.../new", "to/Other Users/%2Ea/%2E../%6Eew"),
    ("Shared/50%/a.b/tmp", "to/Shared/50%25/a.b/%74mp"),
    ("Shared/\u{e9}", "to/Shared/\u{e9}"),
    (
        "Other Users/ann/INBOX/dovecot-keywords",
        "to/Other Users/ann/INBOX/%64ovecot-keywords",
    ),
];

fn user(alloc: Global, text: &str) -> Result<UserName, AllocError> {
    UserName::read(alloc, text)?.ok_or(AllocError)
}

fn name(alloc: Global, text: &str) -> Result<Name, AllocError> {
    match read_full(alloc, text.as_bytes()) {
        Ok(name) => Ok(name),
        Err(_) => Err(AllocError),
    }
}

fn folder(alloc: Global, text: &str) -> Result<String, AllocError> {
    let name = name(alloc, text)?;
    let folder = mailbox_folder(alloc, "to", &name);
    drop(name);
    folder
}

#[test]
fn names_folders(rt: HostRuntime) {
    for &(text, wanted) in FOLDERS {
        expect_text(&rt, folder(rt.alloc(), text), wanted);
        expect_text(&rt, read_back(rt.alloc(), wanted), text);
    }
    const OTHERS: &[&str] = &["to", "to/Shared", "to/Other Users/ann", "to/mail/INBOX"];
    for other in OTHERS {
        expect_text(&rt, read_back(rt.alloc(), other), "none");
    }
    expect_text(
        &rt,
        read_back(rt.alloc(), "to/Shared/%zz%2"),
        "Shared/%zz%2",
    );
}

/// A level and the folders that it has below `to`, in each of which `~` stands for 30 letters `a`.
fn long_level(alloc: Global, text: &str) -> Result<String, AllocError> {
    let mut long = String::new(alloc);
    for letter in text.chars() {
        if letter == '~' {
            long.push_str("aaaaaaaaaaaaaaaaaaaaaaaaaaaaaa")?;
        } else {
            long.push(letter)?;
        }
    }
    Ok(long)
}

/// The folder of a mailbox, if it has this one and is found again from it.
fn long_folder(alloc: Global, text: &str) -> Result<String, AllocError> {
    let long = long_level(alloc, text)?;
    let folder = folder(alloc, long.as_str())?;
    let back = read_back(alloc, folder.as_str())?;
    if back.as_str() == long.as_str() {
        Ok(folder)
    } else {
        Ok(back)
    }
}

fn wanted_folder(alloc: Global, text: &str) -> Result<Vec<u8>, AllocError> {
    Ok(long_level(alloc, text)?.into_bytes())
}

#[test]
fn continues_long_levels(rt: HostRuntime) {
    const ROWS: &[(&str, &str)] = &[
        ("Shared/~~~~~~~~bbbbbbb", "to/Shared/~~~~~~~~bbbbbbb"),
        ("Shared/.~~~~~~~~bbbb", "to/Shared/%2E~~~~~~~~bbbb"),
        (
            "Shared/.~~~~~~~~bbbbbcc/x",
            "to/Shared/%2E~~~~~~~~bbbbbcc/x",
        ),
        ("Shared/%%%~~~~~~~~.cd", "to/Shared/%25%25%25~~~~~~~~.cd"),
        (
            "Shared/%%%%~~~~~~~~.cd",
            "to/Shared/%25%25%25%25~~~~~~~~.cd",
        ),
        (
            "Shared/%%%%%~~~~~~~~.cd",
            "to/Shared/%25%25%25%25%25~~~~~~~aaaaaaaaaaaaaaaaaaaaaaaaaa%/%61aaa.cd",
        ),
    ];
    for &(text, wanted) in ROWS {
        match wanted_folder(rt.alloc(), wanted) {
            Ok(wanted) => expect_text(
                &rt,
                long_folder(rt.alloc(), text),
                str::from_utf8(wanted.as_slice()).unwrap_or(""),
            ),
            Err(_) => expect_text(&rt, Err(AllocError), wanted),
        }
    }
}

/// The name of the mailbox whose folder this is below `to`, as the administrator sees it.
fn read_back(alloc: Global, folder: &str) -> Result<String, AllocError> {
    let (root, name) = both(
        user(alloc, "root"),
        mailbox_name(alloc, folder.trim_start_matches("to/")),
    )?;
    let text = match &name {
        Some(name) => show_name(alloc, &root, name),
        None => String::from_str(alloc, "none"),
    };
    drop(root);
    drop(name);
    text
}

fn atom(alloc: Global, text: &str) -> Result<Atom, AllocError> {
    Atom::read(alloc, text.as_bytes())?.ok_or(AllocError)
}

fn keywords(alloc: Global, texts: &[&str]) -> Result<Keywords, AllocError> {
    let mut keywords = Keywords::new(alloc);
    for text in texts {
        let word = atom(alloc, text)?;
        keywords.insert(alloc, &word)?;
    }
    Ok(keywords)
}

fn moment() -> DateTime {
    DateTime::of_moment(0).unwrap_or_else(|| unreachable!())
}

/// The file of a message with all flags and these keywords, and the lines of the keywords.
fn file(alloc: Global, texts: &[&str]) -> Result<String, AllocError> {
    let (octets, words) = both(Octets::from_slice(alloc, b"mail"), keywords(alloc, texts))?;
    let flags = SharedFlags {
        answered: true,
        deleted: true,
        draft: true,
        flagged: true,
        keywords: words,
    };
    let file = file_of(alloc, &octets, &flags);
    drop(flags);
    drop(octets);
    file
}

fn file_of(alloc: Global, octets: &Octets, flags: &SharedFlags) -> Result<String, AllocError> {
    let mut letters = KeywordLetters::new(alloc);
    letters.learn(flags.keywords.as_slice())?;
    let row = Row {
        uid: 7,
        date: moment(),
        seen: true,
        octets,
        flags,
        number: 2,
    };
    let file = message_file(alloc, "to", &row, -1, &letters);
    drop(letters);
    file
}

#[test]
fn names_files(rt: HostRuntime) {
    expect_text(
        &rt,
        file(rt.alloc(), &[]),
        "to/cur/7.imapd,S=4,T=-1:2,DFRST",
    );
    expect_text(
        &rt,
        file(rt.alloc(), &["b", "a"]),
        "to/cur/7.imapd,S=4,T=-1:2,DFRSTab",
    );
}

#[test]
fn reads_moments_of_files(rt: HostRuntime) {
    const ROWS: &[(&str, &str)] = &[
        ("7.imapd,S=4,T=-1:2,S", "true -1"),
        ("7.imapd,S=4,T=253402300799", "true 253402300799"),
        ("7.imapd,S=4:2,T=5", "true none"),
        ("7.imapd,T=x:2,", "true none"),
        ("a7.imapd,S=4,T=1:2,", "false none"),
        (".imapd,S=4,T=1:2,", "false none"),
        ("1700000000.M2P3.host,S=4,T=1:2,", "false none"),
    ];
    for &(name, wanted) in ROWS {
        expect_text(&rt, shown_moment(rt.alloc(), name), wanted);
    }
}

fn shown_moment(alloc: Global, name: &str) -> Result<String, AllocError> {
    let is_own = is_own_file(name);
    match file_moment(name) {
        Some(moment) => format!(in alloc; "{is_own} {moment}"),
        None => format!(in alloc; "{is_own} none"),
    }
}

/// The date of a moment, and the moment of that date.
fn shown_date(alloc: Global, moment: i64) -> Result<Vec<u8>, AllocError> {
    let mut text = Vec::new(alloc);
    if let Some(date) = date_at(moment) {
        date.print(&mut text)?;
        if seconds_of(date) != moment {
            text.clear();
        }
    }
    Ok(text)
}

#[test]
fn dates_moments(rt: HostRuntime) {
    const ROWS: &[(i64, &[u8])] = &[
        (0, b" 1-Jan-1970 00:00:00 +0000"),
        (-1, b"31-Dec-1969 23:59:59 +0000"),
        (-2_203_891_200, b" 1-Mar-1900 00:00:00 +0000"),
        (-62_167_219_200, b" 1-Jan-0000 00:00:00 +0000"),
        (-62_167_219_201, b" 1-Jan-0000 23:58:59 +2359"),
        (253_402_300_800, b"31-Dec-9999 00:01:00 -2359"),
        (253_402_400_000, b""),
        (i64::MIN, b""),
    ];
    for &(moment, wanted) in ROWS {
        expect(&rt, shown_date(rt.alloc(), moment), wanted);
    }
}

/// The names that the levels have for ann.
fn maildirpp(alloc: Global, levels: &str) -> Result<String, AllocError> {
    let root = user(alloc, "root")?;
    match name_of_levels(alloc, Some("ann"), levels, '.')? {
        Some(name) => show_name(alloc, &root, &name),
        None => String::from_str(alloc, "none"),
    }
}

#[test]
fn reads_levels(rt: HostRuntime) {
    const ROWS: &[(&str, &str)] = &[
        ("Sent", "Other Users/ann/Sent"),
        ("Entw&APw-rfe.a", "Other Users/ann/Entw\u{fc}rfe/a"),
        ("INBOX.Work", "Other Users/ann/INBOX/Work"),
        ("Entw\u{fc}rfe", "Other Users/ann/Entw\u{fc}rfe"),
        ("a..b", "none"),
        ("", "none"),
    ];
    for &(levels, wanted) in ROWS {
        expect_text(&rt, maildirpp(rt.alloc(), levels), wanted);
    }
}

/// The names to which ann subscribed in a file of Dovecot, or else of Courier.
fn subscriptions(alloc: Global, text: &str, is_courier: bool) -> Result<String, AllocError> {
    let root = user(alloc, "root")?;
    let names = if is_courier {
        read_courier_subscriptions(alloc, "ann", text)?
    } else {
        read_subscriptions(alloc, "ann", text)?
    };
    let mut shown = String::new(alloc);
    for name in &names {
        shown.push_str(show_name(alloc, &root, name)?.as_str())?;
        shown.push(';')?;
    }
    Ok(shown)
}

#[test]
fn reads_subscriptions(rt: HostRuntime) {
    const ROWS: &[(&str, bool, &str)] = &[
        (
            "V\t2\n\nSent\nA.b\tC/d\n",
            false,
            "Other Users/ann/Sent;Other Users/ann/A.b/C/d;",
        ),
        (
            "Sent\nA.B\nC/D.e\n",
            false,
            "Other Users/ann/Sent;Other Users/ann/A/B;Other Users/ann/C/D.e;",
        ),
        (
            "INBOX.Entw&APw-rfe\nINBOX\n",
            true,
            "Other Users/ann/Entw\u{fc}rfe;Other Users/ann/INBOX;",
        ),
    ];
    for &(text, is_courier, wanted) in ROWS {
        expect_text(&rt, subscriptions(rt.alloc(), text, is_courier), wanted);
    }
}

fn lines(alloc: Global) -> Result<Vec<u8>, AllocError> {
    let mut letters = KeywordLetters::new(alloc);
    let learnt = learn_both(alloc, &mut letters);
    let (_, letters) = both(learnt, Ok(letters))?;
    letters.lines()
}

fn learn_both(alloc: Global, letters: &mut KeywordLetters) -> Result<(), AllocError> {
    let (one, two) = both(keywords(alloc, &["x"]), keywords(alloc, &["w", "x"]))?;
    let learnt = both(letters.learn(one.as_slice()), letters.learn(two.as_slice()));
    drop(one);
    drop(two);
    learnt?;
    Ok(())
}

#[test]
fn numbers_keywords(rt: HostRuntime) {
    expect(&rt, lines(rt.alloc()), b"0 x\n1 w\n");
}

/// The flags that the name of a file has.
fn flags(alloc: Global, name: &str) -> Result<String, AllocError> {
    let keywords = read_keywords(alloc, "0 x\n1 w\n26 z\nno line\n")?;
    let flags = message_flags(alloc, name, keywords.as_slice());
    drop(keywords);
    let flags = flags?;
    let text = flags_text(alloc, &flags);
    drop(flags);
    text
}

fn flags_text(alloc: Global, flags: &MessageFlags) -> Result<String, AllocError> {
    let MessageFlags { shared, seen } = flags;
    let mut text = format!(in alloc;
        "{seen} {} {} {} {}",
        shared.answered, shared.deleted, shared.draft, shared.flagged
    )?;
    for word in shared.keywords.as_slice() {
        text.push(' ')?;
        text.push_str(str::from_utf8(word.as_slice()).unwrap_or(""))?;
    }
    Ok(text)
}

#[test]
fn reads_flags(rt: HostRuntime) {
    const ROWS: &[(&str, &str)] = &[
        ("1700000000.M2P3.host", "false false false false false"),
        (
            "1700000000.M2P3.host,S=4:2,DFRST",
            "true true true true true",
        ),
        ("7.imapd,S=4:2,Sbaz", "true false false false false w x"),
        ("a:2,S:2,F", "false false false false true"),
    ];
    for &(name, wanted) in ROWS {
        expect_text(&rt, flags(rt.alloc(), name), wanted);
    }
}

fn ended(alloc: Global, octets: &[u8]) -> Result<Vec<u8>, AllocError> {
    with_line_ends(alloc, Vec::from_slice(alloc, octets)?)
}

#[test]
fn ends_lines(rt: HostRuntime) {
    const ROWS: &[(&[u8], &[u8])] = &[
        (b"a\r\nb\r\n", b"a\r\nb\r\n"),
        (b"\na\n\r\n\rb\n", b"\r\na\r\n\r\n\rb\r\n"),
    ];
    for &(octets, wanted) in ROWS {
        expect(&rt, ended(rt.alloc(), octets), wanted);
    }
}

/// The ranges, as they are written.
fn ranges_text(alloc: Global, ranges: &[UidRange]) -> Result<String, AllocError> {
    let mut text = String::new(alloc);
    for range in ranges {
        let part = format!(in alloc; " {}-{}", range.first, range.last)?;
        text.push_str(part.as_str())?;
    }
    Ok(text)
}

/// What a line of the file `state` says.
fn state_line(alloc: Global, line: &str) -> Result<String, AllocError> {
    let root = user(alloc, "root")?;
    match read_state_line(alloc, line)? {
        Some(StateLine::Subscribed(user, name)) => {
            let name = show_name(alloc, &root, &name)?;
            format!(in alloc; "{} subscribed {name}", user.as_str())
        }
        Some(StateLine::Uids(name, state)) => {
            let name = show_name(alloc, &root, &name)?;
            let UidState {
                validity,
                next,
                highest,
            } = state;
            format!(in alloc; "{name} {validity} {next} {highest}")
        }
        Some(StateLine::Seen(user, name, ranges)) => {
            let name = show_name(alloc, &root, &name)?;
            let ranges = ranges_text(alloc, ranges.as_slice())?;
            format!(in alloc; "{} saw {name}{ranges}", user.as_str())
        }
        Some(StateLine::Keyword(_, name, ranges)) => {
            let name = show_name(alloc, &root, &name)?;
            let ranges = ranges_text(alloc, ranges.as_slice())?;
            format!(in alloc; "keyword {name}{ranges}")
        }
        None => String::from_str(alloc, "none"),
    }
}

#[test]
fn reads_states(rt: HostRuntime) {
    const ROWS: &[(&str, &str)] = &[
        (
            "subscribed\tann\t./Shared/50%25",
            "ann subscribed Shared/50%",
        ),
        ("subscribed\tann", "none"),
        ("subscribed\ta b\t./Shared/A", "none"),
        ("subscribed\tann\t./A", "none"),
        (
            "mailbox\t./Shared/A\t7\t12\t90000000000",
            "Shared/A 7 12 90000000000",
        ),
        ("mailbox\t./Shared/A\t7\t12", "none"),
        ("mailbox\t./Shared/A\t7\t-1\t2", "none"),
        ("seen\tbob\t./Shared/A\t1:3,5", "bob saw Shared/A 1-3 5-5"),
        ("seen\tbob\t./Shared/A\t3:1", "none"),
        ("seen\tbob\t./Shared/A\t5,1:3", "none"),
        ("seen\tbob\t./Shared/A\t0", "none"),
        ("seen\tbob\t./Shared/A\t", "none"),
        ("seen\tbob\t./Shared/A", "none"),
        (
            "keyword\tkey\t./Shared/A\t4294967295",
            "keyword Shared/A 4294967295-4294967295",
        ),
        ("keyword\ta b\t./Shared/A\t1", "none"),
        ("other\tann\t./Shared/A", "none"),
    ];
    for &(line, wanted) in ROWS {
        expect_text(&rt, state_line(rt.alloc(), line), wanted);
    }
}

#[test]
fn replaces_nul(rt: HostRuntime) {
    let octets = match Vec::from_slice(rt.alloc(), b"a\0\0b") {
        Ok(octets) => Ok(without_nul(octets)),
        Err(_) => Err(AllocError),
    };
    expect(&rt, octets, b"a\x80\x80b");
}

/// The lists in a text: line, name and number of entries.
fn lists(alloc: Global, text: &str) -> Result<String, AllocError> {
    match read_lists(alloc, text) {
        Ok(lists) => {
            let shown = lists_text(alloc, &lists);
            drop(lists);
            shown
        }
        Err(error) => {
            let shown = format!(in alloc; "{error}");
            drop(error);
            shown
        }
    }
}

fn lists_text(alloc: Global, lists: &[MailboxList]) -> Result<String, AllocError> {
    let root = user(alloc, "root")?;
    let mut shown = String::new(alloc);
    for list in lists {
        push_list(alloc, &mut shown, &root, list)?;
    }
    Ok(shown)
}

fn push_list(
    alloc: Global,
    shown: &mut String,
    root: &UserName,
    list: &MailboxList,
) -> Result<(), AllocError> {
    let name = show_name(alloc, root, &list.name)?;
    let line = format!(in alloc; "{} {name} {};", list.line, list.entries.len())?;
    shown.push_str(line.as_str())
}

#[test]
fn reads_lists(rt: HostRuntime) {
    const ROWS: &[(&str, &str)] = &[
        (
            "./Shared/A\n./Shared/B\tbob\tlr\n./Shared/B\t-carl\tw\n./Other Users/ann/INBOX\tann\tl\n",
            "1 Shared/A 0;2 Shared/B 2;4 Other Users/ann/INBOX 1;",
        ),
        (
            "./Shared/A\n./Shared/A\tbob\n",
            "line 2 of the file acl: it is no entry of a mailbox's list",
        ),
        (
            "./Shared/A\tbob\t+l\n",
            "line 1 of the file acl: it is no entry of a mailbox's list",
        ),
        (
            "A\tbob\tl\n",
            "line 1 of the file acl: it is no entry of a mailbox's list",
        ),
    ];
    for &(text, wanted) in ROWS {
        expect_text(&rt, lists(rt.alloc(), text), wanted);
    }
}

#[derive(Drop)]
struct Quiet;

impl Progress for Quiet {
    fn done(&mut self, _messages: u64) {}

    fn passed_over(&mut self, _error: &MaildirError) {}

    fn found_maildirpp(&mut self, _path: &str) {}
}

fn place(alloc: Global, world: &mut World, text: &str) -> Result<(), WorldError> {
    let name = name(alloc, text)?;
    world.place(alloc, name, Acl::new(alloc))
}

/// Gives bob `lr` on the mailbox.
fn give(alloc: Global, world: &mut World, text: &str) -> Result<(), WorldError> {
    let (Some(rights), Ok(bob)) = (read_rights(b"lr"), Identifier::read(alloc, b"bob")) else {
        return Err(WorldError::Memory);
    };
    let (name, bob) = both(name(alloc, text), Ok(bob))?;
    let given = world.set_acl(alloc, &name.as_ref(), bob, rights);
    drop(name);
    given
}

fn two_mailboxes(alloc: Global) -> Result<World, AllocError> {
    let mut world = World::new(alloc);
    match place_two(alloc, &mut world) {
        Ok(()) => Ok(world),
        Err(_) => {
            drop(world);
            Err(AllocError)
        }
    }
}

fn place_two(alloc: Global, world: &mut World) -> Result<(), WorldError> {
    place(alloc, world, "Shared/A")?;
    place(alloc, world, "Shared/A/B")?;
    give(alloc, world, "Shared/A/B")
}

/// A path at which there is nothing, in the folder for what may go.
fn new_path<R: Clock + AllocGlobal>(rt: &R) -> Result<String, AllocError> {
    let nanos = match SystemTime::now(rt) {
        Ok(now) => now
            .duration_since(SystemTime::UNIX_EPOCH)
            .unwrap_or(Duration::ZERO)
            .as_nanos(),
        Err(_) => 0,
    };
    format!(in rt.alloc(); "/tmp/imapd-dump-{nanos}")
}

/// What came of a dump, the list that it wrote, and what came of a second one.
fn dumped<R: Files + AllocGlobal>(rt: &R, path: &str) -> Result<String, AllocError> {
    let world = two_mailboxes(rt.alloc())?;
    let text = dumped_of(rt, &world, path);
    drop(world);
    text
}

fn dumped_of<R: Files + AllocGlobal>(
    rt: &R,
    world: &World,
    path: &str,
) -> Result<String, AllocError> {
    let first = dump(rt, world, path, &mut Quiet).is_ok();
    let second = dump(rt, world, path, &mut Quiet).is_err();
    let list = format!(in rt.alloc(); "{path}/acl")?;
    let lists = match fs::read_to_string(rt, list.as_str()) {
        Ok(text) => text,
        Err(_) => String::new(rt.alloc()),
    };
    let inner = format!(in rt.alloc(); "{path}/Shared/A/B/cur")?;
    let is_there = fs::metadata(rt, inner.as_str()).is_ok();
    format!(in rt.alloc(); "{first} {second} {is_there} {lists}")
}

/// Adds a message's file to a Maildir of the dump.
fn add_file<R: Files + AllocGlobal>(rt: &R, path: &str) -> Result<(), AllocError> {
    let file = format!(in rt.alloc(); "{path}/Shared/A/B/cur/1700000000.M1P2.host:2,FS")?;
    match fs::write(rt, file.as_str(), b"Subject: x\n\ny\n") {
        Ok(()) => Ok(()),
        Err(_) => Err(AllocError),
    }
}

fn loaded<R: Files + AllocGlobal + Clone + Drop>(
    rt: &R,
    kept: &mut KeptMailboxes<ListKeeper>,
    path: &str,
) -> Result<String, AllocError> {
    let root = user(rt.alloc(), "root")?;
    let loaded = load(rt, kept, &root, path, Layout::Recognised, &mut Quiet);
    drop(root);
    match loaded {
        Ok(
            Loaded {
                mailboxes,
                added,
                met,
                faults,
            },
        ) => format!(in rt.alloc(); "{mailboxes} {added} {met} {faults} "),
        Err(error) => {
            let text = format!(in rt.alloc(); "{error}");
            drop(error);
            text
        }
    }
}

/// How many entries the list of the mailbox has, and its only message.
fn shown<R: AllocGlobal>(rt: &R, world: &World) -> Result<String, AllocError> {
    let name = name(rt.alloc(), "Shared/A/B")?;
    let Some(entry) = world.mailbox(&name.as_ref()) else {
        return String::from_str(rt.alloc(), "missing");
    };
    let messages = entry.messages.as_ref().messages();
    let [message] = messages else {
        return String::from_str(rt.alloc(), "not one message");
    };
    let octets = message.octets.as_slice().escape_ascii();
    format!(in rt.alloc(); "{} {} {octets}", entry.acl.len(), message.flags.flagged)
}

/// What came of two loads of the folder, and what the mailbox of the file has then.
fn loaded_twice<R: Files + AllocGlobal + Clone + Drop>(
    rt: &R,
    kept: &mut KeptMailboxes<ListKeeper>,
    path: &str,
) -> Result<String, AllocError> {
    let mut text = loaded(rt, kept, path)?;
    text.push_str(loaded(rt, kept, path)?.as_str())?;
    text.push_str(shown(rt, kept.world())?.as_str())?;
    Ok(text)
}

/// The same in a new store.
fn loaded_anew<R: Files + AllocGlobal + Clone + Drop>(
    rt: &R,
    path: &str,
) -> Result<String, AllocError> {
    let keeper = ListKeeper::new(World::new(rt.alloc()));
    match KeptMailboxes::load(rt.alloc(), keeper) {
        Ok(mut kept) => {
            let text = loaded_twice(rt, &mut kept, path);
            drop(kept);
            text
        }
        Err(refused) => {
            drop(refused);
            Err(AllocError)
        }
    }
}

/// What came of a dump, of two loads of it with a file more, and what the mailbox of the file has.
fn moved<R: Files + Clock + AllocGlobal + Clone + Drop>(rt: &R) -> Result<String, AllocError> {
    let path = new_path(rt)?;
    let mut text = dumped(rt, path.as_str())?;
    add_file(rt, path.as_str())?;
    text.push_str(loaded_anew(rt, path.as_str())?.as_str())?;
    let _gone = fs::remove_dir_all(rt, path.as_str());
    Ok(text)
}

#[test]
fn moves_mailboxes(rt: HostRuntime) {
    expect_text(
        &rt,
        moved(&rt),
        "true true true ./Shared/A\n./Shared/A/B\tbob\tlr\n2 1 0 0 2 0 1 0 1 true Subject: x\\r\\n\\r\\ny\\r\\n",
    );
}
