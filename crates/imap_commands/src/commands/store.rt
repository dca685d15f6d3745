//! STORE (RFC 9051, section 6.4.6).

ghost use Rattle.std.specs.Prelude.{◌≡◌, ◌++◌, decimal, OnOk};
ghost use Rattle.imap_syntax.specs.Reading.{ReadsIfMemory, Reads};
ghost use Rattle.imap_commands.specs.commands.Store.{change_of, is_silent, condition, store_flags, store_spec};
ghost use Rattle.imap_commands.specs.commands.Store.{store_word, since_fits, since_text, store_flags_text};
ghost use Rattle.imap_commands.specs.commands.Store.{change_text, store_spec_writing};

use imap_lex::AstringChar;
use imap_syntax::{
    Cursor, Flag, Flags, Keyword, ReadError, all_fit, number64_fits, push_between, push_separated,
};
use imap_values::{Same, TryCopy};
use std::alloc::{AllocError, Global};

/// How the flags of a message change.
#[derive(Clone, Copy, PartialEq, Eq)]
pub enum StoreChange {
    Replace,
    Add,
    Remove,
}

/// The arguments of STORE after its set of messages.
#[derive(Drop)]
pub struct StoreSpec {
    /// A message with a greater mod-sequence is left as it is (RFC 7162, section 3.1.3).
    pub unchanged_since: Option<u64>,
    pub change: StoreChange,
    /// Whether the new flags are not to be answered.
    pub silent: bool,
    pub flags: Flags,
}

impl TryCopy for StoreSpec {
    fn try_copy(&self, alloc: Global) -> Result<StoreSpec, AllocError> {
        Ok(StoreSpec {
            unchanged_since: self.unchanged_since,
            change: self.change,
            silent: self.silent,
            flags: self.flags.try_copy(alloc)?,
        })
    }
}

impl Same for StoreSpec {
    fn is_same(&self, other: &StoreSpec) -> bool {
        self.unchanged_since == other.unchanged_since
            && self.change == other.change
            && self.silent == other.silent
            && self.flags.is_same(&other.flags)
    }
}

/// The word that says the change and whether it is silent.
#[derive(Clone, Copy)]
pub(crate) enum StoreWord {
    Replace,
    ReplaceSilent,
    Add,
    AddSilent,
    Remove,
    RemoveSilent,
}

pub(crate) const STORE_WORDS: [StoreWord; 6] = [
    StoreWord::Replace,
    StoreWord::ReplaceSilent,
    StoreWord::Add,
    StoreWord::AddSilent,
    StoreWord::Remove,
    StoreWord::RemoveSilent,
];

impl Keyword for StoreWord {
    ghost use Rattle.imap_commands.specs.commands.Store.{store_name};
    ghost use Rattle.imap_commands.specs.declared.commands.store.TheConstants.{STORE_WORDS};

    type Class = AstringChar;

    ghost name_of = { store_name };

    ghost table = { STORE_WORDS };

    fn name(self) -> &'static [u8] {
        match self {
            StoreWord::Replace => b"FLAGS",
            StoreWord::ReplaceSilent => b"FLAGS.SILENT",
            StoreWord::Add => b"+FLAGS",
            StoreWord::AddSilent => b"+FLAGS.SILENT",
            StoreWord::Remove => b"-FLAGS",
            StoreWord::RemoveSilent => b"-FLAGS.SILENT",
        }
    }

    fn all() -> &'static [StoreWord] {
        &STORE_WORDS
    }
}

/// The word in the parentheses before STORE's word (RFC 7162, section 3.1.3).
#[derive(Clone, Copy)]
pub(crate) enum Condition {
    UnchangedSince,
}

pub(crate) const CONDITIONS: [Condition; 1] = [Condition::UnchangedSince];

impl Keyword for Condition {
    ghost use Rattle.imap_commands.specs.commands.Store.{condition_name};
    ghost use Rattle.imap_commands.specs.declared.commands.store.TheConstants.{CONDITIONS};

    type Class = AstringChar;

    ghost name_of = { condition_name };

    ghost table = { CONDITIONS };

    fn name(self) -> &'static [u8] {
        match self {
            Condition::UnchangedSince => b"UNCHANGEDSINCE",
        }
    }

    fn all() -> &'static [Condition] {
        &CONDITIONS
    }
}

impl StoreWord {
    fn change(self) -> StoreChange
        ensures { result ≡ change_of self }
    {
        match self {
            StoreWord::Replace | StoreWord::ReplaceSilent => StoreChange::Replace,
            StoreWord::Add | StoreWord::AddSilent => StoreChange::Add,
            StoreWord::Remove | StoreWord::RemoveSilent => StoreChange::Remove,
        }
    }

    fn is_silent(self) -> bool
        ensures { result ≡ is_silent self }
    {
        matches!(
            self,
            StoreWord::ReplaceSilent | StoreWord::AddSilent | StoreWord::RemoveSilent
        )
    }
}

/// Reads the condition in parentheses and a space, or nothing.
fn read_condition(cursor: &mut Cursor<'_>) -> Result<Option<u64>, ReadError>
    ensures { Reads (λ n. n) result cursor.new (condition.read cursor.old) }
{
    if !cursor.has(b'(') {
        return Ok(None);
    }
    cursor.keyword::<Condition>()?;
    cursor.space()?;
    let since = cursor.number(0, i64::MAX as u64)?;
    cursor.octet(b')')?;
    cursor.space()?;
    Ok(Some(since))
}

fn read_store_flags(cursor: &mut Cursor<'_>, alloc: Global) -> Result<Flags, ReadError>
    ensures { ReadsIfMemory (λ f. f) result cursor.new (store_flags.read cursor.old) }
{
    if cursor.has(b'(') {
        cursor.listed_end::<Flag>(alloc)
    } else {
        let flags = cursor.separated::<Flag>(alloc, b' ')?;
        Ok(flags.into_items())
    }
}

/// Reads the arguments after the set of messages and a space.
pub(crate) fn read_store_spec(
    cursor: &mut Cursor<'_>,
    alloc: Global,
) -> Result<StoreSpec, ReadError>
    ensures { ReadsIfMemory (λ s. s) result cursor.new (store_spec.read cursor.old) }
{
    let unchanged_since = read_condition(cursor)?;
    let word = cursor.keyword::<StoreWord>()?;
    cursor.space()?;
    let flags = read_store_flags(cursor, alloc)?;
    Ok(StoreSpec {
        unchanged_since,
        change: word.change(),
        silent: word.is_silent(),
        flags,
    })
}

fn since_fits(since: Option<u64>) -> bool
    ensures { result ≡ since_fits since }
{
    match since {
        Some(number) => number64_fits(number),
        None => true,
    }
}

pub(crate) fn store_spec_fits(store: &StoreSpec) -> bool
    ensures { result ≡ store_spec_writing.fits store.now }
{
    since_fits(store.unchanged_since) && all_fit::<Flag>(store.flags.as_slice())
}

/// Appends the condition in parentheses and a space, or nothing (RFC 7162, section 3.1.3).
fn push_since(out: &mut Vec<u8>, since: Option<u64>) -> Result<(), AllocError>
    ensures { OnOk result (out.new.items ≡ out.old.items ++ since_text since) }
{
    match since {
        Some(number) => push_between(out, b"(UNCHANGEDSINCE ", number, b") "),
        None => Ok(()),
    }
}

fn push_change(
    out: &mut Vec<u8>,
    change: StoreChange,
    silent: bool,
    flags: &[Flag],
) -> Result<(), AllocError>
    ensures { OnOk result (out.new.items ≡ out.old.items ++ change_text change silent flags.now) }
{
    out.extend_from_slice(store_word(change, silent).name())?;
    out.push(b' ')?;
    push_store_flags(out, flags)
}

/// Appends the flags without parentheses, or `()`.
fn push_store_flags(out: &mut Vec<u8>, flags: &[Flag]) -> Result<(), AllocError>
    ensures { OnOk result (out.new.items ≡ out.old.items ++ store_flags_text flags.now) }
{
    match flags {
        [] => out.extend_from_slice(b"()"),
        [_, ..] => push_separated::<Flag>(out, b' ', flags),
    }
}

fn store_word(change: StoreChange, silent: bool) -> StoreWord
    ensures { result ≡ store_word change silent }
{
    match (change, silent) {
        (StoreChange::Replace, true) => StoreWord::ReplaceSilent,
        (StoreChange::Replace, false) => StoreWord::Replace,
        (StoreChange::Add, true) => StoreWord::AddSilent,
        (StoreChange::Add, false) => StoreWord::Add,
        (StoreChange::Remove, true) => StoreWord::RemoveSilent,
        (StoreChange::Remove, false) => StoreWord::Remove,
    }
}

pub(crate) fn push_store_spec(out: &mut Vec<u8>, store: &StoreSpec) -> Result<(), AllocError>
    ensures { OnOk result (out.new.items ≡ out.old.items ++ store_spec_writing.text store.now) }
{
    push_since(out, store.unchanged_since)?;
    push_change(out, store.change, store.silent, store.flags.as_slice())
}
