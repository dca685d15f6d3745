//! The parameters of SELECT and EXAMINE (RFC 7162, sections 3.1.8 and 3.2.5).

ghost use Rattle.std.specs.Prelude.{◌≡◌, ◌++◌, ◌∷◌, [], OnOk, codes, decimal};
ghost use Rattle.std.specs.List.{list_any};
ghost use Rattle.imap_syntax.specs.Reading.{ReadsIfMemory};
ghost use Rattle.imap_commands.specs.commands.Select.{is_last, has_last, known_set, match_end, match_data};
ghost use Rattle.imap_commands.specs.commands.Select.{known_uids, qresync, parameter, one_parameter};
ghost use Rattle.imap_commands.specs.commands.Select.{both_parameters, another_parameter, parameters};
ghost use Rattle.imap_commands.specs.commands.Select.{known_fits, known_text, qresync_writing, qresync_fits};
ghost use Rattle.imap_commands.specs.commands.Select.{parameters_by, parameters_writing, selecting_fits};
ghost use Rattle.imap_commands.specs.commands.Select.{selecting_text};

use crate::commands::argument::{after, push_argument};
use imap_lex::{AstringChar, Octets};
use imap_syntax::{
    Cursor, Keyword, ReadError, SeqNumber, SeqRange, SeqSet, mod_sequence_fits, push_between,
    push_separated, some_fit, string_fits,
};
use imap_values::{Same, TryCopy};
use std::alloc::{AllocError, Global};

/// The state of the mailbox that the client knows, as QRESYNC sends it.
#[derive(Drop)]
pub struct QresyncArg {
    /// The UIDVALIDITY, from 1 on.
    pub validity: u32,
    /// The mod-sequence, from 1 on.
    pub mod_seq: u64,
    pub known_uids: Option<SeqSet>,
}

/// The parameters of SELECT or EXAMINE (RFC 7162, sections 3.1.8 and 3.2.5).
#[derive(Drop)]
pub struct SelectParameters {
    pub condstore: bool,
    pub qresync: Option<QresyncArg>,
}

impl TryCopy for QresyncArg {
    fn try_copy(&self, alloc: Global) -> Result<QresyncArg, AllocError> {
        Ok(QresyncArg {
            validity: self.validity,
            mod_seq: self.mod_seq,
            known_uids: self.known_uids.try_copy(alloc)?,
        })
    }
}

impl Same for QresyncArg {
    fn is_same(&self, other: &QresyncArg) -> bool {
        self.validity == other.validity
            && self.mod_seq == other.mod_seq
            && self.known_uids.is_same(&other.known_uids)
    }
}

impl TryCopy for SelectParameters {
    fn try_copy(&self, alloc: Global) -> Result<SelectParameters, AllocError> {
        Ok(SelectParameters {
            condstore: self.condstore,
            qresync: self.qresync.try_copy(alloc)?,
        })
    }
}

impl Same for SelectParameters {
    fn is_same(&self, other: &SelectParameters) -> bool {
        self.condstore == other.condstore && self.qresync.is_same(&other.qresync)
    }
}

/// The first word of a parameter.
#[derive(Clone, Copy)]
pub(crate) enum ParameterWord {
    Condstore,
    Qresync,
}

pub(crate) const PARAMETER_WORDS: [ParameterWord; 2] = [
    ParameterWord::Condstore,
    ParameterWord::Qresync,
];

impl Keyword for ParameterWord {
    ghost use Rattle.imap_commands.specs.commands.Select.{parameter_name};
    ghost use Rattle.imap_commands.specs.declared.commands.select.TheConstants.{PARAMETER_WORDS};

    type Class = AstringChar;

    ghost name_of = { parameter_name };

    ghost table = { PARAMETER_WORDS };

    fn name(self) -> &'static [u8] {
        match self {
            ParameterWord::Condstore => b"CONDSTORE",
            ParameterWord::Qresync => b"QRESYNC",
        }
    }

    fn all() -> &'static [ParameterWord] {
        &PARAMETER_WORDS
    }
}

#[derive(Drop)]
pub(crate) enum Parameter {
    Condstore,
    Qresync(QresyncArg),
}

impl Parameter {
    fn alone(self) -> SelectParameters
        ensures { result ≡ one_parameter self }
    {
        match self {
            Parameter::Condstore => SelectParameters {
                condstore: true,
                qresync: None,
            },
            Parameter::Qresync(known) => SelectParameters {
                condstore: false,
                qresync: Some(known),
            },
        }
    }

    /// Both parameters, or `None` if they are the same parameter.
    fn and(self, other: Parameter) -> Option<SelectParameters>
        ensures { result ≡ both_parameters self other }
    {
        match (self, other) {
            (Parameter::Condstore, Parameter::Qresync(known))
            | (Parameter::Qresync(known), Parameter::Condstore) => Some(SelectParameters {
                condstore: true,
                qresync: Some(known),
            }),
            _ => None,
        }
    }
}

fn is_last(number: SeqNumber) -> bool
    ensures { result ≡ is_last number }
{
    match number {
        SeqNumber::Last => true,
        SeqNumber::Number(_) => false,
    }
}

fn has_last(range: SeqRange) -> bool
    ensures { result ≡ has_last range }
{
    is_last(range.first) || is_last(range.last)
}

fn any_has_last(ranges: &[SeqRange]) -> bool
    ensures { result ≡ list_any has_last ranges.now }
{
    ranges.iter().any(|range| has_last(*range))
}

/// Reads a set without `*`.
fn read_known_set(cursor: &mut Cursor<'_>, alloc: Global) -> Result<SeqSet, ReadError>
    ensures { ReadsIfMemory (λ s. s) result cursor.new (known_set.read cursor.old) }
{
    let set = cursor.seq_set(alloc)?;
    if any_has_last(set.as_slice()) {
        return Err(ReadError::Syntax);
    }
    Ok(set)
}

/// Reads numbers, their UIDs and the parenthesis that ends them.
fn read_match_end(cursor: &mut Cursor<'_>, alloc: Global) -> Result<(), ReadError>
    ensures { ReadsIfMemory (λ _. tt) result cursor.new (match_end.read cursor.old) }
{
    read_known_set(cursor, alloc)?;
    cursor.space()?;
    read_known_set(cursor, alloc)?;
    cursor.octet(b')')
}

fn read_match_data(cursor: &mut Cursor<'_>, alloc: Global) -> Result<(), ReadError>
    ensures { ReadsIfMemory (λ _. tt) result cursor.new (match_data.read cursor.old) }
{
    if !cursor.has(b' ') {
        return Ok(());
    }
    cursor.octet(b'(')?;
    read_match_end(cursor, alloc)
}

fn read_known_uids(cursor: &mut Cursor<'_>, alloc: Global) -> Result<Option<SeqSet>, ReadError>
    ensures { ReadsIfMemory (λ k. k) result cursor.new (known_uids.read cursor.old) }
{
    if !cursor.has(b' ') {
        return Ok(None);
    }
    if cursor.has(b'(') {
        read_match_end(cursor, alloc)?;
        return Ok(None);
    }
    let uids = read_known_set(cursor, alloc)?;
    let (uids, ()) = after(uids, read_match_data(cursor, alloc))?;
    Ok(Some(uids))
}

fn read_qresync(cursor: &mut Cursor<'_>, alloc: Global) -> Result<QresyncArg, ReadError>
    ensures { ReadsIfMemory (λ q. q) result cursor.new (qresync.read cursor.old) }
{
    cursor.space()?;
    cursor.octet(b'(')?;
    let validity = cursor.nz_number(u64::from(u32::MAX))?;
    cursor.space()?;
    let mod_seq = cursor.number(1, i64::MAX as u64)?;
    let known_uids = read_known_uids(cursor, alloc)?;
    cursor.octet(b')')?;
    Ok(QresyncArg {
        validity: validity as u32,
        mod_seq,
        known_uids,
    })
}

fn read_parameter(cursor: &mut Cursor<'_>, alloc: Global) -> Result<Parameter, ReadError>
    ensures { ReadsIfMemory (λ p. p) result cursor.new (parameter.read cursor.old) }
{
    match cursor.keyword::<ParameterWord>()? {
        ParameterWord::Condstore => Ok(Parameter::Condstore),
        ParameterWord::Qresync => Ok(Parameter::Qresync(read_qresync(cursor, alloc)?)),
    }
}

fn read_another_parameter(
    cursor: &mut Cursor<'_>,
    alloc: Global,
    first: Parameter,
) -> Result<SelectParameters, ReadError>
    ensures { ReadsIfMemory (λ p. p) result cursor.new ((another_parameter first).read cursor.old) }
{
    if !cursor.has(b' ') {
        return Ok(first.alone());
    }
    let second = read_parameter(cursor, alloc)?;
    first.and(second).ok_or(ReadError::Syntax)
}

/// Reads the parameters after the mailbox.
pub(crate) fn read_parameters(
    cursor: &mut Cursor<'_>,
    alloc: Global,
) -> Result<SelectParameters, ReadError>
    ensures { ReadsIfMemory (λ p. p) result cursor.new (parameters.read cursor.old) }
{
    if !cursor.has(b' ') {
        return Ok(SelectParameters {
            condstore: false,
            qresync: None,
        });
    }
    cursor.octet(b'(')?;
    let first = read_parameter(cursor, alloc)?;
    let all = read_another_parameter(cursor, alloc, first)?;
    cursor.octet(b')')?;
    Ok(all)
}

fn known_fits(known: &Option<SeqSet>) -> bool
    ensures { result ≡ known_fits known.now }
{
    match known {
        Some(uids) => some_fit::<SeqRange>(uids.as_slice()) && !any_has_last(uids.as_slice()),
        None => true,
    }
}

fn push_known(out: &mut Vec<u8>, known: &Option<SeqSet>) -> Result<(), AllocError>
    ensures { OnOk result (out.new.items ≡ out.old.items ++ known_text known.now) }
{
    match known {
        Some(uids) => {
            out.push(b' ')?;
            push_separated::<SeqRange>(out, b',', uids.as_slice())
        }
        None => Ok(()),
    }
}

fn known_state_fits(known: &QresyncArg) -> bool
    ensures { result ≡ qresync_writing.fits known.now }
{
    known.validity != 0 && mod_sequence_fits(known.mod_seq) && known_fits(&known.known_uids)
}

/// Appends a space and `known` in parentheses.
fn push_qresync(out: &mut Vec<u8>, known: &QresyncArg) -> Result<(), AllocError>
    ensures { OnOk result (out.new.items ≡ out.old.items ++ qresync_writing.text known.now) }
{
    push_between(out, b" (", u64::from(known.validity), b" ")?;
    push_between(out, b"", known.mod_seq, b"")?;
    push_known(out, &known.known_uids)?;
    out.push(b')')?;
    Ok(())
}

fn qresync_fits(known: &Option<QresyncArg>) -> bool
    ensures { result ≡ qresync_fits known.now }
{
    match known {
        Some(known) => known_state_fits(known),
        None => true,
    }
}

fn parameters_fit(given: &SelectParameters) -> bool
    ensures { result ≡ parameters_writing.fits given.now }
{
    qresync_fits(&given.qresync)
}

/// Appends a space and the parameters in parentheses, or nothing if there are none.
fn push_parameters(out: &mut Vec<u8>, given: &SelectParameters) -> Result<(), AllocError>
    ensures { OnOk result (out.new.items ≡ out.old.items ++ parameters_writing.text given.now) }
{
    match (given.condstore, &given.qresync) {
        (false, None) => Ok(()),
        (true, None) => out.extend_from_slice(b" (CONDSTORE)"),
        (false, Some(known)) => push_known_state(out, b" (QRESYNC", known),
        (true, Some(known)) => push_known_state(out, b" (CONDSTORE QRESYNC", known),
    }
}

fn push_known_state(out: &mut Vec<u8>, words: &[u8], known: &QresyncArg) -> Result<(), AllocError>
    ensures { OnOk result (out.new.items
        ≡ out.old.items ++ (words.now ++ (qresync_writing.text known.now ++ 41 ∷ []))) }
{
    out.extend_from_slice(words)?;
    push_qresync(out, known)?;
    out.push(b')')?;
    Ok(())
}

pub(crate) fn selecting_fits(mailbox: &Octets, given: &SelectParameters) -> bool
    ensures { result ≡ selecting_fits mailbox.now given.now }
{
    string_fits(mailbox) && parameters_fit(given)
}

pub(crate) fn push_selecting(
    out: &mut Vec<u8>,
    mailbox: &Octets,
    given: &SelectParameters,
) -> Result<(), AllocError>
    ensures { OnOk result (out.new.items ≡ out.old.items ++ selecting_text mailbox.now given.now) }
{
    push_argument(out, mailbox)?;
    push_parameters(out, given)
}
