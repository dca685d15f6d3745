//! A command that is written word by word.

ghost use Rattle.std.specs.Prelude.{◌≡◌, ◌≤◌, ◌++◌, ◌∷◌, [], drop, take, length, IfOk, OnOk};
ghost use Rattle.imap_lex.specs.Held.{held_size};
ghost use Rattle.imap_lex.specs.Mark.{line_mark};
ghost use Rattle.imap_print.specs.Lines.{is_plain};
ghost use Rattle.imap_rev1_frames.specs.Scan.{start, written_word, word_asked, option_list, after_word};
ghost use Rattle.imap_rev1_frames.specs.Scan.{count_held};
ghost use Rattle.imap_rev1_frames.specs.Rewritten.{are_plain, line_text, written_line, line_asked, after_line};
ghost use Rattle.imap_rev1_frames.specs.Rewritten.{announced, literal_length, section_length, written_section};
ghost use Rattle.imap_rev1_frames.specs.Rewritten.{written_after, asked_after, command_for};
ghost use Rattle.imap_rev1_frames.specs.Writing.{GoesOn};

use crate::asked::Asked;
use crate::named::Named;
use crate::scan::Scan;
use imap_lex::{line_length, line_mark};
use std::alloc::{AllocError, Global};

/// The command so far.
#[derive(Drop)]
pub(crate) struct Writing {
    alloc: Global,
    scan: Scan,
    /// The octets of the word that has begun.
    word: Vec<u8>,
    /// The number of octets that follow and belong to the word.
    held: usize,
    out: Vec<u8>,
    /// What the items so far ask for.
    asked: Vec<Asked>,
}

fn is_plain(octet: u8) -> bool
    ensures { result ≡ is_plain octet }
{
    !matches!(octet, b'\r' | b'\n')
}

fn are_plain(octets: &[u8]) -> bool
    ensures { result ≡ are_plain octets.now }
{
    octets.iter().all(|octet| is_plain(*octet))
}

/// Returns how many octets the literal has that the line announces.
fn announced(line: &[u8]) -> u128
    ensures { result ≡ held_size (announced (line_mark line.now)) }
{
    match line_mark(&[], line) {
        Some(mark) => mark.size,
        None => 0,
    }
}

/// Returns how many of the later octets are in the literal that the line announces.
fn literal_length(line: &[u8], later: &[u8]) -> usize
    ensures { result ≡ literal_length line.now later.now }
{
    announced(line).min(later.len() as u128) as usize
}

impl Writing {
    fn start(alloc: Global, named: Named) -> Writing
        ensures scan { result.scan ≡ start named }
        ensures word { result.word.items ≡ [] }
        ensures out { result.out.items ≡ [] }
        ensures asked { result.asked.items ≡ [] }
    {
        Writing {
            alloc,
            scan: Scan::start(named),
            word: Vec::new(alloc),
            held: 0,
            out: Vec::new(alloc),
            asked: Vec::new(alloc),
        }
    }

    /// Ends the word.
    fn end_word(&mut self) -> Result<(), AllocError>
        ensures out { OnOk result (self.new.out.items
            ≡ self.old.out.items ++ written_word self.old.scan self.old.word.items) }
        ensures asked { OnOk result (self.new.asked.items
            ≡ self.old.asked.items ++ option_list (word_asked self.old.scan self.old.word.items)) }
        ensures scan { OnOk result (self.new.scan ≡ after_word self.old.scan self.old.word.items) }
        ensures word { OnOk result (self.new.word.items ≡ []) }
    {
        let word = self.word.as_slice();
        self.out
            .extend_from_slice(self.scan.written_word(self.alloc, word)?)?;
        if let Some(asked) = self.scan.word_asked(self.alloc, word)? {
            self.asked.push(asked)?;
        }
        self.scan = self.scan.after_word(word);
        self.word.clear();
        Ok(())
    }

    /// Returns how many of the octets, of which `octet` is the first, belong to the word.
    fn count_held(&self, octet: u8, octets: &[u8]) -> Result<usize, AllocError>
        ensures { let word = self.now.word.items in IfOk result (λ count.
            count ≡ count_held self.now.held self.now.scan word octet octets.now) }
    {
        if self.held > 0 {
            return Ok(self.held);
        }
        if self.scan.is_in_word(octet) {
            return Ok(1);
        }
        self.scan
            .list_length(self.alloc, self.word.as_slice(), octets)
    }

    /// Writes `octet`, which is the first of those that are left of the line.
    fn push(&mut self, octet: u8, octets: &[u8]) -> Result<(), AllocError>
        requires { octets.now ≡ octet ∷ drop 1 octets.now }
        ensures { OnOk result (GoesOn octets.now (drop 1 octets.now) self.old self.new) }
    {
        let held = self.count_held(octet, octets)?;
        if held > 0 {
            self.word.push(octet)?;
            self.held = held - 1;
            return Ok(());
        }
        self.end_word()?;
        self.out.push(octet)?;
        self.scan = self.scan.after_octet(octet);
        self.held = 0;
        Ok(())
    }

    /// Writes what is left of the line, but for its last word.
    fn push_text(&mut self, text: &[u8]) -> Result<(), AllocError>
        ensures { OnOk result (GoesOn text.now [] self.old self.new) }
    {
        let mut rest = text;
        while let Some((octet, later)) = rest.split_first() {
            self.push(*octet, rest)?;
            rest = later;
        }
        Ok(())
    }

    /// Writes a line of the command.
    fn push_line(&mut self, line: &[u8]) -> Result<(), AllocError>
        requires { self.old.word.items ≡ [] }
        ensures out { OnOk result (self.new.out.items
            ≡ self.old.out.items ++ written_line self.old.scan line.now) }
        ensures asked { OnOk result (self.new.asked.items
            ≡ self.old.asked.items ++ line_asked self.old.scan line.now) }
        ensures scan { OnOk result (self.new.scan ≡ after_line self.old.scan line.now) }
        ensures word { OnOk result (self.new.word.items ≡ []) }
    {
        let text = &line[..line.len().saturating_sub(2)];
        if !are_plain(text) {
            return self.out.extend_from_slice(line);
        }
        self.held = 0;
        self.push_text(text)?;
        self.end_word()?;
        self.out.extend_from_slice(b"\r\n")?;
        self.scan = self.scan.next_line();
        Ok(())
    }

    /// Writes the line of this length at the front of the octets, and its literal. Returns how many octets
    /// both have.
    fn push_section(&mut self, octets: &[u8], len: usize) -> Result<usize, AllocError>
        requires word { self.old.word.items ≡ [] }
        requires within { len ≤ length octets.now }
        ensures out { OnOk result (self.new.out.items
            ≡ self.old.out.items ++ written_section self.old.scan len octets.now) }
        ensures asked { OnOk result (self.new.asked.items
            ≡ self.old.asked.items ++ line_asked self.old.scan (take len octets.now)) }
        ensures scan { OnOk result (self.new.scan ≡ after_line self.old.scan (take len octets.now)) }
        ensures word { OnOk result (self.new.word.items ≡ []) }
        ensures count { IfOk result (λ count. count ≡ section_length len octets.now) }
        ensures within { IfOk result (λ count. count ≤ length octets.now) }
    {
        let (line, later) = octets.split_at(len);
        self.push_line(line)?;
        let literal = literal_length(line, later);
        self.out.extend_from_slice(&later[..literal])?;
        Ok(len + literal)
    }

    /// Writes all lines and literals of the command.
    fn push_lines(&mut self, octets: &[u8]) -> Result<(), AllocError>
        requires { self.old.word.items ≡ [] }
        ensures out { OnOk result (self.new.out.items
            ≡ self.old.out.items ++ written_after 0 self.old.scan octets.now) }
        ensures asked { OnOk result (self.new.asked.items
            ≡ self.old.asked.items ++ asked_after 0 self.old.scan octets.now) }
    {
        let mut rest = octets;
        while let Some(len) = line_length(rest) {
            let count = self.push_section(rest, len)?;
            let (_, later) = rest.split_at(count);
            rest = later;
        }
        self.out.extend_from_slice(rest)
    }

    /// Writes what the server is to see in place of the command.
    pub(crate) fn of_command(
        alloc: Global,
        named: Named,
        octets: &[u8],
    ) -> Result<Writing, AllocError>
        ensures out { IfOk result (λ w. w.out.items ≡ command_for named octets.now) }
        ensures asked { IfOk result (λ w. w.asked.items ≡ asked_after 0 (start named) octets.now) }
    {
        let mut writing = Writing::start(alloc, named);
        writing.push_lines(octets)?;
        Ok(writing)
    }

    /// Returns the command.
    pub(crate) fn into_octets(self) -> Vec<u8>
        ensures { result.items ≡ self.out.items }
    {
        self.out
    }

    /// Returns what the items in the command ask for.
    pub(crate) fn into_asked(self) -> Vec<Asked>
        ensures { result.items ≡ self.asked.items }
    {
        self.asked
    }
}
