//! Letters for keywords.

use imap_syntax::Atom;
use std::alloc::{AllocError, Global};

/// As many as there are small letters.
const MOST: usize = 26;

/// The keywords of a mailbox that have a letter: the first is `a`.
#[derive(Drop)]
pub struct KeywordLetters {
    alloc: Global,
    words: Vec<Atom>,
}

impl KeywordLetters {
    /// No keyword has a letter.
    pub fn new(alloc: Global) -> KeywordLetters {
        KeywordLetters {
            alloc,
            words: Vec::new(alloc),
        }
    }

    /// Gives each keyword a letter that has none, as long as there are letters.
    pub fn learn(&mut self, keywords: &[Atom]) -> Result<(), AllocError> {
        for keyword in keywords {
            if self.words.len() < MOST && !self.contains(keyword) {
                let word = keyword.try_copy(self.alloc)?;
                self.words.push(word)?;
            }
        }
        Ok(())
    }

    /// Whether the keyword has a letter.
    pub fn contains(&self, keyword: &Atom) -> bool {
        contains(self.words.as_slice(), keyword)
    }

    /// Whether no letter is left, so that a keyword may have none.
    pub fn are_all_used(&self) -> bool {
        self.words.len() >= MOST
    }

    /// Appends the letters of the keywords, in the order of the alphabet.
    pub fn push(&self, out: &mut String, keywords: &[Atom]) -> Result<(), AllocError> {
        let mut letter = 'a';
        for word in &self.words {
            if contains(keywords, word) {
                out.push(letter)?;
            }
            letter = next(letter);
        }
        Ok(())
    }

    /// Returns the lines of the file `dovecot-keywords`: a number from 0, and the keyword.
    pub fn lines(&self) -> Result<Vec<u8>, AllocError> {
        let mut lines = Vec::new(self.alloc);
        for (number, word) in self.words.iter().enumerate() {
            let front = format!(in self.alloc; "{number} ")?;
            lines.extend_from_slice(front.as_bytes())?;
            lines.extend_from_slice(word.as_slice())?;
            lines.push(b'\n')?;
        }
        Ok(lines)
    }
}

/// A keyword and its letter.
#[derive(Drop)]
pub struct LetteredKeyword {
    pub letter: u8,
    pub word: Atom,
}

/// Reads the lines of a file `dovecot-keywords`. Lines that give no keyword a letter are passed over.
pub fn read_keywords(alloc: Global, text: &str) -> Result<Vec<LetteredKeyword>, AllocError> {
    let mut keywords = Vec::new(alloc);
    for line in text.lines() {
        if let Some((number, word)) = line.split_once(' ') {
            push_keyword(alloc, &mut keywords, number, word)?;
        }
    }
    Ok(keywords)
}

fn push_keyword(
    alloc: Global,
    keywords: &mut Vec<LetteredKeyword>,
    number: &str,
    word: &str,
) -> Result<(), AllocError> {
    let Some(letter) = letter_of(number) else {
        return Ok(());
    };
    if let Some(word) = Atom::read(alloc, word.as_bytes())? {
        keywords.push(LetteredKeyword { letter, word })?;
    }
    Ok(())
}

/// Returns the small letter with this number, counted from 0.
fn letter_of(number: &str) -> Option<u8> {
    let letter = b'a'.checked_add(number.parse::<u8>().ok()?)?;
    if letter.is_ascii_lowercase() {
        Some(letter)
    } else {
        None
    }
}

fn contains(words: &[Atom], word: &Atom) -> bool {
    for other in words {
        if other.as_slice() == word.as_slice() {
            return true;
        }
    }
    false
}

fn next(letter: char) -> char {
    char::from_u32((letter as u32).saturating_add(1)).unwrap_or('z')
}
