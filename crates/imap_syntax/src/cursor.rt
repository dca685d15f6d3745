//! Reading from left to right, by the rules of any grammar.

ghost use Rattle.std.specs.Prelude.{◌≡◌, ◌≤◌, ℕ, Bool, List, Option, Some, length, find, drop, take, IfOk};
ghost use Rattle.std.specs.List.{prefix_len};
ghost use Rattle.std.specs.Str.{str_eq_ignore_ascii_case};
ghost use Rattle.imap_syntax.specs.Rule.{octet, flag, counted, first_read, front_read, some_of, items_read};
ghost use Rattle.imap_syntax.specs.Rule.{keyword, listed, listed_end, listed_or_none, reading};
ghost use Rattle.imap_syntax.specs.Reading.{ReadsIfMemory, Reads};

use crate::error::ReadError;
use crate::items::Items;
use crate::one_or_more::OneOrMore;
use imap_lex::{OctetClass, Octets, leading};
use std::alloc::{AllocError, Global};
use std::marker::{Model, PhantomData};

/// Octets, and the place up to which they have been read. In contracts it is the octets after that place.
#[derive(Drop)]
pub struct Cursor<'a> {
    octets: &'a [u8],
    place: usize,
    /// The frame of which these are the octets, if they are shared.
    frame: Option<&'a Octets>,
}

impl<'a> Model for Cursor<'a> {
    ghost use Rattle.std.specs.Prelude.{◌≡◌, ◌≤◌, ℕ, List, length, drop};
    ghost use Rattle.std.specs.Option.{ForSome};

    ghost Value = { List ℕ };

    ghost view = { λ c. drop c.place c.octets.now };

    ghost invariant = { λ c. (c.place ≤ length c.octets.now) × ForSome c.frame (λ f. f.now ≡ c.octets.now) };
}

impl<'a> Cursor<'a> {
    /// Returns a cursor at the beginning of `frame`.
    pub fn new(frame: &'a Octets) -> Cursor<'a>
        ensures { result ≡ frame.now }
    {
        Cursor {
            octets: frame.as_slice(),
            place: 0,
            frame: Some(frame),
        }
    }

    /// Returns a cursor at the beginning of octets that are not shared.
    pub(crate) fn over(octets: &'a [u8]) -> Cursor<'a>
        ensures { result ≡ octets.now }
    {
        Cursor {
            octets,
            place: 0,
            frame: None,
        }
    }

    /// Returns the octets after the cursor.
    pub fn rest(&self) -> &'a [u8]
        ensures { result.now ≡ self.now }
    {
        &self.octets[self.place..]
    }

    /// Moves the cursor over the next `len` octets.
    pub fn skip(&mut self, len: usize)
        requires { len ≤ length self.old }
        ensures { self.new ≡ drop len self.old }
    {
        let left = self.rest().len() - len;
        self.place = self.octets.len() - left;
    }

    /// Reads any octet.
    pub(crate) fn next(&mut self) -> Result<u8, ReadError>
        ensures { Reads (λ b. b) result self.new (first_read self.old) }
    {
        match self.rest() {
            [first, ..] => {
                let first = *first;
                self.skip(1);
                Ok(first)
            }
            [] => Err(ReadError::Syntax),
        }
    }

    /// Reads the octet `wanted`.
    pub fn octet(&mut self, wanted: u8) -> Result<(), ReadError>
        ensures { Reads (λ _. tt) result self.new ((octet wanted).read self.old) }
    {
        match self.rest() {
            [first, ..] if *first == wanted => {
                self.skip(1);
                Ok(())
            }
            _ => Err(ReadError::Syntax),
        }
    }

    /// Reads the next `len` octets. Fails if `len` is 0.
    pub fn front(&mut self, len: usize) -> Result<&'a [u8], ReadError>
        requires { len ≤ length self.old }
        ensures { Reads (λ s. s.now) result self.new (front_read len self.old) }
    {
        if len == 0 {
            return Err(ReadError::Syntax);
        }
        let front = &self.rest()[..len];
        self.skip(len);
        Ok(front)
    }

    /// Reads the octet `wanted` if it comes next, and returns whether it did.
    pub fn has(&mut self, wanted: u8) -> bool
        ensures { (flag wanted).read self.old ≡ Some (result, self.new) }
    {
        match self.rest() {
            [first, ..] if *first == wanted => {
                self.skip(1);
                true
            }
            _ => false,
        }
    }

    /// Reads the next `len` octets.
    pub fn counted(&mut self, len: u64) -> Result<&'a [u8], ReadError>
        ensures { Reads (λ s. s.now) result self.new ((counted len).read self.old) }
    {
        let rest = self.rest();
        if (rest.len() as u64) < len {
            return Err(ReadError::Syntax);
        }
        let front = &rest[..len as usize];
        self.skip(len as usize);
        Ok(front)
    }

    /// Reads the next `len` octets, without copying those of a frame.
    pub fn shared(&mut self, alloc: Global, len: u64) -> Result<Octets, ReadError>
        ensures { ReadsIfMemory (λ o. o) result self.new ((counted len).read self.old) }
    {
        if (self.rest().len() as u64) < len {
            return Err(ReadError::Syntax);
        }
        let octets = self.part(alloc, len as usize)?;
        self.skip(len as usize);
        Ok(octets)
    }

    /// Returns the next `len` octets.
    fn part(&self, alloc: Global, len: usize) -> Result<Octets, AllocError>
        requires { len ≤ length self.now }
        ensures { IfOk result (λ part. part ≡ take len self.now) }
    {
        match self.frame {
            Some(frame) => frame.slice(self.place, self.place + len),
            None => Octets::from_slice(alloc, &self.rest()[..len]),
        }
    }

    /// Reads a word of the table `W`, in any case.
    pub fn keyword<W: Keyword>(&mut self) -> Result<W, ReadError>
        ensures { Reads (λ w. w) result self.new ((keyword W.Class.test W.name_of W.table).read self.old) }
    {
        let word = self.front(leading::<W::Class>(self.rest()))?;
        word_of(word).ok_or(ReadError::Syntax)
    }

    /// Reads one item or more, with `separator` between them.
    pub fn separated<I: Item>(
        &mut self,
        alloc: Global,
        separator: u8,
    ) -> Result<OneOrMore<I::Read>, ReadError>
        ensures { ReadsIfMemory (λ items. items) result self.new (items_read separator I.item_read self.old) }
    {
        let mut items = Vec::new(alloc);
        let mut left = self.rest().len();
        loop {
            let item = I::item(self, alloc)?;
            items.push(item)?;
            if !self.has(separator) {
                return Ok(OneOrMore::of(items));
            }
            if left == 0 {
                return Err(ReadError::Syntax);
            }
            left -= 1;
        }
    }

    /// Reads one item or more in parentheses, with spaces between them.
    pub fn listed<I: Item>(&mut self, alloc: Global) -> Result<Items<I::Read>, ReadError>
        ensures { let list = listed (reading I.item_read) in
            ReadsIfMemory (λ items. items) result self.new (list.read self.old) }
    {
        self.octet(b'(')?;
        let all = self.separated::<I>(alloc, b' ')?;
        self.octet(b')')?;
        Ok(all.into_items())
    }

    /// Reads items in parentheses with spaces between them, or `()`.
    pub fn listed_or_none<I: Item>(&mut self, alloc: Global) -> Result<Items<I::Read>, ReadError>
        ensures { let list = listed_or_none (reading I.item_read) in
            ReadsIfMemory (λ items. items) result self.new (list.read self.old) }
    {
        self.octet(b'(')?;
        self.listed_end::<I>(alloc)
    }

    /// As `listed_or_none`, after the first parenthesis.
    pub fn listed_end<I: Item>(&mut self, alloc: Global) -> Result<Items<I::Read>, ReadError>
        ensures { let end = listed_end (reading I.item_read) in
            ReadsIfMemory (λ items. items) result self.new (end.read self.old) }
    {
        if self.has(b')') {
            return Ok(Items::from_vec(Vec::new(alloc)));
        }
        let items = self.separated::<I>(alloc, b' ')?;
        self.octet(b')')?;
        Ok(items.into_items())
    }
}

/// A table of words, which are read in any case.
pub trait Keyword: Copy + 'static {
    /// The octets of which words of the table are made.
    type Class: OctetClass;

    ghost name_of: { Self → List ℕ };

    ghost table: { List Self };

    /// Returns the word as it is written.
    fn name(self) -> &'static [u8]
        ensures { result.now ≡ name_of self };

    /// Returns the table.
    fn all() -> &'static [Self]
        ensures { result.now ≡ table };
}

/// A kind of value that stands in lists.
pub trait Item {
    type Read: Drop;

    ghost item_read: { List ℕ → Option (Self.Read × List ℕ) };

    /// Reads one.
    fn item(cursor: &mut Cursor<'_>, alloc: Global) -> Result<Self::Read, ReadError>
        ensures { ReadsIfMemory (λ v. v) result cursor.new (item_read cursor.old) };
}

/// A word of the table `W`.
#[derive(Drop)]
pub struct WordOf<W>(PhantomData<W>);

impl<W: Keyword> Item for WordOf<W> {
    type Read = W;

    ghost item_read = { (keyword W.Class.test W.name_of W.table).read };

    fn item(cursor: &mut Cursor<'_>, _alloc: Global) -> Result<W, ReadError> {
        cursor.keyword()
    }
}

pub(crate) fn word_of<W: Keyword>(word: &[u8]) -> Option<W>
    ensures { result ≡ find (λ w. str_eq_ignore_ascii_case word.now (W.name_of w)) W.table }
{
    W::all()
        .iter()
        .copied()
        .find(|known| word.eq_ignore_ascii_case(known.name()))
}
