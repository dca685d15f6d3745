//! The parts of an address (RFC 5322, section 3.4).

ghost use Rattle.std.specs.Prelude.{◌≡◌, OnOk};
ghost use Rattle.imap_mime.specs.Parts.{address_of, address_with, bare_address, divider_before, divider_within};
ghost use Rattle.imap_mime.specs.Parts.{given, is_within, no_parts, parts_after, parts_at, parts_with};
ghost use Rattle.imap_mime.specs.Parts.{with_address_begun, with_divider, with_route};

use crate::addr_spec::AddrSpec;
use crate::address::Address;
use crate::comments::Comments;
use crate::lexical::Sign;
use crate::octet_string::OctetString;
use crate::phrase::Phrase;
use std::alloc::{AllocError, Global};

/// The place of an octet in an address.
#[derive(Clone, Copy)]
pub enum Place {
    /// Before `<`, if there is one.
    Before,
    /// Between `<` and `>`.
    Within,
    /// After `>`, where nothing counts.
    After,
}

/// What has been read of an address.
#[derive(Drop)]
pub struct Parts {
    place: Place,
    /// The words of a display name or of a route.
    phrase: Phrase,
    spec: AddrSpec,
    comments: Comments,
    /// The display name, once `<` has been read.
    name: OctetString,
    /// The source route, once its `:` has been read.
    route: Option<OctetString>,
}

/// Returns the octets, if there are any.
fn given(octets: OctetString) -> Option<OctetString>
    ensures { result ≡ given octets }
{
    if octets.is_empty() {
        None
    } else {
        Some(octets)
    }
}

impl Parts {
    /// Begins with nothing read.
    pub fn new(alloc: Global) -> Parts
        ensures { result ≡ no_parts }
    {
        Parts {
            place: Place::Before,
            phrase: Phrase::new(alloc),
            spec: AddrSpec::new(alloc),
            comments: Comments::new(alloc),
            name: OctetString::new(alloc),
            route: None,
        }
    }

    /// Whether `<` has been read, and no `>` after it.
    pub fn is_within(&self) -> bool
        ensures { result ≡ is_within self.now }
    {
        matches!(self.place, Place::Within)
    }

    fn push_octet(&mut self, octet: u8) -> Result<(), AllocError>
        ensures { OnOk result (self.new ≡ parts_with octet self.old) }
    {
        if matches!(self.place, Place::After) {
            return Ok(());
        }
        self.phrase.push(octet)?;
        self.spec.push(octet)
    }

    fn push_at(&mut self) -> Result<(), AllocError>
        ensures { OnOk result (self.new ≡ parts_at self.old) }
    {
        if matches!(self.place, Place::After) {
            return Ok(());
        }
        self.phrase.push(b'@')?;
        self.spec.push_at()
    }

    /// Begins the address in angle brackets. What stands before it is the display name.
    fn begin_address(&mut self)
        ensures { self.new ≡ with_address_begun self.old }
    {
        self.name = self.phrase.take();
        self.spec.take();
        self.place = Place::Within;
    }

    /// Ends the route.
    fn end_route(&mut self)
        ensures { self.new ≡ with_route self.old }
    {
        self.route = Some(self.phrase.take());
        self.spec.take();
    }

    fn push_divider_before(&mut self, octet: u8) -> Result<(), AllocError>
        ensures { OnOk result (self.new ≡ divider_before octet self.old) }
    {
        match octet {
            b'<' => {
                self.begin_address();
                Ok(())
            }
            b'@' => self.push_at(),
            _ => self.push_octet(octet),
        }
    }

    fn push_divider_within(&mut self, octet: u8) -> Result<(), AllocError>
        ensures { OnOk result (self.new ≡ divider_within octet self.old) }
    {
        match octet {
            b'>' => {
                self.place = Place::After;
                Ok(())
            }
            b':' if self.route.is_none() => {
                self.end_route();
                Ok(())
            }
            b'@' => self.push_at(),
            _ => self.push_octet(octet),
        }
    }

    fn push_divider(&mut self, octet: u8) -> Result<(), AllocError>
        ensures { OnOk result (self.new ≡ with_divider octet self.old) }
    {
        match self.place {
            Place::Before => self.push_divider_before(octet),
            Place::Within => self.push_divider_within(octet),
            Place::After => Ok(()),
        }
    }

    /// Goes on after a sign.
    pub fn push(&mut self, sign: Sign) -> Result<(), AllocError>
        ensures { OnOk result (self.new ≡ parts_after sign self.old) }
    {
        match sign {
            Sign::Word(octet) => self.push_octet(octet),
            Sign::QuoteBegins => self.phrase.begin_word(),
            Sign::Space => {
                self.phrase.end_word();
                Ok(())
            }
            Sign::CommentBegins => {
                self.comments.begin();
                Ok(())
            }
            Sign::Comment(octet) => self.comments.push(octet),
            Sign::Divider(octet) => self.push_divider(octet),
            Sign::Nothing => Ok(()),
        }
    }

    /// Returns the words so far and leaves nothing.
    pub fn take_phrase(&mut self) -> OctetString
        ensures taken { result ≡ self.old.phrase.text }
        ensures left { self.new ≡ no_parts }
    {
        let phrase = self.phrase.take();
        self.clear();
        phrase
    }

    fn clear(&mut self)
        ensures { self.new ≡ no_parts }
    {
        self.place = Place::Before;
        self.phrase.take();
        self.spec.take();
        self.comments.take();
        self.name.take();
        self.route = None;
    }

    /// Returns the address with this name.
    fn take_named(&mut self, name: Option<OctetString>) -> Address
        ensures { result ≡ address_with name self.old }
    {
        let (mailbox, host) = self.spec.take();
        Address {
            name,
            route: self.route.take(),
            mailbox: Some(mailbox),
            host: Some(host),
        }
    }

    /// Returns the address without angle brackets, if it has any octets. The first comment is its name.
    fn take_bare(&mut self) -> Option<Address>
        ensures { result ≡ bare_address self.old }
    {
        if self.spec.is_blank() {
            return None;
        }
        let name = self.comments.take();
        Some(self.take_named(name))
    }

    fn take_parts(&mut self) -> Option<Address>
        ensures { result ≡ address_of self.old }
    {
        match self.place {
            Place::Before => self.take_bare(),
            Place::Within | Place::After => {
                let name = given(self.name.take());
                Some(self.take_named(name))
            }
        }
    }

    /// Returns the address, if one has been read, and leaves nothing.
    pub fn take_address(&mut self) -> Option<Address>
        ensures taken { result ≡ address_of self.old }
        ensures left { self.new ≡ no_parts }
    {
        let address = self.take_parts();
        self.clear();
        address
    }
}
