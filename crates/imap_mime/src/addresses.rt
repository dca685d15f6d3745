//! Lists of addresses (RFC 5322, section 3.4).

ghost use Rattle.std.specs.Prelude.{◌≡◌, ◌++◌, ◌∷◌, [], OnOk, option_map};
ghost use Rattle.imap_mime.specs.Addresses.{address_list, addresses_from, addresses_in, after_divider};
ghost use Rattle.imap_mime.specs.Addresses.{after_octet, after_sign, divider_addresses, end_addresses, group_end};
ghost use Rattle.imap_mime.specs.Addresses.{group_ends, group_start, last_addresses, octet_addresses};
ghost use Rattle.imap_mime.specs.Addresses.{sign_addresses, start, without_group, without_parts, within_group};

use crate::address::Address;
use crate::lexical::{Lexical, Sign};
use crate::octet_string::OctetString;
use crate::parts::Parts;
use std::alloc::{AllocError, Global};

/// A place in a list of addresses.
#[derive(Drop)]
pub struct AddressReader {
    lexical: Lexical,
    /// The parts of the address that has begun.
    parts: Parts,
    in_group: bool,
}

/// Appends the address, if there is one.
fn push_address(done: &mut Vec<Address>, address: Option<Address>) -> Result<(), AllocError>
    ensures { OnOk result (done.new.items ≡ done.old.items ++ address_list address) }
{
    match address {
        Some(address) => {
            done.push(address)?;
            Ok(())
        }
        None => Ok(()),
    }
}

/// Returns the address with which a group of this name begins.
fn group_start(name: OctetString) -> Address
    ensures { result ≡ group_start name }
{
    Address {
        name: None,
        route: None,
        mailbox: Some(name),
        host: None,
    }
}

/// Returns the address with which a group ends.
fn group_end() -> Address
    ensures { result ≡ group_end }
{
    Address {
        name: None,
        route: None,
        mailbox: None,
        host: None,
    }
}

impl AddressReader {
    /// Begins at the front of a list.
    fn start(alloc: Global) -> AddressReader
        ensures { result ≡ start }
    {
        AddressReader {
            lexical: Lexical::Outside,
            parts: Parts::new(alloc),
            in_group: false,
        }
    }

    /// Ends the address that has begun.
    fn end_address(&mut self, done: &mut Vec<Address>) -> Result<(), AllocError>
        ensures state { OnOk result (self.new ≡ without_parts self.old) }
        ensures done { OnOk result (done.new.items ≡ done.old.items ++ end_addresses self.old) }
    {
        push_address(done, self.parts.take_address())
    }

    fn begin_group(&mut self, done: &mut Vec<Address>) -> Result<(), AllocError>
        ensures state { OnOk result (self.new ≡ within_group self.old) }
        ensures done { OnOk result (done.new.items
            ≡ done.old.items ++ group_start self.old.parts.phrase.text ∷ []) }
    {
        self.in_group = true;
        let name = self.parts.take_phrase();
        done.push(group_start(name))?;
        Ok(())
    }

    /// Ends the group, if one has begun.
    fn end_group(&mut self, done: &mut Vec<Address>) -> Result<(), AllocError>
        ensures state { OnOk result (self.new ≡ without_group self.old) }
        ensures done { OnOk result (done.new.items ≡ done.old.items ++ group_ends self.old.in_group) }
    {
        let in_group = self.in_group;
        self.in_group = false;
        if in_group {
            done.push(group_end())?;
        }
        Ok(())
    }

    /// Ends the address that has begun, and then the group.
    fn end(&mut self, done: &mut Vec<Address>) -> Result<(), AllocError>
        ensures state { OnOk result (self.new ≡ without_group (without_parts self.old)) }
        ensures done { OnOk result (done.new.items ≡ done.old.items ++ last_addresses self.old) }
    {
        self.end_address(done)?;
        self.end_group(done)
    }

    /// Goes on after a divider outside angle brackets.
    fn push_divider(&mut self, octet: u8, done: &mut Vec<Address>) -> Result<(), AllocError>
        ensures state { OnOk result (self.new ≡ after_divider octet self.old) }
        ensures done { OnOk result (done.new.items ≡ done.old.items ++ divider_addresses octet self.old) }
    {
        match octet {
            b',' => self.end_address(done),
            b';' => self.end(done),
            b':' if !self.in_group => self.begin_group(done),
            _ => self.parts.push(Sign::Divider(octet)),
        }
    }

    fn push_sign(&mut self, sign: Sign, done: &mut Vec<Address>) -> Result<(), AllocError>
        ensures state { OnOk result (self.new ≡ after_sign sign self.old) }
        ensures done { OnOk result (done.new.items ≡ done.old.items ++ sign_addresses sign self.old) }
    {
        match sign {
            Sign::Divider(octet) if !self.parts.is_within() => self.push_divider(octet, done),
            _ => self.parts.push(sign),
        }
    }

    fn push(&mut self, octet: u8, done: &mut Vec<Address>) -> Result<(), AllocError>
        ensures state { OnOk result (self.new ≡ after_octet octet self.old) }
        ensures done { OnOk result (done.new.items ≡ done.old.items ++ octet_addresses octet self.old) }
    {
        let read = self.lexical.read(octet);
        self.lexical = read.next;
        self.push_sign(read.sign, done)
    }

    /// Goes on over all of a value, to its end.
    fn push_all(&mut self, value: &[u8], done: &mut Vec<Address>) -> Result<(), AllocError>
        ensures { OnOk result (done.new.items ≡ done.old.items ++ addresses_from self.old value.now) }
    {
        for octet in value {
            self.push(*octet, done)?;
        }
        self.end(done)
    }
}

/// Appends to `done` the addresses in the value of a field. Every value is read; what is no address gives one
/// with the octets that stand there. Takes time in proportion to the value.
pub fn push_addresses_in(
    alloc: Global,
    value: &[u8],
    done: &mut Vec<Address>,
) -> Result<(), AllocError>
    ensures { OnOk result (done.new.items ≡ done.old.items ++ addresses_in value.now) }
{
    let mut reader = AddressReader::start(alloc);
    reader.push_all(value, done)
}
