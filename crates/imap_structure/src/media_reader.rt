//! The value of Content-Type and of fields of its form (RFC 2045, section 5.1).

ghost use Rattle.std.specs.Prelude.{◌≡◌, ◌++◌, IfOk, OnOk};
ghost use Rattle.imap_structure.specs.MediaReader.{after_octet, after_sign, media_in, next_param, octet_params};
ghost use Rattle.imap_structure.specs.MediaReader.{ended_params, param_list, params_from, reader_after};
ghost use Rattle.imap_structure.specs.MediaReader.{sign_params, start, with_octet};

use crate::media::{MediaType, Param};
use imap_mime::{Lexical, OctetString, Sign};
use imap_syntax::Items;
use std::alloc::{AllocError, Global};

/// What an octet belongs to.
#[derive(Clone, Copy)]
pub enum MediaPlace {
    Kind,
    Subtype,
    Name,
    Value,
}

/// A place in the value of a field.
#[derive(Drop)]
pub struct MediaReader {
    lexical: Lexical,
    place: MediaPlace,
    kind: OctetString,
    subtype: OctetString,
    /// The parameter that has begun.
    name: OctetString,
    value: OctetString,
}

fn push_param(
    params: &mut Vec<Param>,
    name: OctetString,
    value: OctetString,
) -> Result<(), AllocError>
    ensures { OnOk result (params.new.items ≡ params.old.items ++ param_list name value) }
{
    if !name.is_empty() {
        params.push(Param { name, value })?;
    }
    Ok(())
}

impl MediaReader {
    fn start(alloc: Global) -> MediaReader
        ensures { result ≡ start }
    {
        MediaReader {
            lexical: Lexical::Outside,
            place: MediaPlace::Kind,
            kind: OctetString::new(alloc),
            subtype: OctetString::new(alloc),
            name: OctetString::new(alloc),
            value: OctetString::new(alloc),
        }
    }

    /// Goes on after an octet of a word.
    fn push_octet(&mut self, octet: u8) -> Result<(), AllocError>
        ensures { OnOk result (self.new ≡ with_octet self.old.place octet self.old) }
    {
        match self.place {
            MediaPlace::Kind if octet == b'/' => {
                self.place = MediaPlace::Subtype;
                Ok(())
            }
            MediaPlace::Kind => self.kind.push(octet),
            MediaPlace::Subtype => self.subtype.push(octet),
            MediaPlace::Name if octet == b'=' => {
                self.place = MediaPlace::Value;
                Ok(())
            }
            MediaPlace::Name => self.name.push(octet),
            MediaPlace::Value => self.value.push(octet),
        }
    }

    /// Ends the parameter that has begun, if it has a name and a value.
    fn end_param(&mut self, params: &mut Vec<Param>) -> Result<(), AllocError>
        ensures state { OnOk result (self.new ≡ next_param self.old) }
        ensures params { OnOk result (params.new.items
            ≡ params.old.items ++ ended_params self.old.place self.old) }
    {
        let (name, value) = (self.name.take(), self.value.take());
        if matches!(self.place, MediaPlace::Value) {
            push_param(params, name, value)?;
        }
        self.place = MediaPlace::Name;
        Ok(())
    }

    fn push_sign(&mut self, sign: Sign, params: &mut Vec<Param>) -> Result<(), AllocError>
        ensures state { OnOk result (self.new ≡ after_sign sign self.old) }
        ensures params { OnOk result (params.new.items ≡ params.old.items ++ sign_params sign self.old) }
    {
        match sign {
            Sign::Divider(b';') => self.end_param(params),
            Sign::Word(octet) | Sign::Divider(octet) => self.push_octet(octet),
            _ => Ok(()),
        }
    }

    fn push(&mut self, octet: u8, params: &mut Vec<Param>) -> Result<(), AllocError>
        ensures state { OnOk result (self.new ≡ after_octet octet self.old) }
        ensures params { OnOk result (params.new.items ≡ params.old.items ++ octet_params octet self.old) }
    {
        let read = self.lexical.read(octet);
        self.lexical = read.next;
        self.push_sign(read.sign, params)
    }

    fn push_all(&mut self, value: &[u8], params: &mut Vec<Param>) -> Result<(), AllocError>
        ensures state { OnOk result (self.new ≡ reader_after self.old value.now) }
        ensures params { OnOk result (params.new.items ≡ params.old.items ++ params_from self.old value.now) }
    {
        for octet in value {
            self.push(*octet, params)?;
        }
        self.end_param(params)
    }
}

/// Returns the type and the parameters in a value. Every value is read.
pub(crate) fn read_media(alloc: Global, value: &[u8]) -> Result<MediaType, AllocError>
    ensures { IfOk result (λ media. media ≡ media_in value.now) }
{
    let mut reader = MediaReader::start(alloc);
    let mut params = Vec::new(alloc);
    reader.push_all(value, &mut params)?;
    Ok(MediaType {
        kind: reader.kind.take(),
        subtype: reader.subtype.take(),
        params: Items::from_vec(params),
    })
}
