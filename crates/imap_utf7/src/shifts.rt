//! What is shifted: base64 of UTF-16 (RFC 3501, section 5.1.3).

ghost use Rattle.std.specs.Prelude.{◌≡◌, ◌++◌, IfOk, OnOk, encode_utf8_all, flat_map, string_bytes};
ghost use Rattle.imap_utf7.specs.Shifts.{IsModified, base64, characters, octets_of, unit_octets, units, wide};

use base64::DecodeAllocError;
use base64::alphabet::IMAP_MUTF7;
use base64::engine::general_purpose::{GeneralPurpose, NO_PAD};
use std::alloc::{AllocError, Global};

/// Returns what writes and reads base64 with `,` for `/` and without `=`.
pub(crate) fn modified() -> GeneralPurpose
    ensures { IsModified result }
{
    GeneralPurpose::new(&IMAP_MUTF7, NO_PAD)
}

/// Appends the octets in base64.
pub(crate) fn push_base64(
    engine: &GeneralPurpose,
    out: &mut String,
    octets: &[u8],
) -> Result<(), AllocError>
    requires { IsModified engine.now }
    ensures { OnOk result (string_bytes out.new ≡ string_bytes out.old ++ base64 octets.now) }
{
    engine.encode_string(octets, out)
}

/// Returns the octets for which the text stands. There are none if the text is no base64.
fn read_base64(engine: &GeneralPurpose, alloc: Global, text: &[u8]) -> Result<Vec<u8>, AllocError>
    requires { IsModified engine.now }
    ensures { IfOk result (λ octets. octets.items ≡ octets_of text.now) }
{
    match engine.decode(alloc, text) {
        Ok(octets) => Ok(octets),
        Err(DecodeAllocError::OutOfMemory) => Err(AllocError),
        Err(DecodeAllocError::DecodeError(_)) => Ok(Vec::new(alloc)),
    }
}

fn push_unit(octets: &mut Vec<u8>, unit: u16) -> Result<(), AllocError>
    ensures { OnOk result (octets.new.items ≡ octets.old.items ++ unit_octets unit) }
{
    octets.push((unit / 256) as u8)?;
    octets.push((unit % 256) as u8)?;
    Ok(())
}

fn push_units(octets: &mut Vec<u8>, units: &[u16]) -> Result<(), AllocError>
    ensures { OnOk result (octets.new.items ≡ octets.old.items ++ flat_map unit_octets units.now) }
{
    for unit in units {
        push_unit(octets, *unit)?;
    }
    Ok(())
}

/// Appends the octets of the character in UTF-16.
pub(crate) fn push_wide(octets: &mut Vec<u8>, char: char) -> Result<(), AllocError>
    ensures { OnOk result (octets.new.items ≡ octets.old.items ++ wide char) }
{
    let mut room = [0; 2];
    push_units(octets, char.encode_utf16(&mut room))
}

/// Returns the units of UTF-16 in the octets. An octet that is left over at the end is in none.
fn units(alloc: Global, octets: &[u8]) -> Result<Vec<u16>, AllocError>
    ensures { IfOk result (λ all. all.items ≡ units octets.now) }
{
    let mut all = Vec::new(alloc);
    let mut rest = octets;
    while let [high, low, later @ ..] = rest {
        all.push(u16::from(*high) * 256 + u16::from(*low))?;
        rest = later;
    }
    Ok(all)
}

/// Returns the characters for which shifted text stands.
pub(crate) fn read_shifted(
    engine: &GeneralPurpose,
    alloc: Global,
    text: &[u8],
) -> Result<String, AllocError>
    requires { IsModified engine.now }
    ensures { IfOk result (λ read. string_bytes read ≡ encode_utf8_all (characters text.now)) }
{
    let octets = read_base64(engine, alloc, text)?;
    let units = units(alloc, octets.as_slice())?;
    String::from_utf16_lossy(alloc, units.as_slice())
}
