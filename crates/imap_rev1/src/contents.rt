//! What is told of a section under a label.

ghost use Rattle.std.specs.Prelude.{◌≡◌, ◌++◌, IfOk, OnOk};
ghost use Rattle.std.specs.List.{concat};
ghost use Rattle.imap_print.specs.Pieces.{octets_of};
ghost use Rattle.imap_rev1.specs.Labels.{full_text, labelled_contents};

use imap_lex::Octets;
use imap_mime::push_envelope;
use imap_print::{LiteralParts, Pieces, print_literal};
use imap_rev1_frames::Label;
use imap_structure::push_structure;
use imap_syntax::push_literal;
use std::alloc::{AllocError, Global};

/// Returns the octets of the parts.
pub(crate) fn joined(alloc: Global, parts: &[Octets]) -> Result<Vec<u8>, AllocError>
    ensures { IfOk result (λ octets. octets.items ≡ concat parts.now) }
{
    let mut octets = Vec::new(alloc);
    for part in parts {
        octets.extend_from_slice(part.as_slice())?;
    }
    Ok(octets)
}

fn push_full(alloc: Global, out: &mut Vec<u8>, octets: &[u8]) -> Result<(), AllocError>
    ensures { OnOk result (out.new.items ≡ out.old.items ++ full_text octets.now) }
{
    push_envelope(alloc, out, octets)?;
    out.extend_from_slice(b" BODY ")?;
    push_structure(alloc, out, false, octets)
}

/// Appends what is told of a section with these octets.
fn push_read(
    alloc: Global,
    out: &mut Vec<u8>,
    label: Label,
    octets: &[u8],
) -> Result<(), AllocError>
    ensures { OnOk result (out.new.items ≡ out.old.items ++ labelled_contents label octets.now) }
{
    match label {
        Label::Envelope => push_envelope(alloc, out, octets),
        Label::Body => push_structure(alloc, out, false, octets),
        Label::Structure => push_structure(alloc, out, true, octets),
        Label::Full => push_full(alloc, out, octets),
        Label::Message | Label::Header | Label::Text => push_literal(out, octets),
    }
}

fn push_octets(
    alloc: Global,
    out: &mut Pieces,
    label: Label,
    octets: &[u8],
) -> Result<(), AllocError>
    ensures { OnOk result (octets_of out.new ≡ octets_of out.old ++ labelled_contents label octets.now) }
{
    let mut text = Vec::new(alloc);
    push_read(alloc, &mut text, label, octets)?;
    out.push_octets(text.as_slice())
}

/// Appends what is told of a section in parts, which are copied if there are several.
fn push_parts(
    alloc: Global,
    out: &mut Pieces,
    label: Label,
    parts: &[Octets],
) -> Result<(), AllocError>
    ensures { OnOk result (octets_of out.new
        ≡ octets_of out.old ++ labelled_contents label (concat parts.now)) }
{
    match parts {
        [one] => push_octets(alloc, out, label, one.as_slice()),
        _ => {
            let octets = joined(alloc, parts)?;
            push_octets(alloc, out, label, octets.as_slice())
        }
    }
}

/// Appends what is told under the label of a section with these octets.
pub(crate) fn push_contents(
    alloc: Global,
    out: &mut Pieces,
    label: Label,
    octets: &LiteralParts,
) -> Result<(), AllocError>
    ensures { OnOk result (octets_of out.new
        ≡ octets_of out.old ++ labelled_contents label (concat octets.now)) }
{
    match label {
        Label::Message | Label::Header | Label::Text => print_literal(out, octets),
        _ => push_parts(alloc, out, label, octets.as_slice()),
    }
}
