//! Responses that are printed as one line by their types.

ghost use Rattle.std.specs.Prelude.{map, flat_map};
ghost use Rattle.std.specs.List.{AllByRecursion, concat};
ghost use Rattle.imap_print.specs.declared.response.Response.TheVariants as response;
ghost use Rattle.imap_print.specs.Literals.{IsHeld};
ghost use Rattle.imap_print.specs.Lines.{IsPlain, IsPrintable, flags_keywords, section_names};

use crate::fetch::{FetchedItems, FetchedSection};
use crate::flag::FlagSet;
use imap_query::Section;
use imap_syntax::{FieldName, Keywords};

/// The items of a message are printed as one line: keywords are atoms, field names have neither CR nor LF,
/// and literals fit into memory.
pub fn fetch_is_printable(number: u32, items: &FetchedItems)
    ensures { IsPrintable (response.Fetch number items.now) }
{
    option_is_plain(&items.flags);
    sections_are_plain(items.sections.as_slice());
}

/// The flags of a mailbox are printed as one line.
pub fn flags_are_printable(keywords: &Keywords)
    ensures { IsPrintable (response.Flags keywords.now) }
{
    keywords_are_plain(keywords);
}

/// The flags that may be changed are printed as one line.
pub fn permanent_flags_are_printable(flags: &FlagSet, any: bool)
    ensures { IsPrintable (response.PermanentFlags flags.now any) }
{
    keywords_are_plain(&flags.keywords);
}

fn option_is_plain(flags: &Option<FlagSet>)
    ensures { AllByRecursion IsPlain (flags_keywords flags.now) }
{
    match flags {
        Some(flags) => keywords_are_plain(&flags.keywords),
        None => {}
    }
}

fn keywords_are_plain(keywords: &Keywords)
    ensures { AllByRecursion IsPlain keywords.now }
{
    let _ = keywords.as_slice();
}

fn names_are_plain(names: &[FieldName])
    ensures { AllByRecursion IsPlain names.now }
{
    for name in names {
        let _ = name.as_slice();
    }
}

fn section_is_plain(section: &Section)
    ensures { AllByRecursion IsPlain (section_names section.now) }
{
    match section {
        Section::Whole | Section::Header | Section::Text => {}
        Section::Fields(names) | Section::FieldsNot(names) => names_are_plain(names.as_slice()),
    }
}

fn sections_are_plain(sections: &[FetchedSection])
    ensures plain { AllByRecursion IsPlain (flat_map (λ body. section_names body.section) sections.now) }
    ensures held { AllByRecursion IsHeld (map (λ body. concat body.octets) sections.now) }
{
    for section in sections {
        section_is_plain(&section.section);
        let _ = section.octets.len();
    }
}
