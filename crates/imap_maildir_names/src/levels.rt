//! The folders of a level of a name.

ghost use Rattle.std.specs.Prelude.{◌≡◌, ℕ, ◌++◌, ◌≤◌, ◌<◌, true, chars, encode_utf8, encode_utf8_all, length};
ghost use Rattle.std.specs.Prelude.{string_bytes, IfOk, OnOk};
ghost use Rattle.imap_maildir_names.specs.Levels as specs;
ghost use Rattle.imap_maildir_names.specs.Levels.{level_path, letter, octets, max_used};

use std::alloc::{AllocError, Global};

/// The most octets of a folder's name (NAME_MAX of Linux).
const MAX_NAME_OCTETS: usize = 255;

/// The most octets after which a folder's name has room for another letter and a `%`.
const MAX_USED: usize = 250;

/// Appends a slash and the folders of a level.
pub(crate) fn push_level(alloc: Global, path: &mut String, level: &str) -> Result<(), AllocError>
    ensures { OnOk result (string_bytes path.new ≡ string_bytes path.old ++ level_path level.now) }
{
    path.push('/')?;
    let whole = whole(alloc, level)?;
    if whole.len() <= MAX_NAME_OCTETS {
        path.push_str(whole.as_str())
    } else {
        push_split(path, level)
    }
}

/// Whether the first letter of a level is marked: a folder of this name is hidden, or is one of a Maildir's own.
fn is_special(level: &str) -> bool
    ensures { result ≡ specs.is_special level.now }
{
    level.starts_with('.')
        || level == "cur"
        || level == "new"
        || level == "tmp"
        || level == "dovecot-keywords"
}

/// Returns the level as the name of one folder.
fn whole(alloc: Global, level: &str) -> Result<String, AllocError>
    ensures { let text = specs.written (specs.is_special level.now) (chars level.now) in
        IfOk result (λ made. string_bytes made ≡ encode_utf8_all text) }
{
    let mut text = String::new(alloc);
    push_written(&mut text, level, is_special(level))?;
    Ok(text)
}

/// Appends the letters of a level, the first of them marked if `is_marked`.
fn push_written(text: &mut String, level: &str, is_marked: bool) -> Result<(), AllocError>
    ensures { let more = specs.written is_marked (chars level.now) in
        OnOk result (string_bytes text.new ≡ string_bytes text.old ++ encode_utf8_all more) }
{
    let mut is_first = is_marked;
    for char in level.chars() {
        push_letter(text, char, is_first)?;
        is_first = false;
    }
    Ok(())
}

/// Appends the folders of a level that is too long for one.
fn push_split(path: &mut String, level: &str) -> Result<(), AllocError>
    ensures { let more = specs.pieces 0 (chars level.now) in
        OnOk result (string_bytes path.new ≡ string_bytes path.old ++ encode_utf8_all more) }
{
    let mut used = 0;
    for char in level.chars() {
        used = push_piece(path, char, used)?;
    }
    Ok(())
}

/// Appends a letter to a folder's name that has `used` octets, or that of the next folder if it is full. Returns how many
/// octets the name has then.
fn push_piece(path: &mut String, char: char, used: usize) -> Result<usize, AllocError>
    ensures text { OnOk result
        (string_bytes path.new ≡ string_bytes path.old ++ encode_utf8_all (specs.piece used char)) }
    ensures used { IfOk result (λ after. after ≡ specs.used_after used char) }
{
    let kept = kept_after(path, used)?;
    push_letter(path, char, kept == 0)?;
    Ok(kept + letter_octets(char, kept == 0))
}

/// Begins the next folder if the name of this one has `used` octets and is full. Returns how many the name has then.
fn kept_after(path: &mut String, used: usize) -> Result<usize, AllocError>
    ensures text { OnOk result
        (string_bytes path.new ≡ string_bytes path.old ++ encode_utf8_all (specs.ending used)) }
    ensures kept { IfOk result (λ after. after ≡ specs.kept used) }
    ensures few { IfOk result (λ after. after ≤ max_used) }
{
    if used <= MAX_USED {
        return Ok(used);
    }
    path.push_str("%/")?;
    Ok(0)
}

/// Whether a letter is marked, as the first of a folder's name if `is_first`.
fn is_marked(char: char, is_first: bool) -> bool
    ensures { result ≡ specs.is_marked is_first char }
{
    char == '%' || is_first && char.is_ascii()
}

fn letter_octets(char: char, is_first: bool) -> usize
    ensures octets { result ≡ octets (letter is_first char) }
    ensures few { result ≤ 4 }
{
    if is_marked(char, is_first) {
        3
    } else {
        char.len_utf8()
    }
}

/// Appends a letter, as the first of a folder's name if `is_first`.
fn push_letter(text: &mut String, char: char, is_first: bool) -> Result<(), AllocError>
    ensures { OnOk result
        (string_bytes text.new ≡ string_bytes text.old ++ encode_utf8_all (letter is_first char)) }
{
    if is_marked(char, is_first) {
        push_marked(text, char)
    } else {
        text.push(char)
    }
}

/// Appends `%` and the two hexadecimal digits of an ASCII letter.
fn push_marked(text: &mut String, char: char) -> Result<(), AllocError>
    requires { char < 128 }
    ensures { OnOk result
        (string_bytes text.new ≡ string_bytes text.old ++ encode_utf8_all (specs.mark char)) }
{
    text.push('%')?;
    text.push(digit(char as u32 / 16))?;
    text.push(digit(char as u32 % 16))
}

/// Returns the hexadecimal digit of a number.
fn digit(number: u32) -> char
    requires { number < 16 }
    ensures digit { result ≡ specs.digit number }
    ensures ascii { result < 128 }
{
    match char::from_digit(number, 16) {
        Some(digit) => digit.to_ascii_uppercase(),
        None => unreachable!(),
    }
}
