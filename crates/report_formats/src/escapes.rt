//! Texts in csv, tsv and json.
ghost use Rattle.std.specs.Prelude.{◌≡◌, ◌≤◌, ◌∷◌, ◌++◌, [], true, length, take, IsTrue};
ghost use Rattle.std.specs.List.{list_any};
ghost use Rattle.report_formats.specs.Escapes.{byte_text, csv_text, escaped, hex, hex_digit, is_mark, json_byte};
ghost use Rattle.report_formats.specs.Escapes.{json_text, needs_marks, quoted_byte, tabbed_byte};
ghost use Rattle.ssb_reports.specs.Writing.{Writes};

use cube_model::Fault;
use ssb_reports::write_bytes;
use std::io::Write;

/// Which bytes of a text are written in another way.
#[derive(Clone, Copy)]
pub(crate) enum Escaping {
    /// Those of csv between quotation marks.
    Quoted,
    /// Those of tsv.
    Tabbed,
    /// Those of json in a text that is UTF-8.
    Json,
    /// Those of json in any other.
    JsonBytes,
}

/// Hands a writer a field of csv.
pub(crate) fn write_csv_text<W: Write>(out: &mut W, text: &[u8]) -> Result<(), Fault>
    ensures { Writes (W.contents out.old) (W.contents out.new) result (csv_text text.now) }
{
    if needs_marks(text) {
        write_quoted(out, Escaping::Quoted, text)
    } else {
        write_bytes(out, text)
    }
}

/// Hands a writer a text as a string of json.
pub(crate) fn write_json_text<W: Write>(out: &mut W, text: &[u8]) -> Result<(), Fault>
    ensures { Writes (W.contents out.old) (W.contents out.new) result (json_text text.now) }
{
    match str::from_utf8(text) {
        Ok(_) => write_quoted(out, Escaping::Json, text),
        Err(_) => write_quoted(out, Escaping::JsonBytes, text),
    }
}

// Hands a writer a text between quotation marks.
fn write_quoted<W: Write>(out: &mut W, how: Escaping, text: &[u8]) -> Result<(), Fault>
    ensures { Writes (W.contents out.old) (W.contents out.new) result (34 ∷ (escaped how text.now ++ 34 ∷ [])) }
{
    write_bytes(out, b"\"")?;
    write_escaped(out, how, text)?;
    write_bytes(out, b"\"")
}

/// Hands a writer a text with its escapes.
pub(crate) fn write_escaped<W: Write>(out: &mut W, how: Escaping, text: &[u8]) -> Result<(), Fault>
    ensures { Writes (W.contents out.old) (W.contents out.new) result (escaped how text.now) }
{
    let plain = plain_length(how, text);
    write_bytes(out, &text[..plain])?;
    if plain == text.len() {
        return Ok(());
    }
    write_byte(out, how, text[plain])?;
    write_escaped(out, how, &text[plain + 1..])
}

// How many of the first bytes are written as they are: all up to the first that is not.
fn plain_length(how: Escaping, text: &[u8]) -> usize
    ensures bound { result ≤ length text.now }
    ensures plain { escaped how (take result text.now) ≡ take result text.now }
{
    for place in 0..text.len() {
        if !is_plain(how, text[place]) {
            return place;
        }
    }
    text.len()
}

fn is_plain(how: Escaping, byte: u8) -> bool
    ensures { IsTrue result → byte_text how byte ≡ byte ∷ [] }
{
    match how {
        Escaping::Quoted => byte != b'"',
        Escaping::Tabbed => byte != b'\t' && byte != b'\n' && byte != b'\r' && byte != b'\\',
        Escaping::Json => is_plain_json(byte),
        Escaping::JsonBytes => is_plain_json(byte) && byte < 128,
    }
}

fn is_plain_json(byte: u8) -> bool
    ensures { IsTrue result → json_byte byte ≡ byte ∷ [] }
{
    byte >= 32 && byte != b'"' && byte != b'\\'
}

fn write_byte<W: Write>(out: &mut W, how: Escaping, byte: u8) -> Result<(), Fault>
    ensures { Writes (W.contents out.old) (W.contents out.new) result (byte_text how byte) }
{
    match how {
        Escaping::Quoted => write_quoted_byte(out, byte),
        Escaping::Tabbed => write_tabbed_byte(out, byte),
        Escaping::Json => write_json_byte(out, byte),
        Escaping::JsonBytes => {
            if byte < 128 {
                write_json_byte(out, byte)
            } else {
                write_code(out, b"\\udc", byte)
            }
        }
    }
}

fn write_quoted_byte<W: Write>(out: &mut W, byte: u8) -> Result<(), Fault>
    ensures { Writes (W.contents out.old) (W.contents out.new) result (quoted_byte byte) }
{
    if byte == b'"' {
        return write_bytes(out, &[b'"', byte]);
    }
    write_bytes(out, &[byte])
}

fn write_tabbed_byte<W: Write>(out: &mut W, byte: u8) -> Result<(), Fault>
    ensures { Writes (W.contents out.old) (W.contents out.new) result (tabbed_byte byte) }
{
    if byte == b'\t' {
        return write_bytes(out, b"\\t");
    }
    if byte == b'\n' {
        return write_bytes(out, b"\\n");
    }
    if byte == b'\r' {
        return write_bytes(out, b"\\r");
    }
    if byte == b'\\' {
        return write_bytes(out, b"\\\\");
    }
    write_bytes(out, &[byte])
}

fn write_json_byte<W: Write>(out: &mut W, byte: u8) -> Result<(), Fault>
    ensures { Writes (W.contents out.old) (W.contents out.new) result (json_byte byte) }
{
    if byte == b'"' {
        return write_bytes(out, b"\\\"");
    }
    if byte == b'\\' {
        return write_bytes(out, b"\\\\");
    }
    if byte == b'\n' {
        return write_bytes(out, b"\\n");
    }
    if byte == b'\r' {
        return write_bytes(out, b"\\r");
    }
    if byte == b'\t' {
        return write_bytes(out, b"\\t");
    }
    if byte < 32 {
        return write_code(out, b"\\u00", byte);
    }
    write_bytes(out, &[byte])
}

// Hands a writer a beginning and the two hexadecimal digits of a byte.
fn write_code<W: Write>(out: &mut W, beginning: &[u8], byte: u8) -> Result<(), Fault>
    ensures { Writes (W.contents out.old) (W.contents out.new) result (beginning.now ++ hex byte) }
{
    let digits = [hex_digit(byte / 16), hex_digit(byte % 16)];
    write_bytes(out, beginning)?;
    write_bytes(out, &digits)
}

fn hex_digit(digit: u8) -> u8
    requires { digit ≤ 15 }
    ensures { result ≡ hex_digit digit }
{
    if digit < 10 { b'0' + digit } else { 87 + digit }
}

// Whether a text is between quotation marks in csv.
fn needs_marks(text: &[u8]) -> bool
    ensures { result ≡ needs_marks text.now }
{
    match text {
        [] => true,
        [_, ..] => has_mark(text),
    }
}

fn has_mark(text: &[u8]) -> bool
    ensures { result ≡ list_any is_mark text.now }
{
    text.iter().any(|byte| is_mark(*byte))
}

fn is_mark(byte: u8) -> bool
    ensures { result ≡ is_mark byte }
{
    byte == b',' || byte == b'"' || (byte == b'\r' || byte == b'\n')
}
