//! Reading the head of a partial report.
ghost use Rattle.std.specs.Prelude.{◌≡◌, ◌++◌, ◌∷◌, ◌<◌, ◌^◌, ℕ, List, true, length, None, Some, IfOk, IfSome, IsOkAnd};
ghost use Rattle.std.specs.Prelude.{IsSomeAnd, codes};
ghost use Rattle.std.specs.Fmt.{decimal};
ghost use Rattle.std.specs.List.{AllByRecursion, flat_map, list_all};
ghost use Rattle.hex.specs.Hex.{encode_lower};
ghost use Rattle.partial_reports.specs.declared.head.Head.{Head};
ghost use Rattle.partial_reports.specs.declared.words.Word.{Word};
ghost use Rattle.partial_reports.specs.Readable.{HasNoByte};
ghost use Rattle.partial_reports.specs.HeadReading.{IsDigest, UnlessMemory, part_line};
ghost use Rattle.partial_reports.specs.Head.{dimensions_text, head_text, is_proper, is_short_word, kind_text};
ghost use Rattle.partial_reports.specs.Head.{numbers_text, part_text, word_text};

use crate::head::Head;
use crate::refused::{Refused, Wrong};
use crate::rows::after;
use crate::texts::head_text;
use crate::words::{Word, WordKind};
use cube_model::Items;
use hex::FromHex;
use memchr::memchr;
use std::alloc::Global;

/// The head of a partial report, and what is after it.
#[derive(Drop)]
pub struct HeadRead<'a> {
    pub head: Head,
    /// The digest of the dimension rows.
    pub digest: [u8; 32],
    /// The report of the partial answer.
    pub report: &'a [u8],
    /// The number of the report's first line.
    pub line: u64,
}

/// The head that a text begins with.
pub fn read_head(alloc: Global, text: &[u8]) -> Result<HeadRead<'_>, Refused>
    ensures text { IfOk result (λ read. text.now ≡ head_text read.head read.digest ++ read.report.now) }
    ensures proper { IfOk result (λ read. is_proper read.head ≡ true) }
    ensures digest { IfOk result (λ read. IsDigest read.digest) }
    ensures complete { (head : Head) (digest left : List ℕ) → is_proper head ≡ true → IsDigest digest
        → text.now ≡ head_text head digest ++ left
        → UnlessMemory result (λ read. (read.head ≡ head) × (read.digest ≡ digest) × (read.report.now ≡ left)) }
{
    let mut lines = TextLines {
        left: text,
        number: 0,
    };
    let (head, digest) = parse_head(alloc, &mut lines)?;
    let line = lines.number.saturating_add(1);
    if !head.is_proper() {
        return Err(Refused::at(2, Wrong::Part));
    }
    let spelled = head_text(alloc, &head, &digest)?;
    match after(text, spelled.as_slice()) {
        Some(report) => Ok(HeadRead {
            head,
            digest,
            report,
            line,
        }),
        None => Err(Refused::at(2, Wrong::Part)),
    }
}

// What is before the first byte of some number in a text, and what is after it.
pub(crate) fn cut(text: &[u8], sign: u8) -> Option<(&[u8], &[u8])>
    ensures found { (front back : List ℕ) → HasNoByte sign front → text.now ≡ front ++ sign ∷ back
        → IsSomeAnd result (λ halves. (halves.0.now ≡ front) × (halves.1.now ≡ back)) }
    ensures none { HasNoByte sign text.now → result ≡ None }
    ensures shorter { IfSome result (λ halves. length halves.1.now < length text.now) }
{
    let end = memchr(sign, text)?;
    Some((&text[..end], &text[end + 1..]))
}

// What is left of a text, and how many lines were taken.
#[derive(Drop)]
struct TextLines<'a> {
    left: &'a [u8],
    number: u64,
}

impl<'a> TextLines<'a> {
    // The next line without its line feed.
    fn next(&mut self) -> Result<&'a [u8], Refused>
        ensures { (line left : List ℕ) → HasNoByte 10 line → self.old.left.now ≡ line ++ 10 ∷ left
            → IsOkAnd result (λ read. (read.now ≡ line) × (self.new.left.now ≡ left)) }
    {
        self.number = self.number.saturating_add(1);
        match cut(self.left, b'\n') {
            Some((line, left)) => {
                self.left = left;
                Ok(line)
            }
            None => Err(self.wrong(Wrong::Cut)),
        }
    }

    // That the line that was taken last is wrong.
    fn wrong(&self, wrong: Wrong) -> Refused {
        Refused::at(self.number, wrong)
    }
}

// The head that lines may spell. Its spelling is compared by the caller.
fn parse_head(alloc: Global, lines: &mut TextLines<'_>) -> Result<(Head, [u8; 32]), Refused>
    ensures { (head : Head) (digest left : List ℕ) → is_proper head ≡ true → IsDigest digest
        → lines.old.left.now ≡ head_text head digest ++ left
        → UnlessMemory result (λ read. (read.0 ≡ head) × (read.1 ≡ digest)) }
{
    let version = lines.next()?;
    if version != b"ssbcube partial report 1".as_slice() {
        return Err(lines.wrong(Wrong::Version));
    }
    let (numbers, parts) = parse_part(alloc, lines)?;
    let digest = parse_dimensions(lines)?;
    let words = parse_words(alloc, lines)?;
    let head = Head {
        numbers,
        parts,
        words,
    };
    Ok((head, digest))
}

fn parse_part(alloc: Global, lines: &mut TextLines<'_>) -> Result<(Items<u32>, u32), Refused>
    ensures { (head : Head) (left : List ℕ) → is_proper head ≡ true → lines.old.left.now ≡ part_text head ++ left
        → UnlessMemory result (λ part. (part.0 ≡ head.numbers) × (part.1 ≡ head.parts) × (lines.new.left.now ≡ left)) }
{
    let line = lines.next()?;
    match part_in(alloc, line) {
        Ok(Some(part)) => Ok(part),
        Ok(None) => Err(lines.wrong(Wrong::Part)),
        Err(refused) => Err(refused),
    }
}

fn part_in(alloc: Global, line: &[u8]) -> Result<Option<(Items<u32>, u32)>, Refused>
    ensures { (head : Head) → is_proper head ≡ true → line.now ≡ part_line head
        → UnlessMemory result (λ part. part ≡ Some (head.numbers, head.parts)) }
{
    let Some(part) = after(line, b"part ") else {
        return Ok(None);
    };
    let Some((fields, last)) = cut(part, b'/') else {
        return Ok(None);
    };
    let Some(parts) = number_in(last) else {
        return Ok(None);
    };
    let numbers = numbers_in(alloc, fields)?;
    Ok(Some((numbers, parts)))
}

// The numbers up to the first field that is none.
fn numbers_in(alloc: Global, fields: &[u8]) -> Result<Items<u32>, Refused>
    ensures { (numbers : List ℕ) → 0 < length numbers → AllByRecursion (λ number. number < 2 ^ 32) numbers
        → fields.now ≡ numbers_text numbers
        → UnlessMemory result (λ read. read ≡ numbers) }
{
    let mut numbers = Items::new(alloc);
    let mut left = fields;
    while let Some((field, others)) = cut(left, b',') {
        match number_in(field) {
            Some(number) => numbers.push(number)?,
            None => return Ok(numbers),
        }
        left = others;
    }
    if let Some(number) = number_in(left) {
        numbers.push(number)?;
    }
    Ok(numbers)
}

fn number_in(field: &[u8]) -> Option<u32>
    ensures { (number : ℕ) → number < 2 ^ 32 → field.now ≡ decimal number → result ≡ Some number }
{
    match str::from_utf8(field) {
        Ok(text) => text.parse::<u32>().ok(),
        Err(_) => None,
    }
}

fn parse_dimensions(lines: &mut TextLines<'_>) -> Result<[u8; 32], Refused>
    ensures { (digest left : List ℕ) → IsDigest digest → lines.old.left.now ≡ dimensions_text digest ++ left
        → IsOkAnd result (λ read. (read ≡ digest) × (lines.new.left.now ≡ left)) }
{
    let line = lines.next()?;
    match digest_in(line) {
        Some(digest) => Ok(digest),
        None => Err(lines.wrong(Wrong::Dimensions)),
    }
}

fn digest_in(line: &[u8]) -> Option<[u8; 32]>
    ensures { (digest : List ℕ) → IsDigest digest → line.now ≡ codes "dimensions " ++ encode_lower digest
        → result ≡ Some digest }
{
    let digits = after(line, b"dimensions ")?;
    <[u8; 32] as FromHex>::from_hex(digits).ok()
}

// The words up to an empty line. Each takes a byte at least, so the loop does not end before.
fn parse_words(alloc: Global, lines: &mut TextLines<'_>) -> Result<Items<Word>, Refused>
    ensures { (words : List Word) (left : List ℕ) → list_all is_short_word words ≡ true
        → lines.old.left.now ≡ flat_map word_text words ++ 10 ∷ left
        → UnlessMemory result (λ read. (read ≡ words) × (lines.new.left.now ≡ left)) }
{
    let mut words = Items::new(alloc);
    for _taken in 0..lines.left.len() {
        let line = lines.next()?;
        if line.is_empty() {
            return Ok(words);
        }
        match word_in(alloc, line)? {
            Some(word) => words.push(word)?,
            None => return Err(lines.wrong(Wrong::Words)),
        }
    }
    // Each turn takes a byte, so the text was empty.
    Err(Refused::at(lines.number.saturating_add(1), Wrong::Cut))
}

fn word_in(alloc: Global, line: &[u8]) -> Result<Option<Word>, Refused>
    ensures { (word : Word) → line.now ≡ kind_text word.kind ++ word.text
        → UnlessMemory result (λ read. read ≡ Some word) }
{
    let Some((kind, text)) = kind_and_text(line) else {
        return Ok(None);
    };
    let text = Vec::from_slice(alloc, text)?;
    Ok(Some(Word {
        kind,
        text: Items::from_vec(text),
    }))
}

// The kind of a word, and its text.
fn kind_and_text(line: &[u8]) -> Option<(WordKind, &[u8])>
    ensures { (word : Word) → line.now ≡ kind_text word.kind ++ word.text
        → IsSomeAnd result (λ read. (read.0 ≡ word.kind) × (read.1.now ≡ word.text)) }
{
    let letter = line.first()?;
    let kind = WordKind::of(*letter);
    let text = after(line, kind.name())?;
    Some((kind, text))
}
