//! The text of a head.
ghost use Rattle.std.specs.Prelude.{◌≡◌, ◌++◌, IfOk, OnOk, IsOkUnless};
ghost use Rattle.std.specs.Fmt.{decimal};
ghost use Rattle.std.specs.List.{flat_map};
ghost use Rattle.partial_reports.specs.Head.{after_comma, dimensions_text, head_text, numbers_text, part_text};
ghost use Rattle.partial_reports.specs.Head.{word_text};
ghost use Rattle.partial_reports.specs.HeadReading.{IsDigest};

use crate::head::Head;
use crate::words::Word;
use cube_model::Fault;
use itoa::Buffer;
use std::alloc::Global;
use wire::push_bytes;

/// The text of a head over dimensions of some digest. It can only fail when out of memory.
pub fn head_text(alloc: Global, head: &Head, digest: &[u8; 32]) -> Result<Vec<u8>, Fault>
    ensures ok { IfOk result (λ text. text.items ≡ head_text head.now digest.now) }
    ensures digest { OnOk result (IsDigest digest.now) }
    ensures only { IsOkUnless result Fault.Memory }
{
    let mut out = Vec::new(alloc);
    push_bytes(&mut out, b"ssbcube partial report 1\n")?;
    push_part(&mut out, head)?;
    push_dimensions(alloc, &mut out, digest)?;
    push_words(&mut out, head.words.as_slice())?;
    push_bytes(&mut out, b"\n")?;
    Ok(out)
}

// Adds the line of the parts.
fn push_part(out: &mut Vec<u8>, head: &Head) -> Result<(), Fault>
    ensures ok { OnOk result (out.new.items ≡ out.old.items ++ part_text head.now) }
    ensures only { IsOkUnless result Fault.Memory }
{
    push_bytes(out, b"part ")?;
    push_numbers(out, head.numbers.as_slice())?;
    push_bytes(out, b"/")?;
    push_number(out, head.parts)?;
    push_bytes(out, b"\n")
}

// Adds numbers with commas between.
fn push_numbers(out: &mut Vec<u8>, numbers: &[u32]) -> Result<(), Fault>
    ensures ok { OnOk result (out.new.items ≡ out.old.items ++ numbers_text numbers.now) }
    ensures only { IsOkUnless result Fault.Memory }
{
    let Some((first, others)) = numbers.split_first() else {
        return Ok(());
    };
    push_number(out, *first)?;
    push_after_commas(out, others)
}

// Adds numbers, each after a comma.
fn push_after_commas(out: &mut Vec<u8>, numbers: &[u32]) -> Result<(), Fault>
    ensures ok { OnOk result (out.new.items ≡ out.old.items ++ flat_map after_comma numbers.now) }
    ensures only { IsOkUnless result Fault.Memory }
{
    for number in numbers {
        push_after_comma(out, *number)?;
    }
    Ok(())
}

fn push_after_comma(out: &mut Vec<u8>, number: u32) -> Result<(), Fault>
    ensures ok { OnOk result (out.new.items ≡ out.old.items ++ after_comma number) }
    ensures only { IsOkUnless result Fault.Memory }
{
    push_bytes(out, b",")?;
    push_number(out, number)
}

// Adds a number in decimal.
fn push_number(out: &mut Vec<u8>, number: u32) -> Result<(), Fault>
    ensures ok { OnOk result (out.new.items ≡ out.old.items ++ decimal number) }
    ensures only { IsOkUnless result Fault.Memory }
{
    let mut buffer = Buffer::new();
    push_bytes(out, buffer.format(number).as_bytes())
}

// Adds the line of the dimensions.
fn push_dimensions(alloc: Global, out: &mut Vec<u8>, digest: &[u8; 32]) -> Result<(), Fault>
    ensures ok { OnOk result (out.new.items ≡ out.old.items ++ dimensions_text digest.now) }
    ensures digest { IsDigest digest.now }
    ensures only { IsOkUnless result Fault.Memory }
{
    let text = hex::encode(alloc, digest.as_slice())?;
    push_bytes(out, b"dimensions ")?;
    push_bytes(out, text.as_bytes())?;
    push_bytes(out, b"\n")
}

// Adds the lines of words.
fn push_words(out: &mut Vec<u8>, words: &[Word]) -> Result<(), Fault>
    ensures ok { OnOk result (out.new.items ≡ out.old.items ++ flat_map word_text words.now) }
    ensures only { IsOkUnless result Fault.Memory }
{
    for word in words {
        word.push_to(out)?;
    }
    Ok(())
}
