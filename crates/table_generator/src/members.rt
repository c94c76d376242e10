//! The tables of customers, suppliers and parts.
use crate::places::{Nation, any_nation};
use crate::random::Random;
use crate::scale::Scale;
use std::io::{self, Write};

/// Writes the table of customers. Their keys count from 1.
pub fn write_customers<W: Write>(out: &mut W, random: &mut Random, scale: Scale) -> io::Result<()> {
    for key in 1..=scale.customers() {
        write_member(out, random, "Customer", key)?;
        writeln!(out, "BUILDING|")?;
    }
    Ok(())
}

/// Writes the table of suppliers. Their keys count from 1.
pub fn write_suppliers<W: Write>(out: &mut W, random: &mut Random, scale: Scale) -> io::Result<()> {
    for key in 1..=scale.suppliers() {
        write_member(out, random, "Supplier", key)?;
        writeln!(out)?;
    }
    Ok(())
}

// Writes a key, a name, a street, a city, its nation and region, and a phone. A city is nine letters of its nation and
// a digit.
fn write_member<W: Write>(
    out: &mut W,
    random: &mut Random,
    kind: &str,
    key: u64,
) -> io::Result<()> {
    write!(out, "{key}|{kind}#{key:09}|some street {key}|")?;
    let Nation { city, name, region } = any_nation(random);
    let digit = random.between(0, 9);
    write!(out, "{city}{digit}|{name}|{region}|")?;
    write_phone(out, random)
}

// Writes the numbers of a country, an area and a place, and one of four digits.
fn write_phone<W: Write>(out: &mut W, random: &mut Random) -> io::Result<()> {
    let country = random.between(10, 34);
    let (area, local) = (random.between(100, 999), random.between(100, 999));
    let number = random.between(1_000, 9_999);
    write!(out, "{country}-{area}-{local}-{number}|")
}

/// Writes the table of parts. Their keys count from 1.
pub fn write_parts<W: Write>(out: &mut W, random: &mut Random, scale: Scale) -> io::Result<()> {
    for key in 1..=scale.parts() {
        write_part(out, random, key)?;
    }
    Ok(())
}

// A manufacturer has five categories, and a category forty brands. A category is two digits, of which the first is the
// manufacturer's.
fn write_part<W: Write>(out: &mut W, random: &mut Random, key: u64) -> io::Result<()> {
    let maker = random.between(1, 5);
    let category = 10 * maker + random.between(1, 5);
    let brand = random.between(1, 40);
    let size = random.between(1, 50);
    write!(out, "{key}|lace spring|MFGR#{maker}|MFGR#{category}|")?;
    writeln!(
        out,
        "MFGR#{category}{brand}|green|PROMO BURNISHED TIN|{size}|JUMBO PKG|"
    )
}
