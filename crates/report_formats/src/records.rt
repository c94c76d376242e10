//! The text of records.
use crate::cell::{Cell, Json, Plain};
use crate::layout::Format;
use std::alloc::{AllocError, Global};
use std::fmt;

/// Records under names, as a text: with csv and tsv a line of the names, then a line for each record; with json an
/// object for each record, a line each, in which an empty cell is null.
#[derive(Drop)]
pub struct Records {
    format: Format,
    names: &'static [&'static str],
    text: String,
}

impl Records {
    /// No record yet, under names. It can only fail when out of memory.
    pub fn new(
        alloc: Global,
        format: Format,
        names: &'static [&'static str],
    ) -> Result<Records, AllocError> {
        let mut records = Records {
            format,
            names,
            text: String::new(alloc),
        };
        if format != Format::Json {
            records.begin(alloc)?;
        }
        Ok(records)
    }

    // Writes the line of the names.
    fn begin(&mut self, alloc: Global) -> Result<(), AllocError> {
        let names = Header {
            format: self.format,
            names: self.names,
        };
        self.text.push_str(format!(in alloc; "{names}")?.as_str())
    }

    /// Writes a record, with a cell for each name. It can only fail when out of memory, and then nothing is written.
    pub fn push(&mut self, alloc: Global, cells: &[Cell]) -> Result<(), AllocError> {
        let record = Record {
            format: self.format,
            names: self.names,
            cells,
        };
        self.text.push_str(format!(in alloc; "{record}")?.as_str())
    }

    /// The text so far.
    pub fn text(&self) -> &str {
        self.text.as_str()
    }
}

// What is in front of the field at a place of its line.
fn lead(format: Format, place: usize) -> &'static str {
    match format {
        _ if place == 0 => "",
        Format::Bars => "|",
        Format::Tsv => "\t",
        Format::Csv | Format::Json => ",",
    }
}

// What a line ends with.
fn ending(format: Format) -> &'static str {
    match format {
        Format::Csv => "\r\n",
        Format::Bars | Format::Tsv | Format::Json => "\n",
    }
}

// The line of the names.
#[derive(Clone, Copy)]
struct Header {
    format: Format,
    names: &'static [&'static str],
}

impl fmt::Display for Header {
    fn fmt<W: fmt::Write>(&self, f: &mut fmt::Formatter<W>) -> fmt::Result {
        for (place, name) in self.names.iter().enumerate() {
            write!(f, "{}{name}", lead(self.format, place))?;
        }
        f.write_str(ending(self.format))
    }
}

// The line of a record.
#[derive(Clone, Copy)]
struct Record<'c> {
    format: Format,
    names: &'static [&'static str],
    cells: &'c [Cell],
}

impl<'c> fmt::Display for Record<'c> {
    fn fmt<W: fmt::Write>(&self, f: &mut fmt::Formatter<W>) -> fmt::Result {
        match self.format {
            Format::Json => {
                f.write_str("{")?;
                self.write_members(f)?;
                f.write_str("}\n")
            }
            format => {
                self.write_cells(f)?;
                f.write_str(ending(format))
            }
        }
    }
}

impl<'c> Record<'c> {
    // Writes the members of the object.
    fn write_members<W: fmt::Write>(&self, f: &mut fmt::Formatter<W>) -> fmt::Result {
        for (place, (name, cell)) in self.names.iter().zip(self.cells).enumerate() {
            write!(f, "{}\"{name}\":{}", lead(Format::Json, place), Json(*cell))?;
        }
        Ok(())
    }

    // Writes the cells with what is between them.
    fn write_cells<W: fmt::Write>(&self, f: &mut fmt::Formatter<W>) -> fmt::Result {
        for (place, cell) in self.cells.iter().enumerate() {
            write!(f, "{}{}", lead(self.format, place), Plain(*cell))?;
        }
        Ok(())
    }
}
