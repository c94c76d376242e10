//! The command `generate`.
use batch_loader::Table;
use clap::ArgMatches;
use command_files::exit::NO_COMMAND;
use command_files::refusal::Refusal;
use command_files::system::System;
use command_files::table_files::{TableLines, save_tables};
use cube_model::Fault;
use std::io::Write;
use table_generator::{
    Random, Scale, write_customers, write_dates, write_lineorders, write_parts, write_suppliers,
};

/// The seed of the random numbers, if the command does not say.
const SEED: u64 = 1;

/// Writes the five tables of a scale into a folder, and says so of each.
pub fn generate(rt: &System, given: &ArgMatches<'_>) -> Result<u8, Refusal> {
    let word = given.get_str("scale").unwrap_or("");
    let Some(scale) = Scale::of_text(word) else {
        return no_scale(rt, word);
    };
    let folder = given.get_str("folder").unwrap_or(".");
    let mut lines = Generated {
        random: Random::new(given.get_one::<u64>("seed").unwrap_or(SEED)),
        scale,
    };
    save_tables(rt, given, folder, &Table::ALL, &mut lines)
}

// Says that a word is no scale.
fn no_scale(rt: &System, word: &str) -> Result<u8, Refusal> {
    let said = eprintln!(rt;
        "error: invalid value '{word}' for '--scale <S>': 0.01 to 100, with at most two digits after the point\n\nFor more information, try '--help'."
    );
    match said {
        Ok(()) => Ok(NO_COMMAND),
        Err(_) => Err(Refusal::from(Fault::Output)),
    }
}

// The tables of a scale.
#[derive(Drop)]
struct Generated {
    random: Random,
    scale: Scale,
}

impl TableLines for Generated {
    fn write<W: Write>(&mut self, table: Table, out: &mut W) -> Result<(), Fault> {
        let (random, scale) = (&mut self.random, self.scale);
        let written = match table {
            Table::Customer => write_customers(out, random, scale),
            Table::Supplier => write_suppliers(out, random, scale),
            Table::Part => write_parts(out, random, scale),
            Table::Date => write_dates(out),
            Table::Lineorder => write_lineorders(out, random, scale),
        };
        match written {
            Ok(()) => Ok(()),
            Err(_) => Err(Fault::Output),
        }
    }
}
