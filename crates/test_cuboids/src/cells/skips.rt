//! Cells of a run that are passed over, and what is read of the run then.
ghost use Rattle.std.specs.Prelude.{◌≡◌, Some};
ghost use Rattle.cuboid_cells.specs.Pieces.{size_of_run};

use crate::cells::sample::{FIRST, run};
use cube_model::Fault;
use cuboid_cells::{Cell, Key, RunReader};
use std::alloc::Global;
use std::test::Fail;
use wire::Source;

// Bytes at every id, how many reads there were, and how many bytes these gave.
#[derive(Drop)]
struct Counted<'a> {
    bytes: &'a [u8],
    reads: u64,
    given: u64,
}

impl<'a> Source for Counted<'a> {
    ghost use Rattle.std.specs.Prelude.{length, Some};

    ghost totals = { λ s id. Some (length s.bytes.now) };

    ghost texts = { λ s id. Some s.bytes.now };

    ghost keeps_word = { λ s. Unit {0} };

    ghost always_keeps = { Unit {0} };

    ghost reads = { λ old new. Unit {0} };

    ghost fails = { λ fault old new. ⊥ };

    fn total(&self, id: u32) -> Option<u64> {
        let _ = id;
        Some(self.bytes.len() as u64)
    }

    fn read_part(&mut self, id: u32, at: u64, to: &mut [u8]) -> Result<(), Fault> {
        let _ = id;
        let at = at as usize;
        to.copy_from_slice(&self.bytes[at..at + to.len()]);
        self.reads = self.reads.saturating_add(1);
        self.given = self.given.saturating_add(to.len() as u64);
        Ok(())
    }

    ghost none_read = { λ source. tt };

    ghost reads_on = { λ old mid new first second. tt };

    ghost fails_later = { λ fault old mid new first second. second };
}

// A cell of a manufacturer at a day, and of one row.
fn cell(part: u16, date: u16) -> Cell {
    Cell {
        key: Key {
            customer: 65_535,
            supplier: 65_535,
            part,
            date,
            ship_mode: 65_535,
        },
        count: 1,
        measures: FIRST,
    }
}

// The least number that the key of a cell of a manufacturer can have.
fn least_of(part: u16) -> u128 {
    let least = Key {
        ship_mode: 0,
        ..cell(part, 0).key
    };
    least.number()
}

// The manufacturer and the day of the next cell of a run.
fn next_codes<S: Source>(
    alloc: Global,
    source: &mut S,
    run: &mut RunReader,
) -> Result<Option<(u16, u16)>, Fault>
    requires { S.totals source.old run.old.id ≡ Some (size_of_run run.old) }
{
    if run.is_done() {
        return Ok(None);
    }
    let mut cells = Vec::new(alloc);
    run.read_piece(source, &mut cells)?;
    match cells.first() {
        Some(cell) => Ok(Some((cell.key.part, cell.key.date))),
        None => Ok(None),
    }
}

// The same once the cells of manufacturers below one are passed over.
fn codes_from<S: Source>(
    alloc: Global,
    source: &mut S,
    part: u16,
) -> Result<Option<(u16, u16)>, Fault> {
    let mut run = RunReader::open(alloc, source, 9)?;
    run.skip_to(source, least_of(part))?;
    next_codes(alloc, source, &mut run)
}

// The run of so many manufacturers with as many days each.
fn run_of(alloc: Global, parts: u16, dates: u16) -> Result<Vec<u8>, Fault> {
    let mut cells = Vec::new(alloc);
    for part in 0..parts {
        for date in 0..dates {
            cells.push(cell(part, date))?;
        }
    }
    run(alloc, 248, cells.as_slice())
}

// Manufacturers and days of each, the manufacturer up to whose cells others are passed over, how many reads are made up
// to its first cells at most, and whether there are some.
static READS: [(u16, u16, u16, u64, bool); 9] = [
    // A run of one piece is read once.
    (3, 2, 0, 1, true),
    (3, 2, 1, 1, true),
    (3, 2, 2, 1, true),
    (3, 2, 3, 1, false),
    // The first piece is read once.
    (10, 500, 0, 1, true),
    // The key a piece further on is read, nine halve the 404 cells before it to one, and the piece from there on is
    // read.
    (10, 500, 1, 12, true),
    // The key a piece further on is read, 13 halve the cells after it to one.
    (10, 500, 7, 16, true),
    (10, 500, 9, 16, true),
    (10, 500, 10, 15, false),
];

// The first of the next cells of such a run then, how many reads were made, and how many bytes they gave.
fn first_from(
    alloc: Global,
    parts: u16,
    dates: u16,
    part: u16,
) -> Result<(Option<(u16, u16)>, u64, u64), Fault> {
    let bytes = run_of(alloc, parts, dates)?;
    let mut source = Counted {
        bytes: bytes.as_slice(),
        reads: 0,
        given: 0,
    };
    let codes = codes_from(alloc, &mut source, part)?;
    Ok((codes, source.reads, source.given))
}

#[test]
fn reads_few_keys(rt: HostRuntime) -> Result<(), Fail> {
    for (parts, dates, part, most, some) in &READS {
        let (first, reads, given) = first_from(rt.alloc(), *parts, *dates, *part)?;
        let want = if *some { Some((*part, 0)) } else { None };
        assert!(rt;
            first == want && reads <= *most && given <= 131_232,
            "{part} of {parts}"
        );
    }
    Ok(())
}
