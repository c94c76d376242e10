//! Runs of commands over the sample star, and the replies that are wanted.
use crate::answers::{Lines, answer};
use crate::sessions::{created, status};
use crate::stored::with_cuboids;
use cube_model::{Fault, Items};
use sample_star::{Asked, Fact, Star, dim_rows, line_orders, query};
use sector_device::MemDisk;
use std::alloc::Global;
use warehouse::{Chosen, Command, NewRows, Reply, Status, StoredCuboid, run};

/// A command, as constants can hold it.
pub enum Given {
    Submit(u32, &'static [Fact<'static>]),
    Query(u32, Asked<'static>),
    Status,
    Choose(u8),
    Upkeep,
    Audit,
    Add(u32, Star<'static>),
    Migrate,
    Start(u8, u32, Asked<'static>),
    Step(u8),
}

/// The numbers of a warehouse that stores cuboids, or to whose dimensions rows were added.
pub struct Numbers {
    pub batches: u32,
    pub rows: u64,
    pub additions: u32,
    pub target: u32,
    pub generation: u64,
    pub cuboids: &'static [StoredCuboid],
}

/// A reply. An answer has these lines; plain numbers are those of so many batches and rows, which took a commit each;
/// of a choice there are the numbers of the views and their benefits.
pub enum Expected {
    Done,
    More,
    Answer(Lines),
    Plain(u32, u64),
    Numbers(Numbers),
    Chosen(&'static [(u16, u64)]),
    Audited(bool),
    Refused(Fault),
}

/// Commands in turn, and the replies.
pub type Script = &'static [(Given, Expected)];

/// The command that adds rows to the dimensions.
fn addition(alloc: Global, number: u32, star: &Star<'_>) -> Result<Command, Fault> {
    match NewRows::new(dim_rows(alloc, star)?) {
        Some(rows) => Ok(Command::Add(number, rows)),
        None => Err(Fault::BadLayout), // its texts are short
    }
}

fn command(alloc: Global, given: &Given) -> Result<Command, Fault> {
    match given {
        Given::Submit(number, facts) => Ok(Command::Submit(
            *number,
            Items::from_vec(line_orders(alloc, facts)?),
        )),
        Given::Query(as_of, asked) => Ok(Command::Query(*as_of, query(alloc, asked)?)),
        Given::Start(slot, as_of, asked) => {
            Ok(Command::Start(*slot, *as_of, query(alloc, asked)?))
        }
        Given::Status => Ok(Command::Status),
        Given::Choose(k) => Ok(Command::Choose(*k)),
        Given::Upkeep => Ok(Command::Upkeep),
        Given::Audit => Ok(Command::Audit),
        Given::Add(number, star) => addition(alloc, *number, star),
        Given::Migrate => Ok(Command::Migrate),
        Given::Step(slot) => Ok(Command::Step(*slot)),
    }
}

fn commands(alloc: Global, script: Script) -> Result<Vec<Command>, Fault> {
    let mut commands = Vec::new(alloc);
    for (given, _) in script {
        commands.push(command(alloc, given)?)?;
    }
    Ok(commands)
}

/// The replies to a script on a new warehouse of the sample star.
fn replies(alloc: Global, sectors: u32, script: Script) -> Result<Vec<Reply>, Fault> {
    let commands = commands(alloc, script)?;
    let mut session = created(alloc, MemDisk::new(alloc, sectors)?)?;
    run(alloc, &mut session, commands.as_slice())
}

fn are_chosen(list: &[Chosen], wanted: &[(u16, u64)]) -> bool {
    list.iter()
        .map(|one| (one.view.index(), one.benefit))
        .eq(wanted.iter().copied())
}

fn status_of(numbers: &Numbers) -> Status {
    let plain = Status {
        additions: numbers.additions,
        target: numbers.target,
        generation: numbers.generation,
        ..status(numbers.batches, numbers.rows)
    };
    with_cuboids(plain, numbers.cuboids)
}

fn is_wanted(alloc: Global, reply: &Reply, expected: &Expected) -> Result<bool, Fault> {
    match (reply, expected) {
        (Reply::Done, Expected::Done) => Ok(true),
        (Reply::More, Expected::More) => Ok(true),
        (Reply::Answer(found), Expected::Answer(lines)) => Ok(*found == answer(alloc, lines, 1)?),
        (Reply::Numbers(found), Expected::Plain(batches, rows)) => {
            Ok(*found == status(*batches, *rows))
        }
        (Reply::Numbers(found), Expected::Numbers(numbers)) => Ok(*found == status_of(numbers)),
        (Reply::Chosen(list), Expected::Chosen(wanted)) => Ok(are_chosen(list.as_slice(), wanted)),
        (Reply::Audited(yes), Expected::Audited(wanted)) => Ok(yes == wanted),
        (Reply::Refused(fault), Expected::Refused(wanted)) => Ok(fault == wanted),
        _ => Ok(false),
    }
}

/// The place of the first reply that is another one than is wanted, where a script runs on a new warehouse of so many
/// sectors.
pub fn first_other_reply(
    alloc: Global,
    sectors: u32,
    script: Script,
) -> Result<Option<usize>, Fault> {
    let replies = replies(alloc, sectors, script)?;
    if replies.len() != script.len() {
        return Ok(Some(replies.len()));
    }
    let mut place: usize = 0;
    for (reply, (_, expected)) in replies.iter().zip(script) {
        if !is_wanted(alloc, reply, expected)? {
            return Ok(Some(place));
        }
        place = place.saturating_add(1);
    }
    Ok(None)
}
