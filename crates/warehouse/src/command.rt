//! What a run is asked, and what it answers.
use crate::chosen::Chosen;
use crate::new_rows::NewRows;
use crate::status::Status;
use cube_model::{Answer, Fault, Items, LineOrder, Query};

/// A command of a run.
pub enum Command {
    /// Adds a batch under a number.
    Submit(u32, Items<LineOrder>),
    /// Asks a query over the first batches, so many of them.
    Query(u32, Query),
    /// Asks for the numbers of the warehouse.
    Status,
    /// Stores the cuboids of the greedy list of so many views.
    Choose(u8),
    /// Brings each stored cuboid to all batches.
    Upkeep,
    /// Asks whether each stored cuboid is what it is to be.
    Audit,
    /// Adds rows to the dimensions under a number.
    Add(u32, NewRows),
    /// Moves the warehouse to the second layout.
    Migrate,
    /// Starts a query in a slot from 0 to 15, over the first batches of then, so many of them. What ran there is
    /// dropped.
    Start(u8, u32, Query),
    /// Makes the next step of the query in a slot.
    Step(u8),
}

// Written out, so that a proof has one call to follow where one is let go.
impl Drop for Command {
    fn drop(self) {
        match self {
            Command::Submit(_, _) => {}
            Command::Query(_, _) => {}
            Command::Status => {}
            Command::Choose(_) => {}
            Command::Upkeep => {}
            Command::Audit => {}
            Command::Add(_, _) => {}
            Command::Migrate => {}
            Command::Start(_, _, _) => {}
            Command::Step(_) => {}
        }
    }
}

/// The reply to a command.
#[derive(PartialEq)]
pub enum Reply {
    /// The batch or the rows were added, the query was started, each stored cuboid holds all batches, or the warehouse
    /// is in the second layout.
    Done,
    /// A batch was counted in, and the query runs on.
    More,
    /// The answer to the query. It runs no more.
    Answer(Answer),
    /// The numbers of the warehouse.
    Numbers(Status),
    /// The views that were chosen, in the order of choice.
    Chosen(Items<Chosen>),
    /// Whether each stored cuboid is what it is to be.
    Audited(bool),
    /// The command was refused.
    Refused(Fault),
}

// Written out, as that of a command.
impl Drop for Reply {
    fn drop(self) {
        match self {
            Reply::Done => {}
            Reply::More => {}
            Reply::Answer(_) => {}
            Reply::Numbers(_) => {}
            Reply::Chosen(_) => {}
            Reply::Audited(_) => {}
            Reply::Refused(_) => {}
        }
    }
}
