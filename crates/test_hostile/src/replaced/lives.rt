//! Lives of a warehouse: its creation and some steps. A life is cut off at a device call, and what is found then leads
//! to the same end.
use cube_model::Fault;
use sample_sessions::{
    Lines, Revenue, add, answer, ask, created, half_opened, has_revenues, report, sample_dims,
    status, store_views, submit, with_cuboids,
};
use sample_star::{Asked, Fact, ONE_CUSTOMER};
use sector_device::{Fuse, MemDisk, Sectors};
use ssb_reports::QNumber;
use std::alloc::Global;
use warehouse::{Layout, Session, Status, StoredCuboid, create, open};

/// A step of a life.
#[derive(Clone, Copy)]
pub(crate) enum Step {
    Submit(u32, &'static [Fact<'static>]),
    /// The choice of three views.
    Choose,
    Views(&'static [u16]),
    Upkeep,
    /// The addition of the third customer.
    Add,
    Migrate,
    /// The questions, over all batches. `BadQuery` where one is answered otherwise than it should be.
    Ask,
}

/// The numbers of a warehouse, but for its generation.
#[derive(Clone, Copy)]
pub(crate) struct State {
    pub(crate) layout: Layout,
    pub(crate) batches: u32,
    pub(crate) rows: u64,
    pub(crate) additions: u32,
    pub(crate) target: u32,
    pub(crate) cuboids: &'static [StoredCuboid],
}

/// The warehouse that was just created.
pub(crate) const CREATED: State = State {
    layout: Layout::First,
    batches: 0,
    rows: 0,
    additions: 0,
    target: 0,
    cuboids: &[],
};

/// What is asked of a warehouse.
#[derive(Clone, Copy)]
pub(crate) enum Question {
    Benchmark(QNumber),
    Query(Asked<'static>),
}

/// A life.
pub(crate) struct Life {
    /// The size of the device.
    pub(crate) sectors: u32,
    /// What comes after the creation.
    pub(crate) steps: &'static [Step],
    /// The state after the creation, and after each step.
    pub(crate) states: &'static [State],
    /// What is answered over the first batches, at most three.
    pub(crate) questions: &'static [(Question, [Lines; 4])],
    /// And to the question for the revenue of each ship mode.
    pub(crate) modes: [&'static [Revenue]; 4],
    /// How many device calls the life makes at least.
    pub(crate) calls: u64,
}

/// A way in which calls fail, and what comes after it.
#[derive(Clone, Copy, Debug)]
pub(crate) struct Way {
    /// Whether each call fails from the first that fails on, or that one alone.
    pub(crate) all: bool,
    /// Whether a write that fails reaches the disk.
    pub(crate) reaches: bool,
    /// What a crash leaves of each sector that was written, if there is a crash: the oldest bytes (0) or the newest.
    pub(crate) picks: Option<&'static [u32]>,
    /// At most so many calls of the next opening are made, each number of them in turn, before it crashes too.
    pub(crate) opening: u64,
}

/// What was acknowledged of a life: the creation, and so many steps; and how the next one was refused, if it was.
#[derive(Clone, Copy)]
struct Reached {
    created: bool,
    steps: usize,
    refused: Option<Fault>,
}

/// Whether a session answers a question over its first batches as it should.
fn is_answered<D: Sectors>(
    alloc: Global,
    session: &mut Session<D>,
    batches: u32,
    case: &(Question, [Lines; 4]),
) -> Result<bool, Fault> {
    let (question, wanted) = case;
    let found = match question {
        Question::Benchmark(number) => report(alloc, session, batches, *number)?,
        Question::Query(asked) => ask(alloc, session, batches, asked)?,
    };
    match wanted.get(batches as usize) {
        Some(lines) => Ok(found == answer(alloc, lines, 1)?),
        None => Ok(false),
    }
}

/// Whether it answers all questions so.
fn are_answered<D: Sectors>(
    alloc: Global,
    session: &mut Session<D>,
    batches: u32,
    life: &Life,
) -> Result<bool, Fault> {
    for case in life.questions {
        if !is_answered(alloc, session, batches, case)? {
            return Ok(false);
        }
    }
    match life.modes.get(batches as usize) {
        Some(wanted) => has_revenues(alloc, session, batches, wanted),
        None => Ok(false),
    }
}

fn take<D: Sectors>(
    alloc: Global,
    session: &mut Session<D>,
    life: &Life,
    step: Step,
) -> Result<(), Fault> {
    match step {
        Step::Submit(number, facts) => submit(alloc, session, number, facts),
        Step::Choose => {
            let _chosen = session.choose(alloc, 3)?;
            Ok(())
        }
        Step::Views(views) => store_views(alloc, session, views),
        Step::Upkeep => session.upkeep(alloc),
        Step::Add => add(alloc, session, 1, &ONE_CUSTOMER),
        Step::Migrate => session.migrate(alloc),
        Step::Ask => {
            let batches = session.status()?.batches;
            if are_answered(alloc, session, batches, life)? {
                Ok(())
            } else {
                Err(Fault::BadQuery)
            }
        }
    }
}

/// Takes the steps of a life from a place on. How many were taken, and how the next one was refused, if it was.
fn live<D: Sectors>(
    alloc: Global,
    session: &mut Session<D>,
    life: &Life,
    from: usize,
) -> (usize, Option<Fault>) {
    for (place, step) in life.steps.iter().enumerate().skip(from) {
        if let Err(fault) = take(alloc, session, life, *step) {
            return (place, Some(fault));
        }
    }
    (life.steps.len(), None)
}

/// Lives on a device from the creation on.
fn begin<D: Sectors + Drop>(alloc: Global, device: D, life: &Life) -> Result<(Reached, D), Fault> {
    let dims = sample_dims(alloc)?;
    match create(alloc, device, dims) {
        Ok(mut session) => {
            let (steps, refused) = live(alloc, &mut session, life, 0);
            let reached = Reached {
                created: true,
                steps,
                refused,
            };
            Ok((reached, session.close()))
        }
        Err((fault, device)) => {
            let reached = Reached {
                created: false,
                steps: 0,
                refused: Some(fault),
            };
            Ok((reached, device))
        }
    }
}

/// The disk after a crash, if there is one.
fn crashed(disk: MemDisk, way: &Way) -> MemDisk {
    match way.picks {
        None => disk,
        Some(picks) => disk.crash(picks),
    }
}

/// Cuts a life off at a call of its device. A life that makes fewer calls is whole.
fn cut(alloc: Global, life: &Life, way: &Way, call: u64) -> Result<(Reached, MemDisk), Fault> {
    let fuse = Fuse::new(
        MemDisk::new(alloc, life.sectors)?,
        call,
        way.all,
        way.reaches,
    );
    let (reached, fuse) = begin(alloc, fuse, life)?;
    Ok((reached, crashed(fuse.close(), way)))
}

/// The status at a place, at a generation.
fn status_at(life: &Life, place: usize, generation: u64) -> Option<Status> {
    let state = life.states.get(place)?;
    let plain = Status {
        layout: state.layout,
        additions: state.additions,
        target: state.target,
        generation,
        ..status(state.batches, state.rows)
    };
    Some(with_cuboids(plain, state.cuboids))
}

/// Whether a session is at the state of a place, audits, and answers as it should.
fn is_at(
    alloc: Global,
    session: &mut Session<MemDisk>,
    life: &Life,
    place: usize,
) -> Result<bool, Fault> {
    let found = session.status()?;
    Ok(
        status_at(life, place, found.generation) == Some(found)
            && session.audit(alloc)?
            && are_answered(alloc, session, found.batches, life)?,
    )
}

/// Whether a session is at the state of a place or at the next, and goes on from there to the last.
fn goes_on(
    alloc: Global,
    session: &mut Session<MemDisk>,
    life: &Life,
    place: usize,
) -> Result<bool, Fault> {
    let next = place.saturating_add(1);
    let from = if is_at(alloc, session, life, place)? {
        place
    } else {
        next
    };
    if from == next && !is_at(alloc, session, life, next)? {
        return Ok(false);
    }
    let (taken, refused) = live(alloc, session, life, from);
    Ok(refused.is_none() && is_at(alloc, session, life, taken)?)
}

/// The warehouse of a disk, which is created again where there is none: none may be lost whose creation was
/// acknowledged.
fn found(alloc: Global, disk: MemDisk, reached: &Reached) -> Result<Session<MemDisk>, Fault> {
    match open(alloc, disk) {
        Ok(session) => Ok(session),
        Err((Fault::NotFormatted, disk)) if !reached.created => created(alloc, disk),
        Err((fault, _)) => Err(fault),
    }
}

/// Whether a disk has what was acknowledged, or one step more, and leads to the end of the life.
fn is_right(alloc: Global, disk: MemDisk, life: &Life, reached: &Reached) -> Result<bool, Fault> {
    if !matches!(reached.refused, None | Some(Fault::Device)) {
        return Ok(false);
    }
    let mut session = found(alloc, disk, reached)?;
    goes_on(alloc, &mut session, life, reached.steps)
}

/// Cuts a life off at a call, and then the opening of what is left. Whether that leads to the end, and whether the life
/// was whole.
fn are_right(alloc: Global, life: &Life, way: &Way, call: u64) -> Result<(bool, bool), Fault> {
    for calls in 0..=way.opening {
        let (reached, disk) = cut(alloc, life, way, call)?;
        let (refused, disk) = half_opened(alloc, disk, calls);
        let is_whole = reached.refused.is_none();
        if !is_right(alloc, crashed(disk, way), life, &reached)? {
            return Ok((false, is_whole));
        }
        if refused != Some(Fault::Device) || way.opening == 0 {
            return Ok((true, is_whole));
        }
    }
    Ok((false, true))
}

/// The first call of a life that leads to something else where it is cut off, or with which the life is whole too
/// early.
pub(crate) fn first_wrong(alloc: Global, life: &Life, way: &Way) -> Result<Option<u64>, Fault> {
    for call in 1..1_000 {
        let (right, is_whole) = are_right(alloc, life, way, call)?;
        if !right || (is_whole && call <= life.calls) {
            return Ok(Some(call));
        }
        if is_whole {
            return Ok(None);
        }
    }
    Ok(Some(0))
}
