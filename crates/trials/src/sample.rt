//! The batches of the test, and what the thirteen queries are to answer over them.
use crate::crash_tables::{BATCHES, CUSTOMER, DATE, PART, SUPPLIER};
use batch_loader::{Lines, read_batch};
use cube_model::{Answer, Fault, Items, LineOrder};
use cube_query::fold;
use dimension_tables::read_dimensions;
use dimensions::Dims;
use ssb_reports::{QNumber, query_of};
use std::alloc::Global;

/// More rows than a batch of the test has.
const MOST_ROWS: usize = 64;

/// The batches, and what the thirteen queries answer over the first of them: over none, over the first, and so on.
pub(crate) struct Sample {
    batches: Vec<Items<LineOrder>>,
    answers: Vec<Vec<Answer>>,
}

// Written out, so that a proof has one call to follow where one is let go.
impl Drop for Sample {
    fn drop(self) {
        let Sample {
            batches: _,
            answers: _,
        } = self;
    }
}

impl Sample {
    /// The batches, and the answers by one pass over their rows.
    pub(crate) fn new(alloc: Global) -> Result<Sample, Fault> {
        let batches = read_batches(alloc)?;
        let answers = all_answers(alloc)?;
        Ok(Sample { batches, answers })
    }

    /// The fact rows of the batch of a number, from 1. Batches after the last one have none.
    pub(crate) fn rows(&self, number: u32) -> &[LineOrder] {
        let place = (number as usize).saturating_sub(1);
        match self.batches.get(place) {
            Some(rows) => rows.as_slice(),
            None => &[],
        }
    }

    /// What the thirteen queries answer over so many of the first batches, if there are so many.
    pub(crate) fn answers(&self, batches: u32) -> Option<&[Answer]> {
        match self.answers.get(batches as usize) {
            Some(answers) => Some(answers.as_slice()),
            None => None,
        }
    }
}

/// The dimensions of the sample tables.
pub(crate) fn sample_dims(alloc: Global) -> Result<Dims, Fault> {
    read_dimensions(
        alloc,
        CUSTOMER.as_bytes(),
        SUPPLIER.as_bytes(),
        PART.as_bytes(),
        DATE.as_bytes(),
    )
}

fn read_batches(alloc: Global) -> Result<Vec<Items<LineOrder>>, Fault> {
    let mut batches = Vec::new(alloc);
    for text in BATCHES {
        batches.push(read_rows(alloc, text)?)?;
    }
    Ok(batches)
}

fn read_rows(alloc: Global, text: &str) -> Result<Items<LineOrder>, Fault> {
    let mut lines = Lines::new(alloc, text.as_bytes())?;
    read_batch(alloc, &mut lines, MOST_ROWS)
}

// What the thirteen queries answer over the first batches: over none, over the first, and so on.
fn all_answers(alloc: Global) -> Result<Vec<Vec<Answer>>, Fault> {
    let dims = sample_dims(alloc)?;
    let mut answers = Vec::new(alloc);
    for count in 0..=BATCHES.len() {
        answers.push(answers_over(alloc, &dims, count)?)?;
    }
    Ok(answers)
}

// What the thirteen queries answer over so many of the first batches, by one pass over their rows.
fn answers_over(alloc: Global, dims: &Dims, count: usize) -> Result<Vec<Answer>, Fault> {
    let rows = first_rows(alloc, count)?;
    let mut answers = Vec::new(alloc);
    for number in QNumber::ALL {
        let query = query_of(alloc, number)?;
        answers.push(fold(alloc, dims, rows.as_slice(), &query)?)?;
    }
    Ok(answers)
}

// The rows of so many of the first batches, end to end.
fn first_rows(alloc: Global, count: usize) -> Result<Vec<LineOrder>, Fault> {
    let mut rows = Vec::new(alloc);
    for text in BATCHES.iter().take(count) {
        push_rows(alloc, &mut rows, text)?;
    }
    Ok(rows)
}

// Puts the rows of a text after others.
fn push_rows(alloc: Global, rows: &mut Vec<LineOrder>, text: &str) -> Result<(), Fault> {
    let mut more = read_rows(alloc, text)?.into_vec();
    rows.append(&mut more)?;
    Ok(())
}
