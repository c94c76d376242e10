//! Lists of queries, one a line.
use crate::query::{NOTHING_ASKED, asks_nothing, query_of};
use crate::refusal::Refusal;
use crate::split::words_of_line;
use crate::system::System;
use clap::error::ErrorKind;
use command_words::listed_query;
use cube_model::Fault;
use mode_queries::ModeQuery;
use std::alloc::{AllocError, Global};
use std::fs;
use std::io::{self, Read};

/// A query of a list.
#[derive(Drop)]
pub struct ListedQuery {
    /// The number of its line, from 1.
    pub line: usize,
    /// How often it is asked.
    pub times: usize,
    /// Its line, without white space at its ends.
    pub text: String,
    pub query: ModeQuery,
}

/// Why a line is no query of the list.
#[derive(Drop)]
enum BadLine {
    Memory,
    /// What is wrong with it.
    Said(String),
}

impl From<AllocError> for BadLine {
    fn from(_refused: AllocError) -> BadLine {
        BadLine::Memory
    }
}

/// The name of a list in what is said of it.
pub fn list_name(path: &str) -> &str {
    match path {
        "-" => "standard input",
        path => path,
    }
}

/// The queries of a file, in its order. `-` is standard input. The first line that is no query is refused.
pub fn listed_queries(rt: &System, path: &str) -> Result<Vec<ListedQuery>, Refusal> {
    let text = match path {
        "-" => io::read_to_string(rt.alloc(), rt.reader()),
        path => text_of(rt, path),
    };
    match text {
        Ok(text) => queries_of(rt.alloc(), list_name(path), text.as_str()),
        Err(error) => Err(unread(rt.alloc(), list_name(path), error)),
    }
}

fn text_of(rt: &System, path: &str) -> io::Result<String> {
    let file = fs::open(rt, path)?;
    io::read_to_string(rt.alloc(), file)
}

// The refusal of a file that cannot be read as a text.
fn unread(alloc: Global, name: &str, error: io::Error) -> Refusal {
    if error.kind() == io::ErrorKind::OutOfMemory {
        return Refusal::from(Fault::Memory);
    }
    Refusal {
        fault: Fault::Input,
        hint: format!(in alloc; "{name}: {error}").ok(),
    }
}

/// A refusal of a list, with what is wrong with it.
pub fn bad_list(hint: Result<String, AllocError>) -> Refusal {
    Refusal {
        fault: Fault::BadQuery,
        hint: hint.ok(),
    }
}

// The queries of a text, line by line.
fn queries_of(alloc: Global, name: &str, text: &str) -> Result<Vec<ListedQuery>, Refusal> {
    let mut queries = Vec::new(alloc);
    let mut number = 0usize;
    for line in text.lines() {
        number = number.saturating_add(1);
        match push_line(alloc, &mut queries, line, number) {
            Ok(()) => {}
            Err(BadLine::Memory) => return Err(Refusal::from(Fault::Memory)),
            Err(BadLine::Said(said)) => {
                return Err(bad_list(format!(in alloc; "{name}, line {number}: {said}")));
            }
        }
    }
    Ok(queries)
}

// Puts the query of a line after others, if the line has one.
fn push_line(
    alloc: Global,
    queries: &mut Vec<ListedQuery>,
    line: &str,
    number: usize,
) -> Result<(), BadLine> {
    let Some(words) = words_of_line(alloc, line)? else {
        return Err(said(format!(in alloc; "a quotation mark is not closed")));
    };
    let (times, words) = counted(words.as_slice());
    if words.is_empty() {
        return Ok(());
    }
    let listed = ListedQuery {
        line: number,
        times,
        text: String::from_str(alloc, line.trim())?,
        query: query_of_words(alloc, words)?,
    };
    match queries.push(listed) {
        Ok(()) => Ok(()),
        Err(_) => Err(BadLine::Memory),
    }
}

fn said(hint: Result<String, AllocError>) -> BadLine {
    match hint {
        Ok(hint) => BadLine::Said(hint),
        Err(_) => BadLine::Memory,
    }
}

// How often the query of a line is asked, and its words: the number before them, or once.
fn counted(words: &[String]) -> (usize, &[String]) {
    match words {
        [first, rest @ ..] if !rest.is_empty() => match first.parse::<usize>() {
            Ok(times) => (times, rest),
            Err(_) => (1, words),
        },
        words => (1, words),
    }
}

// The query that the words of a line spell.
fn query_of_words(alloc: Global, words: &[String]) -> Result<ModeQuery, BadLine> {
    let given = match listed_query(alloc)?.try_get_matches_from(words) {
        Ok(given) => given,
        Err(error) if error.kind() == ErrorKind::OutOfMemory => return Err(BadLine::Memory),
        Err(error) => return Err(said(first_line(alloc, format!(in alloc; "{error}")?.as_str()))),
    };
    match query_of(alloc, &given) {
        Ok(query) => Ok(query),
        Err(Refusal { hint: None, .. }) => Err(BadLine::Memory),
        _ if asks_nothing(&given) => Err(said(format!(in alloc; "{NOTHING_ASKED}"))),
        Err(
            Refusal {
                hint: Some(hint),
                ..
            },
        ) => Err(BadLine::Said(hint)),
    }
}

// What the first line of an error says.
fn first_line(alloc: Global, error: &str) -> Result<String, AllocError> {
    let first = match error.split_once('\n') {
        Some((first, _)) => first,
        None => error,
    };
    let text = match first.strip_prefix("error: ") {
        Some(text) => text,
        None => first,
    };
    format!(in alloc; "{text}")
}
