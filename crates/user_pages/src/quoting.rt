//! The words of a command.
use std::alloc::{AllocError, Global};

/// A word that is being read.
#[derive(Drop)]
struct Reading {
    word: String,
    /// Whether a character or a quote of it was read.
    has_begun: bool,
    is_quoted: bool,
}

/// The words of a command, separated by blanks. Between single quotes a blank is a character like any other, and a word
/// of two quotes alone is an empty one.
pub fn words(alloc: Global, command: &str) -> Result<Vec<String>, AllocError> {
    let mut words = Vec::new(alloc);
    let mut reading = Reading {
        word: String::new(alloc),
        has_begun: false,
        is_quoted: false,
    };
    for sign in command.chars() {
        take_sign(&mut words, &mut reading, sign)?;
    }
    end_word(&mut words, &mut reading)?;
    Ok(words)
}

// Takes the next character.
fn take_sign(words: &mut Vec<String>, reading: &mut Reading, sign: char) -> Result<(), AllocError> {
    if sign == ' ' && !reading.is_quoted {
        return end_word(words, reading);
    }
    reading.has_begun = true;
    if sign == '\'' {
        reading.is_quoted = !reading.is_quoted;
        return Ok(());
    }
    reading.word.push(sign)
}

// Ends a word, if one has begun.
fn end_word(words: &mut Vec<String>, reading: &mut Reading) -> Result<(), AllocError> {
    if !reading.has_begun {
        return Ok(());
    }
    words.push(reading.word.clone()?)?;
    reading.word.clear();
    reading.has_begun = false;
    Ok(())
}
