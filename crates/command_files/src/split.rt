//! The words of a line, taken apart as a shell does.
use std::alloc::{AllocError, Global};

/// The words of a line so far.
#[derive(Drop)]
struct Words {
    words: Vec<String>,
    /// The word that the next character may belong to.
    word: Option<String>,
    /// The quotation mark that is open.
    mark: Option<char>,
}

/// The words of a line, or nothing where a quotation mark is not closed.
///
/// Words are separated by white space. What is between two apostrophes or two quotation marks belongs to a word as it
/// is. A number sign at the beginning of a word begins a comment.
pub fn words_of_line(alloc: Global, line: &str) -> Result<Option<Vec<String>>, AllocError> {
    let mut words = Words {
        words: Vec::new(alloc),
        word: None,
        mark: None,
    };
    for sign in line.chars() {
        if words.begins_comment(sign) {
            break;
        }
        words.take(alloc, sign)?;
    }
    words.end()
}

impl Words {
    fn begins_comment(&self, sign: char) -> bool {
        sign == '#' && self.word.is_none()
    }

    // Takes the next character of the line.
    fn take(&mut self, alloc: Global, sign: char) -> Result<(), AllocError> {
        match self.mark {
            Some(mark) if mark == sign => {
                self.mark = None;
                Ok(())
            }
            Some(_) => self.push(alloc, sign),
            None if sign == '\'' || sign == '"' => {
                self.mark = Some(sign);
                self.begin(alloc);
                Ok(())
            }
            None if sign.is_whitespace() => self.finish(),
            None => self.push(alloc, sign),
        }
    }

    // Begins a word, where none is begun.
    fn begin(&mut self, alloc: Global) {
        if self.word.is_none() {
            self.word = Some(String::new(alloc));
        }
    }

    // Puts a character after the word.
    fn push(&mut self, alloc: Global, sign: char) -> Result<(), AllocError> {
        self.begin(alloc);
        match &mut self.word {
            Some(word) => word.push(sign),
            None => Ok(()),
        }
    }

    // Ends the word, if one is begun.
    fn finish(&mut self) -> Result<(), AllocError> {
        match self.word.take() {
            Some(word) => Ok(self.words.push(word)?),
            None => Ok(()),
        }
    }

    // The words, where no quotation mark is open.
    fn end(mut self) -> Result<Option<Vec<String>>, AllocError> {
        if self.mark.is_some() {
            return Ok(None);
        }
        self.finish()?;
        Ok(Some(self.words))
    }
}
