//! Why a line isn't taken.
use std::alloc::{AllocError, Global};
use std::str;

/// What a line lacks, and which word stands there: the first is 1, and 0 is all of the line.
#[derive(Clone, Copy)]
pub struct Bad {
    lack: &'static str,
    word: usize,
}

/// How much of a word is shown, in characters.
const MOST_SHOWN: usize = 40;

impl Bad {
    pub fn new(lack: &'static str, word: usize) -> Bad {
        Bad { lack, word }
    }

    /// What is written of it, of the line that it is about.
    pub fn to_text(self, alloc: Global, line: &[u8]) -> Result<String, AllocError> {
        let name = self.lack;
        match str::from_utf8(line) {
            Ok(line) => {
                let shown = shown(alloc, self.shown_of(line))?;
                format!(in alloc; "bad event: no {name}: {shown}")
            }
            Err(_) => format!(in alloc; "bad event: no {name}: bytes that are no UTF-8"),
        }
    }

    /// The word, or all of the line where the line as a whole is meant.
    fn shown_of(self, line: &str) -> &str {
        if self.word == 0 {
            return line;
        }
        let mut rest = line;
        for _ in 1..self.word {
            rest = match rest.split_once(' ') {
                Some((_, rest)) => rest,
                None => "",
            };
        }
        if self.lack == "end" {
            return rest;
        }
        match rest.split_once(' ') {
            Some((word, _)) => word,
            None => rest,
        }
    }
}

fn shown(alloc: Global, word: &str) -> Result<String, AllocError> {
    let mut text = String::new(alloc);
    for c in word.chars().take(MOST_SHOWN) {
        text.push(c)?;
    }
    Ok(text)
}
