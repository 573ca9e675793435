//! A row of examples: words between separators.
use std::alloc::{AllocError, Global};

/// The words of a row, or the fields of a word.
#[derive(Debug, Drop)]
pub struct Row {
    words: Vec<String>,
}

impl Row {
    /// What stands between the separators.
    pub fn split(alloc: Global, text: &str, separator: char) -> Result<Row, AllocError> {
        let mut words = Vec::new(alloc);
        for word in text.split(separator) {
            words.push(String::from_str(alloc, word)?)?;
        }
        Ok(Row { words })
    }

    /// All words.
    pub fn words(&self) -> &[String] {
        self.words.as_slice()
    }

    /// The word at the place, from 0; nothing where there is none or a `.`.
    pub fn text(&self, at: usize) -> &str {
        match self.words.get(at) {
            Some(word) => shown(word.as_str()),
            None => "",
        }
    }

    /// The number at the place, from 0; 0 where there is none.
    pub fn number(&self, at: usize) -> u32 {
        number(self.text(at))
    }

    /// Whether the word at the place, from 0, is `yes`.
    pub fn says(&self, at: usize) -> bool {
        self.text(at) == "yes"
    }

    /// Whether the word at the place, from 0, says that there is no answer.
    pub fn has_none(&self, at: usize) -> bool {
        self.text(at) == "none"
    }
}

/// The word, but nothing for a `.`.
fn shown(word: &str) -> &str {
    if word == "." { "" } else { word }
}

/// The number of these digits.
pub fn number(digits: &str) -> u32 {
    let mut number: u32 = 0;
    for digit in digits.bytes() {
        number = number.wrapping_mul(10).wrapping_add((digit & 15) as u32);
    }
    number
}
