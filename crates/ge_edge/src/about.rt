// What a program says of itself.
use std::io;
use std::io::Print;

/// What a program says of itself where its words are `--help` or `--version` alone.
#[derive(Clone, Copy)]
pub struct About {
    /// What `--help` asks for.
    pub help: &'static str,
    /// What `--version` asks for.
    pub version: &'static str,
}

impl About {
    /// What these words ask to be said, if they ask that.
    pub fn said(&self, words: &io::Result<Vec<String>>) -> Option<&'static str> {
        match words {
            Ok(words) if words.len() == 1 => self.said_to(words[0].as_str()),
            _ => None,
        }
    }

    // What a word asks to be said.
    fn said_to(&self, word: &str) -> Option<&'static str> {
        if word == "--help" {
            Some(self.help)
        } else if word == "--version" {
            Some(self.version)
        } else {
            None
        }
    }
}

/// Writes what is said to standard output, and tells whether it was written.
pub fn is_said<R: Print>(rt: &R, said: &str) -> bool {
    rt.print(said).is_ok()
}
