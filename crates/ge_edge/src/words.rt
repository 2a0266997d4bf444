// The words of the command line.
use std::alloc::AllocGlobal;
use std::env::Env;
use std::{env, io};

/// The words after the program's name. Where memory is wanted the error's kind is `OutOfMemory`, and
/// where a word is no text in UTF-8 it is another.
pub fn read_words<R: AllocGlobal + Env>(rt: &R) -> io::Result<Vec<String>> {
    let mut words = Vec::new(rt.alloc());
    for word in env::args(rt)?.skip(1) {
        words.push(word)?;
    }
    Ok(words)
}
