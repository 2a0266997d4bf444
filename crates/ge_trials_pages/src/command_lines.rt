//! The program's words and its status.

use ge_edge::read_words;
use ge_outside::{MemClock, MemDisk, MemDoor, MemSink, MemSource};
use ge_pieces::{before, behind, slices_at};
use ge_top::status_of;
use std::alloc::{AllocError, Global};
use std::env::{Env, FillError};
use std::io;
use std::io::ErrorKind;

// A command line of any bytes, the program's name first.
#[derive(Drop)]
struct Line<'a> {
    words: &'a [&'a [u8]],
}

impl Env for Line<'_> {
    fn arg(&self, i: usize, buf: &mut [u8]) -> Result<usize, FillError> {
        match self.words.get(i) {
            None => Err(FillError::NotPresent),
            Some(word) if word.len() > buf.len() => Err(FillError::TooLong),
            Some(word) => {
                buf[..word.len()].copy_from_slice(word);
                Ok(word.len())
            }
        }
    }

    fn var(&self, _name: &str, _buf: &mut [u8]) -> Result<usize, FillError> {
        Err(FillError::NotPresent)
    }

    fn var_at(&self, _i: usize, _buf: &mut [u8]) -> Result<usize, FillError> {
        Err(FillError::NotPresent)
    }
}

// The words of a line; of an empty one the answer where there is no memory for them.
fn words_on(alloc: Global, line: &[u8]) -> io::Result<Vec<String>> {
    if line.is_empty() {
        return Err(io::Error::from(ErrorKind::OutOfMemory));
    }
    let words = slices_at(alloc, b' ', line)?;
    read_words(&(
        Line {
            words: words.as_slice(),
        },
        alloc,
    ))
}

// How many words were read, as a line.
fn count_line(alloc: Global, words: &io::Result<Vec<String>>) -> Result<String, AllocError> {
    match words {
        Ok(words) => {
            let count = words.len();
            format!(in alloc; "words {count}\n")
        }
        Err(_) => String::from_str(alloc, "no words\n"),
    }
}

// The status of the program with these words over a script and two new areas, and how many bytes it wrote, as a line.
fn status_line(
    alloc: Global,
    words: io::Result<Vec<String>>,
    script: &[u8],
) -> Result<String, AllocError> {
    let mut input = MemSource::new(script.to_vec(alloc)?, Vec::new(alloc));
    let mut output = MemSink::new(alloc, Vec::new(alloc));
    let mut a = MemDisk::new(alloc, Vec::new(alloc), Vec::new(alloc));
    let mut b = MemDisk::new(alloc, Vec::new(alloc), Vec::new(alloc));
    let mut door = MemDoor::new(alloc, Vec::new(alloc), Vec::new(alloc));
    let mut clock = MemClock::new(Vec::new(alloc));
    let status = status_of(
        alloc,
        words,
        &mut input,
        &mut output,
        &mut a,
        &mut b,
        &mut door,
        &mut clock,
    );
    let size = output.bytes().len();
    format!(in alloc; "status {status}, {size} bytes\n")
}

/// A page `words`: on a line a command line, whose first word is the program's name, and then the script. An empty line stands
/// for one that finds no memory. It tells how many words were read, the status, and how many bytes were written.
pub(crate) fn words_page(alloc: Global, body: &[u8]) -> Result<Vec<u8>, AllocError> {
    let (line, script) = (before(b'\n', body), behind(b'\n', body));
    let words = words_on(alloc, line);
    let mut text = Vec::new(alloc);
    text.extend_from_slice(count_line(alloc, &words)?.as_bytes())?;
    text.extend_from_slice(status_line(alloc, words, script)?.as_bytes())?;
    Ok(text)
}
