//! What a disk holds and what a stop may leave of it, and what the bytes of a journal's two areas stand for: definitions, which the
//! clauses of the traits of the outside and of the journal cite, and the small types that they share with the code that reads an area.
#![tactic(auto)]

/// What the header of an open area says.
#[derive(Clone, Copy)]
pub struct Header {
    /// 1 or 2; what is written has 2.
    pub format: u8,
    /// At least 1.
    pub generation: u64,
    /// How many bytes its snapshot has.
    pub size: u64,
}

/// What the first bytes of an area say.
#[derive(Clone, Copy)]
pub enum Head {
    /// It is not open.
    Closed,
    /// It is open and its format or its generation is wrong, at this place.
    Faulty(u64),
    /// It is open, with this generation, and its snapshot passes the end.
    Overlong(u64),
    /// It is open, with this header.
    Sound(Header),
}

/// Which of two areas counts, by their headers.
#[derive(Clone, Copy)]
pub enum Choice {
    /// None is open.
    Neither,
    /// The second area or the first, with its header.
    Chosen(bool, Header),
    /// The header of this area, 0 or 1, is wrong at this place.
    Wrong(u8, u64),
}
