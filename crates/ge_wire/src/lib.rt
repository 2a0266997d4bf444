//! Frames, and a client's question over them: the bytes of a connection to the payloads of requests and the texts of replies, and back.
//!
//! Contracts see a payload or a text as the list of its bytes, and say by the definitions of `ge_model_wire` what each call gives.
//!
//! - [`read_frame`]: the next request's payload; [`frame_event`]: the event of a payload. [`write_frame`], [`write_reply`]: a request or a reply as
//!   its frame. [`read_reply`]: the text of the next reply; [`parse_reply`]: the reply that is written so.
//! - [`ask`]: a client asks one question of three words and a text, from a source to a sink by a door, hands on the reply, and tells the status to
//!   end with. [`port_of`]: the port that the words name.
//!
//! None of the calls on frames waits for more than a whole frame, and none takes a byte that stands behind it.
#![tactic(auto)]

mod asking;
mod endings;
mod events;
mod faults;
mod filling;
mod parsing;
mod reading;
mod replies;
mod talking;
mod words;
mod writing;

pub use asking::ask;
pub use events::frame_event;
pub use faults::WireFault;
pub use parsing::{ReplyFault, parse_reply};
pub use reading::read_frame;
pub use replies::read_reply;
pub use words::port_of;
pub use writing::{write_frame, write_reply};
