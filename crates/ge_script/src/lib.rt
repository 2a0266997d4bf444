//! Scripts, read one request after the other, and the requests of a script that is made up from a number.
//!
//! Contracts say by `ge_model_grammar` what is read and what is made up.
//!
//! A script is cut into lines at line feeds, its lines into requests at each line that begins with an at sign, and each request is an
//! event. Every list of bytes is a script. Contracts see a script as the list of its bytes and cite `events_of`, the events that it stands for.
//!
//! - [`Script`]: a script read from a source in pieces, event by event, in the memory of one request. [`read_script`]: the bytes of a whole
//!   script from a source.
//! - [`next_request`]: the first request of a script, and the rest of the script. [`read_event`]: the event of a request.
//! - [`Generator`]: the script that is made up from a number, request by request, each in the memory of one request: eight hosts and a queue
//!   over them, and then at every tenth second a job, a run behind every fourth and the end of a task behind every second.
#![tactic(auto)]

mod events;
mod generator;
mod header;
mod input;
mod pieces;
mod requests;
mod texts;
mod wording;

pub use events::{next_request, read_event};
pub use generator::Generator;
pub use input::{ScriptFault, read_script};
pub use pieces::Script;
