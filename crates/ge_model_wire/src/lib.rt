//! What goes over a connection, definitions alone: the frames that bytes begin with, the event of a request's payload,
//! and the words and the payload of a question.
#![tactic(auto)]
