// A question from the words and the input to the output.
ghost use Rattle.std.specs.Prelude.{◌≡◌, ◌≢◌, ◌⊎◌, ◌<◌, ◌≤◌, ℕ, List, [], length, map, string_bytes, None, IfOk, IfErr, IfSome, OnOk};
ghost use Rattle.ge_limits.specs.Limits.{text_bytes};
ghost use Rattle.ge_outside.specs.Faults.{Rose};
ghost use Rattle.ge_model_grammar.specs.Sources.{IsReadToEnd};
ghost use Rattle.ge_model_wire.specs.Questions.{names_of, payload_of};
ghost use Rattle.ge_wire.specs.Endings.{IsAskStatus, IsCutShort, IsUnanswered, IsUnasked, OnFailed, OnReply};
ghost use Rattle.ge_wire.specs.Asked.{ConnectionFails, IsSendable, IsTooLong, PayloadBlames, AnswerBlames, Replies, Printed, Answers, Cut};
ghost use Rattle.ge_wire.specs.declared.endings.Ending.TheVariants.{Unwritten};

use crate::endings::{AskFault, Ending};
use crate::faults::WireFault;
use crate::filling::read_up_to;
use crate::talking::ask_link;
use crate::words::names_in;
use ge_limits::TEXT_BYTES;
use ge_outside::{Door, Sink, Source, write_all};
use ge_pieces::begins;
use ge_rows::Text;
use std::alloc::{AllocError, Global};

/// The status of words that are no question.
const USAGE: u8 = 2;

// The line of a user and a group.
fn line_of_names(alloc: Global, user: &[u8], group: &[u8]) -> Result<Vec<u8>, AllocError>
    ensures { IfOk result (λ line. line.items ≡ payload_of user.now group.now []) }
{
    let mut line = Vec::new(alloc);
    line.extend_from_slice(user)?;
    line.push(b' ')?;
    line.extend_from_slice(group)?;
    line.push(b'\n')?;
    Ok(line)
}

// What is sent: the line of the names, and the whole input.
fn payload_for<S: Source>(
    alloc: Global,
    user: &[u8],
    group: &[u8],
    input: &mut S,
) -> Result<Text, AskFault>
    ensures sent { IfOk result (λ payload. IfSome (S.rest input.old) (λ text. payload
        ≡ payload_of user.now group.now text)) }
    ensures ended { OnOk result (IsReadToEnd (S.rest input.new)) }
    ensures some { IfOk result (λ payload. 0 < length payload) }
    ensures fits { IfOk result (λ payload. length payload ≤ text_bytes) }
    ensures blames { PayloadBlames result (IsTooLong user.now group.now (S.rest input.old)) (Rose
        (S.read_faults input.old) (S.read_faults input.new)) }
{
    let mut bytes = line_of_names(alloc, user, group)?;
    if bytes.len() > TEXT_BYTES {
        return Err(AskFault::Usage);
    }
    match read_up_to(alloc, input, &mut bytes, TEXT_BYTES + 1) {
        Ok(()) => {}
        Err(WireFault::Read) => return Err(AskFault::Input),
        Err(_) => return Err(AskFault::Memory),
    }
    if bytes.len() > TEXT_BYTES {
        return Err(AskFault::Usage);
    }
    Ok(Text::from_vec(bytes))
}

// The reply to what these names and the input ask.
fn reply_to<S: Source, L: Door>(
    alloc: Global,
    user: &[u8],
    group: &[u8],
    input: &mut S,
    door: &mut L,
) -> Result<Text, AskFault>
    ensures replies { IfOk result (λ reply. Replies user.now group.now (S.rest input.old)
        (S.rest input.new)
        (L.coming door.old) (L.coming door.new) (L.closed door.old) (L.closed door.new) reply) }
    ensures blames { IfErr result (λ why. AnswerBlames why (IsTooLong user.now group.now
        (S.rest input.old)) (Rose (S.read_faults input.old) (S.read_faults input.new))
        (IsSendable user.now group.now (S.rest input.old)
        × ConnectionFails (Rose (L.door_faults door.old) (L.door_faults door.new)) (Rose
        (L.link_faults door.old) (L.link_faults door.new)) (L.coming door.old))) }
    ensures unasked { IfErr result (λ why. IsUnasked why → door.new ≡ door.old) }
{
    match payload_for(alloc, user, group, input) {
        Ok(payload) => ask_link(alloc, door, &payload),
        Err(fault) => Err(fault),
    }
}

// Writes the reply, and tells whether it accepts.
fn print<K: Sink>(output: &mut K, reply: &Text) -> Ending
    ensures printed { Printed result (K.written output.old) (K.written output.new) reply.now }
    ensures cause { result ≡ Unwritten → Rose (K.write_faults output.old)
        (K.write_faults output.new) }
{
    if write_all(output, reply.bytes()).is_err() {
        return Ending::Unwritten;
    }
    if begins(b"0 ", reply.bytes()) {
        Ending::Accepted
    } else {
        Ending::Refused
    }
}

// The reply to what these names and the input ask, written; and how that ends.
fn conclude<S: Source, K: Sink, L: Door>(
    alloc: Global,
    user: &[u8],
    group: &[u8],
    input: &mut S,
    output: &mut K,
    door: &mut L,
) -> Ending
    ensures answered { OnReply result ((reply : List ℕ)
        × Replies user.now group.now (S.rest input.old) (S.rest input.new)
        (L.coming door.old) (L.coming door.new) (L.closed door.old) (L.closed door.new) reply
        × Printed result (K.written output.old) (K.written output.new) reply) }
    ensures blames { OnFailed result (λ why. AnswerBlames why (IsTooLong user.now group.now
        (S.rest input.old)) (Rose (S.read_faults input.old) (S.read_faults input.new))
        (IsSendable user.now group.now (S.rest input.old)
        × ConnectionFails (Rose (L.door_faults door.old) (L.door_faults door.new)) (Rose
        (L.link_faults door.old) (L.link_faults door.new)) (L.coming door.old))) }
    ensures unasked { OnFailed result (λ why. IsUnasked why → door.new ≡ door.old) }
    ensures unwritten { OnFailed result (λ why. output.new ≡ output.old) }
    ensures cause { result ≡ Unwritten → Rose (K.write_faults output.old)
        (K.write_faults output.new) }
{
    match reply_to(alloc, user, group, input, door) {
        Ok(reply) => print(output, &reply),
        Err(fault) => Ending::Failed(fault),
    }
}

/// What `gq` does with its words, its input and its output: it reads the whole input, accepts one connection by the door,
/// sends the line of the user and the group and the input as one request, reads the reply, gives the connection back, and
/// writes the reply. It answers with the program's status:
///
/// - 0 where the reply accepts, 1 where it refuses;
/// - 2 where the words are not PORT, USER and GROUP, or what would be sent is longer than [`TEXT_BYTES`];
/// - 6, 7 where a read of the input, or a write of the output failed;
/// - 9 where the door or the connection failed, or the connection's bytes begin with no reply;
/// - 10 where memory ran out.
pub fn ask<S: Source, K: Sink, L: Door>(
    alloc: Global,
    words: &Vec<String>,
    input: &mut S,
    output: &mut K,
    door: &mut L,
) -> u8
    ensures statuses { IsAskStatus result }
    ensures answered { (result ≡ 0) ⊎ (result ≡ 1)
        → IfSome (names_of (map string_bytes words.now.items)) (λ names. Answers result names
        (S.rest input.old) (S.rest input.new)
        (L.coming door.old) (L.coming door.new) (L.closed door.old) (L.closed door.new) (K.written output.old) (K.written output.new)) }
    ensures no_question { names_of (map string_bytes words.now.items) ≡ None → result ≡ 2 }
    ensures usage { result ≡ 2 → IfSome (names_of (map string_bytes words.now.items))
        (λ names. IsTooLong names.0 names.1 (S.rest input.old)) }
    ensures too_long { IfSome (names_of (map string_bytes words.now.items)) (λ names. IfSome
        (S.rest input.old) (λ text. text_bytes < length (payload_of names.0 names.1 text)
        → IsCutShort result)) }
    ensures read { result ≡ 6 → Rose (S.read_faults input.old) (S.read_faults input.new) }
    ensures write { result ≡ 7 → Rose (K.write_faults output.old) (K.write_faults output.new) }
    ensures connection { result ≡ 9 → ConnectionFails (Rose (L.door_faults door.old)
        (L.door_faults door.new)) (Rose (L.link_faults door.old) (L.link_faults door.new))
        (L.coming door.old) }
    ensures unasked { (result ≡ 2) ⊎ (result ≡ 6) → door.new ≡ door.old }
    ensures unwritten { IsUnanswered result → output.new ≡ output.old }
    ensures cut { result ≡ 7 → IfSome (names_of (map string_bytes words.now.items))
        (λ names. Cut names (S.rest input.old) (S.rest input.new)
        (L.coming door.old) (L.coming door.new) (L.closed door.old) (L.closed door.new) (K.written output.old) (K.written output.new)) }
{
    match names_in(words.as_slice()) {
        Some((user, group)) => conclude(alloc, user, group, input, output, door).status(),
        None => USAGE,
    }
}
