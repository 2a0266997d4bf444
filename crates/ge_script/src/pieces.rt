// A script that is read in pieces.
ghost use Rattle.std.specs.Prelude.{◌≡◌, ◌+◌, ◌-◌, ◌<◌, ◌≤◌, ◌++◌, ◌∷◌, [], ℕ, List, length, take, drop, true, false, vec_len, cond, Option, option_map, Some, ⊤, IfOk, IfSome, MatchOption, OnOk, IsErrOf};
ghost use Rattle.ge_limits.specs.Limits.{script_bytes, text_bytes};
ghost use Rattle.ge_outside.specs.Faults.{Rose};
ghost use Rattle.ge_model_grammar.specs.ScriptLines.{requests_of};
ghost use Rattle.ge_model_grammar.specs.Events.{events_of};
ghost use Rattle.ge_model_grammar.specs.Sources.{IsReadToEnd};
ghost use Rattle.ge_script.specs.Pieces.{ends_request, HasPassed, held, given_count, read_count, total_count, coming, IsOver, GivesNext};

use crate::events::read_event;
use crate::input::{ScriptFault, new_chunk, read_more};
use crate::requests::begins_request;
use ge_limits::{SCRIPT_BYTES, TEXT_BYTES};
use ge_outside::Source;
use ge_pieces::bytes_from;
use ge_rows::Event;
use std::alloc::{AllocError, Global};

/// A script that is read in pieces, so that no more of it is held than one request and what one read gives: of a request
/// that is too long, what follows its first 1,048,576 bytes is let go. Each call is lent the same source. After a fault the
/// script is given up.
#[derive(Drop)]
pub struct Script {
    alloc: Global,
    // what one read fills
    chunk: Vec<u8>,
    // what was read; the bytes before `start` belong to requests that were given
    bytes: Vec<u8>,
    start: usize,
    // how many bytes from `start` on were looked at and don't end the first request
    passed: usize,
    // how many bytes were given or let go
    given: usize,
    // whether the source's end was read
    ended: bool,
}

fn ends_here(bytes: &[u8]) -> bool
    ensures { result ≡ ends_request bytes.now }
{
    match bytes {
        [] => false,
        [first, behind @ ..] => *first == b'\n' && begins_request(behind),
    }
}

// The first place from `from` on at which a request ends, or at least `limit`.
fn first_end(bytes: &[u8], from: usize, limit: usize) -> usize
    requires { limit ≤ length bytes.now }
    ensures passed { (k : ℕ) → from ≤ k → k < result → (k < limit)
        × (ends_request (drop k bytes.now) ≡ false) }
    ensures found { result < limit → ends_request (drop result bytes.now) ≡ true }
{
    let mut at = from;
    while at < limit && !ends_here(bytes_from(bytes, at)) {
        at += 1;
    }
    at
}

// How many places can be judged: those with two bytes behind them, and all where nothing more comes.
fn judged_len(len: usize, ended: bool) -> usize
    ensures { result ≡ cond ended len (len - 2) }
{
    if ended { len } else { len.saturating_sub(2) }
}

// How many bytes the first request has, once its end is there; it raises `passed`, so that no byte is looked at twice.
fn whole_len(bytes: &[u8], passed: &mut usize, ended: bool) -> Option<usize>
    requires { HasPassed passed.old bytes.now }
    ensures taken { IfSome result (λ n. (0 < n) × (n ≤ length bytes.now)) }
    ensures first { IfSome result (λ n. (more : List ℕ) → (ended ≡ true → more ≡ [])
        → requests_of (bytes.now ++ more) ≡ take n bytes.now ∷ requests_of (drop n bytes.now
        ++ more)) }
    ensures passed { HasPassed passed.new bytes.now }
    ensures none { MatchOption result (ended ≡ true → bytes.now ≡ []) (λ n. 0 ≤ n) }
    ensures looked { MatchOption result (ended ≡ false → length bytes.now ≤ passed.new + 2) (λ n. 0
        ≤ n) }
{
    if bytes.is_empty() {
        return None;
    }
    let limit = judged_len(bytes.len(), ended);
    let end = first_end(bytes, *passed, limit);
    if end < limit {
        return Some(end + 1);
    }
    if ended {
        return Some(bytes.len());
    }
    *passed = end;
    None
}

// Lets the bytes go that were given.
#[tactic(auto, using(crate::proofs::PieceByPiece::moved_front))]
fn drop_given(bytes: &mut Vec<u8>, start: &mut usize)
    requires { start.old ≤ vec_len bytes.old }
    ensures left { bytes.new.items ≡ drop start.old bytes.old.items }
    ensures start { start.new ≡ 0 }
{
    if *start == 0 {
        return;
    }
    let size = bytes.len() - *start;
    bytes.copy_within(*start.., 0);
    bytes.truncate(size);
    *start = 0;
}

impl Script {
    /// A script of which nothing was read.
    pub fn new(alloc: Global) -> Result<Script, AllocError>
        ensures coming { IfOk result (λ script. (rest : Option (List ℕ)) → coming script rest
            ≡ option_map events_of rest) }
        ensures over { IfOk result (λ script. (rest : Option (List ℕ)) → IsOver script rest) }
        ensures total { IfOk result (λ script. (rest : Option (List ℕ)) → total_count script rest
            ≡ option_map length rest) }
    {
        let chunk = new_chunk(alloc)?;
        Ok(Script {
            alloc,
            chunk,
            bytes: Vec::new(alloc),
            start: 0,
            passed: 0,
            given: 0,
            ended: false,
        })
    }

    // Lets the front of a request go that is too long whatever follows: what stays of it is too long as well.
    fn skip_excess(&mut self)
        requires within { self.old.start ≤ vec_len self.old.bytes }
        requires passed { HasPassed self.old.passed (held self.old) }
        requires below { read_count self.old < script_bytes }
        ensures coming { (rest : Option (List ℕ)) → coming self.new rest ≡ coming self.old rest }
        ensures passed { HasPassed self.new.passed (held self.new) }
        ensures within { self.new.start ≤ vec_len self.new.bytes }
        ensures count { read_count self.new ≡ read_count self.old }
        ensures given { given_count self.old ≤ given_count self.new }
        ensures short { self.new.passed ≤ text_bytes }
        ensures looked { length (held self.old) ≤ self.old.passed + 2 → length (held self.new)
            ≤ self.new.passed + 2 }
        ensures chunk { self.new.chunk ≡ self.old.chunk }
    {
        if self.passed <= TEXT_BYTES {
            return;
        }
        let excess = self.passed - TEXT_BYTES;
        self.start += excess;
        self.given += excess;
        self.passed = TEXT_BYTES;
    }

    // Reads on behind what is held, which was looked at.
    fn read_on<S: Source>(&mut self, s: &mut S) -> Result<(), ScriptFault>
        requires over { IsOver self.old (S.rest s.old) }
        requires looked { length (held self.old) ≤ self.old.passed + 2 }
        ensures coming { OnOk result (coming self.new (S.rest s.new)
            ≡ coming self.old (S.rest s.old)) }
        ensures over { OnOk result (IsOver self.new (S.rest s.new)) }
        ensures given { given_count self.old ≤ given_count self.new }
        ensures total { OnOk result (total_count self.new (S.rest s.new)
            ≡ total_count self.old (S.rest s.old)) }
        ensures more { OnOk result (self.new.ended ≡ false → read_count self.old
            < read_count self.new) }
        ensures grows { OnOk result (read_count self.old ≤ read_count self.new) }
        ensures long { IsErrOf result ScriptFault.Long → script_bytes ≤ read_count self.new }
        ensures long_total { IsErrOf result ScriptFault.Long → total_count self.new (S.rest s.new)
            ≡ total_count self.old (S.rest s.old) }
        ensures later { S.read_faults s.old ≤ S.read_faults s.new }
        ensures fault { IsErrOf result ScriptFault.Read
            → Rose (S.read_faults s.old) (S.read_faults s.new) }
    {
        self.skip_excess();
        drop_given(&mut self.bytes, &mut self.start);
        let some = read_more(s, self.chunk.as_mut_slice(), &mut self.bytes)?;
        if self.given + self.bytes.len() >= SCRIPT_BYTES {
            return Err(ScriptFault::Long);
        }
        self.ended = !some;
        Ok(())
    }

    /// The next event of the script, where all of its request is held, without a look at the source; or none. Nothing is given
    /// where memory runs out.
    pub fn next_held(&mut self) -> Result<Option<Event>, AllocError>
        requires within { self.old.start ≤ vec_len self.old.bytes }
        requires passed { HasPassed self.old.passed (held self.old) }
        requires below { read_count self.old < script_bytes }
        ensures next { IfOk result (λ next. MatchOption next (held self.new ≡ held self.old)
            (λ event. (rest : Option (List ℕ)) → IsOver self.old rest
            → GivesNext (coming self.old rest) (coming self.new rest) (Some event))) }
        ensures over { (rest : Option (List ℕ)) → IsOver self.old rest → IsOver self.new rest }
        ensures count { read_count self.new ≡ read_count self.old }
        ensures given { given_count self.old ≤ given_count self.new }
        ensures goes_on { IfOk result (λ next. MatchOption next ⊤
            (λ event. given_count self.old < given_count self.new)) }
        ensures ended { self.new.ended ≡ self.old.ended }
        ensures all { IfOk result (λ next. MatchOption next
            (self.new.ended ≡ true → held self.new ≡ []) (λ event. ⊤)) }
        ensures looked { IfOk result (λ next. MatchOption next
            (self.new.ended ≡ false → length (held self.new) ≤ self.new.passed + 2) (λ event. ⊤)) }
    {
        let bytes = bytes_from(self.bytes.as_slice(), self.start);
        let Some(size) = whole_len(bytes, &mut self.passed, self.ended) else {
            return Ok(None);
        };
        let (request, _) = bytes.split_at(size);
        let event = read_event(self.alloc, request)?;
        self.start += size;
        self.given += size;
        self.passed = 0;
        Ok(Some(event))
    }

    /// The next event of the script, or none where the input has ended and all were given. An event is given once the next
    /// header or the end was read. `Read` comes only where a read failed, and `Long` exactly where [`SCRIPT_BYTES`] bytes
    /// were read and the end was not.
    pub fn next<S: Source>(&mut self, s: &mut S) -> Result<Option<Event>, ScriptFault>
        requires { IsOver self.old (S.rest s.old) }
        ensures next { IfOk result (λ next. GivesNext (coming self.old (S.rest s.old))
            (coming self.new (S.rest s.new)) next) }
        ensures over { OnOk result (IsOver self.new (S.rest s.new)) }
        ensures goes_on { IfOk result (λ next. MatchOption next (IsReadToEnd (S.rest s.new))
            (λ event. given_count self.old < given_count self.new)) }
        ensures total { OnOk result (total_count self.new (S.rest s.new)
            ≡ total_count self.old (S.rest s.old)) }
        ensures long { IsErrOf result ScriptFault.Long → script_bytes ≤ read_count self.new }
        ensures long_total { IsErrOf result ScriptFault.Long → total_count self.new (S.rest s.new)
            ≡ total_count self.old (S.rest s.old) }
        ensures later { S.read_faults s.old ≤ S.read_faults s.new }
        ensures fault { IsErrOf result ScriptFault.Read
            → Rose (S.read_faults s.old) (S.read_faults s.new) }
    {
        'reading: loop {
            if let Some(event) = self.next_held()? {
                return Ok(Some(event));
            }
            if self.ended {
                return Ok(None);
            }
            self.read_on(s)?;
        }
    }
}
