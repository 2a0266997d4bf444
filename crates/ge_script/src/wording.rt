// The requests of the script as texts.
ghost use Rattle.std.specs.Prelude.{◌≡◌, ◌+◌, ◌*◌, ◌/◌, ◌++◌, ◌<◌, ◌^◌, map, drop, [], ◌∷◌, IfOk, OnOk, MatchOption, codes, decimal};
ghost use Rattle.ge_outside.specs.Draws.{next_state, drawn};
ghost use Rattle.ge_model_grammar.specs.Generated.{request, opening_requests, reserve_word, submit_line, submit_drawn, submit_request, run_request, end_line, end_request};

use ge_rows::Text;
use std::alloc::{AllocError, Global};

fn opening_requests() -> &'static [&'static [u8]]
    ensures { map (λ r. r.now) result.now ≡ opening_requests }
{
    &[
        b"@0 root root\nqconf -Ae\nhostname g0\n",
        b"@0 root root\nqconf -Ae\nhostname g1\n",
        b"@0 root root\nqconf -Ae\nhostname g2\n",
        b"@0 root root\nqconf -Ae\nhostname g3\n",
        b"@0 root root\nqconf -Ae\nhostname g4\n",
        b"@0 root root\nqconf -Ae\nhostname g5\n",
        b"@0 root root\nqconf -Ae\nhostname g6\n",
        b"@0 root root\nqconf -Ae\nhostname g7\n",
        b"@0 root root\nqconf -Aq\nqname gen.q\nhostlist g0 g1 g2 g3 g4 g5 g6 g7\nslots 4\n",
        b"@0 root root\nqconf -Msconf\nmax_reservation 4\n",
    ]
}

/// One of the requests that open the script, from 0 on.
pub(crate) fn opening_request(number: usize) -> Option<&'static [u8]>
    ensures { MatchOption result (drop number opening_requests
        ≡ []) (λ r. drop number opening_requests ≡ r.now ∷ drop (number + 1) opening_requests) }
{
    opening_requests().get(number).copied()
}

/// The state after one draw more.
pub(crate) fn next_state(state: u32) -> u32
    ensures { result ≡ next_state state }
{
    ((1_103_515_245 * u64::from(state) + 12_345) % (1 << 31)) as u32
}

// The number below `bound` that a state gives.
fn drawn(state: u32, bound: u32) -> u32
    requires { 0 < bound }
    ensures { result ≡ drawn state bound }
{
    state / 65_536 % bound
}

fn append_number(alloc: Global, text: &mut Text, number: u64) -> Result<(), AllocError>
    ensures { OnOk result (text.new ≡ text.old ++ decimal number) }
{
    text.append(number.to_string(alloc)?.as_bytes())
}

fn request(
    alloc: Global,
    moment: u64,
    user: &[u8],
    group: &[u8],
    line: &[u8],
) -> Result<Text, AllocError>
    ensures { IfOk result (λ text. text ≡ request moment user.now group.now line.now) }
{
    let mut text = Text::from_bytes(alloc, b"@")?;
    append_number(alloc, &mut text, moment)?;
    text.append(b" ")?;
    text.append(user)?;
    text.append(b" ")?;
    text.append(group)?;
    text.append(b"\n")?;
    text.append(line)?;
    text.append(b"\n")?;
    Ok(text)
}

fn reserve_word(draw: u32) -> &'static [u8]
    ensures { result.now ≡ reserve_word draw }
{
    if draw == 0 { b"y" } else { b"n" }
}

fn submit_line(alloc: Global, job: u32, minutes: u32, reserve: u32) -> Result<Text, AllocError>
    ensures { IfOk result (λ text. text ≡ submit_line job minutes reserve) }
{
    let mut line = Text::from_bytes(alloc, b"qsub -N g")?;
    append_number(alloc, &mut line, u64::from(job))?;
    line.append(b" -l h_rt=")?;
    append_number(alloc, &mut line, 60 * (u64::from(minutes) + 1))?;
    line.append(b" -R ")?;
    line.append(reserve_word(reserve))?;
    line.append(b" work")?;
    Ok(line)
}

fn user_name(alloc: Global, number: u32) -> Result<Text, AllocError>
    ensures { IfOk result (λ text. text ≡ codes "u" ++ decimal number) }
{
    let mut name = Text::from_bytes(alloc, b"u")?;
    append_number(alloc, &mut name, u64::from(number))?;
    Ok(name)
}

/// A job of the script, from the states of its three draws.
pub(crate) fn submit_request(
    alloc: Global,
    job: u32,
    first: u32,
    second: u32,
    third: u32,
) -> Result<Text, AllocError>
    ensures { IfOk result (λ text. text ≡ submit_drawn job first second third) }
{
    let user = user_name(alloc, drawn(first, 5))?;
    let line = submit_line(alloc, job, drawn(second, 20), drawn(third, 4))?;
    request(
        alloc,
        10 * u64::from(job),
        user.bytes(),
        b"gen",
        line.bytes(),
    )
}

/// The run behind a job.
#[tactic(auto, unfolding(ge_model_grammar::specs::Generated::run_request))]
pub(crate) fn run_request(alloc: Global, job: u32) -> Result<Text, AllocError>
    ensures { IfOk result (λ text. text ≡ run_request job) }
{
    request(alloc, 10 * u64::from(job), b"root", b"root", b"sched")
}

fn end_line(alloc: Global, serial: u32, seconds: u32) -> Result<Text, AllocError>
    ensures { IfOk result (λ text. text ≡ end_line serial seconds) }
{
    let mut line = Text::from_bytes(alloc, b"end ")?;
    append_number(alloc, &mut line, u64::from(serial))?;
    line.append(b" 0 ")?;
    append_number(alloc, &mut line, u64::from(seconds))?;
    line.append(b" 0 0")?;
    Ok(line)
}

/// The report of an end behind a job, from the state before its draw.
#[tactic(auto, unfolding(ge_model_grammar::specs::Generated::end_request))]
pub(crate) fn end_request(alloc: Global, job: u32, state: u32) -> Result<Text, AllocError>
    ensures { IfOk result (λ text. text ≡ end_request job state) }
{
    let line = end_line(alloc, job / 2, drawn(next_state(state), 100))?;
    request(alloc, 10 * u64::from(job), b"root", b"root", line.bytes())
}
