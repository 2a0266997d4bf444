//! Jobs in advance reservations: `-ar`, and what such a job can't ask for (qsub, qalter).

ghost use Rattle.std.specs.Prelude.{◌≡◌, ◌^◌, ◌-◌, min, codes};
ghost use Rattle.std.specs.List.{list_any};
ghost use Rattle.std.specs.Option.{option_copied};
ghost use Rattle.ge_model_rows.specs.Complexes as complexes;
ghost use Rattle.ge_model_rows.specs.Faults.{after_faults};
ghost use Rattle.ge_model_rows.specs.Pieces.{number_of};
ghost use Rattle.ge_model_grammar.specs.Targets.{job_number_of};
ghost use Rattle.ge_model_config.specs.Requests.{request_of, no_request as nothing_asked};
ghost use Rattle.ge_model_config.specs.Used as used;
ghost use Rattle.ge_model_core.specs.OptionValues.{option_word as word_given};
ghost use Rattle.ge_model_core.specs.JobAdvances as advances;

use crate::option_values::{option_text, option_word, yes_given};
use ge_base::Refusal;
use ge_commands::has_option;
use ge_complex::is_consumable;
use ge_pieces::{digits_worth, has_digits, is_same, note};
use ge_rows::{Advance, Cluster, Event, List, Options, PeRequest, Request, Table, Text, Value};
use std::alloc::Global;

/// A request that asks for nothing, which takes no memory.
pub fn no_request(alloc: Global) -> Request
    ensures { result ≡ nothing_asked }
{
    Request {
        asked: Table::new(alloc),
        queues: List::new(alloc),
        pe: None,
    }
}

// What digits are worth, cut at the greatest number of 32 bits.
fn number_worth(digits: &[u8]) -> u32
    ensures { result ≡ min (2 ^ 32 - 1) (number_of digits.now) }
{
    digits_worth(digits).min(u64::from(u32::MAX)) as u32
}

fn job_number(word: &[u8]) -> Option<u32>
    ensures { result ≡ job_number_of word.now }
{
    if has_digits(word) {
        Some(number_worth(word))
    } else {
        None
    }
}

/// The number of the advance reservation that `-ar` names; 0 is none (qsub).
pub fn advance_named(options: &Options) -> u32
    ensures { result ≡ advances.advance_named options.now.items }
{
    match option_word(options, b"-ar") {
        None => 0,
        Some(word) => job_number(word).unwrap_or(0),
    }
}

fn asks_pe(name: &Text, pe: &Option<PeRequest>) -> bool
    ensures { result ≡ used.asks_pe name.now pe.now }
{
    match pe {
        None => false,
        Some(pe) => is_same(name, &pe.name),
    }
}

fn is_booked_for(name: &Text, booked: Option<&Advance>) -> bool
    ensures { result ≡ advances.is_booked_for name.now (option_copied booked.entry) }
{
    match booked {
        None => false,
        Some(booked) => asks_pe(name, &booked.request.pe),
    }
}

// Whether a parallel environment is given that isn't the reservation's.
fn is_other_pe(booked: Option<&Advance>, name: Option<&Text>) -> bool
    ensures { result ≡ advances.is_other_pe (option_copied booked.entry)
        (option_copied name.entry) }
{
    match name {
        None => false,
        Some(name) => !is_booked_for(name, booked),
    }
}

fn gives_reservation(options: &Options) -> bool
    ensures { result ≡ advances.gives_reservation options.now.items }
{
    yes_given(options, b"-R").unwrap_or(false)
}

fn has_consumable(c: &Cluster, asked: &Table<Text, Value>) -> bool
    ensures { result ≡ list_any (λ a. complexes.is_consumable c.now a.0) asked.now }
{
    for (name, _value) in asked.iter() {
        if is_consumable(c, name) {
            return true;
        }
    }
    false
}

/// Notes what a job in an advance reservation can't ask for, where its options alone ask for this: `-R y`, `-P`, a parallel
/// environment that isn't the reservation's, or a consumable: `BadValue`.
pub fn note_advance(
    c: &Cluster,
    options: &Options,
    asked: &Request,
    booked: Option<&Advance>,
    faults: &mut Option<Refusal>,
)
    requires { asked.now ≡ (request_of c.now options.now.items nothing_asked).0 }
    ensures { faults.new ≡ after_faults faults.old (advances.advance_faults c.now options.now.items
        (option_copied booked.entry)) }
{
    note(
        faults,
        gives_reservation(options)
            || has_option(options, b"-P")
            || is_other_pe(booked, option_text(options, b"-pe"))
            || has_consumable(c, &asked.asked),
        Refusal::BadValue,
    );
}

fn note_joined(
    c: &Cluster,
    e: &Event,
    options: &Options,
    asked: &Request,
    booked: Option<&Advance>,
    faults: &mut Option<Refusal>,
)
    requires { asked.now ≡ (request_of c.now options.now.items nothing_asked).0 }
    ensures { faults.new ≡ after_faults faults.old
        (advances.joined_faults c.now e.now options.now.items (option_copied booked.entry)) }
{
    match booked {
        None => note(faults, true, Refusal::NoSuchObject),
        Some(row) => {
            note(faults, !is_same(&row.owner, &e.user), Refusal::NotPermitted);
            note_advance(c, options, asked, Some(row), faults);
        }
    }
}

/// Notes what refuses `-ar` (qsub): the reservation isn't there, `NoSuchObject`, another user is its owner, `NotPermitted`, or
/// the job asks for what it can't have in one.
pub fn note_join(
    c: &Cluster,
    e: &Event,
    options: &Options,
    asked: &Request,
    faults: &mut Option<Refusal>,
)
    requires { asked.now ≡ (request_of c.now options.now.items nothing_asked).0 }
    ensures { faults.new ≡ after_faults faults.old
        (advances.join_faults c.now e.now options.now.items) }
{
    if has_option(options, b"-ar") {
        note_joined(
            c,
            e,
            options,
            asked,
            c.advances.get(&advance_named(options)),
            faults,
        );
    }
}
