//! What the words of options must be (qsub, qalter).

ghost use Rattle.std.specs.Prelude.{◌≡◌, ℕ, IfOk, is_some};
ghost use Rattle.std.specs.List.{list_all};
ghost use Rattle.ge_model_grammar.specs.Options.{number_or, open_range, slot_range_of};
ghost use Rattle.ge_model_grammar.specs.Forms.{is_asked, is_host_part, is_queue_item, is_job_item, unsigned, is_account, has_form};
ghost use Rattle.ge_commands.specs.Lent.{texts};

use crate::ranges::read_range;
use ge_model_grammar::WordForm;
use ge_pieces::{
    before, behind, has, has_digits, has_job_name_bytes, is_a_job_name, is_a_name, is_word,
    slices_at,
};
use std::alloc::{AllocError, Global};

fn is_an_account(text: &[u8]) -> bool
    ensures { result ≡ is_account text.now }
{
    text.len() >= 1 && text.len() <= 128 && has_job_name_bytes(text)
}

fn is_asked_item(item: &[u8]) -> bool
    ensures { result ≡ is_asked item.now }
{
    is_a_name(before(b'=', item))
}

fn is_part_of_host(part: &[u8]) -> bool
    ensures { result ≡ is_host_part part.now }
{
    !part.is_empty() && !is_word(part, b"@")
}

fn is_a_queue_item(item: &[u8]) -> bool
    ensures { result ≡ is_queue_item item.now }
{
    !before(b'@', item).is_empty() && (!has(b'@', item) || is_part_of_host(behind(b'@', item)))
}

fn is_filled_item(item: &[u8]) -> bool
    ensures { result ≡ is_job_item item.now }
{
    !item.is_empty()
}

fn without_sign(text: &[u8]) -> &[u8]
    ensures { result.now ≡ unsigned text.now }
{
    match text {
        [b'-', digits @ ..] => digits,
        _ => text,
    }
}

fn is_number_or_nothing(text: &[u8]) -> bool
    ensures { (other : ℕ) → result ≡ is_some (number_or other text.now) }
{
    text.is_empty() || has_digits(text)
}

fn is_open_range(low: &[u8], high: &[u8]) -> bool
    ensures { result ≡ is_some (open_range low.now high.now) }
{
    if low.is_empty() && high.is_empty() {
        false
    } else {
        is_number_or_nothing(low) && is_number_or_nothing(high)
    }
}

fn is_slot_range(text: &[u8]) -> bool
    ensures { result ≡ is_some (slot_range_of text.now) }
{
    if has(b'-', text) {
        is_open_range(before(b'-', text), behind(b'-', text))
    } else {
        is_open_range(text, text)
    }
}

fn is_an_answer(word: &[u8]) -> bool
    ensures { result ≡ has_form WordForm.Answer word.now }
{
    is_word(word, b"y") || is_word(word, b"yes") || is_word(word, b"n") || is_word(word, b"no")
}

fn is_task_range(word: &[u8]) -> bool
    ensures { result ≡ has_form WordForm.Tasks word.now }
{
    read_range(word).is_some()
}

fn are_asked(items: &[&[u8]]) -> bool
    ensures { result ≡ list_all is_asked (texts items.now) }
{
    for item in items {
        if !is_asked_item(item) {
            return false;
        }
    }
    true
}

fn are_queues(items: &[&[u8]]) -> bool
    ensures { result ≡ list_all is_queue_item (texts items.now) }
{
    for item in items {
        if !is_a_queue_item(item) {
            return false;
        }
    }
    true
}

fn are_jobs(items: &[&[u8]]) -> bool
    ensures { result ≡ list_all is_job_item (texts items.now) }
{
    for item in items {
        if !is_filled_item(item) {
            return false;
        }
    }
    true
}

/// Whether a word has a form.
pub(crate) fn fits(alloc: Global, form: WordForm, word: &[u8]) -> Result<bool, AllocError>
    ensures { IfOk result (λ fits. fits ≡ has_form form word.now) }
{
    match form {
        WordForm::JobName => Ok(is_a_job_name(word)),
        WordForm::Asked => Ok(are_asked(&slices_at(alloc, b',', word)?)),
        WordForm::Queues => Ok(are_queues(&slices_at(alloc, b',', word)?)),
        WordForm::Name => Ok(is_a_name(word)),
        WordForm::Slots => Ok(is_slot_range(word)),
        WordForm::Tasks => Ok(is_task_range(word)),
        WordForm::Jobs => Ok(are_jobs(&slices_at(alloc, b',', word)?)),
        WordForm::Signed => Ok(has_digits(without_sign(word))),
        WordForm::Digits => Ok(has_digits(word)),
        WordForm::Answer => Ok(is_an_answer(word)),
        WordForm::Account => Ok(is_an_account(word)),
        WordForm::Any => Ok(true),
    }
}
