//! The scheduler's settings: see the manual page sched_conf.

ghost use Rattle.std.specs.Prelude.{◌≡◌, ◌++◌, ◌∷◌, [], IfOk, codes};
ghost use Rattle.ge_model_config.specs.Settings.{sched_lines, sort_text, usage_text};

use crate::lines::{put, put_fixed, put_number, put_time};
use ge_complex::fixed_text;
use ge_rows::{List, Sched, SortMethod, Text};
use std::alloc::{AllocError, Global};

fn sorted_by(method: SortMethod) -> &'static [u8]
    ensures { result.now ≡ sort_text method }
{
    match method {
        SortMethod::Load => b"load",
        SortMethod::Seqno => b"seqno",
    }
}

// The weights of usage.
fn usage_weights(alloc: Global, settings: &Sched) -> Result<Text, AllocError>
    ensures { IfOk result (λ text. text ≡ usage_text settings.now) }
{
    let mut text = Text::from_bytes(alloc, b"cpu=")?;
    text.append(fixed_text(alloc, settings.u_cpu)?.bytes())?;
    text.append(b",mem=")?;
    text.append(fixed_text(alloc, settings.u_mem)?.bytes())?;
    text.append(b",io=")?;
    text.append(fixed_text(alloc, settings.u_io)?.bytes())?;
    Ok(text)
}

/// The lines of the scheduler's settings.
pub(crate) fn print_settings(alloc: Global, settings: &Sched) -> Result<List<Text>, AllocError>
    ensures { IfOk result (λ lines. lines ≡ sched_lines settings.now) }
{
    let usage = usage_weights(alloc, settings)?;
    let mut lines = List::new(alloc);
    let all = &mut lines;
    put_time(alloc, all, b"schedule_interval", settings.interval)?;
    put_number(alloc, all, b"maxujobs", settings.maxujobs)?;
    put(alloc, all, b"queue_sort_method", sorted_by(settings.sort))?;
    put(alloc, all, b"load_formula", settings.load_formula.bytes())?;
    put_fixed(alloc, all, b"weight_priority", settings.w_priority)?;
    put_fixed(alloc, all, b"weight_urgency", settings.w_urgency)?;
    put_fixed(alloc, all, b"weight_ticket", settings.w_ticket)?;
    put_fixed(alloc, all, b"weight_waiting_time", settings.w_waiting)?;
    put_fixed(alloc, all, b"weight_deadline", settings.w_deadline)?;
    put_number(
        alloc,
        all,
        b"weight_tickets_functional",
        settings.functional,
    )?;
    put_number(alloc, all, b"weight_tickets_share", settings.share)?;
    put_fixed(alloc, all, b"weight_user", settings.w_user)?;
    put_fixed(alloc, all, b"weight_project", settings.w_project)?;
    put_fixed(alloc, all, b"weight_job", settings.w_job)?;
    put_number(alloc, all, b"halftime", settings.halftime)?;
    put_number(alloc, all, b"max_reservation", settings.max_reservation)?;
    put_time(alloc, all, b"default_duration", settings.default_duration)?;
    put(alloc, all, b"usage_weight_list", usage.bytes())?;
    put_number(
        alloc,
        all,
        b"max_pending_tasks_per_job",
        settings.max_pending,
    )?;
    Ok(lines)
}
