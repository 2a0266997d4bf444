//! The attributes that each kind of object has: queue_conf(5), hostgroup(5), host_conf(5), sge_pe(5), access_list(5),
//! project(5), user(5), sched_conf(5). Behind those that count stand those that are read without effect, and those that
//! may be NONE alone.

ghost use Rattle.std.specs.Prelude.{◌≡◌, map};
ghost use Rattle.std.specs.List.{list_all};
ghost use Rattle.ge_model_rows.specs.EntryRows.{ObjectKind};
ghost use Rattle.ge_model_grammar.specs.Attributes.{known_attributes, naming_attributes};
ghost use Rattle.ge_model_grammar.specs.Bodies.{has_attribute};

use crate::attributes::has_attribute;
use ge_rows::{ObjectKind, Text};

fn of_queues() -> &'static [&'static [u8]]
    ensures { map (λ name. name.now) result.now ≡ known_attributes ObjectKind.Queue }
{
    &[
        b"qname",
        b"hostlist",
        b"seq_no",
        b"load_thresholds",
        b"pe_list",
        b"user_lists",
        b"xuser_lists",
        b"projects",
        b"xprojects",
        b"complex_values",
        b"slots",
        b"s_rt",
        b"h_rt",
        b"s_cpu",
        b"h_cpu",
        b"s_fsize",
        b"h_fsize",
        b"s_data",
        b"h_data",
        b"s_stack",
        b"h_stack",
        b"s_core",
        b"h_core",
        b"s_rss",
        b"h_rss",
        b"s_vmem",
        b"h_vmem",
        b"priority",
        b"min_cpu_interval",
        b"processors",
        b"qtype",
        b"ckpt_list",
        b"rerun",
        b"tmpdir",
        b"shell",
        b"shell_start_mode",
        b"starter_method",
        b"suspend_method",
        b"resume_method",
        b"terminate_method",
        b"notify",
        b"owner_list",
        b"nsuspend",
        b"suspend_interval",
        b"initial_state",
        b"subordinate_list",
        b"calendar",
        b"suspend_thresholds",
        b"prolog",
        b"epilog",
    ]
}

fn of_groups() -> &'static [&'static [u8]]
    ensures { map (λ name. name.now) result.now ≡ known_attributes ObjectKind.Group }
{
    &[b"group_name", b"hostlist"]
}

fn of_hosts() -> &'static [&'static [u8]]
    ensures { map (λ name. name.now) result.now ≡ known_attributes ObjectKind.Host }
{
    &[
        b"hostname",
        b"complex_values",
        b"load_scaling",
        b"load_values",
        b"processors",
        b"usage_scaling",
        b"report_variables",
        b"user_lists",
        b"xuser_lists",
        b"projects",
        b"xprojects",
    ]
}

fn of_environments() -> &'static [&'static [u8]]
    ensures { map (λ name. name.now) result.now ≡ known_attributes ObjectKind.Pe }
{
    &[
        b"pe_name",
        b"slots",
        b"user_lists",
        b"xuser_lists",
        b"allocation_rule",
        b"urgency_slots",
        b"start_proc_args",
        b"stop_proc_args",
        b"control_slaves",
        b"job_is_first_task",
        b"accounting_summary",
    ]
}

fn of_user_sets() -> &'static [&'static [u8]]
    ensures { map (λ name. name.now) result.now ≡ known_attributes ObjectKind.Set }
{
    &[b"name", b"entries", b"type", b"fshare", b"oticket"]
}

fn of_users() -> &'static [&'static [u8]]
    ensures { map (λ name. name.now) result.now ≡ known_attributes ObjectKind.User }
{
    &[
        b"name",
        b"oticket",
        b"fshare",
        b"delete_time",
        b"default_project",
    ]
}

fn of_projects() -> &'static [&'static [u8]]
    ensures { map (λ name. name.now) result.now ≡ known_attributes ObjectKind.Project }
{
    &[b"name", b"oticket", b"fshare", b"acl", b"xacl"]
}

fn of_settings() -> &'static [&'static [u8]]
    ensures { map (λ name. name.now) result.now ≡ known_attributes ObjectKind.Sched }
{
    &[
        b"schedule_interval",
        b"maxujobs",
        b"queue_sort_method",
        b"load_formula",
        b"weight_priority",
        b"weight_urgency",
        b"weight_ticket",
        b"weight_waiting_time",
        b"weight_deadline",
        b"weight_tickets_functional",
        b"weight_tickets_share",
        b"weight_user",
        b"weight_project",
        b"weight_job",
        b"halftime",
        b"max_reservation",
        b"default_duration",
        b"usage_weight_list",
        b"max_pending_tasks_per_job",
        b"algorithm",
        b"job_load_adjustments",
        b"load_adjustment_decay_time",
        b"flush_submit_sec",
        b"flush_finish_sec",
        b"params",
        b"schedd_job_info",
        b"reprioritize_interval",
        b"compensation_factor",
        b"weight_department",
        b"share_override_tickets",
        b"share_functional_shares",
        b"max_functional_jobs_to_schedule",
        b"report_pjob_tickets",
        b"policy_hierarchy",
        b"halflife_decay_list",
    ]
}

/// All attributes that a body of a kind may have.
pub(crate) fn known_to(kind: ObjectKind) -> &'static [&'static [u8]]
    ensures { map (λ name. name.now) result.now ≡ known_attributes kind }
{
    match kind {
        ObjectKind::Queue => of_queues(),
        ObjectKind::Group => of_groups(),
        ObjectKind::Host => of_hosts(),
        ObjectKind::Pe => of_environments(),
        ObjectKind::Set => of_user_sets(),
        ObjectKind::User => of_users(),
        ObjectKind::Project => of_projects(),
        ObjectKind::Sched => of_settings(),
        ObjectKind::Complexes
        | ObjectKind::Quota
        | ObjectKind::Shares
        | ObjectKind::Managers
        | ObjectKind::Operators => &[],
    }
}

/// Whether a body has the attribute that names an object of its kind, if there is one.
pub(crate) fn has_its_name(kind: ObjectKind, values: &[(Text, Text)]) -> bool
    ensures { result ≡ list_all (has_attribute values.now) (naming_attributes kind) }
{
    match kind {
        ObjectKind::Queue => has_attribute(values, b"qname"),
        ObjectKind::Group => has_attribute(values, b"group_name"),
        ObjectKind::Host => has_attribute(values, b"hostname"),
        ObjectKind::Pe => has_attribute(values, b"pe_name"),
        ObjectKind::Set | ObjectKind::User | ObjectKind::Project => has_attribute(values, b"name"),
        ObjectKind::Sched
        | ObjectKind::Complexes
        | ObjectKind::Quota
        | ObjectKind::Shares
        | ObjectKind::Managers
        | ObjectKind::Operators => true,
    }
}
