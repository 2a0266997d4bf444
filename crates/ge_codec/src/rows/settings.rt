// Rule sets, users, projects, share nodes and settings.
use crate::canon::Canon;
use crate::pairs::Fields;
use crate::texts::take_tag;
use ge_model_codec::TakeFault;
use ge_rows::{
    Filter, List, ProjectRow, QuotaRow, Rule, Sched, ShareNode, SortMethod, Table, Text, UserRow,
};
use std::alloc::{AllocError, Global};

type FilterParts = (bool, List<Text>, List<Text>);

impl Canon for Filter {
    ghost use Rattle.ge_model_codec.specs.Configured.{filter_code};
    ghost use Rattle.ge_codec.specs.ConfiguredLaws.{filter_canonical};

    ghost code = { filter_code };

    ghost canonical = { filter_canonical };

    fn put(&self, out: &mut Text) -> Result<(), AllocError> {
        (&self.braces, &self.plain, &self.without).put_all(out)
    }

    #[tactic(auto, using(crate::specs::Passing::fault_passes_made))]
    fn take(alloc: Global, bytes: &[u8], at: usize) -> Result<(Filter, usize), TakeFault> {
        let (parts, past) = FilterParts::take(alloc, bytes, at)?;
        let (braces, plain, without) = parts;
        Ok((
            Filter {
                braces,
                plain,
                without,
            },
            past,
        ))
    }
}

type RuleParts = (
    Text,
    (
        Option<Filter>,
        Option<Filter>,
        Option<Filter>,
        Option<Filter>,
        Option<Filter>,
    ),
    Table<Text, u64>,
);

impl Canon for Rule {
    ghost use Rattle.ge_model_codec.specs.Configured.{rule_code};
    ghost use Rattle.ge_codec.specs.ConfiguredLaws.{rule_canonical};

    ghost code = { rule_code };

    ghost canonical = { rule_canonical };

    fn put(&self, out: &mut Text) -> Result<(), AllocError> {
        (
            &self.name,
            (
                &self.users,
                &self.projects,
                &self.pes,
                &self.queues,
                &self.hosts,
            ),
            &self.limits,
        )
            .put_all(out)
    }

    #[tactic(auto, using(crate::specs::Passing::fault_passes_made))]
    fn take(alloc: Global, bytes: &[u8], at: usize) -> Result<(Rule, usize), TakeFault> {
        let (parts, past) = RuleParts::take(alloc, bytes, at)?;
        let (name, (users, projects, pes, queues, hosts), limits) = parts;
        Ok((
            Rule {
                name,
                users,
                projects,
                pes,
                queues,
                hosts,
                limits,
            },
            past,
        ))
    }
}

type QuotaRowParts = (Text, bool, List<Rule>);

impl Canon for QuotaRow {
    ghost use Rattle.ge_model_codec.specs.Configured.{quota_row_code};
    ghost use Rattle.ge_codec.specs.ConfiguredLaws.{quota_row_canonical};

    ghost code = { quota_row_code };

    ghost canonical = { quota_row_canonical };

    fn put(&self, out: &mut Text) -> Result<(), AllocError> {
        (&self.description, &self.enabled, &self.rules).put_all(out)
    }

    #[tactic(auto, using(crate::specs::Passing::fault_passes_made))]
    fn take(alloc: Global, bytes: &[u8], at: usize) -> Result<(QuotaRow, usize), TakeFault> {
        let (parts, past) = QuotaRowParts::take(alloc, bytes, at)?;
        let (description, enabled, rules) = parts;
        Ok((
            QuotaRow {
                description,
                enabled,
                rules,
            },
            past,
        ))
    }
}

type UserRowParts = (u64, u64);

impl Canon for UserRow {
    ghost use Rattle.ge_model_codec.specs.Configured.{user_row_code};
    ghost use Rattle.ge_codec.specs.ConfiguredLaws.{user_row_canonical};

    ghost code = { user_row_code };

    ghost canonical = { user_row_canonical };

    fn put(&self, out: &mut Text) -> Result<(), AllocError> {
        (&self.fshare, &self.oticket).put_all(out)
    }

    #[tactic(auto, using(crate::specs::Passing::fault_passes_made))]
    fn take(alloc: Global, bytes: &[u8], at: usize) -> Result<(UserRow, usize), TakeFault> {
        let (parts, past) = UserRowParts::take(alloc, bytes, at)?;
        let (fshare, oticket) = parts;
        Ok((UserRow { fshare, oticket }, past))
    }
}

type ProjectRowParts = (u64, u64, List<Text>, List<Text>);

impl Canon for ProjectRow {
    ghost use Rattle.ge_model_codec.specs.Configured.{project_row_code};
    ghost use Rattle.ge_codec.specs.ConfiguredLaws.{project_row_canonical};

    ghost code = { project_row_code };

    ghost canonical = { project_row_canonical };

    fn put(&self, out: &mut Text) -> Result<(), AllocError> {
        (&self.fshare, &self.oticket, &self.acl, &self.xacl).put_all(out)
    }

    #[tactic(auto, using(crate::specs::Passing::fault_passes_made))]
    fn take(alloc: Global, bytes: &[u8], at: usize) -> Result<(ProjectRow, usize), TakeFault> {
        let (parts, past) = ProjectRowParts::take(alloc, bytes, at)?;
        let (fshare, oticket, acl, xacl) = parts;
        Ok((
            ProjectRow {
                fshare,
                oticket,
                acl,
                xacl,
            },
            past,
        ))
    }
}

type ShareNodeParts = (Text, bool, u64, List<u32>);

impl Canon for ShareNode {
    ghost use Rattle.ge_model_codec.specs.Configured.{share_node_code};
    ghost use Rattle.ge_codec.specs.ConfiguredLaws.{share_node_canonical};

    ghost code = { share_node_code };

    ghost canonical = { share_node_canonical };

    fn put(&self, out: &mut Text) -> Result<(), AllocError> {
        (&self.name, &self.project, &self.shares, &self.children).put_all(out)
    }

    #[tactic(auto, using(crate::specs::Passing::fault_passes_made))]
    fn take(alloc: Global, bytes: &[u8], at: usize) -> Result<(ShareNode, usize), TakeFault> {
        let (parts, past) = ShareNodeParts::take(alloc, bytes, at)?;
        let (name, project, shares, children) = parts;
        Ok((
            ShareNode {
                name,
                project,
                shares,
                children,
            },
            past,
        ))
    }
}

impl Canon for SortMethod {
    ghost use Rattle.ge_model_codec.specs.Configured.{sort_method_code};
    ghost use Rattle.ge_codec.specs.ConfiguredLaws.{sort_method_canonical};

    ghost code = { sort_method_code };

    ghost canonical = { sort_method_canonical };

    fn put(&self, out: &mut Text) -> Result<(), AllocError> {
        match self {
            SortMethod::Load => out.push(0),
            SortMethod::Seqno => out.push(1),
        }
    }

    #[tactic(auto, using(crate::specs::Passing::fault_passes, crate::specs::Passing::fault_passes_made))]
    fn take(_alloc: Global, bytes: &[u8], at: usize) -> Result<(SortMethod, usize), TakeFault> {
        let (tag, end) = take_tag(bytes, at, 2)?;
        let value = match tag {
            0 => SortMethod::Load,
            _ => SortMethod::Seqno,
        };
        Ok((value, end))
    }
}

type SchedParts = (
    (u64, u64, SortMethod, Text),
    (u64, u64, u64, u64, u64),
    (u64, u64, u64, u64, u64),
    (u64, u64, u64),
    (u64, u64, u64, u64),
);

impl Canon for Sched {
    ghost use Rattle.ge_model_codec.specs.Configured.{sched_code};
    ghost use Rattle.ge_codec.specs.ConfiguredLaws.{sched_canonical};

    ghost code = { sched_code };

    ghost canonical = { sched_canonical };

    fn put(&self, out: &mut Text) -> Result<(), AllocError> {
        (
            (
                &self.interval,
                &self.maxujobs,
                &self.sort,
                &self.load_formula,
            ),
            (
                &self.w_priority,
                &self.w_urgency,
                &self.w_ticket,
                &self.w_waiting,
                &self.w_deadline,
            ),
            (
                &self.functional,
                &self.share,
                &self.w_user,
                &self.w_project,
                &self.w_job,
            ),
            (
                &self.halftime,
                &self.max_reservation,
                &self.default_duration,
            ),
            (&self.u_cpu, &self.u_mem, &self.u_io, &self.max_pending),
        )
            .put_all(out)
    }

    #[tactic(auto, using(crate::specs::Passing::fault_passes_made))]
    fn take(alloc: Global, bytes: &[u8], at: usize) -> Result<(Sched, usize), TakeFault> {
        let (parts, past) = SchedParts::take(alloc, bytes, at)?;
        let (
            (interval, maxujobs, sort, load_formula),
            (w_priority, w_urgency, w_ticket, w_waiting, w_deadline),
            (functional, share, w_user, w_project, w_job),
            (halftime, max_reservation, default_duration),
            (u_cpu, u_mem, u_io, max_pending),
        ) = parts;
        Ok((
            Sched {
                interval,
                maxujobs,
                sort,
                load_formula,
                w_priority,
                w_urgency,
                w_ticket,
                w_waiting,
                w_deadline,
                functional,
                share,
                w_user,
                w_project,
                w_job,
                halftime,
                max_reservation,
                default_duration,
                u_cpu,
                u_mem,
                u_io,
                max_pending,
            },
            past,
        ))
    }
}
