// Hosts, queues and parallel environments.
use crate::canon::Canon;
use crate::pairs::{Fields, put_variant};
use crate::texts::take_tag;
use ge_model_codec::TakeFault;
use ge_rows::{Allocation, Attr, HostRow, List, PeRow, QueueRow, Table, Text, UrgencySlots, Value};
use std::alloc::{AllocError, Global};

type HostRowParts = (Table<Text, Value>, Table<Text, Value>);

impl Canon for HostRow {
    ghost use Rattle.ge_model_codec.specs.Configured.{host_row_code};
    ghost use Rattle.ge_codec.specs.ConfiguredLaws.{host_row_canonical};

    ghost code = { host_row_code };

    ghost canonical = { host_row_canonical };

    fn put(&self, out: &mut Text) -> Result<(), AllocError> {
        (&self.values, &self.load).put_all(out)
    }

    #[tactic(auto, using(crate::specs::Passing::fault_passes_made))]
    fn take(alloc: Global, bytes: &[u8], at: usize) -> Result<(HostRow, usize), TakeFault> {
        let (parts, past) = HostRowParts::take(alloc, bytes, at)?;
        let (values, load) = parts;
        Ok((HostRow { values, load }, past))
    }
}

impl<T: Canon + Drop> Canon for Attr<T> {
    ghost use Rattle.ge_model_codec.specs.Configured.{attr_code};
    ghost use Rattle.ge_codec.specs.ConfiguredLaws.{attr_canonical};

    ghost code = { attr_code T.code };

    ghost canonical = { attr_canonical T.code T.canonical };

    fn put(&self, out: &mut Text) -> Result<(), AllocError> {
        (&self.plain, &self.overrides).put_all(out)
    }

    #[tactic(auto, using(crate::specs::Passing::fault_passes_made))]
    fn take(alloc: Global, bytes: &[u8], at: usize) -> Result<(Attr<T>, usize), TakeFault> {
        let (parts, past) = <(T, List<(Text, T)>)>::take(alloc, bytes, at)?;
        let (plain, overrides) = parts;
        Ok((Attr { plain, overrides }, past))
    }
}

type QueueRowParts = (
    (
        List<Text>,
        Attr<u64>,
        Attr<Table<Text, Value>>,
        Attr<List<Text>>,
    ),
    (
        Attr<List<Text>>,
        Attr<List<Text>>,
        Attr<List<Text>>,
        Attr<List<Text>>,
    ),
    (Attr<Table<Text, Value>>, Attr<u64>, Table<Text, Attr<u64>>),
);

impl Canon for QueueRow {
    ghost use Rattle.ge_model_codec.specs.Configured.{queue_row_code};
    ghost use Rattle.ge_codec.specs.ConfiguredLaws.{queue_row_canonical};

    ghost code = { queue_row_code };

    ghost canonical = { queue_row_canonical };

    fn put(&self, out: &mut Text) -> Result<(), AllocError> {
        (
            (&self.hosts, &self.seq_no, &self.thresholds, &self.pes),
            (&self.users, &self.xusers, &self.projects, &self.xprojects),
            (&self.values, &self.slots, &self.limits),
        )
            .put_all(out)
    }

    #[tactic(auto, using(crate::specs::Passing::fault_passes_made))]
    fn take(alloc: Global, bytes: &[u8], at: usize) -> Result<(QueueRow, usize), TakeFault> {
        let (parts, past) = QueueRowParts::take(alloc, bytes, at)?;
        let (
            (hosts, seq_no, thresholds, pes),
            (users, xusers, projects, xprojects),
            (values, slots, limits),
        ) = parts;
        Ok((
            QueueRow {
                hosts,
                seq_no,
                thresholds,
                pes,
                users,
                xusers,
                projects,
                xprojects,
                values,
                slots,
                limits,
            },
            past,
        ))
    }
}

impl Canon for Allocation {
    ghost use Rattle.ge_model_codec.specs.Configured.{allocation_code};
    ghost use Rattle.ge_codec.specs.ConfiguredLaws.{allocation_canonical};

    ghost code = { allocation_code };

    ghost canonical = { allocation_canonical };

    fn put(&self, out: &mut Text) -> Result<(), AllocError> {
        match self {
            Allocation::Fixed(value) => put_variant(0, &value, out),
            Allocation::PeSlots => out.push(1),
            Allocation::FillUp => out.push(2),
            Allocation::RoundRobin => out.push(3),
        }
    }

    #[tactic(auto, using(crate::specs::Passing::fault_passes, crate::specs::Passing::fault_passes_made))]
    fn take(alloc: Global, bytes: &[u8], at: usize) -> Result<(Allocation, usize), TakeFault> {
        let (tag, mid) = take_tag(bytes, at, 4)?;
        match tag {
            0 => {
                let (value, end) = u32::take(alloc, bytes, mid)?;
                Ok((Allocation::Fixed(value), end))
            }
            1 => Ok((Allocation::PeSlots, mid)),
            2 => Ok((Allocation::FillUp, mid)),
            _ => Ok((Allocation::RoundRobin, mid)),
        }
    }
}

impl Canon for UrgencySlots {
    ghost use Rattle.ge_model_codec.specs.Configured.{urgency_slots_code};
    ghost use Rattle.ge_codec.specs.ConfiguredLaws.{urgency_slots_canonical};

    ghost code = { urgency_slots_code };

    ghost canonical = { urgency_slots_canonical };

    fn put(&self, out: &mut Text) -> Result<(), AllocError> {
        match self {
            UrgencySlots::Fixed(value) => put_variant(0, &value, out),
            UrgencySlots::Min => out.push(1),
            UrgencySlots::Max => out.push(2),
            UrgencySlots::Avg => out.push(3),
        }
    }

    #[tactic(auto, using(crate::specs::Passing::fault_passes, crate::specs::Passing::fault_passes_made))]
    fn take(alloc: Global, bytes: &[u8], at: usize) -> Result<(UrgencySlots, usize), TakeFault> {
        let (tag, mid) = take_tag(bytes, at, 4)?;
        match tag {
            0 => {
                let (value, end) = u32::take(alloc, bytes, mid)?;
                Ok((UrgencySlots::Fixed(value), end))
            }
            1 => Ok((UrgencySlots::Min, mid)),
            2 => Ok((UrgencySlots::Max, mid)),
            _ => Ok((UrgencySlots::Avg, mid)),
        }
    }
}

type PeRowParts = (u64, List<Text>, List<Text>, Allocation, UrgencySlots);

impl Canon for PeRow {
    ghost use Rattle.ge_model_codec.specs.Configured.{pe_row_code};
    ghost use Rattle.ge_codec.specs.ConfiguredLaws.{pe_row_canonical};

    ghost code = { pe_row_code };

    ghost canonical = { pe_row_canonical };

    fn put(&self, out: &mut Text) -> Result<(), AllocError> {
        (
            &self.slots,
            &self.users,
            &self.xusers,
            &self.rule,
            &self.urgency_slots,
        )
            .put_all(out)
    }

    #[tactic(auto, using(crate::specs::Passing::fault_passes_made))]
    fn take(alloc: Global, bytes: &[u8], at: usize) -> Result<(PeRow, usize), TakeFault> {
        let (parts, past) = PeRowParts::take(alloc, bytes, at)?;
        let (slots, users, xusers, rule, urgency_slots) = parts;
        Ok((
            PeRow {
                slots,
                users,
                xusers,
                rule,
                urgency_slots,
            },
            past,
        ))
    }
}
