// Appending a record and compacting.
ghost use Rattle.std.specs.Prelude.{◌≡◌, ◌⊎◌, ◌+◌, ◌-◌, ◌^◌, ◌<◌, ◌≤◌, ℕ, not, List, length, OnOk};
ghost use Rattle.ge_model_journal.specs.Disk.{IsImageSince, read_bytes};
ghost use Rattle.ge_model_journal.specs.Journal.{State, with_record, compacted, IsOneOf};
ghost use Rattle.ge_model_journal.specs.Writing.{bytes_of_record, bytes_of_area};
ghost use Rattle.ge_outside.specs.Faults.{Rose};
ghost use Rattle.ge_spool.specs.Answers.{Answers, OnRefusal, is_dead_after};
ghost use Rattle.ge_spool.specs.Bytes.{record_body, snapshot_of, header_generation};
ghost use Rattle.ge_spool.specs.Settled.{IsSettled, KeepsRoom, Grows, HasWritten, IsAppended, IsCompacted, is_dead, is_second, end_of, format_of, generation_of};

use crate::choosing::{refill_chosen, write_chosen};
use crate::{AppendFault, RecordBytes, SnapshotBytes, Spool, WRITTEN_FORMAT};
use ge_limits::AREA_BYTES;
use ge_outside::Disk;

// Where an area may end.
impl Spool {
    /// Writes a record behind the others, in a journal of the format 2. At `Ok` it is there for good. At each moment before, a stop leaves
    /// what stood before, or that with the record.
    pub fn append<D: Disk>(
        &mut self,
        a: &mut D,
        b: &mut D,
        record_bytes: &RecordBytes,
    ) -> Result<(), AppendFault>
        requires room { KeepsRoom self.old (D.told a.old) (D.told b.old) }
        requires format { format_of self.old ≡ 2 }

        ensures done { (state : State) → IsSettled self.old (D.told a.old) (D.told b.old) state
            → OnOk result (IsSettled self.new (D.told a.new) (D.told b.new) (with_record state (record_body record_bytes.now))) }

        // At the gate that ended the list the record stands.
        ensures written { (state : State) → IsSettled self.old (D.told a.old) (D.told b.old) state
            → OnOk result (HasWritten (is_second self.old) (end_of self.old) (bytes_of_record (record_body record_bytes.now))
            (read_bytes (D.told a.old)) (read_bytes (D.told a.new)) (read_bytes (D.told b.old)) (read_bytes (D.told b.new))) }

        // At each moment every pair of images is what stood before, or that with the record.
        ensures any_moment { (state : State) → IsSettled self.old (D.told a.old) (D.told b.old) state
            → (c d : List ℕ) → IsImageSince (length (D.told a.old)) (D.told a.new) c → IsImageSince (length (D.told b.old)) (D.told b.new) d
            → IsOneOf state (with_record state (record_body record_bytes.now)) c d }

        ensures answer { Answers result (is_dead self.old) (end_of self.old + 6 + length (record_body record_bytes.now))
            (Rose (D.disk_faults a.old) (D.disk_faults a.new) ⊎ Rose (D.disk_faults b.old) (D.disk_faults b.new)) }
        ensures dead { is_dead self.new ≡ is_dead_after result }
        ensures untouched { OnRefusal result ((self.new ≡ self.old) × (a.new ≡ a.old) × (b.new ≡ b.old)) }
        ensures appended { OnOk result (IsAppended self.old self.new (length (record_body record_bytes.now))) }
        ensures room { KeepsRoom self.new (D.told a.new) (D.told b.new) }
        ensures grows { Grows (D.told a.old) (D.told a.new) (D.told b.old) (D.told b.new) }
        ensures syncs { D.syncs a.new + D.syncs b.new ≤ D.syncs a.old + D.syncs b.old + 2 }
        ensures syncs_a { D.syncs a.old ≤ D.syncs a.new }
        ensures syncs_b { D.syncs b.old ≤ D.syncs b.new }
        ensures faults_a { D.disk_faults a.old ≤ D.disk_faults a.new }
        ensures faults_b { D.disk_faults b.old ≤ D.disk_faults b.new }
    {
        if self.dead {
            return Err(AppendFault::Dead);
        }
        let piece = record_bytes.piece();
        let end = self.end + 1 + piece.len() as u64;
        if end > AREA_BYTES {
            return Err(AppendFault::Full(end));
        }
        if write_chosen(self.second, a, b, self.end, piece).is_err() {
            self.dead = true;
            return Err(AppendFault::Disk);
        }
        self.end = end - 1;
        self.records += 1;
        Ok(())
    }

    /// Fills the other area with a snapshot, in the format 2 and the next generation, so that it counts. At `Ok` it
    /// is there for good. At each moment before, a stop leaves what stood before, or the snapshot with no records.
    pub fn compact<D: Disk>(
        &mut self,
        a: &mut D,
        b: &mut D,
        snapshot_bytes: &mut SnapshotBytes,
    ) -> Result<(), AppendFault>
        requires room { KeepsRoom self.old (D.told a.old) (D.told b.old) }
        requires below { generation_of self.old < 2 ^ 64 - 1 }

        ensures done { (state : State) → IsSettled self.old (D.told a.old) (D.told b.old) state
            → OnOk result (IsSettled self.new (D.told a.new) (D.told b.new) (compacted state (snapshot_of snapshot_bytes.old))) }

        // The other area begins with the snapshot's bytes.
        ensures written { (state : State) → IsSettled self.old (D.told a.old) (D.told b.old) state
            → OnOk result (HasWritten (not (is_second self.old)) 0 (bytes_of_area (generation_of self.old + 1) (snapshot_of snapshot_bytes.old))
            (read_bytes (D.told a.old)) (read_bytes (D.told a.new)) (read_bytes (D.told b.old)) (read_bytes (D.told b.new))) }

        // At each moment every pair of images is what stood before, or the next generation.
        ensures any_moment { (state : State) → IsSettled self.old (D.told a.old) (D.told b.old) state
            → (c d : List ℕ) → IsImageSince (length (D.told a.old)) (D.told a.new) c → IsImageSince (length (D.told b.old)) (D.told b.new) d
            → IsOneOf state (compacted state (snapshot_of snapshot_bytes.old)) c d }

        ensures answer { Answers result (is_dead self.old) (19 + length (snapshot_of snapshot_bytes.old))
            (Rose (D.disk_faults a.old) (D.disk_faults a.new) ⊎ Rose (D.disk_faults b.old) (D.disk_faults b.new)) }
        ensures dead { is_dead self.new ≡ is_dead_after result }
        ensures untouched { OnRefusal result ((self.new ≡ self.old) × (a.new ≡ a.old) × (b.new ≡ b.old)) }
        ensures unset { OnRefusal result (snapshot_bytes.new ≡ snapshot_bytes.old) }
        ensures snapshot { snapshot_of snapshot_bytes.new ≡ snapshot_of snapshot_bytes.old }
        ensures header { OnOk result (header_generation snapshot_bytes.new ≡ generation_of self.old + 1) }
        ensures compacted { OnOk result (IsCompacted self.old self.new (length (snapshot_of snapshot_bytes.old))) }
        ensures room { KeepsRoom self.new (D.told a.new) (D.told b.new) }
        ensures grows { Grows (D.told a.old) (D.told a.new) (D.told b.old) (D.told b.new) }
        ensures syncs { D.syncs a.new + D.syncs b.new ≤ D.syncs a.old + D.syncs b.old + 3 }
        ensures syncs_a { D.syncs a.old ≤ D.syncs a.new }
        ensures syncs_b { D.syncs b.old ≤ D.syncs b.new }
        ensures faults_a { D.disk_faults a.old ≤ D.disk_faults a.new }
        ensures faults_b { D.disk_faults b.old ≤ D.disk_faults b.new }
    {
        if self.dead {
            return Err(AppendFault::Dead);
        }
        let end = snapshot_bytes.piece().len() as u64 + 1;
        if end > AREA_BYTES {
            return Err(AppendFault::Full(end));
        }
        snapshot_bytes.set_generation(self.generation + 1);
        if refill_chosen(self.second, b, a, self.other_open, snapshot_bytes.piece()).is_err() {
            self.dead = true;
            return Err(AppendFault::Disk);
        }
        self.second = !self.second;
        self.format = WRITTEN_FORMAT;
        self.generation += 1;
        self.records = 0;
        self.end = end - 1;
        self.other_open = true;
        Ok(())
    }
}
