// Opening a journal.
ghost use Rattle.std.specs.Prelude.{◌≡◌, ◌⊎◌, ◌+◌, ◌-◌, ◌^◌, ◌<◌, ◌≤◌, ℕ, false, List, [], length, IfOk, OnOk};
ghost use Rattle.ge_model_journal.specs.Disk.{HasLength, IsWithin, IsImageSince, read_bytes, told_synced};
ghost use Rattle.ge_model_journal.specs.Area.{is_format};
ghost use Rattle.ge_model_journal.specs.Journal.{picked, area_number, meaning};
ghost use Rattle.ge_model_journal.specs.Writing.{padded};
ghost use Rattle.ge_model_journal.specs.declared.Head.TheVariants.{Closed, Sound};
ghost use Rattle.ge_outside.specs.Faults.{Rose};
ghost use Rattle.ge_spool.specs.Heads.{IsLower, is_sound};
ghost use Rattle.ge_spool.specs.Moments.{IsQuiet, Since};
ghost use Rattle.ge_spool.specs.Opening.{Tells, Opens, Agrees, Blames, IsNoFrame, IsPadImage, IsFreshImage, OnFrame, FindsIn, FitsFound};
ghost use Rattle.ge_spool.specs.Reads.{IsHeadOf, FitsHead};
ghost use Rattle.ge_spool.specs.Settled.{HasRoom, Grows, HasCauseOfTwo, is_dead};
ghost use Rattle.ge_spool.specs.Pieces.{IsSnapshotPiece};
ghost use Rattle.ge_spool.specs.Steps.{refilled};

use crate::finding::Found;
use crate::laying::write_behind;
use crate::padding::pad;
use crate::searching::find;
use crate::surveying::{choose, look};
use crate::{OpenFault, Raw, SnapshotBytes, Spool, WRITTEN_FORMAT};
use ge_collections::Text;
use ge_model_journal::{Choice, Head, Header};
use ge_outside::{Disk, Failed};
use std::alloc::Global;

// Pads both areas and fills the first, where none is open.
fn make_first<D: Disk>(
    a: &mut D,
    b: &mut D,
    size_a: u64,
    size_b: u64,
    piece: &[u8],
) -> Result<(), Failed>
    requires closed_a { IsHeadOf (D.told a.old) size_a Closed }
    requires closed_b { IsHeadOf (D.told b.old) size_b Closed }
    requires is_piece { IsSnapshotPiece piece.now 1 [] }
    requires short { length piece.now ≡ 18 }
    ensures since_a { (bytes : List ℕ) → IsQuiet (D.told a.old) bytes → Since (D.told a.old) (D.told a.new) IsFreshImage }
    ensures since_b { (bytes : List ℕ) → IsQuiet (D.told b.old) bytes → Since (D.told b.old) (D.told b.new) (IsPadImage bytes) }
    ensures quiet_a { OnOk result ((bytes : List ℕ) → IsQuiet (D.told a.old) bytes → IsQuiet (D.told a.new) (refilled false piece.now (padded bytes))) }
    ensures quiet_b { OnOk result ((bytes : List ℕ) → IsQuiet (D.told b.old) bytes → IsQuiet (D.told b.new) (padded bytes)) }
    ensures some_a { OnOk result (IsWithin (D.told a.new) 1) }
    ensures reaches_a { OnOk result (IsWithin (D.told a.new) 19) }
    ensures some_b { OnOk result (IsWithin (D.told b.new) 1) }
    ensures grows { Grows (D.told a.old) (D.told a.new) (D.told b.old) (D.told b.new) }
    ensures syncs { D.syncs a.new + D.syncs b.new ≤ D.syncs a.old + D.syncs b.old + 4 }
    ensures syncs_a { D.syncs a.old ≤ D.syncs a.new }
    ensures syncs_b { D.syncs b.old ≤ D.syncs b.new }
    ensures cause { HasCauseOfTwo (D.disk_faults a.old) (D.disk_faults a.new) (D.disk_faults b.old) (D.disk_faults b.new) result }
{
    pad(a, size_a)?;
    pad(b, size_b)?;
    write_behind(a, 0, piece)?;
    Ok(())
}

// Makes the first area the one that counts, where none is open.
fn open_fresh<D: Disk>(
    alloc: Global,
    a: &mut D,
    b: &mut D,
    size_a: u64,
    size_b: u64,
) -> Result<(Spool, Raw), OpenFault>
    requires closed_a { IsHeadOf (D.told a.old) size_a Closed }
    requires closed_b { IsHeadOf (D.told b.old) size_b Closed }
    ensures since_a { (bytes : List ℕ) → IsQuiet (D.told a.old) bytes → Since (D.told a.old) (D.told a.new) IsFreshImage }
    ensures since_b { (bytes : List ℕ) → IsQuiet (D.told b.old) bytes → Since (D.told b.old) (D.told b.new) (IsPadImage bytes) }
    ensures opened { (bytes_a bytes_b : List ℕ) → IsQuiet (D.told a.old) bytes_a → IsQuiet (D.told b.old) bytes_b
        → Opens result bytes_a bytes_b (D.told a.new) (D.told b.new) }
    ensures agrees { IfOk result (λ opened. Agrees opened.0 opened.1) }
    ensures room { IfOk result (λ opened. HasRoom opened.0 (D.told a.new) (D.told b.new)) }
    ensures alive { IfOk result (λ opened. is_dead opened.0 ≡ false) }
    ensures grows { Grows (D.told a.old) (D.told a.new) (D.told b.old) (D.told b.new) }
    ensures syncs { D.syncs a.new + D.syncs b.new ≤ D.syncs a.old + D.syncs b.old + 4 }
    ensures syncs_a { D.syncs a.old ≤ D.syncs a.new }
    ensures syncs_b { D.syncs b.old ≤ D.syncs b.new }
    ensures faults_a { D.disk_faults a.old ≤ D.disk_faults a.new }
    ensures faults_b { D.disk_faults b.old ≤ D.disk_faults b.new }
    ensures blames { Blames result (Rose (D.disk_faults a.old) (D.disk_faults a.new) ⊎ Rose (D.disk_faults b.old) (D.disk_faults b.new)) }
    ensures no_frame { IsNoFrame result }
{
    let mut first = SnapshotBytes::new(alloc, &Text::new(alloc))?;
    first.set_generation(1);
    if make_first(a, b, size_a, size_b, first.piece()).is_err() {
        return Err(OpenFault::Disk);
    }
    let spool = Spool {
        second: false,
        format: WRITTEN_FORMAT,
        generation: 1,
        records: 0,
        end: 18,
        other_open: false,
        dead: false,
    };
    Ok((spool, Raw::first(alloc)))
}

// Pads both areas.
fn pad_both<D: Disk>(a: &mut D, b: &mut D, size_a: u64, size_b: u64) -> Result<(), Failed>
    requires whole_a { HasLength (D.told a.old) size_a }
    requires whole_b { HasLength (D.told b.old) size_b }
    ensures since_a { (bytes : List ℕ) → IsQuiet (D.told a.old) bytes → Since (D.told a.old) (D.told a.new) (IsPadImage bytes) }
    ensures since_b { (bytes : List ℕ) → IsQuiet (D.told b.old) bytes → Since (D.told b.old) (D.told b.new) (IsPadImage bytes) }
    ensures quiet_a { OnOk result ((bytes : List ℕ) → IsQuiet (D.told a.old) bytes → IsQuiet (D.told a.new) (padded bytes)) }
    ensures quiet_b { OnOk result ((bytes : List ℕ) → IsQuiet (D.told b.old) bytes → IsQuiet (D.told b.new) (padded bytes)) }
    ensures some_a { OnOk result (IsWithin (D.told a.new) 1) }
    ensures some_b { OnOk result (IsWithin (D.told b.new) 1) }
    ensures stays_a { (place : ℕ) → IsWithin (D.told a.old) place → IsWithin (D.told a.new) place }
    ensures stays_b { (place : ℕ) → IsWithin (D.told b.old) place → IsWithin (D.told b.new) place }
    ensures grows { Grows (D.told a.old) (D.told a.new) (D.told b.old) (D.told b.new) }
    ensures syncs { D.syncs a.new + D.syncs b.new ≤ D.syncs a.old + D.syncs b.old + 2 }
    ensures syncs_a { D.syncs a.old ≤ D.syncs a.new }
    ensures syncs_b { D.syncs b.old ≤ D.syncs b.new }
    ensures cause { HasCauseOfTwo (D.disk_faults a.old) (D.disk_faults a.new) (D.disk_faults b.old) (D.disk_faults b.new) result }
{
    pad(a, size_a)?;
    pad(b, size_b)?;
    Ok(())
}

// Finds what the second area or the first holds.
fn find_chosen<D: Disk>(
    alloc: Global,
    second: bool,
    a: &mut D,
    b: &mut D,
    size: u64,
    snapshot_size: u64,
) -> Result<Found, OpenFault>
    requires long { 19 ≤ size }
    requires bound { size ≤ 2 ^ 63 }
    requires fits { snapshot_size ≤ size - 18 }
    requires whole { HasLength (picked second (D.told a.old) (D.told b.old)) size }
    ensures found { FindsIn result (area_number second) snapshot_size (picked second (D.told a.old) (D.told b.old)) }
    ensures within { IfOk result (λ found. FitsFound found size) }
    ensures told_a { D.told a.new ≡ D.told a.old }
    ensures told_b { D.told b.new ≡ D.told b.old }
    ensures syncs_a { D.syncs a.new ≡ D.syncs a.old }
    ensures syncs_b { D.syncs b.new ≡ D.syncs b.old }
    ensures faults_a { D.disk_faults a.old ≤ D.disk_faults a.new }
    ensures faults_b { D.disk_faults b.old ≤ D.disk_faults b.new }
    ensures blames { Blames result (Rose (D.disk_faults a.old) (D.disk_faults a.new) ⊎ Rose (D.disk_faults b.old) (D.disk_faults b.new)) }
{
    if second {
        find(alloc, b, 1, size, snapshot_size)
    } else {
        find(alloc, a, 0, size, snapshot_size)
    }
}

// The second of two or the first.
fn pick<T: Copy>(second: bool, a: T, b: T) -> T
    ensures { result ≡ picked second a b }
{
    if second { b } else { a }
}

// The number of the second area or the first.
fn number_of(second: bool) -> u8
    ensures { result ≡ area_number second }
{
    if second { 1 } else { 0 }
}

// Whether a header is that of an open area.
fn is_open(head: Head) -> bool
    ensures { result ≡ is_sound head }
{
    match head {
        Head::Sound(_) => true,
        _ => false,
    }
}

// Reads the area that counts, and pads both.
fn open_chosen<D: Disk>(
    alloc: Global,
    a: &mut D,
    b: &mut D,
    look_a: (u64, Head),
    look_b: (u64, Head),
    choice: (bool, Header),
) -> Result<(Spool, Raw), OpenFault>
    requires head_a { IsHeadOf (D.told a.old) look_a.0 look_a.1 }
    requires head_b { IsHeadOf (D.told b.old) look_b.0 look_b.1 }
    requires fits_a { FitsHead look_a.0 look_a.1 }
    requires fits_b { FitsHead look_b.0 look_b.1 }
    requires bound_a { look_a.0 ≤ 2 ^ 63 }
    requires bound_b { look_b.0 ≤ 2 ^ 63 }
    requires chosen { picked choice.0 look_a.1 look_b.1 ≡ Sound choice.1 }
    requires lower { IsLower (picked choice.0 look_b.1 look_a.1) choice.1.generation }
    ensures since_a { (bytes : List ℕ) → IsQuiet (D.told a.old) bytes → Since (D.told a.old) (D.told a.new) (IsPadImage bytes) }
    ensures since_b { (bytes : List ℕ) → IsQuiet (D.told b.old) bytes → Since (D.told b.old) (D.told b.new) (IsPadImage bytes) }
    ensures opened { (bytes_a bytes_b : List ℕ) → IsQuiet (D.told a.old) bytes_a → IsQuiet (D.told b.old) bytes_b
        → Opens result bytes_a bytes_b (D.told a.new) (D.told b.new) }
    ensures agrees { IfOk result (λ opened. Agrees opened.0 opened.1) }
    ensures unwritten { OnFrame result ((D.told a.new ≡ D.told a.old) × (D.told b.new ≡ D.told b.old)) }
    ensures room { IfOk result (λ opened. HasRoom opened.0 (D.told a.new) (D.told b.new)) }
    ensures alive { IfOk result (λ opened. is_dead opened.0 ≡ false) }
    ensures grows { Grows (D.told a.old) (D.told a.new) (D.told b.old) (D.told b.new) }
    ensures syncs { D.syncs a.new + D.syncs b.new ≤ D.syncs a.old + D.syncs b.old + 2 }
    ensures syncs_a { D.syncs a.old ≤ D.syncs a.new }
    ensures syncs_b { D.syncs b.old ≤ D.syncs b.new }
    ensures faults_a { D.disk_faults a.old ≤ D.disk_faults a.new }
    ensures faults_b { D.disk_faults b.old ≤ D.disk_faults b.new }
    ensures blames { Blames result (Rose (D.disk_faults a.old) (D.disk_faults a.new) ⊎ Rose (D.disk_faults b.old) (D.disk_faults b.new)) }
{
    let (second, header) = choice;
    let (size_a, head_a) = look_a;
    let (size_b, head_b) = look_b;
    let size = pick(second, size_a, size_b);
    let other_head = pick(second, head_b, head_a);
    let other_open = is_open(other_head);
    let found = match find_chosen(alloc, second, a, b, size, header.size) {
        Ok(found) => found,
        Err(fault) => return Err(fault),
    };
    if pad_both(a, b, size_a, size_b).is_err() {
        return Err(OpenFault::Disk);
    }
    let spool = Spool {
        second,
        format: header.format,
        generation: header.generation,
        records: found.records.len() as u64,
        end: found.end,
        other_open,
        dead: false,
    };
    let raw = Raw {
        format: header.format,
        generation: header.generation,
        area: number_of(second),
        snapshot: found.snapshot,
        records: found.records,
    };
    Ok((spool, raw))
}

// Syncs both areas and reads their headers.
fn survey<D: Disk>(a: &mut D, b: &mut D) -> Result<((u64, Head), (u64, Head)), Failed>
    ensures told_a { OnOk result (D.told a.new ≡ told_synced (D.told a.old)) }
    ensures told_b { OnOk result (D.told b.new ≡ told_synced (D.told b.old)) }
    ensures head_a { IfOk result (λ looks. IsHeadOf (D.told a.new) looks.0.0 looks.0.1) }
    ensures head_b { IfOk result (λ looks. IsHeadOf (D.told b.new) looks.1.0 looks.1.1) }
    ensures fits_a { IfOk result (λ looks. FitsHead looks.0.0 looks.0.1) }
    ensures fits_b { IfOk result (λ looks. FitsHead looks.1.0 looks.1.1) }
    ensures bound_a { IfOk result (λ looks. looks.0.0 ≤ 2 ^ 63) }
    ensures bound_b { IfOk result (λ looks. looks.1.0 ≤ 2 ^ 63) }
    ensures since_a { (D.told a.new ≡ D.told a.old) ⊎ (D.told a.new ≡ told_synced (D.told a.old)) }
    ensures since_b { (D.told b.new ≡ D.told b.old) ⊎ (D.told b.new ≡ told_synced (D.told b.old)) }
    ensures grows { Grows (D.told a.old) (D.told a.new) (D.told b.old) (D.told b.new) }
    ensures syncs { D.syncs a.new + D.syncs b.new ≤ D.syncs a.old + D.syncs b.old + 2 }
    ensures syncs_a { D.syncs a.old ≤ D.syncs a.new }
    ensures syncs_b { D.syncs b.old ≤ D.syncs b.new }
    ensures cause { HasCauseOfTwo (D.disk_faults a.old) (D.disk_faults a.new) (D.disk_faults b.old) (D.disk_faults b.new) result }
{
    a.sync()?;
    b.sync()?;
    let look_a = look(a)?;
    let look_b = look(b)?;
    Ok((look_a, look_b))
}

impl Spool {
    /// Opens the journal in two areas, which it syncs and reads. It answers a journal at rest with what it
    /// holds, in the format 1 or 2; where none of the areas is open, the first is made, in format 2 and generation
    /// 1 with nothing in it. An area below 19 bytes gets a closed gate, and nothing else is written. Where a header
    /// or the records of the area that counts are wrong, it answers the first place that is, and has written
    /// nothing. A stop at any moment leaves what the areas stood for.
    pub fn open<D: Disk>(alloc: Global, a: &mut D, b: &mut D) -> Result<(Spool, Raw), OpenFault>
        ensures opened { Tells (D.told a.old) → Tells (D.told b.old)
            → Opens result (read_bytes (D.told a.old)) (read_bytes (D.told b.old)) (D.told a.new) (D.told b.new) }

        // Where nothing was pending, every pair of images since then stands for what the areas stood for.
        ensures any_moment { (bytes_a bytes_b : List ℕ) → IsQuiet (D.told a.old) bytes_a → IsQuiet (D.told b.old) bytes_b
            → (c d : List ℕ) → IsImageSince (length (D.told a.old)) (D.told a.new) c → IsImageSince (length (D.told b.old)) (D.told b.new) d
            → meaning c d ≡ meaning bytes_a bytes_b }

        ensures agrees { IfOk result (λ opened. Agrees opened.0 opened.1) }
        ensures unwritten { OnFrame result ((D.told a.new ≡ told_synced (D.told a.old)) × (D.told b.new ≡ told_synced (D.told b.old))) }
        ensures room { IfOk result (λ opened. HasRoom opened.0 (D.told a.new) (D.told b.new)) }
        ensures alive { IfOk result (λ opened. is_dead opened.0 ≡ false) }
        ensures blames { Blames result (Rose (D.disk_faults a.old) (D.disk_faults a.new) ⊎ Rose (D.disk_faults b.old) (D.disk_faults b.new)) }
        ensures grows { Grows (D.told a.old) (D.told a.new) (D.told b.old) (D.told b.new) }
        ensures syncs { D.syncs a.new + D.syncs b.new ≤ D.syncs a.old + D.syncs b.old + 6 }
        ensures syncs_a { D.syncs a.old ≤ D.syncs a.new }
        ensures syncs_b { D.syncs b.old ≤ D.syncs b.new }
        ensures faults_a { D.disk_faults a.old ≤ D.disk_faults a.new }
        ensures faults_b { D.disk_faults b.old ≤ D.disk_faults b.new }
    {
        let Ok((look_a, look_b)) = survey(a, b) else {
            return Err(OpenFault::Disk);
        };
        match choose(look_a.1, look_b.1) {
            Choice::Wrong(area, place) => Err(OpenFault::Frame(area, place)),
            Choice::Neither => open_fresh(alloc, a, b, look_a.0, look_b.0),
            Choice::Chosen(second, header) => {
                open_chosen(alloc, a, b, look_a, look_b, (second, header))
            }
        }
    }
}
