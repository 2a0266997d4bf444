// The top call.
ghost use Rattle.std.specs.Prelude.{◌≡◌, ◌↔◌, ◌⊎◌, ℕ, map, string_bytes, Some, None};
ghost use Rattle.ge_outside.specs.Faults.{Rose};
ghost use Rattle.ge_model_program.specs.View.{view_of};
ghost use Rattle.ge_model_program.specs.Replaying.{ReplaysAreas};
ghost use Rattle.ge_model_program.specs.Faultless.{AreFaultless, AreSound};
ghost use Rattle.ge_model_program.specs.Showing.{ShowsAreas};
ghost use Rattle.ge_serve.specs.Areas.{areas_of};
ghost use Rattle.ge_model_program.specs.Words.{word_of};
ghost use Rattle.ge_top.specs.ServingAreas.{ServesAreas, AreServable};
ghost use Rattle.ge_model_program.specs.Simulating.{Simulates, AreFaultlessStreams};
ghost use Rattle.ge_model_program.specs.Generating.{Generates};
ghost use Rattle.ge_model_program.specs.Trials.{Tries};
ghost use Rattle.ge_model_program.specs.declared.Word.TheVariants.{Simulate, Replay, Serve, Status, Generate, Trial};

use crate::generating::generate;
use crate::opening::{replay_areas, serve_areas, show_areas};
use crate::simulating::simulate;
use crate::statuses::USAGE;
use crate::trying::trial;
use crate::words::read_words;
use ge_model_program::Word;
use ge_outside::{Clock, Disk, Door, Sink, Source};
use std::alloc::Global;

/// Does what the words after the program's name say, and answers with the program's status: 2 exactly where the words are
/// no line of the table of words, and then nothing of the outside is touched. `input` and `output` are the standard
/// streams, and all that `simulate` touches; `a` and `b` are the two areas of the spool, `door` is where the connections
/// come in that `serve` answers, under the moments of `clock`. `serve`, `status`, `generate` and `trial` read no input, the
/// last two touch no area, and but for `serve` none touches the door or the clock.
pub fn gridmaster<S: Source, K: Sink, D: Disk, L: Door, C: Clock>(
    alloc: Global,
    words: &Vec<String>,
    input: &mut S,
    output: &mut K,
    a: &mut D,
    b: &mut D,
    door: &mut L,
    clock: &mut C,
) -> u8
    ensures usage { (result ≡ 2) ↔ (word_of (map string_bytes words.now.items) ≡ None) }
    ensures unread { result ≡ 2 → input.new ≡ input.old }
    ensures unwritten { result ≡ 2 → output.new ≡ output.old }
    ensures alone { result ≡ 2
        → (a.new ≡ a.old) × (b.new ≡ b.old) × (door.new ≡ door.old) × (clock.new ≡ clock.old) }
    ensures simulated { word_of (map string_bytes words.now.items) ≡ Some Simulate
        → Simulates result (S.rest input.old) (S.rest input.new)
        (S.read_faults input.old) (S.read_faults input.new)
        (K.written output.old) (K.written output.new)
        (K.write_faults output.old) (K.write_faults output.new) }
    ensures simulate_answered { word_of (map string_bytes words.now.items) ≡ Some Simulate
        → AreFaultlessStreams (S.rest input.old) (S.read_faults input.old) (S.read_faults input.new)
        (K.write_faults output.old) (K.write_faults output.new)
        → (result ≡ 0) ⊎ (result ≡ 10) }
    ensures simulated_alone { word_of (map string_bytes words.now.items) ≡ Some Simulate
        → (a.new ≡ a.old) × (b.new ≡ b.old) × (door.new ≡ door.old) × (clock.new ≡ clock.old) }
    ensures replayed { (batch : ℕ)
        → word_of (map string_bytes words.now.items) ≡ Some (Replay batch)
        → ReplaysAreas batch result (S.rest input.old) (S.rest input.new)
        (S.read_faults input.old) (S.read_faults input.new)
        (view_of K.written K.write_faults D.told D.disk_faults D.syncs output.old a.old b.old)
        (view_of K.written K.write_faults D.told D.disk_faults D.syncs output.new a.new b.new) }
    ensures replay_answered { (batch : ℕ)
        → word_of (map string_bytes words.now.items) ≡ Some (Replay batch)
        → AreFaultless batch (S.rest input.old) (S.read_faults input.old) (S.read_faults input.new)
        (view_of K.written K.write_faults D.told D.disk_faults D.syncs output.old a.old b.old)
        (view_of K.written K.write_faults D.told D.disk_faults D.syncs output.new a.new b.new)
        → (result ≡ 0) ⊎ (result ≡ 10) }
    ensures replayed_alone { (batch : ℕ)
        → word_of (map string_bytes words.now.items) ≡ Some (Replay batch)
        → (door.new ≡ door.old) × (clock.new ≡ clock.old) }
    ensures shown { word_of (map string_bytes words.now.items) ≡ Some Status
        → ShowsAreas result
        (view_of K.written K.write_faults D.told D.disk_faults D.syncs output.old a.old b.old)
        (view_of K.written K.write_faults D.told D.disk_faults D.syncs output.new a.new b.new) }
    ensures look_answered { word_of (map string_bytes words.now.items) ≡ Some Status
        → AreSound
        (view_of K.written K.write_faults D.told D.disk_faults D.syncs output.old a.old b.old)
        (view_of K.written K.write_faults D.told D.disk_faults D.syncs output.new a.new b.new)
        → (result ≡ 0) ⊎ (result ≡ 10) }
    ensures shown_alone { word_of (map string_bytes words.now.items) ≡ Some Status
        → (input.new ≡ input.old) × (door.new ≡ door.old) × (clock.new ≡ clock.old) }
    ensures generated { (jobs : ℕ)
        → word_of (map string_bytes words.now.items) ≡ Some (Generate jobs)
        → Generates result jobs (K.written output.old) (K.written output.new)
        (K.write_faults output.old) (K.write_faults output.new) }
    ensures generate_answered { (jobs : ℕ)
        → word_of (map string_bytes words.now.items) ≡ Some (Generate jobs)
        → (Rose (K.write_faults output.old) (K.write_faults output.new) → ⊥)
        → (result ≡ 0) ⊎ (result ≡ 10) }
    ensures generated_alone { (jobs : ℕ)
        → word_of (map string_bytes words.now.items) ≡ Some (Generate jobs)
        → (input.new ≡ input.old) × (a.new ≡ a.old) × (b.new ≡ b.old)
        × (door.new ≡ door.old) × (clock.new ≡ clock.old) }
    ensures tried { (jobs : ℕ)
        → word_of (map string_bytes words.now.items) ≡ Some (Trial jobs)
        → Tries result jobs (K.written output.old) (K.written output.new)
        (K.write_faults output.old) (K.write_faults output.new) }
    ensures trial_answered { (jobs : ℕ)
        → word_of (map string_bytes words.now.items) ≡ Some (Trial jobs)
        → (Rose (K.write_faults output.old) (K.write_faults output.new) → ⊥)
        → (result ≡ 0) ⊎ (result ≡ 10) }
    ensures tried_alone { (jobs : ℕ)
        → word_of (map string_bytes words.now.items) ≡ Some (Trial jobs)
        → (input.new ≡ input.old) × (a.new ≡ a.old) × (b.new ≡ b.old)
        × (door.new ≡ door.old) × (clock.new ≡ clock.old) }
    ensures served { (count : ℕ)
        → word_of (map string_bytes words.now.items) ≡ Some (Serve count)
        → ServesAreas count result
        (areas_of D.told D.syncs D.disk_faults a.old b.old)
        (areas_of D.told D.syncs D.disk_faults a.new b.new)
        (L.coming door.old) (L.coming door.new) (L.closed door.old) (L.closed door.new)
        (C.answers clock.old) (C.answers clock.new)
        (L.door_faults door.old) (L.door_faults door.new) }
    ensures serve_answered { (count : ℕ)
        → word_of (map string_bytes words.now.items) ≡ Some (Serve count)
        → AreServable
        (areas_of D.told D.syncs D.disk_faults a.old b.old)
        (areas_of D.told D.syncs D.disk_faults a.new b.new)
        (L.coming door.old) (L.coming door.new) (L.closed door.old) (L.closed door.new)
        (C.answers clock.old) (L.door_faults door.old) (L.door_faults door.new)
        → (result ≡ 0) ⊎ (result ≡ 10) }
    ensures served_alone { (count : ℕ)
        → word_of (map string_bytes words.now.items) ≡ Some (Serve count)
        → (input.new ≡ input.old) × (output.new ≡ output.old) }
{
    match read_words(words.as_slice()) {
        None => USAGE,
        Some(Word::Simulate) => simulate(alloc, input, output),
        Some(Word::Replay(batch)) => replay_areas(alloc, input, output, a, b, batch),
        Some(Word::Serve(count)) => serve_areas(alloc, a, b, door, clock, count),
        Some(Word::Status) => show_areas(alloc, output, a, b),
        Some(Word::Generate(jobs)) => generate(alloc, jobs, output),
        Some(Word::Trial(jobs)) => trial(alloc, jobs, output),
    }
}
