// The top call.
ghost use Rattle.std.specs.Prelude.{◌≡◌, ◌⊎◌, ◌↔◌, map, string_bytes, Some, None};
ghost use Rattle.ge_master.specs.Areas.{areas_of};
ghost use Rattle.ge_model_report.specs.Accounting.{account_of};
ghost use Rattle.ge_model_rows.specs.ClusterRows.{Cluster};
ghost use Rattle.ge_model_rows.specs.CommandRows.{Query};
ghost use Rattle.ge_gridacct.specs.Flushes.{Flushes, AreFlushable};
ghost use Rattle.ge_gridacct.specs.Looks.{Looks, IsShowable, shown, fed};
ghost use Rattle.ge_gridacct.specs.Sights.{sight_of};
ghost use Rattle.ge_gridacct.specs.Words.{word_of, name_in};
ghost use Rattle.ge_gridacct.specs.declared.words.Look.{Look as Asked};
ghost use Rattle.ge_gridacct.specs.declared.words.Look.TheVariants.{Lines, Total, Owner};
ghost use Rattle.ge_gridacct.specs.declared.words.Word.TheVariants.{Flush, Look};

use crate::faults::USAGE;
use crate::flushing::flush;
use crate::showing::look;
use crate::words::{Word, name_of, read_words};
use ge_outside::{Disk, Sink};
use std::alloc::Global;

/// Does what the words after the program's name say, and answers with the program's status: 2 exactly where the words are no line of the
/// table of words, and then nothing of the outside is touched. `output` is the standard output, `a` and `b` are the two areas of
/// the spool, which `flush` alone opens, and `log` is the disk of the accounting log. `show` writes each line of the log, and `sum` the
/// line that the account of a cluster with the log's lines is, of all of them or of an owner.
pub fn gridacct<K: Sink, D: Disk, E: Disk>(
    alloc: Global,
    words: &Vec<String>,
    output: &mut K,
    a: &mut D,
    b: &mut D,
    log: &mut E,
) -> u8
    ensures usage { (result ≡ 2) ↔ (word_of (map string_bytes words.now.items) ≡ None) }
    ensures alone { result ≡ 2 → (output.new ≡ output.old)
        × (a.new ≡ a.old) × (b.new ≡ b.old) × (log.new ≡ log.old) }
    ensures flushed { word_of (map string_bytes words.now.items) ≡ Some Flush
        → Flushes result
        (areas_of D.told D.syncs D.disk_faults a.old b.old)
        (areas_of D.told D.syncs D.disk_faults a.new b.new)
        (sight_of K.written K.write_faults E.told E.disk_faults output.old log.old)
        (sight_of K.written K.write_faults E.told E.disk_faults output.new log.new) }
    ensures flush_answered { word_of (map string_bytes words.now.items) ≡ Some Flush
        → AreFlushable
        (areas_of D.told D.syncs D.disk_faults a.old b.old)
        (areas_of D.told D.syncs D.disk_faults a.new b.new)
        (sight_of K.written K.write_faults E.told E.disk_faults output.old log.old)
        (sight_of K.written K.write_faults E.told E.disk_faults output.new log.new)
        → (result ≡ 0) ⊎ (result ≡ 10) }
    ensures look_answered { (what : Asked)
        → word_of (map string_bytes words.now.items) ≡ Some (Look what)
        → IsShowable
        (sight_of K.written K.write_faults E.told E.disk_faults output.old log.old)
        (sight_of K.written K.write_faults E.told E.disk_faults output.new log.new)
        → (result ≡ 0) ⊎ (result ≡ 10) }
    ensures shown { word_of (map string_bytes words.now.items) ≡ Some (Look Lines)
        → Looks result shown
        (sight_of K.written K.write_faults E.told E.disk_faults output.old log.old)
        (sight_of K.written K.write_faults E.told E.disk_faults output.new log.new) }
    ensures summed { word_of (map string_bytes words.now.items) ≡ Some (Look Total)
        → (c : Cluster) → Looks result
        (λ lines. fed (account_of (record c { lines = lines }) Query.Total))
        (sight_of K.written K.write_faults E.told E.disk_faults output.old log.old)
        (sight_of K.written K.write_faults E.told E.disk_faults output.new log.new) }
    ensures summed_of { word_of (map string_bytes words.now.items) ≡ Some (Look Owner)
        → (c : Cluster) → Looks result
        (λ lines. fed (account_of (record c { lines = lines })
        (Query.Owner (name_in (map string_bytes words.now.items)))))
        (sight_of K.written K.write_faults E.told E.disk_faults output.old log.old)
        (sight_of K.written K.write_faults E.told E.disk_faults output.new log.new) }
    ensures shown_alone { word_of (map string_bytes words.now.items) ≡ Some (Look Lines)
        → (a.new ≡ a.old) × (b.new ≡ b.old) }
    ensures summed_alone { word_of (map string_bytes words.now.items) ≡ Some (Look Total)
        → (a.new ≡ a.old) × (b.new ≡ b.old) }
    ensures summed_of_alone { word_of (map string_bytes words.now.items) ≡ Some (Look Owner)
        → (a.new ≡ a.old) × (b.new ≡ b.old) }
{
    match read_words(words.as_slice()) {
        None => USAGE,
        Some(Word::Flush) => flush(alloc, output, a, b, log),
        Some(Word::Look(what)) => look(alloc, what, name_of(words.as_slice()), output, log),
    }
}
