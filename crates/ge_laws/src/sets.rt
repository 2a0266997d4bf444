//! Sets of task numbers, as `qsub -t`, `qdel`, `qhold` and their kin take them.
ghost use Rattle.std.specs.Prelude.{◌≡◌, ℕ, ◌≤◌, ◌==◌, ◌&&◌, ◌||◌, Bool, not};
ghost use Rattle.std.specs.Prelude.{List, Ok, filter, length, take};
ghost use Rattle.ge_rows.specs.declared.tasks.TaskSpan.{TaskSpan};
ghost use Rattle.ge_model_rows.specs.Ranges.{parsed_set};
ghost use Rattle.ge_model_rows.specs.SetText.{set_text};
ghost use Rattle.ge_model_rows.specs.Sets.{count_of, difference, first_numbers, has_number, meet, numbers_of, union, with_number, without_number};
ghost use Rattle.ge_laws.specs.TaskSets.{IsSet, IsTaskSet};

/// A set of task numbers is kept in one form: two sets that have the same numbers are the same spans.
pub fn sets_have_one_form()
    ensures { (set other : List TaskSpan) → IsSet set → IsSet other
        → ((n : ℕ) → has_number n set ≡ has_number n other) → set ≡ other }
{}

/// With a number put in, a set has that number and all that it had; with one taken out, all that it had but that one.
/// What comes of it is a set again. Task numbers begin at 1.
pub fn sets_gain_and_lose_one_number()
    ensures put_in { (n : ℕ) (set : List TaskSpan) → 1 ≤ n → IsSet set → IsSet (with_number n set) }
    ensures has_it { (m n : ℕ) (set : List TaskSpan) → 1 ≤ n → IsSet set
        → has_number m (with_number n set) ≡ (m == n || has_number m set) }
    ensures taken_out { (n : ℕ) (set : List TaskSpan) → 1 ≤ n → IsSet set
        → IsSet (without_number n set) }
    ensures lost_it { (m n : ℕ) (set : List TaskSpan) → 1 ≤ n → IsSet set
        → has_number m (without_number n set) ≡ (has_number m set && not (m == n)) }
{}

/// Two sets joined have the numbers of either; what they share has the numbers of both; their difference has those of
/// the first that the second hasn't. What comes of it is a set again.
pub fn sets_join_meet_and_differ()
    ensures joined { (set other : List TaskSpan) → IsSet set → IsSet other
        → IsSet (union set other) }
    ensures either { (m : ℕ) (set other : List TaskSpan) → IsSet set → IsSet other
        → has_number m (union set other) ≡ (has_number m set || has_number m other) }
    ensures met { (set other : List TaskSpan) → IsSet set → IsSet other → IsSet (meet set other) }
    ensures both { (m : ℕ) (set other : List TaskSpan) → IsSet set → IsSet other
        → has_number m (meet set other) ≡ (has_number m set && has_number m other) }
    ensures differed { (set other : List TaskSpan) → IsSet set → IsSet other
        → IsSet (difference set other) }
    ensures alone { (m : ℕ) (set other : List TaskSpan) → IsSet set → IsSet other
        → has_number m (difference set other) ≡ (has_number m set && not (has_number m other)) }
{}

/// The count of a set is how many numbers it has; a walk over it takes the first of its numbers that pass a test, at
/// most so many.
pub fn sets_are_counted_and_walked()
    ensures counted { (set : List TaskSpan) → count_of set ≡ length (numbers_of set) }
    ensures walked { (test : ℕ → Bool) (most : ℕ) (set : List TaskSpan) → IsSet set
        → first_numbers test most set ≡ take most (filter test (numbers_of set)) }
{}

/// A set that the tasks of one job may be is read from its text again: what `qstat` shows of a job's tasks may be given
/// to `qsub -t`, and is the same set.
pub fn set_texts_read_back()
    ensures { (set : List TaskSpan) → IsTaskSet set → parsed_set (set_text set) ≡ Ok set }
{}
