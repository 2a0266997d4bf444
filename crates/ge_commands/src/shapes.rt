//! The options of qsub, qalter and qrsub.

ghost use Rattle.std.specs.Prelude.{◌≡◌, map, [], ◌∷◌};
ghost use Rattle.std.specs.Option.{option_map};
ghost use Rattle.ge_model_grammar.specs.Shapes.{shape, shapes, qrsub_shapes, shape_named};
ghost use Rattle.ge_commands.specs.Shown.{shape_shown, takes, known_in};

use ge_model_grammar::{Effect, WordForm};
use ge_pieces::is_word;

/// A command that takes options.
#[derive(Clone, Copy, PartialEq, Eq)]
pub(crate) enum Taker {
    /// qsub
    Submission,
    /// qalter
    Alteration,
    /// qrsub
    Reservation,
}

/// An option: its name, what its words must be (none, one or two), and what it counts for.
#[derive(Clone, Copy)]
pub(crate) struct OptionShape {
    pub(crate) word: &'static [u8],
    pub(crate) first: Option<WordForm>,
    pub(crate) second: Option<WordForm>,
    pub(crate) counts_as: Effect,
}

fn bare(name: &'static [u8], effect: Effect) -> OptionShape
    ensures { shape_shown result ≡ shape name.now [] effect }
{
    OptionShape {
        word: name,
        first: None,
        second: None,
        counts_as: effect,
    }
}

fn one(name: &'static [u8], form: WordForm, effect: Effect) -> OptionShape
    ensures { shape_shown result ≡ shape name.now (form ∷ []) effect }
{
    OptionShape {
        word: name,
        first: Some(form),
        second: None,
        counts_as: effect,
    }
}

fn two(name: &'static [u8], form: WordForm, other: WordForm, effect: Effect) -> OptionShape
    ensures { shape_shown result ≡ shape name.now (form ∷ other ∷ []) effect }
{
    OptionShape {
        word: name,
        first: Some(form),
        second: Some(other),
        counts_as: effect,
    }
}

/// The options of jobs, in the order in which a command keeps them (qsub, qalter).
pub(crate) fn job_shapes() -> [OptionShape; 30]
    ensures { map shape_shown result ≡ shapes }
{
    [
        one(b"-N", WordForm::JobName, Effect::Replaces),
        one(b"-l", WordForm::Asked, Effect::Adds),
        one(b"-q", WordForm::Queues, Effect::Replaces),
        two(b"-pe", WordForm::Name, WordForm::Slots, Effect::Replaces),
        one(b"-t", WordForm::Tasks, Effect::Replaces),
        one(b"-hold_jid", WordForm::Jobs, Effect::Replaces),
        one(b"-hold_jid_ad", WordForm::Jobs, Effect::Replaces),
        bare(b"-h", Effect::Replaces),
        one(b"-p", WordForm::Signed, Effect::Replaces),
        one(b"-js", WordForm::Digits, Effect::Replaces),
        one(b"-a", WordForm::Digits, Effect::Replaces),
        one(b"-dl", WordForm::Digits, Effect::Replaces),
        one(b"-ot", WordForm::Digits, Effect::Replaces),
        one(b"-P", WordForm::Name, Effect::Replaces),
        one(b"-R", WordForm::Answer, Effect::Replaces),
        one(b"-A", WordForm::Account, Effect::Replaces),
        one(b"-ar", WordForm::Digits, Effect::Replaces),
        bare(b"-cwd", Effect::Idle),
        bare(b"-V", Effect::Idle),
        bare(b"-hard", Effect::Idle),
        one(b"-o", WordForm::Any, Effect::Idle),
        one(b"-e", WordForm::Any, Effect::Idle),
        one(b"-j", WordForm::Any, Effect::Idle),
        one(b"-S", WordForm::Any, Effect::Idle),
        one(b"-b", WordForm::Any, Effect::Idle),
        one(b"-r", WordForm::Any, Effect::Idle),
        one(b"-m", WordForm::Any, Effect::Idle),
        one(b"-M", WordForm::Any, Effect::Idle),
        one(b"-v", WordForm::Any, Effect::Idle),
        one(b"-wd", WordForm::Any, Effect::Idle),
    ]
}

/// The options of advance reservations (qrsub).
pub(crate) fn reservation_shapes() -> [OptionShape; 7]
    ensures { map shape_shown result ≡ qrsub_shapes }
{
    [
        one(b"-N", WordForm::JobName, Effect::Replaces),
        one(b"-l", WordForm::Asked, Effect::Adds),
        one(b"-q", WordForm::Queues, Effect::Replaces),
        two(b"-pe", WordForm::Name, WordForm::Slots, Effect::Replaces),
        one(b"-a", WordForm::Digits, Effect::Replaces),
        one(b"-e", WordForm::Digits, Effect::Replaces),
        one(b"-d", WordForm::Any, Effect::Replaces),
    ]
}

fn is_taken(taker: Taker, name: &[u8]) -> bool
    ensures { result ≡ takes taker name.now }
{
    match taker {
        Taker::Submission => !is_word(name, b"-ot"),
        Taker::Alteration => {
            !(is_word(name, b"-t") || is_word(name, b"-h") || is_word(name, b"-ar"))
        }
        Taker::Reservation => true,
    }
}

/// The option of a command that a word names.
pub(crate) fn find_shape(taker: Taker, table: &[OptionShape], word: &[u8]) -> Option<OptionShape>
    ensures { option_map shape_shown result ≡ shape_named (known_in taker
        (map shape_shown table.now)) word.now }
{
    for shape in table {
        if is_word(shape.word, word) && is_taken(taker, shape.word) {
            return Some(*shape);
        }
    }
    None
}
