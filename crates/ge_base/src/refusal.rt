//! Why a command is refused, and the code that its reply begins with.

ghost use Rattle.std.specs.Prelude.{◌≡◌};
ghost use Rattle.ge_base.specs.Refusal.{reply_code};

use std::alloc::AllocError;

/// Why a command was refused.
#[derive(Clone, Copy, PartialEq, Eq, PartialOrd, Ord)]
pub enum Refusal {
    /// The text is no command of the grammar.
    Syntax,
    /// A line or the whole request is longer than a request may be.
    TooLong,
    /// The request's moment lies before that of an earlier one.
    TimeBack,
    /// A named host, queue, job or other object isn't there.
    NoSuchObject,
    /// The user is neither the owner nor of the role that the command wants (sge_types, managers and
    /// operators).
    NotPermitted,
    /// An object of that name is there already.
    Exists,
    /// Another object, or a job, still cites the object.
    InUse,
    /// A value is out of its form or range.
    BadValue,
    /// The attribute may not be requested (complex, column requestable).
    NotRequestable,
    /// A group, a share tree or a list of predecessors leads back to itself.
    Cycle,
    /// A bound of the system is reached.
    Limit,
    /// The report speaks of a start that has ended already.
    StaleReport,
    /// Memory ran out.
    NoMemory,
}

impl From<AllocError> for Refusal {
    ghost use Rattle.ge_base.specs.declared.refusal.Refusal.TheVariants.{NoMemory};

    ghost from_gives = { λ _ refusal. refusal ≡ NoMemory };

    fn from(_want: AllocError) -> Refusal {
        Refusal::NoMemory
    }
}

/// The code that the reply to a refused command begins with: 11 to 22 in the order of the variants, and
/// 99 where memory ran out.
pub fn code(r: Refusal) -> u8
    ensures { result ≡ reply_code r }
{
    match r {
        Refusal::Syntax => 11,
        Refusal::TooLong => 12,
        Refusal::TimeBack => 13,
        Refusal::NoSuchObject => 14,
        Refusal::NotPermitted => 15,
        Refusal::Exists => 16,
        Refusal::InUse => 17,
        Refusal::BadValue => 18,
        Refusal::NotRequestable => 19,
        Refusal::Cycle => 20,
        Refusal::Limit => 21,
        Refusal::StaleReport => 22,
        Refusal::NoMemory => 99,
    }
}
