// How a question ends, and with what status.
ghost use Rattle.std.specs.Prelude.{◌≡◌};
ghost use Rattle.ge_wire.specs.Endings.{fault_status, ending_status};

/// Why there is no reply.
#[derive(Clone, Copy, PartialEq, Eq)]
pub(crate) enum AskFault {
    /// The words are no question, or what would be sent is longer than a request may be.
    Usage,
    /// A read of the input failed.
    Input,
    /// The door or the connection failed, or no reply came.
    Connection,
    /// Memory ran out.
    Memory,
}

/// How a question ends.
#[derive(Clone, Copy, PartialEq, Eq)]
pub(crate) enum Ending {
    /// The reply accepts, and was written.
    Accepted,
    /// The reply refuses, and was written.
    Refused,
    /// A write of the reply failed.
    Unwritten,
    /// There was no reply.
    Failed(AskFault),
}

impl From<std::alloc::AllocError> for AskFault {
    ghost use Rattle.ge_wire.specs.declared.endings.AskFault.TheVariants.{Memory};

    ghost from_gives = { λ _ fault. fault ≡ Memory };

    fn from(_: std::alloc::AllocError) -> Self {
        AskFault::Memory
    }
}

impl AskFault {
    // The status that the program ends with.
    fn status(self) -> u8
        ensures { result ≡ fault_status self }
    {
        match self {
            AskFault::Usage => 2,
            AskFault::Input => 6,
            AskFault::Connection => 9,
            AskFault::Memory => 10,
        }
    }
}

impl Ending {
    /// The status that the program ends with.
    pub(crate) fn status(self) -> u8
        ensures { result ≡ ending_status self }
    {
        match self {
            Ending::Accepted => 0,
            Ending::Refused => 1,
            Ending::Unwritten => 7,
            Ending::Failed(fault) => fault.status(),
        }
    }
}
