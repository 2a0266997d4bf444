// The one error of every call of the outside.

/// A call of a device failed. Its object's count of faults rose in that call.
#[derive(Clone, Copy, PartialEq, Eq)]
pub struct Failed;
