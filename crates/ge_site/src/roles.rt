//! Managers and operators.

ghost use Rattle.std.specs.Prelude.{◌≡◌};
ghost use Rattle.ge_model_rows.specs.Access as access;

use ge_pieces::is_among;
use ge_rows::{Cluster, Text};

/// Whether a user is a manager (qconf, -am).
pub fn is_manager(c: &Cluster, user: &Text) -> bool
    ensures { result ≡ access.is_manager c.now user.now }
{
    is_among(user, c.managers.items())
}

/// Whether a user is an operator (qconf, -ao). Each manager is one.
pub fn is_operator(c: &Cluster, user: &Text) -> bool
    ensures { result ≡ access.is_operator c.now user.now }
{
    is_among(user, c.operators.items()) || is_manager(c, user)
}
