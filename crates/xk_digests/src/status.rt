//! How activities and clocks stand.

ghost use Rattle.std.specs.Prelude.{◌≡◌};
ghost use Rattle.std.specs.Bool.{Decides};

use xk_types::{Standing, Status};

/// Whether it is the same status.
pub fn is_same_status(status: Status, other: Status) -> bool
    ensures { Decides result (status ≡ other) }
{
    match status {
        Status::Running => matches!(other, Status::Running),
        Status::Arrived => matches!(other, Status::Arrived),
        Status::Ended => matches!(other, Status::Ended),
    }
}

/// Whether it is the same standing.
pub fn is_same_standing(standing: Standing, other: Standing) -> bool
    ensures { Decides result (standing ≡ other) }
{
    match standing {
        Standing::Apart => matches!(other, Standing::Apart),
        Standing::Open => matches!(other, Standing::Open),
        Standing::Signalled => matches!(other, Standing::Signalled),
        Standing::Ahead => matches!(other, Standing::Ahead),
    }
}
