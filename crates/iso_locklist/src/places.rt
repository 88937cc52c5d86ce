ghost use Rattle.std.specs.Prelude.{◌≡◌};
ghost use Rattle.iso_modes.specs.Modes.{mode_eq};

use iso_modes::Mode;
use iso_types::Name;

/// A name, and the mode that is asked for on it.
#[derive(Clone, Copy)]
pub struct Asking {
    pub name: Name,
    pub mode: Mode,
}

#[tactic(auto, unfolding(iso_modes::specs::Modes::mode_eq, iso_modes::specs::Modes::mode_number))]
pub fn same_mode(a: Mode, b: Mode) -> bool
    ensures { result ≡ mode_eq a b }
{
    a == b
}
