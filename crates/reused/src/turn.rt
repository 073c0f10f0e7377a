// An entry of a process where all that it is given is sound.
ghost use Rattle.std.specs.Prelude.{◌≡◌, true};
ghost use Rattle.reused.specs.State.{sound_named, sound_row};

use crate::Parts;
use crate::circle::Circle;
use numbers::Process;

#[derive(Clone, Copy)]
pub(crate) struct Turn {
    pub(crate) circle: Circle,
    pub(crate) process: Process,
    pub(crate) parts: Parts,
    ghost own_sound: { sound_row circle.n circle.m parts.own ≡ true },
    ghost looked_sound: { sound_named circle.n circle.m parts.looked ≡ true },
}
