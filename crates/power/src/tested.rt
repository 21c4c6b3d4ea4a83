// An observation whose relays have been tested. Who asks for a picture has seen that each relay is open or closed.
ghost use Rattle.std.specs.Prelude.{◌≡◌, true};
ghost use Rattle.power.specs.Refusals.{relays_fit_spec};

use crate::Observation;

#[derive(Clone, Copy)]
pub struct Tested {
    pub seen: Observation,
    ghost fit: { relays_fit_spec seen ≡ true },
}
