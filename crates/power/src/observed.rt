// What an observation shows: the relays' pictures, the commands, the current, and whether precharge is complete. Of a
// tested observation each relay is open or closed: the three are then one number, so that a picture is one comparison.
ghost use Rattle.std.specs.Prelude.{◌≡◌};
ghost use Rattle.power.specs.Observed.{all_open_spec, urgent, precharge_complete_spec, under10_a};
ghost use Rattle.power.specs.Pictures.{picture};
ghost use Rattle.power.specs.PictureNumbers.{relays_number};

use crate::shares::{hundredths, share_fits};
use crate::tested::Tested;
use crate::{HIGHEST_READING, Observation, State};
use catalogue::Raw;

// The mark invalid of both voltages.
const INVALID: u32 = HIGHEST_READING;

// Whether precharge is complete, of the raw counts of 201 and 202 and the share; never with a share outside 50 to 100.
pub fn precharge_complete(inside: Raw, outside: Raw, share: Option<u32>) -> bool
    ensures { result ≡ precharge_complete_spec inside outside share }
{
    let fits = share_fits(share);
    let needed = u64::from(hundredths(share)) * u64::from(inside.0);
    let there = 100 * u64::from(outside.0);
    fits & (inside.0 < INVALID) & (outside.0 < INVALID) & (0 < inside.0) & (needed <= there)
}

pub fn is_under_10_amps(current: Raw) -> bool
    ensures { result ≡ under10_a current }
{
    (19901 <= current.0) & (current.0 <= 20099)
}

pub fn is_urgent(seen: Observation) -> bool
    ensures { result ≡ urgent seen }
{
    (seen.command.0 == 3) | (seen.emergency_off.0 == 1)
}

// The three relays as one number: main negative counts 4, precharge 2 and main positive 1, once where it is open and twice where
// it is closed.
fn relays_shown(tested: Tested) -> u32
    ensures { result ≡ relays_number tested.seen }
{
    4 * tested.seen.main_negative.0 + 2 * tested.seen.precharge.0 + tested.seen.main_positive.0
}

// Pictures by that number, in the order main negative, precharge, main positive: o open, c closed.
const OOO: u32 = 7;

const COO: u32 = 11;

const COC: u32 = 12;

const CCO: u32 = 13;

const CCC: u32 = 14;

pub fn all_open(tested: Tested) -> bool
    ensures { result ≡ all_open_spec tested.seen }
{
    relays_shown(tested) == OOO
}

pub fn shows_picture(state: State, tested: Tested) -> bool
    ensures { result ≡ picture state tested.seen }
{
    let shown = relays_shown(tested);
    match state {
        State::Off => shown == OOO,
        State::Rising => shown == COO,
        State::Precharge => shown == CCO,
        State::Both => shown == CCC,
        State::On => shown == COC,
        State::Falling => shown == COO,
        State::Fault => false,
    }
}
