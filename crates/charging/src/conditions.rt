// The six conditions of a charge, each a test, and how many of them hold from the first on.
ghost use Rattle.std.specs.Prelude.{◌≡◌};
ghost use Rattle.charging.specs.Observed.{count_is};
ghost use Rattle.charging.specs.Conditions.{plug_seen, self_check_good, no_welded_fault, main_relays_closed, charging_allowed, charge_relays_closed, conditions};
ghost use Rattle.charging.specs.Rules.{before_lost};

use crate::ChargeObservation;

// A relay's count where it is closed.
const CLOSED: u32 = 2;

pub fn is_unplugged(seen: ChargeObservation) -> bool
    ensures { result ≡ count_is 1708 0 seen }
{
    seen.plug.0 == 0
}

fn plug_is_seen(seen: ChargeObservation) -> bool
    ensures { result ≡ plug_seen seen }
{
    (seen.plug.0 == 1) | (seen.plug.0 == 2) | (seen.plug.0 == 3)
}

fn self_check_is_good(seen: ChargeObservation) -> bool
    ensures { result ≡ self_check_good seen }
{
    seen.self_check.0 == 0
}

pub fn none_welded(seen: ChargeObservation) -> bool
    ensures { result ≡ no_welded_fault seen }
{
    (seen.main_positive_welded.0 == 0)
        & (seen.main_negative_welded.0 == 0)
        & (seen.heating_positive_welded.0 == 0)
        & (seen.heating_negative_welded.0 == 0)
}

// Kept, and so is `charge_relays_are_closed`: one test of two relays is no plainer, since each condition is a definition of its own.
fn main_relays_are_closed(seen: ChargeObservation) -> bool
    ensures { result ≡ main_relays_closed seen }
{
    (seen.main_positive.0 == CLOSED) & (seen.main_negative.0 == CLOSED)
}

fn charging_is_allowed(seen: ChargeObservation) -> bool
    ensures { result ≡ charging_allowed seen }
{
    seen.allowed.0 == 1
}

fn charge_relays_are_closed(seen: ChargeObservation) -> bool
    ensures { result ≡ charge_relays_closed seen }
{
    (seen.charge_positive.0 == CLOSED) & (seen.charge_negative.0 == CLOSED)
}

// How many conditions hold before the first that does not.
pub fn holding(seen: ChargeObservation) -> u32
    ensures { result ≡ before_lost conditions seen }
{
    if !plug_is_seen(seen) {
        return 0;
    }
    if !self_check_is_good(seen) {
        return 1;
    }
    if !none_welded(seen) {
        return 2;
    }
    if !main_relays_are_closed(seen) {
        return 3;
    }
    if !charging_is_allowed(seen) {
        return 4;
    }
    if !charge_relays_are_closed(seen) {
        return 5;
    }
    6
}
