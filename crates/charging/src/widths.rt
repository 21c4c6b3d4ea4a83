// Whether each count of an observation fits its signal, as the catalogue's class of it says. Where the signal's number is known, as
// here, the compiler leaves one comparison of the call.
ghost use Rattle.std.specs.Prelude.{◌≡◌, ◌&&◌};
ghost use Rattle.charging.specs.Refusals.{fits_signal, counts_fit};

use crate::ChargeObservation;
use catalogue::{NoClass, Raw, class_of};

fn fits(number: u32, raw: Raw) -> bool
    ensures { result ≡ fits_signal number raw }
{
    match class_of(number, raw) {
        Ok(_) | Err(NoClass::NotInCatalogue) => true,
        Err(NoClass::TooWide) => false,
    }
}

fn plug_and_self_check_fit(seen: ChargeObservation) -> bool
    ensures { result ≡ fits_signal 1708 seen.plug && fits_signal 1605 seen.self_check }
{
    fits(1708, seen.plug) & fits(1605, seen.self_check)
}

fn welds_fit(seen: ChargeObservation) -> bool
    ensures { result ≡ fits_signal 311 seen.main_positive_welded && fits_signal 313 seen.main_negative_welded && fits_signal 325 seen.heating_positive_welded && fits_signal 327 seen.heating_negative_welded }
{
    fits(311, seen.main_positive_welded)
        & fits(313, seen.main_negative_welded)
        & fits(325, seen.heating_positive_welded)
        & fits(327, seen.heating_negative_welded)
}

fn main_relays_fit(seen: ChargeObservation) -> bool
    ensures { result ≡ fits_signal 301 seen.main_positive && fits_signal 302 seen.main_negative }
{
    fits(301, seen.main_positive) & fits(302, seen.main_negative)
}

fn charging_fits(seen: ChargeObservation) -> bool
    ensures { result ≡ fits_signal 1709 seen.allowed && fits_signal 304 seen.charge_positive && fits_signal 306 seen.charge_negative }
{
    fits(1709, seen.allowed) & fits(304, seen.charge_positive) & fits(306, seen.charge_negative)
}

pub fn all_fit(seen: ChargeObservation) -> bool
    ensures { result ≡ counts_fit seen }
{
    plug_and_self_check_fit(seen) & welds_fit(seen) & main_relays_fit(seen) & charging_fits(seen)
}
