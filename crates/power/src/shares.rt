// How many hundredths a share asks for, and whether so many may be asked for.
ghost use Rattle.std.specs.Prelude.{◌≡◌};
ghost use Rattle.power.specs.Shares.{hundredths, share_fits_spec};

// The share where none is given.
const SHARE_WHERE_NONE: u32 = 90;

const LEAST_SHARE: u32 = 50;

const HIGHEST_SHARE: u32 = 100;

// How many hundredths are asked for.
pub fn hundredths(share: Option<u32>) -> u32
    ensures { result ≡ hundredths share }
{
    share.unwrap_or(SHARE_WHERE_NONE)
}

pub fn share_fits(share: Option<u32>) -> bool
    ensures { result ≡ share_fits_spec share }
{
    let of_100 = hundredths(share);
    (LEAST_SHARE <= of_100) & (of_100 <= HIGHEST_SHARE)
}
