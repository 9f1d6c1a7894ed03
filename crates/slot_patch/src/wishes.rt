//! Wishes, any of which is right.
ghost use Rattle.std.specs.Prelude.{◌≤◌};

/// The wish at a place, or the least number at or above it that is allowed, or else the greatest.
pub(crate) fn wished(wishes: &[usize], place: usize, least: usize, most: usize) -> usize
    requires { least ≤ most }
    ensures least { least ≤ result }
    ensures most { result ≤ most }
{
    let wish = match wishes.get(place) {
        Some(&wish) => wish,
        None => least,
    };
    if wish < least {
        return least;
    }
    if wish > most {
        return most;
    }
    wish
}
