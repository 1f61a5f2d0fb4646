ghost use Rattle.std.specs.Prelude.{◌≡◌, pos, neg_ℤ};
ghost use Rattle.calendar.specs.Years.{astronomical_of, distance_of, in32, leap_of, year_length_of};

// A year. Its number is the astronomical year + 4294967600, a multiple of 400 above 32 bits: every year
// that is a 32-bit number of years from 0000 has one, and the rules are plain remainders of it.
#[derive(Clone, Copy, PartialEq, Eq, PartialOrd, Ord)]
pub struct Year {
    pub number: u64,
}

// The number of the year 0000, and those of the lowest and the highest 32-bit years.
const ZERO: u64 = 4294967600;

const LOWEST: u64 = 2147483952;

const HIGHEST: u64 = 6442451247;

// A year by its distance from the year 0000: so many years since it, or before it (then never 0).
#[derive(Clone, Copy)]
pub enum Distance {
    Since(u64),
    Before(u64),
}

// The year with an astronomical number.
impl From<i32> for Year {
    ghost from_gives = { λ astronomical year. astronomical_of year ≡ astronomical };

    fn from(astronomical: i32) -> Year {
        Year {
            number: (astronomical as i64 + ZERO as i64) as u64,
        }
    }
}

impl Year {
    // The astronomical number of the year, where 32 bits hold it.
    pub fn astronomical(self) -> Option<i32>
        ensures { result ≡ in32 (astronomical_of self) }
    {
        let number = self.number;
        if number < LOWEST || HIGHEST < number {
            return None;
        }
        Some((number as i64 - ZERO as i64) as i32)
    }

    // The year so many years since the year 0000.
    pub fn since_zero(years: u32) -> Year
        ensures { astronomical_of result ≡ pos years }
    {
        Year {
            number: ZERO + years as u64,
        }
    }

    // The year so many years before the year 0000.
    pub fn before_zero(years: u32) -> Year
        ensures { astronomical_of result ≡ neg_ℤ (pos years) }
    {
        Year {
            number: ZERO - years as u64,
        }
    }

    // The year's distance from the year 0000.
    pub fn distance(self) -> Distance
        ensures { result ≡ distance_of (astronomical_of self) }
    {
        let number = self.number;
        if number < ZERO {
            return Distance::Before(ZERO - number);
        }
        Distance::Since(number - ZERO)
    }
}

// Whether the year is a leap year.
pub fn leap_year(year: Year) -> bool
    ensures { result ≡ leap_of (astronomical_of year) }
{
    let number = year.number;
    if number % 4 != 0 {
        return false;
    }
    if number % 100 != 0 {
        return true;
    }
    number % 400 == 0
}

// The days of the year, 365 or 366.
pub fn year_length(year: Year) -> u32
    ensures { result ≡ year_length_of (astronomical_of year) }
{
    if leap_year(year) { 366 } else { 365 }
}
