//! When packets were captured, as it is told.
ghost use Rattle.std.specs.Prelude.{◌≤◌};

use jiff::Timestamp;
use jiff::tz::Offset;
use pfr_capture::{Record, Resolution};
use pfr_merge::time::nanoseconds;
use std::alloc::{AllocError, Global};
use std::fmt::Write;

/// How many seconds a day has.
const DAY: u64 = 86400;

/// A day behind all that 32 bits of seconds reach, with the seconds of a fraction. It is within jiff's range.
const LAST_DAY: u64 = 50_000;

/// How many nanoseconds a second has.
const SECOND: u64 = 1_000_000_000;

/// When a packet was captured.
#[derive(Clone, Copy)]
pub(crate) struct Moment {
    /// Whole seconds since 1970, as the header of its record says.
    pub(crate) seconds: u32,
    /// The fraction, which may be a second or more.
    pub(crate) nanoseconds: u64,
    /// Whether its capture counts nanoseconds.
    is_fine: bool,
}

/// Whether captures of a resolution count nanoseconds.
pub(crate) fn is_fine(resolution: Resolution) -> bool {
    match resolution {
        Resolution::Nanoseconds => true,
        Resolution::Microseconds => false,
    }
}

impl Moment {
    /// When a packet of a capture of this resolution was captured.
    pub(crate) fn of(packet: &Record, resolution: Resolution) -> Moment {
        Moment {
            seconds: packet.seconds,
            nanoseconds: nanoseconds(resolution, packet.fraction),
            is_fine: is_fine(resolution),
        }
    }

    /// Whole seconds, with those of the fraction.
    pub(crate) fn carried_seconds(self) -> u64 {
        u64::from(self.seconds).saturating_add(self.nanoseconds / SECOND)
    }

    /// The nanoseconds that are less than a second.
    pub(crate) fn carried_nanoseconds(self) -> u64 {
        self.nanoseconds % SECOND
    }
}

/// Appends the last digits of a number, nine at most.
fn append_digits(text: &mut Vec<u8>, number: u64, count: usize) -> Result<(), AllocError>
    requires { count ≤ 9 }
{
    let mut digits = [b'0'; 9];
    let mut rest = number;
    for place in 0..count {
        digits[count - 1 - place] = b'0' + (rest % 10) as u8;
        rest /= 10;
    }
    text.extend_from_slice(&digits[..count])
}

/// The last day that was told.
#[derive(Drop)]
pub struct Calendar {
    day: u64,
    /// `YYYY-MM-DD`, or nothing before the first day is told.
    date: String,
}

impl Calendar {
    pub fn new(alloc: Global) -> Calendar {
        Calendar {
            day: 0,
            date: String::new(alloc),
        }
    }

    /// Goes to a day, counted from 1970.
    fn turn(&mut self, day: u64) -> Result<(), AllocError> {
        if self.day == day && !self.date.is_empty() {
            return Ok(());
        }
        self.day = day;
        self.date.clear();
        match Timestamp::from_second((day.min(LAST_DAY) * DAY) as i64) {
            Ok(midnight) => {
                let date = Offset::UTC.to_datetime(midnight).date();
                write!(self.date, "{date}")?;
            }
            Err(_) => self.date.push('?')?,
        }
        Ok(())
    }

    /// Appends `YYYY-MM-DD hh:mm:ss`, for `seconds` seconds behind the beginning of 1970.
    pub fn append_second(&mut self, text: &mut Vec<u8>, seconds: u64) -> Result<(), AllocError> {
        self.turn(seconds / DAY)?;
        text.extend_from_slice(self.date.as_bytes())?;
        text.extend_from_slice(b" ")?;
        append_digits(text, seconds % DAY / 3600, 2)?;
        text.extend_from_slice(b":")?;
        append_digits(text, seconds % 3600 / 60, 2)?;
        text.extend_from_slice(b":")?;
        append_digits(text, seconds % 60, 2)
    }

    /// Appends `YYYY-MM-DD hh:mm:ss.` and six digits, or nine if the capture counts nanoseconds.
    pub(crate) fn append(&mut self, text: &mut Vec<u8>, moment: Moment) -> Result<(), AllocError> {
        self.append_second(text, moment.carried_seconds())?;
        text.extend_from_slice(b".")?;
        let fraction = moment.carried_nanoseconds();
        if moment.is_fine {
            append_digits(text, fraction, 9)
        } else {
            append_digits(text, fraction / 1000, 6)
        }
    }
}
