//! The decimal digits of a number, from the last to the first.
ghost use Rattle.std.specs.Prelude.{◌≡◌, ◌+◌, ◌/◌, ◌%◌, ◌<◌, ◌≤◌, ◌∷◌, ◌++◌, length, drop};
ghost use Rattle.std.specs.Fmt.{decimal};

/// The two digits of each number below 100.
static PAIRS: [u8; 200] =
    *b"00010203040506070809101112131415161718192021222324252627282930313233343536373839404142434445464748495051525354555657585960616263646566676869707172737475767778798081828384858687888990919293949596979899";

/// Writes both digits of `pair`, a number below 100, at `start`.
#[inline(always)]
fn write_pair(pair: u64, text: &mut [u8], start: usize)
    requires { (pair < 100) × (start + 2 ≤ length text.old) }
    ensures { drop start text.new ≡ (48 + pair / 10) ∷ (48 + pair % 10) ∷ drop (start + 2) text.old }
{
    let place = pair as usize * 2;
    let (tens, ones) = (PAIRS[place], PAIRS[place + 1]);
    text[start] = tens;
    text[start + 1] = ones;
}

/// Writes the one or two digits of a number below 100 so that they end at `end`, and answers where they begin.
#[inline(always)]
fn write_first(number: u64, text: &mut [u8], end: usize) -> usize
    requires { (number < 100) × (length (decimal number) ≤ end) × (end ≤ length text.old) }
    ensures start { result + length (decimal number) ≡ end }
    ensures written { drop result text.new ≡ decimal number ++ drop end text.old }
{
    if number < 10 {
        text[end - 1] = b'0' + number as u8;
        return end - 1;
    }
    write_pair(number, text, end - 2);
    end - 2
}

/// Writes the digits of a number so that they end at `end`, and answers where they begin.
#[inline]
pub(crate) fn write_digits(number: u64, text: &mut [u8], end: usize) -> usize
    requires { (length (decimal number) ≤ end) × (end ≤ length text.old) }
    ensures start { result + length (decimal number) ≡ end }
    ensures written { drop result text.new ≡ decimal number ++ drop end text.old }
{
    let mut left = number;
    let mut start = end;
    while left >= 100 {
        start -= 2;
        write_pair(left % 100, text, start);
        left /= 100;
    }
    write_first(left, text, start)
}
