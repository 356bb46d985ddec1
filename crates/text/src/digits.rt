// RULES 6.4: the digit writer. Digits are what divisions leave, the last ones first, two at a time since each quotient waits for the one before.
ghost use Rattle.std.specs.Prelude.{◌≡◌, ◌+◌, ◌≤◌, ◌<◌};
ghost use Rattle.text.specs.Fields.{columns};
ghost use Rattle.text.specs.Implementation.Writing.{pair_put, first_put, DigitsPut};

// Writes the two digits of n. What a division leaves is the product's difference, here and below: with `%` the program is longer, and slower by a twentieth.
fn put_pair(out: &mut [u8; 8], at: usize, n: u32)
    requires { (at + 2 ≤ 8) × (n < 100) }
    ensures { out.new ≡ pair_put out.old at n }
{
    let tens = n / 10;
    out[at + 1] = b'0' + (n - tens * 10) as u8;
    out[at] = b'0' + tens as u8;
}

// Writes n, of one digit or two, left of `end`; answers where it begins.
fn put_first(out: &mut [u8; 8], end: usize, n: u32) -> usize
    requires { (end ≤ 8) × (n < 100) × (0 < end) × (9 < n → 1 < end) }
    ensures { (result, out.new) ≡ first_put out.old end n }
{
    if n < 10 {
        out[end - 1] = b'0' + n as u8;
        end - 1
    } else {
        put_pair(out, end - 2, n);
        end - 2
    }
}

// Writes the digits of n in the last columns; answers where they begin. The loop goes over the quotients, and how many there are only they say.
fn put_digits(out: &mut [u8; 8], n: u32) -> usize
    requires { n < 100000000 }
    ensures { DigitsPut n out.old 8 result out.new }
{
    let mut i = 8;
    let mut rest = n;
    while 99 < rest {
        let next = rest / 100;
        i -= 2;
        put_pair(out, i, rest - next * 100);
        rest = next;
    }
    put_first(out, i, rest)
}

// Writes the eight columns of a number: spaces, the digits over the last of them, and the minus left of these where there is room.
// The columns are lent: as an array that is returned and copied they would be read as one word while its bytes are still being stored.
pub(crate) fn put(out: &mut [u8; 8], neg: bool, n: u32)
    requires { n < 100000000 }
    ensures { out.new ≡ columns neg n 8 }
{
    *out = [b' '; 8];
    let first = put_digits(out, n);
    if neg & (0 < first) {
        out[first - 1] = b'-';
    }
}
