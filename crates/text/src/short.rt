// A number of three or four digits, as most sizes are. No branch depends on which: from one field to the next it would be mispredicted.
ghost use Rattle.std.specs.Prelude.{true, false, cond, ◌≡◌, ◌+◌, ◌-◌, ◌*◌, ◌≤◌, ◌<◌, IfSome};
ghost use Rattle.text.specs.Implementation.Scanning.{Skips};
ghost use Rattle.text.specs.Implementation.Short.{Digit, Reads};

// Whether the first four columns are blank.
fn four_spaces(f: &[u8; 8]) -> bool
    ensures { result ≡ true → Skips f.now 4 }
{
    u32::from_le_bytes([f[0], f[1], f[2], f[3]]) == u32::from_le_bytes(*b"    ")
}

// A digit, from `least` on: `is_ascii_digit` begins at 0.
fn is_digit(b: u8, least: u8) -> bool
    ensures { result ≡ true → Digit least b }
{
    (least <= b) & (b <= b'9')
}

// The column where the number begins.
fn first_column(a: u8, b: u8, blank: bool) -> u8
    ensures { result ≡ cond blank b a }
{
    if blank { b } else { a }
}

// What the first column counts, blank or a digit.
fn thousands(a: u8, blank: bool) -> u32
    requires { blank ≡ false → 48 ≤ a }
    ensures { (result ≡ cond blank 0 (a - 48) * 1000) × (result < 256000) }
{
    if blank { 0 } else { (a - b'0') as u32 * 1000 }
}

// What four columns count, the first blank or a digit.
fn number(a: u8, b: u8, c: u8, d: u8, blank: bool) -> u32
    requires { (blank ≡ false → 48 ≤ a) × (48 ≤ b) × (48 ≤ c) × (48 ≤ d) }
    ensures { result ≡ cond blank 0 (a - 48) * 1000 + (b - 48) * 100 + (c - 48) * 10 + (d - 48) }
{
    thousands(a, blank) + (b - b'0') as u32 * 100 + (c - b'0') as u32 * 10 + (d - b'0') as u32
}

// The first of them begins the number.
fn are_digits(first: u8, b: u8, c: u8, d: u8) -> bool
    ensures { result ≡ true → Digit 49 first × Digit 48 b × Digit 48 c × Digit 48 d }
{
    is_digit(first, b'1') & is_digit(b, b'0') & (is_digit(c, b'0') & is_digit(d, b'0'))
}

// Where it answers a number, the columns hold that.
pub(crate) fn short_number(f: &[u8; 8]) -> Option<u32>
    ensures { IfSome result (λ n. Reads f.now n) }
{
    let [_, _, _, _, a, b, c, d] = *f;
    let blank = a == b' ';
    if are_digits(first_column(a, b, blank), b, c, d) & four_spaces(f) {
        Some(number(a, b, c, d, blank))
    } else {
        None
    }
}
