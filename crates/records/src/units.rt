// The unit of a W's fields (RULES 6.24), and hundredths of a millimetre in ticks (RULES 6.25).
ghost use Rattle.std.specs.Prelude.{◌≡◌, cond, ◌≤◌, pos, negsuc, nat_abs};
ghost use Rattle.std.specs.Int.Signed.{lt_z};
ghost use Rattle.emath.specs.Steps.{tick};
ghost use Rattle.records.specs.Units.{from_hundredths, in_steps};

use crate::SizeUnit;

// 635 hundredths of a millimetre are a quarter of an inch: so many ticks.
const QUARTER_INCH: i32 = 576;

// A tick has 635 parts. Half of that is no whole number, so nothing is exactly between two ticks.
const PARTS: i32 = 635;

// Half a tick away from zero, towards which the quotient is cut.
fn half(z: i32) -> i32
    ensures { result ≡ cond (lt_z z (pos 0)) (negsuc 316) (pos 317) }
{
    if z < 0 { -317 } else { 317 }
}

fn from_hundredths(z: i32) -> i32
    requires { nat_abs z ≤ 2097152 }
    ensures { result ≡ from_hundredths tick z }
{
    (QUARTER_INCH * z + half(z)) / PARTS
}

pub fn in_steps(unit: SizeUnit, z: i32) -> i32
    requires { nat_abs z ≤ 2097152 }
    ensures { (result ≡ in_steps tick unit z) × (nat_abs result ≤ 2097152) }
{
    match unit {
        SizeUnit::Steps => z,
        SizeUnit::Hundredths => from_hundredths(z),
    }
}
