// What an entry point answers and writes of a call's answer (RULES 8.4).
use crate::layouts::put_region;
use crate::packing::Lengths;
use crate::rects::Numbers;
use emath::Refusal;
use emath::faults::fault_number;
use region::Region;

// An answer's number, 0 where it has a value.
pub fn number_of<T: Copy>(a: Result<T, Refusal>) -> u8 {
    fault_number(a.err())
}

// An answer's number; its value is written, and all zero where it is refused.
pub fn answer_value<const N: usize, T: Numbers<N>>(
    out: &mut [f32; N],
    a: Result<T, Refusal>,
) -> u8 {
    *out = a.map_or([0.0; N], |x| x.numbers());
    number_of(a)
}

// The number of a call that changes a state; the state that is then the caller's is written, the given one where it is refused.
pub fn answer_region(lengths: &mut Lengths, given: &Region, a: &Result<Region, Refusal>) -> u8 {
    match a {
        Ok(new) => {
            put_region(lengths, *new);
            0
        }
        Err(refusal) => {
            put_region(lengths, *given);
            refusal.number()
        }
    }
}
