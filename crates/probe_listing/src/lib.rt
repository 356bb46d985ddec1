// The entry point of crate listing: tests only.
#![tactic(auto)]

use listing::MAX_LIST;
use listing::printing::print;

#[unsafe(no_mangle)]
pub extern "C" fn listing_print(text: &[u8], out: &mut [u8; MAX_LIST]) -> usize {
    print(text, out)
}
