// Reads a sheet on standard input and writes its list to standard output. A read that fails is the input's end, and a write that fails
// ends the program (RULES 7.8).
#![tactic(auto)]

use listing::printing::print;
use listing::{MAX_LIST, MAX_TEXT};
use reading::read_full;

fn main(rt: HostRuntime) {
    let mut text = [0u8; MAX_TEXT];
    let mut out = [0u8; MAX_LIST];
    let (n, _) = read_full(&mut rt.stdin(), &mut text);
    let length = print(&text[..n], &mut out);
    let _ = rt.write_all(&out[..length]);
}
