#![tactic(auto)]
// The board program: a board of 65,536 zero bytes, lent to the library; its loop is the library's, so that other inputs are
// tested with no proof of their own.
fn main(rt: HostRuntime) {
    let mut memory = [0u8; 65536];
    board_loop::serve(&rt, &mut memory);
}
