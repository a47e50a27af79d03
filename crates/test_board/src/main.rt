#![tactic(auto)]
// The board on single steps of every row and mode (tests/steps.py writes them), then on long conversations of seven
// families, one after the other: instructions and texts at kernel level, registers under a prefix, lines of every kind, user
// level with tables, stack cache, events, random parcels; then on lines of every kind, the last one without a newline. The totals
// at the end are of all of it.
fn main(rt: HostRuntime) {
    let mut memory = [0u8; 65536];
    board_loop::serve(&rt, &mut memory);
}
