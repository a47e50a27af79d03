#![tactic(auto)]
// Frames of kind 02 to Motorola S-records.
use records_conversion::Way;
use records_loop::serve;

fn main(rt: HostRuntime) {
    serve(&rt, Way::Out);
}
