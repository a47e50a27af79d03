#![tactic(auto)]
// Motorola S-records to frames of kind 02.
use records_conversion::Way;
use records_loop::serve;

fn main(rt: HostRuntime) {
    serve(&rt, Way::In);
}
