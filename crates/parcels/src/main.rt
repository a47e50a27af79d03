#![tactic(auto)]
// Prints the list of every one-parcel instruction, in portions, until nothing is left or a write fails.
ghost use Rattle.std.specs.Prelude.{◌≤◌, length};
ghost use Rattle.parcels_listing.specs.Listing.{line_size};

use channels::send;
use parcels_listing::{PARCEL_COUNT, put_lines};

const BLOCK: usize = 32768;

// By a buffer that has room for a line, so that each portion goes on. It is no `for` over the parcels: a portion says where the
// next one begins.
fn print_list(rt: &HostRuntime, out: &mut [u8])
    requires { line_size ≤ length out.old }
{
    let mut next = 0;
    while next < PARCEL_COUNT {
        let s = put_lines(next, out);
        if send(rt, out, s.place).is_err() {
            return;
        }
        next = s.next;
    }
}

fn main(rt: HostRuntime) {
    let mut space = [0u8; BLOCK];
    print_list(&rt, &mut space);
}
