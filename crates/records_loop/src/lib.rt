#![tactic(auto)]
// The loop of the programs that convert: lines from standard input, what they give to standard output. It reads, makes an
// exchange (`records_conversion::exchanges`), and writes what that printed; no contract can say what is read or written.
use channels::{Failed, receive, send};
use hex_digits::Writer;
use records_conversion::{ConversionState, Way};

const BLOCK: usize = 65536;

// No line gives more than two bytes for each of its own, its newline among them, and one line at most is refused.
const ROOM: usize = 2 * BLOCK + 13;

// Until the input ends, a line is refused, or a read or a write fails.
fn convert_all(
    rt: &HostRuntime,
    way: Way,
    block: &mut [u8],
    output: &mut Writer,
) -> Result<(), Failed> {
    let mut state = ConversionState::new();
    // A proved loop has to end: no run uses up as many turns.
    for _ in 0..u64::MAX {
        let Some(end) = receive(rt, block, state.end)? else {
            state.finish(way, block, output);
            let place = output.place;
            return send(rt, output.buffer, place);
        };
        let converted = state.convert(way, end, block, output);
        let place = output.place;
        send(rt, output.buffer, place)?;
        if converted.is_err() {
            return Ok(());
        }
    }
    Ok(())
}

pub fn serve(rt: &HostRuntime, way: Way) {
    let mut block = [0u8; BLOCK];
    let mut buffer = [0u8; ROOM];
    let mut output = Writer {
        buffer: &mut buffer,
        place: 0,
    };
    // What failed was reported.
    let _ = convert_all(rt, way, &mut block, &mut output);
}
