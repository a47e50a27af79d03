// Frame 02: the bytes of a line into lent memory.
ghost use Rattle.std.specs.Prelude.{◌≡◌, ◌+◌, ◌≤◌, length};
ghost use Rattle.refusals.specs.Numbers.{refusal_of};
ghost use Rattle.board_lines.specs.Stores.{byte_count, bytes_stored, store_result, frame_store};

use crate::digits::any_byte_at;
use refusals::Refusal;

fn count(line: &[u8]) -> usize
    ensures { result ≡ byte_count line.now }
{
    let n = line.len();
    if 10 <= n { (n - 10) / 2 } else { 0 }
}

#[tactic(auto, using(crate::proofs::StoreLaws::storing_none, crate::proofs::StoreLaws::storing_more, crate::proofs::StoreLaws::storing_all))]
fn store_bytes(line: &[u8], m: &mut [u8], a: usize, n: usize)
    requires { (a + n ≤ length m.old) × (n ≡ byte_count line.now) }
    ensures { m.new ≡ bytes_stored n line.now m.old a }
{
    for k in 0..n {
        m[a + k] = any_byte_at(line, 10 + k * 2);
    }
}

// All the bytes of a line from an address on, or a refusal and the memory as it was.
#[tactic(auto, using(crate::proofs::StoreLaws::store_in, crate::proofs::StoreLaws::store_past))]
pub fn store(line: &[u8], m: &mut [u8], address: u32) -> Result<(), Refusal>
    ensures { store_result (refusal_of result) m.new ≡ frame_store line.now m.old address }
{
    let a = address as usize;
    let n = count(line);
    if a + n <= m.len() {
        store_bytes(line, m, a, n);
        Ok(())
    } else {
        Err(Refusal::OutsideMemory)
    }
}
