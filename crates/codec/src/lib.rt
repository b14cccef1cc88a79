// Numbers as bytes and bits, for every format above: the definitions and their laws stand in specs/,
// and the two functions here read a number's bytes and store them.
#![tactic(auto)]

ghost use Rattle.std.specs.Prelude.{◌≡◌, ◌≤◌, min, length};
ghost use Rattle.codec.specs.Bytes.{number_to, Fills};

// The number that all of the bytes say.
fn front(bytes: &[u8]) -> u64
    requires { length bytes.now ≤ 8 }
    ensures { result ≡ number_to (length bytes.now) bytes.now }
{
    let mut sum: u64 = 0;
    for byte in bytes {
        sum = sum * 256 + u64::from(*byte);
    }
    sum
}

// The number that the first bytes say, most significant first: so many of them, but no more than
// are there, and eight at the most. Where all are there their count is the caller's own number, so
// that a compiler can unroll the loop.
pub fn number(bytes: &[u8], count: usize) -> u64
    ensures { result ≡ number_to (min (min count 8) (length bytes.now)) bytes.now }
{
    let limited = count.min(8);
    if limited <= bytes.len() {
        return front(&bytes[..limited]);
    }
    front(bytes)
}

// Fills a buffer with a number's lowest bytes, most significant first, and says how many.
pub fn put_number(number: u64, out: &mut [u8]) -> usize
    ensures { Fills number out.old result out.new }
{
    let mut rest = number;
    // kept: an index; with `out.iter_mut().rev()` the proof of what is stored did not close.
    for i in (0..out.len()).rev() {
        out[i] = (rest % 256) as u8;
        rest = rest / 256;
    }
    out.len()
}
