// The wrong bits of a frame, byte by byte. They are counted in lanes of a byte, a row of the frame at a time, so that the compiler takes
// many bytes at once.
ghost use Rattle.std.specs.Prelude.{◌≡◌, ℕ, ◌+◌, ◌*◌, ◌≤◌, ◌<◌, length, get_or};
ghost use Rattle.std.specs.Int.Bits.{bit_xor};
ghost use Rattle.std.specs.Int.Count.{ones};
ghost use Rattle.g9932.specs.Order.{sum};
ghost use Rattle.g9932.specs.Sizes.{most_bytes};
ghost use Rattle.tally.specs.Lanes.{lane_count, AtMost, Rows};
ghost use Rattle.tally.specs.PairReport.{wrong_bits};

// The bytes of a row, and so the lanes: a frame has 31 rows at most, which a lane of a byte has room for.
const LANES: usize = 256;

// The wrong bits of a byte: the ones in the exclusive-or.
fn wrong_in_byte(sent: u8, read: u8) -> u8
    ensures counted { result ≡ ones (bit_xor sent read) }
    ensures most { result ≤ 8 }
{
    (sent ^ read).count_ones() as u8
}

// Adds the wrong bits of a row to the lanes.
fn add_row(lanes: &mut [u8], sent: &[u8], read: &[u8], row: usize)
    requires row_in { lane_count * row < length sent.now }
    requires frame { length sent.now ≤ most_bytes }
    requires same_length { length read.now ≡ length sent.now }
    requires counted { Rows sent.now read.now row lanes.old }
    ensures { Rows sent.now read.now (row + 1) lanes.new }
{
    let at = LANES * row;
    let end = (sent.len() - at).min(LANES);
    for j in 0..end {
        lanes[j] += wrong_in_byte(sent[at + j], read[at + j]);
    }
}

// The sum of the lanes that are used.
fn sum_lanes(lanes: &[u8], used: usize) -> u32
    requires within { used ≤ length lanes.now }
    requires row { used ≤ lane_count }
    requires small { AtMost 248 lanes.now }
    requires unused { (j : ℕ) → used ≤ j → get_or lanes.now j 0 ≡ 0 }
    ensures { result ≡ sum lanes.now }
{
    let mut total: u16 = 0;
    for &lane in &lanes[..used] {
        total += u16::from(lane);
    }
    u32::from(total)
}

// The wrong bits of a frame. Called by proved code only.
pub fn wrong_bits(sent: &[u8], read: &[u8]) -> u32
    requires frame { length sent.now ≤ most_bytes }
    requires same_length { length read.now ≡ length sent.now }
    ensures { result ≡ wrong_bits sent.now read.now }
{
    let mut lanes = [0u8; LANES];
    for row in 0..sent.len().div_ceil(LANES) {
        add_row(&mut lanes, sent, read, row);
    }
    sum_lanes(&lanes, sent.len().min(LANES))
}
