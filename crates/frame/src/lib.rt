// Packed bits: the FRAME test, and bits got and put by words, lowest first.
#![tactic(auto)]

pub mod by_place;
pub mod masks;

ghost use Rattle.std.specs.Prelude.{◌≡◌, ◌++◌, ◌+◌, ◌-◌, ◌*◌, ◌/◌, ◌%◌, ◌^◌, ◌≤◌, ◌<◌, length, get_or, take, drop};
ghost use Rattle.g9932.specs.Bits.{bits, num};
ghost use Rattle.g9932.specs.Sizes.{bytes_for, unpack};
ghost use Rattle.g9932.specs.Refusals.{start_test, frame_test};
ghost use Rattle.frame.specs.BitsAhead.{Ahead};
ghost use Rattle.frame.specs.Written.{empty_writer, written, Waits, Put};

// Byte i, 0 past the end.
fn byte_at(bytes: &[u8], i: usize) -> u8
    ensures { result ≡ get_or bytes.now i 0 }
{
    bytes.get(i).copied().unwrap_or(0)
}

// The bytes of a frame of l bits: (start + l)/8 rounded up, whatever the start.
pub fn bytes_for(start: u8, l: usize) -> usize
    ensures { result ≡ bytes_for start l }
{
    l / 8 + (l % 8 + usize::from(start) + 7) / 8
}

// Whether FRAME (11) applies to a start: it is above 7.
pub fn start_refused(start: u8) -> bool
    ensures { result ≡ start_test start }
{
    start > 7
}

// Whether FRAME (11) applies to a frame of l bits: its start is above 7, its length is wrong, or an unused bit is 1.
pub fn frame_refused(frame: &[u8], start: u8, l: usize) -> bool
    ensures { result ≡ frame_test start l frame.now }
{
    if start_refused(start) {
        return true;
    }
    if frame.len() != bytes_for(start, l) {
        return true;
    }
    if get(frame, 0, usize::from(start)) != 0 {
        return true;
    }
    let end = l % 8 + usize::from(start);
    byte_at(frame, l / 8 + end / 8) >> (end % 8) != 0
}

// Five bytes from byte i on; past the end they count as 0.
fn word40(bytes: &[u8], i: usize) -> u64
    requires { i < 2 ^ 61 }
    ensures { result ≡ num (take 40 (drop (8 * i) (unpack bytes.now))) }
{
    let b0 = byte_at(bytes, i);
    let b1 = byte_at(bytes, i + 1);
    let b2 = byte_at(bytes, i + 2);
    let b3 = byte_at(bytes, i + 3);
    let b4 = byte_at(bytes, i + 4);
    u64::from_le_bytes([b0, b1, b2, b3, b4, 0, 0, 0])
}

// Eight bytes from byte i on: one load.
fn word64(bytes: &[u8], i: usize) -> u64
    requires { i + 8 ≤ length bytes.now }
    ensures { result ≡ num (take 64 (drop (8 * i) (unpack bytes.now))) }
{
    u64::from_le_bytes([
        bytes[i],
        bytes[i + 1],
        bytes[i + 2],
        bytes[i + 3],
        bytes[i + 4],
        bytes[i + 5],
        bytes[i + 6],
        bytes[i + 7],
    ])
}

// The bits from bit `at` on, as a number whose 32 lowest bits are right: where eight bytes are there.
fn ahead_inside(bytes: &[u8], at: usize) -> u64
    requires { at / 8 + 8 ≤ length bytes.now }
    ensures { Ahead result (drop at (unpack bytes.now)) }
{
    word64(bytes, at / 8) >> (at % 8)
}

// The same near the end.
fn ahead_near_end(bytes: &[u8], at: usize) -> u64
    ensures { Ahead result (drop at (unpack bytes.now)) }
{
    word40(bytes, at / 8) >> (at % 8)
}

// The same anywhere; past the end the bits count as 0.
pub fn ahead(bytes: &[u8], at: usize) -> u64
    ensures { Ahead result (drop at (unpack bytes.now)) }
{
    if at / 8 + 8 <= bytes.len() {
        return ahead_inside(bytes, at);
    }
    ahead_near_end(bytes, at)
}

// The n bits from bit `at` on, at most 32, as a number; past the end they count as 0. Called by proved code only.
pub fn get(bytes: &[u8], at: usize, n: usize) -> u32
    requires { n ≤ 32 }
    ensures { result ≡ num (take n (drop at (unpack bytes.now))) }
{
    (ahead(bytes, at) % (1 << n)) as u32
}

// Writes eight bytes from byte i on: one store.
fn store64(bytes: &mut [u8], i: usize, w: u64)
    requires { i + 8 ≤ length bytes.old }
    ensures { unpack (take (i + 8) bytes.new) ≡ unpack (take i bytes.old) ++ bits 64 w }
{
    bytes[i..i + 8].copy_from_slice(&w.to_le_bytes());
}

// Puts bits one after the other: whole bytes stand before `next`, and `fill` bits wait in `acc`.
// What a buffer holds from `next` on is unspecified until `finish`; a buffer has eight bytes more than are put.
// That less than a byte waits is a clause and no ghost field: `starting_at` promises its writer for any start, also one above 7.
#[derive(Clone, Copy)]
pub struct BitWriter {
    pub acc: u64,
    pub fill: usize,
    pub next: usize,
}

impl BitWriter {
    // Only the zeros before bit `start` of the first byte are put yet.
    pub fn starting_at(start: u8) -> Self
        ensures { result ≡ empty_writer start }
    {
        Self {
            acc: 0,
            fill: usize::from(start),
            next: 0,
        }
    }

    // Puts the n lowest bits of value, at most 32. Called by proved code only.
    pub fn put(self, bytes: &mut [u8], n: usize, value: u32) -> Self
        requires { (n ≤ 32) × (value < 2 ^ n) × (self.next + 8 ≤ length bytes.old) × Waits self }
        ensures { Put self bytes.old (bits n value) result bytes.new }
    {
        let old = self.fill;
        let next = self.next;
        let acc = self.acc + (u64::from(value) << old);
        let fill = old + n;
        store64(bytes, next, acc);
        BitWriter {
            acc: acc >> (8 * (fill / 8)),
            fill: fill % 8,
            next: next + fill / 8,
        }
    }

    // Writes the last byte, 0 above the bits that wait. Called by proved code only.
    pub fn finish(self, bytes: &mut [u8])
        requires { (self.next < length bytes.old) × Waits self }
        ensures { unpack (take (self.next + 1) bytes.new) ≡ written self bytes.old ++ bits (8 - self.fill) 0 }
    {
        bytes[self.next] = self.acc as u8;
    }
}

// Fills `out` with the first bytes of `bytes`. Called by proved code only.
pub fn copy(bytes: &[u8], out: &mut [u8])
    requires { length out.old ≤ length bytes.now }
    ensures { out.new ≡ take (length out.old) bytes.now }
{
    let n = out.len();
    out.copy_from_slice(&bytes[..n]);
}
