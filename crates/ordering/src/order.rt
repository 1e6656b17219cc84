// The re-ordered tables t' and b'.
// Only this crate's proved code calls these functions, and shows what a `requires` asks.
ghost use Rattle.std.specs.Prelude.{◌≡◌, ◌+◌, ◌≤◌, length, replicate};
ghost use Rattle.std.proofs.lemmas.List.Edits.{sets};
ghost use Rattle.g9932.specs.Order.{singles};
ghost use Rattle.g9932.specs.declared.Mode.TheVariants.{Uncoded, Coded};
ghost use Rattle.tables.specs.Checks.{Below};
ghost use Rattle.ordering.specs.Ordered.{OrderNeeds, Written, PlaceNeeds, CodedNeeds, Placing, WriteNeeds};

use g9932::{Mode, Place, Subcarrier};
use tables::bits_of;
use tables::sizes::FrameSize;

// Uncoded: t' is t, and b' lists the bits in t order.
fn write_uncoded(bits: &[u8], tones: &[u16], reordered_tones: &mut [u16], reordered_bits: &mut [u8])
    requires fits { OrderNeeds tones.now reordered_tones.old reordered_bits.old }
    requires below { Below (length bits.now) tones.now }
    ensures { Written Uncoded bits.now tones.now reordered_tones.new reordered_bits.new }
{
    for (i, &k) in tones.iter().enumerate() {
        reordered_tones[i] = k;
        reordered_bits[i] = bits_of(bits, Subcarrier(usize::from(k)));
    }
}

// Writes `count` times `v` from `at` on.
fn fill(out: &mut [u8], at: usize, count: usize, v: u8)
    requires { at + count ≤ length out.old }
    ensures { out.new ≡ sets out.old at (replicate count v) }
{
    out[at..at + count].fill(v);
}

// Coded: writes the tones with 0 or at least 2 bits from the front of t', and the counts of at least 2 in b' from `from` on, in t
// order. Where the next tone and the next count go is stepped by hand: each moves at some tones only.
fn place_others(
    bits: &[u8],
    tones: &[u16],
    from: usize,
    reordered_tones: &mut [u16],
    reordered_bits: &mut [u8],
)
    requires { PlaceNeeds bits.now tones.now from (length reordered_tones.old) (length reordered_bits.old) }
    ensures { Placing bits.now tones.now from reordered_tones.old reordered_bits.old reordered_tones.new reordered_bits.new }
{
    let mut other = 0;
    let mut at = from;
    for &k in tones {
        let b = bits_of(bits, Subcarrier(usize::from(k)));
        if b == 1 {
            continue;
        }
        reordered_tones[other] = k;
        other += 1;
        if 2 <= b {
            reordered_bits[at] = b;
            at += 1;
        }
    }
}

// Coded: writes the 1-bit tones in t' from place `behind` on, in t order. Where the next one goes is stepped by hand: it moves at 1-bit
// tones only.
fn place_ones(bits: &[u8], tones: &[u16], behind: Place, reordered_tones: &mut [u16])
    requires fits { behind.0 + length (singles bits.now tones.now) ≤ length reordered_tones.old }
    requires below { Below (length bits.now) tones.now }
    ensures { reordered_tones.new ≡ sets reordered_tones.old behind.0 (singles bits.now tones.now) }
{
    let mut one = behind.0;
    for &k in tones {
        if bits_of(bits, Subcarrier(usize::from(k))) == 1 {
            reordered_tones[one] = k;
            one += 1;
        }
    }
}

// Coded: writes t' and b'. There are `ones` 1-bit tones, and b' begins with `zeros` zeros.
fn write_coded(
    bits: &[u8],
    tones: &[u16],
    ones: usize,
    zeros: usize,
    reordered_tones: &mut [u16],
    reordered_bits: &mut [u8],
)
    requires ready { CodedNeeds bits.now tones.now ones zeros }
    requires fits { OrderNeeds tones.now reordered_tones.old reordered_bits.old }
    ensures { Written Coded bits.now tones.now reordered_tones.new reordered_bits.new }
{
    let half = ones / 2;
    fill(reordered_bits, 0, zeros, 0);
    place_others(bits, tones, zeros, reordered_tones, reordered_bits);
    let behind = Place(tones.len() - ones);
    place_ones(bits, tones, behind, reordered_tones);
    fill(reordered_bits, tones.len() - half, half, 2);
}

// Writes t' and b'. Coded, b' is 0 but for its last entries, and the sharers among the tones share one with another; uncoded no number of
// the frame is needed. No gain decides anything here, so that of the tables only two come in. Called by proved code only.
pub fn write_order(
    mode: Mode,
    frame: FrameSize,
    bits: &[u8],
    tones: &[u16],
    reordered_tones: &mut [u16],
    reordered_bits: &mut [u8],
)
    requires { WriteNeeds mode frame.entries frame.sharers bits.now tones.now reordered_tones.old reordered_bits.old }
    ensures { Written mode bits.now tones.now reordered_tones.new reordered_bits.new }
{
    match mode {
        Mode::Uncoded => write_uncoded(bits, tones, reordered_tones, reordered_bits),
        Mode::Coded => {
            let zeros = tones.len() - frame.entries;
            write_coded(
                bits,
                tones,
                frame.sharers,
                zeros,
                reordered_tones,
                reordered_bits,
            )
        }
    }
}
