// The bench tables.
ghost use Rattle.std.specs.Prelude.{◌≤◌};
ghost use Rattle.g9932.specs.Sizes.{most_tones};

use g9932::{MOST_TONES, Tables};
use std::io;

// Bench table A, with this many bits of tones 3 and 6 and this gain of tone 4.
fn table_a_with<F: FnOnce(Tables, &mut [i16], &mut [i16]) -> io::Result<()>>(
    bits_of_3_and_6: u8,
    gain: u16,
    print: F,
) -> io::Result<()>
    requires { F.IsAlwaysCallable print }
{
    let t = Tables {
        bits: &[0u8, 0, 3, bits_of_3_and_6, 0, 2, bits_of_3_and_6, 4],
        gains: &[0u16, 0, 512, 512, gain, 512, 512, 512],
        tones: &[7u16, 3, 5, 2, 6, 4],
    };
    let mut xs = [0i16; 6];
    let mut ys = [0i16; 6];
    print(t, &mut xs, &mut ys)
}

// Bench table A, with this gain of tone 4.
pub fn table_a<F: FnOnce(Tables, &mut [i16], &mut [i16]) -> io::Result<()>>(
    gain: u16,
    print: F,
) -> io::Result<()>
    requires { F.IsAlwaysCallable print }
{
    table_a_with(1, gain, print)
}

// Bench table A with 2 bits for each tone of 1 bit.
pub fn table_a_of_twos<F: FnOnce(Tables, &mut [i16], &mut [i16]) -> io::Result<()>>(
    print: F,
) -> io::Result<()>
    requires { F.IsAlwaysCallable print }
{
    table_a_with(2, 512, print)
}

// This many tones of equal bits, each with the gain 512, t in index order. Called by proved code only.
pub fn equal_tones<F: FnOnce(Tables, &mut [i16], &mut [i16]) -> io::Result<()>>(
    count: usize,
    bits: u8,
    print: F,
) -> io::Result<()>
    requires fits { count ≤ most_tones }
    requires callable { F.IsAlwaysCallable print }
{
    let bits = [bits; MOST_TONES];
    let gains = [512u16; MOST_TONES];
    let mut tones = [0u16; MOST_TONES];
    for (tone, k) in tones.iter_mut().zip(0..) {
        *tone = k;
    }
    let t = Tables {
        bits: &bits[..count],
        gains: &gains[..count],
        tones: &tones[..count],
    };
    let mut xs = [0i16; MOST_TONES];
    let mut ys = [0i16; MOST_TONES];
    print(t, &mut xs[..count], &mut ys[..count])
}
