// The bit, gain and tone tables: what stands at a place and at a sub-carrier, counts over the tones, and refusals 1 to 8.
#![tactic(auto)]

ghost use Rattle.std.specs.Prelude.{◌≡◌, ◌<◌, length};
ghost use Rattle.g9932.specs.Sizes.{entry, tone_of};
ghost use Rattle.tables.specs.Counted.{CountsAre, ListsPass};

use g9932::{Class, Subcarrier, Tone};

mod lists; // refusals 1 to 6
pub mod sizes; // refusals 1 to 8 and L

// The bits of a sub-carrier that the bit table has. Called by proved code only.
pub fn bits_of(bits: &[u8], k: Subcarrier) -> u8
    requires { k.0 < length bits.now }
    ensures { result ≡ entry bits.now k.0 }
{
    bits[k.0]
}

// The gain of a sub-carrier that the gain table has. Called by proved code only.
pub fn gain_of(gains: &[u16], k: Subcarrier) -> u16
    requires { k.0 < length gains.now }
    ensures { result ≡ entry gains.now k.0 }
{
    gains[k.0]
}

// The tone with these bits and this gain. One `match` for the class makes the compiler pick between the three without a branch, and the
// loop of the plan half as long again.
pub fn tone_of(bits: u8, gain: u16) -> Tone
    ensures { result ≡ tone_of bits gain }
{
    if 0 < bits {
        return Tone {
            class: Class::Data(bits),
            gain,
        };
    }
    if 0 < gain {
        return Tone {
            class: Class::Monitored,
            gain,
        };
    }
    Tone {
        class: Class::Silent,
        gain,
    }
}

// Sums over the tones: of the bits, of the loaded tones, and of the 1-bit tones.
#[derive(Clone, Copy)]
struct Counts {
    pub sum: usize,
    pub loaded: usize,
    pub ones: usize,
}

// The counts over all tones. Only tones have bits, so that they are the counts over the bit table. The sums fit 16 bits, and there
// is no `if`, so that the compiler takes many entries at a time. Called by proved code only.
#[tactic(auto, using(std::proofs::lemmas::Bool::Decides::nat_tests), unfolding(g9932::specs::Bits::weight))]
fn count_tones(bits: &[u8], tones: &[u16]) -> Counts
    requires { ListsPass bits.now tones.now }
    ensures { CountsAre result bits.now tones.now }
{
    let mut sum: u16 = 0;
    let mut loaded: u16 = 0;
    let mut ones: u16 = 0;
    for &b in bits {
        sum += u16::from(b);
        loaded += u16::from(0 < b);
        ones += u16::from(b == 1);
    }
    Counts {
        sum: usize::from(sum),
        loaded: usize::from(loaded),
        ones: usize::from(ones),
    }
}
