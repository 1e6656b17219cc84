// The filler bit generator: the pseudo-random sequence that 0-bit tones draw, and monitored ones carry.
#![tactic(auto)]

ghost use Rattle.std.specs.Prelude.{◌≡◌, ◌*◌, ◌≤◌};
ghost use Rattle.g9932.specs.Filler.{draw_of, after_draws};
ghost use Rattle.g9932.specs.Answers.{draw_answer, drawn_of};
ghost use Rattle.g9932.specs.Refusals.{seed_test};
ghost use Rattle.prbs.specs.TwoBits.{TwoDrawn};

use g9932::{FillerBit, Refusal, Refused};

// The register after several draws at once: as many bits are fed back as are drawn, each old bit 0 xor old bit 5 of its own draw.
// A 19th would be fed from one of these.
fn after_several(register: u32, draws: usize) -> u32
    requires { draws ≤ 18 }
    ensures { result ≡ after_draws draws register }
{
    let feed = (register ^ (register / 32)) % (1 << draws);
    (register >> draws) + (feed << (23 - draws))
}

// The next filler bit, and the register after it.
fn next_bit(register: u32) -> FillerBit
    ensures { result ≡ draw_of register }
{
    FillerBit {
        bit: register % 2 == 1,
        register: after_several(register, 1),
    }
}

// The two bits of a 0-bit tone as a label, v0 the lower, and the register after them.
#[derive(Clone, Copy)]
pub struct FillerLabel {
    pub label: u32,
    pub register: u32,
}

// Draws v0, then v1, at once: they are the two lowest bits of the register.
pub fn filler_label(register: u32) -> FillerLabel
    ensures { TwoDrawn register result }
{
    FillerLabel {
        label: register % 4,
        register: after_several(register, 2),
    }
}

// The register after the draws of so many 0-bit tones: those of nine at once, and then of the rest.
pub fn after_tones(register: u32, tones: usize) -> u32
    ensures { result ≡ after_draws (2 * tones) register }
{
    let mut next = register;
    for _ in 0..tones / 9 {
        next = after_several(next, 18);
    }
    after_several(next, 2 * (tones % 9))
}

// Whether SEED (12) applies. A test, and no `Result`: some callers refuse with the register, some without.
pub fn seed_refused(register: u32) -> bool
    ensures { result ≡ seed_test register }
{
    register < 1 || 8388607 < register
}

// Draws one filler bit: refusal 12.
pub fn draw(register: u32) -> Result<FillerBit, Refused>
    ensures { drawn_of result ≡ draw_answer register }
{
    if seed_refused(register) {
        return Err(Refused {
            refusal: Refusal::Seed,
            register,
        });
    }
    Ok(next_bit(register))
}
