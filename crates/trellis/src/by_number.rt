// The steps of the encoder by the number of the state, from a table. Survivors are followed by the same steps (crate paths).
ghost use Rattle.std.specs.Prelude.{◌≡◌, ◌/◌, ◌<◌};
ghost use Rattle.g9932.specs.Bits.{odd};
ghost use Rattle.trellis.specs.Steps.{state_number, state_at, step_number, step_list};

use crate::PairCode;
use g9932::TrellisState;

// The steps of the encoder: a row for each state, in it one for each u1 + 2 u2 + 4 u3. See specs/Steps. A caller makes the table once
// and lends it to its loop.
#[derive(Drop)]
pub struct Steps {
    table: [u8; 128],
    ghost of_states: { table ≡ step_list },
}

impl Steps {
    pub fn new() -> Self {
        Steps {
            table: *b"\
              \x00\x1a\x2c\x36\x0f\x15\x23\x39\
              \x48\x52\x64\x7e\x47\x5d\x6b\x71\
              \x90\x8a\xbc\xa6\x9f\x85\xb3\xa9\
              \xd8\xc2\xf4\xee\xd7\xcd\xfb\xe1\
              \x20\x3a\x0c\x16\x2f\x35\x03\x19\
              \x68\x72\x44\x5e\x67\x7d\x4b\x51\
              \xb0\xaa\x9c\x86\xbf\xa5\x93\x89\
              \xf8\xe2\xd4\xce\xf7\xed\xdb\xc1\
              \x10\x0a\x3c\x26\x1f\x05\x33\x29\
              \x58\x42\x74\x6e\x57\x4d\x7b\x61\
              \x80\x9a\xac\xb6\x8f\x95\xa3\xb9\
              \xc8\xd2\xe4\xfe\xc7\xdd\xeb\xf1\
              \x30\x2a\x1c\x06\x3f\x25\x13\x09\
              \x78\x62\x54\x4e\x77\x6d\x5b\x41\
              \xa0\xba\x8c\x96\xaf\xb5\x83\x99\
              \xe8\xf2\xc4\xde\xe7\xfd\xcb\xd1\
            ",
        }
    }
}

// A state of the encoder as one number: S0 + 2 S1 + 4 S2 + 8 S3.
#[derive(Clone, Copy)]
pub struct StateNumber {
    pub number: usize,
    ghost below: { number < 16 },
}

impl StateNumber {
    ghost use Rattle.trellis.specs.Pairs.{StepsBy};

    // The state before the first pair.
    pub fn zero() -> Self
        ensures { result.number ≡ 0 }
    {
        StateNumber { number: 0 }
    }

    // One step of the encoder by u1 to u3, the lowest bits of the word: of the labels the two lowest bits.
    pub fn step(self, steps: &Steps, word: u64) -> PairCode<StateNumber>
        ensures { StepsBy (step_number (state_at self.number) (odd word) (odd (word / 2)) (odd (word / 4))) result }
    {
        let t = u32::from(steps.table[8 * self.number + (word % 8) as usize]);
        PairCode {
            v: t % 4,
            w: t / 4 % 4,
            next: StateNumber {
                number: (t / 16) as usize,
            },
        }
    }
}

impl From<TrellisState> for StateNumber {
    ghost from_gives = { λ s n. n.number ≡ state_number s };

    #[tactic(auto, using(crate::proofs::Numbers::weight_from), unfolding(crate::specs::Steps::state_number))]
    fn from(s: TrellisState) -> Self {
        StateNumber {
            number: usize::from(s.s0)
                + 2 * usize::from(s.s1)
                + 4 * usize::from(s.s2)
                + 8 * usize::from(s.s3),
        }
    }
}

impl From<StateNumber> for TrellisState {
    ghost from_gives = { λ n s. s ≡ state_at n.number };

    #[tactic(auto, unfolding(g9932::specs::Bits::odd, crate::specs::Steps::state_at))]
    fn from(n: StateNumber) -> Self {
        let k = n.number;
        TrellisState {
            s3: k / 8 % 2 == 1,
            s2: k / 4 % 2 == 1,
            s1: k / 2 % 2 == 1,
            s0: k % 2 == 1,
        }
    }
}
