// The pair report, for the hand-held only: how the symbols of a pair were read, and how many of their bits are wrong.
#![tactic(auto)]

pub mod wrong_bits;

ghost use Rattle.std.specs.Prelude.{◌≡◌, ◌<◌, Err};
ghost use Rattle.tally.specs.PairReport.{read_as, refused_with, most_symbols, full_test, first_after, with_symbol, tallied, told_of, new_tally};

use g9932::Refusal;

// The bytes of the longest frame.
const MOST_BYTES: usize = 7681;

// As many symbols as a tally holds. As the number of the first refused symbol it says that none was: C sees the field, a u32.
const MOST_SYMBOLS: u32 = 65535;

// The report of a pair: symbols given, symbols refused, frames read wrong, wrong bits, and the number of the first refused symbol.
#[repr(C)]
#[derive(Clone, Copy)]
pub struct Tally {
    pub symbols: u32,
    pub refused: u32,
    pub wrong_frames: u32,
    pub wrong_bits: u32,
    pub first_refused: u32,
}

// An entry that is refused: the tally as it came, and the refusal.
#[derive(Clone, Copy)]
pub struct Uncounted {
    pub tally: Tally,
    pub refusal: Refusal,
}

impl Tally {
    // A new tally, which is as reset.
    pub fn new() -> Self
        ensures { result ≡ new_tally }
    {
        Self {
            symbols: 0,
            refused: 0,
            wrong_frames: 0,
            wrong_bits: 0,
            first_refused: MOST_SYMBOLS,
        }
    }

    // A symbol that was read: the frame that was sent, and the one that was read.
    #[tactic(auto, using(std::proofs::lemmas::Bool::Decides::nat_tests), unfolding(crate::specs::PairReport::tallied, crate::specs::PairReport::tally_verdict, g9932::specs::Refusals::refuse_if))]
    pub fn read(self, sent: &[u8], read: &[u8]) -> Result<Self, Uncounted>
        ensures { told_of result ≡ tallied self (read_as sent.now read.now) }
    {
        if self.is_full() {
            return Err(self.uncounted(Refusal::Full));
        }
        if sent.len() != read.len() || sent.len() > MOST_BYTES {
            return Err(self.uncounted(Refusal::Frame));
        }
        Ok(self.with_symbol(false, wrong_bits::wrong_bits(sent, read)))
    }

    // A symbol that was refused: the frame that was sent, and the refusal's number, which a C caller may make up.
    #[tactic(auto, using(std::proofs::lemmas::Bool::Decides::nat_tests), unfolding(crate::specs::PairReport::tallied, crate::specs::PairReport::tally_verdict, g9932::specs::Refusals::refuse_if))]
    pub fn refused(self, sent: &[u8], refusal: u32) -> Result<Self, Uncounted>
        ensures { told_of result ≡ tallied self (refused_with sent.now refusal) }
    {
        if self.is_full() {
            return Err(self.uncounted(Refusal::Full));
        }
        if sent.len() > MOST_BYTES || refusal == 0 {
            return Err(self.uncounted(Refusal::Frame));
        }
        Ok(self.with_symbol(true, 0))
    }

    // Whether FULL (22) applies.
    fn is_full(self) -> bool
        ensures { result ≡ full_test self }
    {
        self.symbols >= MOST_SYMBOLS
    }

    // A refused entry, with the tally as it came.
    fn uncounted(self, refusal: Refusal) -> Uncounted
        ensures { result ≡ record { tally = self; refusal = refusal } }
    {
        Uncounted {
            tally: self,
            refusal,
        }
    }

    // One symbol more, refused or not, that has so many wrong bits. A figure that would not fit becomes the most that it holds.
    #[tactic(auto, using(std::proofs::lemmas::Bool::Decides::nat_tests), unfolding(g9932::specs::Bits::weight))]
    fn with_symbol(self, refused: bool, wrong: u32) -> Self
        requires { self.symbols < most_symbols }
        ensures { result ≡ with_symbol self refused wrong }
    {
        Self {
            symbols: self.symbols + 1,
            refused: self.refused.saturating_add(u32::from(refused)),
            wrong_frames: self.wrong_frames.saturating_add(u32::from(wrong > 0)),
            wrong_bits: self.wrong_bits.saturating_add(wrong),
            first_refused: self.first_after(refused),
        }
    }

    // The first refused symbol, after one that is refused or not.
    fn first_after(self, refused: bool) -> u32
        ensures { result ≡ first_after self refused }
    {
        if refused & (self.first_refused == MOST_SYMBOLS) {
            return self.symbols;
        }
        self.first_refused
    }
}
