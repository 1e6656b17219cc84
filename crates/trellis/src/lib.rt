// The trellis code: a frame's bits to the labels of the entries of b', pair by pair.
#![tactic(auto)]

mod by_number;
mod pairs;

ghost use Rattle.std.specs.Prelude.{◌≡◌, false, ◌+◌, ◌*◌, ◌^◌, ◌≤◌, ◌<◌, length, get_or, set};
ghost use Rattle.frame.specs.Labels.{labels_at, Rising, Placed};
ghost use Rattle.g9932.specs.Order.{pair};
ghost use Rattle.g9932.specs.Sizes.{most_bytes};
ghost use Rattle.g9932.specs.Trellis.{zero_state};
ghost use Rattle.trellis.specs.Coding.{label_number, CodesPair, FrameNeeds, CodesFrame, first_coder};

pub use by_number::{StateNumber, Steps};
use frame::by_place::{place_at, put_label};
use g9932::{Entries, TrellisState};
use pairs::code_from;

// A label as a number, from its two lowest bits and those above. Called by proved code only.
#[tactic(auto, using(crate::proofs::Numbers::weight_from))]
pub fn label(b0: bool, b1: bool, high: u32) -> u32
    requires { high < 2 ^ 29 }
    ensures { result ≡ label_number b0 b1 high }
{
    u32::from(b0) + 2 * u32::from(b1) + 4 * high
}

// The coder between two pairs: its state and the next frame bit.
#[derive(Clone, Copy)]
pub struct Coder {
    pub state: TrellisState,
    pub at: usize,
}

// A pair coded: its labels, and what comes after it, a coder or a state. Of a step alone, the two lowest bits of the labels.
#[derive(Clone, Copy)]
pub struct PairCode<S> {
    pub v: u32,
    pub w: u32,
    pub next: S,
}

// The state before the first pair.
pub fn zero_state() -> TrellisState
    ensures { result ≡ zero_state }
{
    TrellisState {
        s3: false,
        s2: false,
        s1: false,
        s0: false,
    }
}

// An entry of b'. Called by proved code only.
pub fn entry(entries: &[u8], i: usize) -> usize
    requires { i < length entries.now }
    ensures { result ≡ get_or entries.now i 0 }
{
    usize::from(entries[i])
}

// Puts the label of an entry at its place.
fn put_entry(labels: &mut [u16], places: &[u16], i: usize, label: u32)
    requires { (i < length places.now) × (label < 65536) × Rising places.now (length labels.old) }
    ensures { labels_at places.now labels.new ≡ set (labels_at places.now labels.old) i label }
{
    put_label(labels, place_at(places, i), label as u16);
}

// Codes a first pair with x = 0: its bits are u2 and u4 upward, and v isn't sent.
fn code_first(frame: &[u8], start: usize, y: usize) -> PairCode<Coder>
    requires { (2 ≤ y) × (y ≤ 15) × (start + y ≤ 8 * length frame.now + 1) × (length frame.now ≤ most_bytes) }
    ensures { CodesPair (first_coder start) false (pair 0 y) frame.now result }
{
    let f = frame::get(frame, start, y - 1);
    let t = zero_state().step(false, f % 2 == 1, false);
    PairCode {
        v: 0,
        w: label(t.low.w0, t.low.w1, f / 2),
        next: Coder {
            state: t.next,
            at: start + (y - 1),
        },
    }
}

// Codes a frame, whose bits begin at bit `start`: the labels of the entries of b', each at its place. A first pair has x = 0 where
// the count of entries is odd. Called by proved code only.
pub fn encode_labels(frame: &[u8], start: usize, entries: Entries, labels: &mut [u16])
    requires { FrameNeeds frame.now start entries.bits.now × Placed entries.bits.now entries.places.now labels.old }
    ensures { CodesFrame frame.now start entries.entry.bits.now (labels_at entries.entry.places.now labels.new) }
{
    if entries.bits.len() % 2 == 1 {
        let first = code_first(frame, start, entry(entries.bits, 0));
        let coder = first.next;
        put_entry(labels, entries.places, 0, first.w);
        code_from(coder, frame, entries, 1, labels);
        return;
    }
    let coder = Coder {
        state: zero_state(),
        at: start,
    };
    code_from(coder, frame, entries, 0, labels);
}
