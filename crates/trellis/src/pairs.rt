// The pairs of two entries: the free pairs, then the last two, whose u1 and u2 are forced. The free pairs are nearly all, so there the
// state is one number, and one look-up takes a step. Only this crate's proved code calls these functions.
ghost use Rattle.std.specs.Prelude.{◌≡◌, true, false, ◌+◌, ◌≤◌, ◌<◌, length, set};
ghost use Rattle.frame.specs.Labels.{labels_at, Rising, Placed};
ghost use Rattle.g9932.specs.Bits.{◌⊕◌};
ghost use Rattle.g9932.specs.Order.{pair};
ghost use Rattle.g9932.specs.Trellis.{low_bits, next_state};
ghost use Rattle.trellis.specs.Coding.{CodePairNeeds, CodesPair, CodeNeeds, CodesFrom};
ghost use Rattle.trellis.specs.Pairs.{coder_at, CodesFreePair};

use super::{Coder, PairCode, entry, label, put_entry};
use crate::by_number::{StateNumber, Steps};
use frame::masks::Masks;
use g9932::{Entries, Stepped, TrellisState};

// Codes a free pair.
fn code_free_pair(
    frame: &[u8],
    at: usize,
    state: StateNumber,
    x: usize,
    y: usize,
    steps: &Steps,
    masks: &Masks,
) -> PairCode<StateNumber>
    requires { CodePairNeeds (coder_at state.number at) false (pair x y) frame.now }
    ensures { CodesFreePair state.number at x y frame.now result }
{
    let word = frame::ahead(frame, at);
    let t = state.step(steps, word);
    PairCode {
        v: t.v + 4 * masks.lowest(x - 2, word >> 3),
        w: t.w + 4 * masks.lowest(y - 2, word >> (x + 1)),
        next: t.next,
    }
}

// Puts the labels of the pair at entry i at their places.
fn put_pair(labels: &mut [u16], places: &[u16], i: usize, v: u32, w: u32)
    requires { (i + 1 < length places.now) × (v < 65536) × (w < 65536) × Rising places.now (length labels.old) }
    ensures { labels_at places.now labels.new ≡ set (set (labels_at places.now labels.old) i v) (i + 1) w }
{
    put_entry(labels, places, i, v);
    put_entry(labels, places, i + 1, w);
}

// The step of one of the last two pairs: u1 and u2 are forced.
fn forced_step(s: TrellisState, u3: bool) -> Stepped
    ensures { (result.next ≡ next_state s (s.s1 ⊕ s.s3) s.s2) × (result.low ≡ low_bits s.s0 (s.s1 ⊕ s.s3) s.s2 u3) }
{
    s.step(s.s1 ^ s.s3, s.s2, u3)
}

// Codes one of the last two pairs.
fn code_forced_pair(c: Coder, frame: &[u8], x: usize, y: usize) -> PairCode<Coder>
    requires { CodePairNeeds c true (pair x y) frame.now }
    ensures { CodesPair c true (pair x y) frame.now result }
{
    let n = x + y - 3;
    let f = frame::get(frame, c.at, n);
    let t = forced_step(c.state, f % 2 == 1);
    let low = t.low;
    PairCode {
        v: label(low.v0, low.v1, f / 2 % (1 << (x - 2))),
        w: label(low.w0, low.w1, (f / 2) >> (x - 2)),
        next: Coder {
            state: t.next,
            at: c.at + n,
        },
    }
}

// Codes the pairs of the entries from `from` on, which are the last two or fewer.
fn code_forced_pairs(
    state: StateNumber,
    at: usize,
    frame: &[u8],
    entries: Entries,
    from: usize,
    labels: &mut [u16],
)
    requires { (length entries.bits.now ≤ from + 5) × Placed entries.bits.now entries.places.now labels.old × CodeNeeds (coder_at state.number at) entries.bits.now from frame.now (labels_at entries.places.now labels.old) }
    ensures { CodesFrom (coder_at state.number at) entries.entry.bits.now from frame.now (labels_at entries.entry.places.now labels.old) (labels_at entries.entry.places.now labels.new) }
{
    let mut k = Coder {
        state: TrellisState::from(state),
        at,
    };
    for i in (from..entries.bits.len()).step_by(2) {
        let p = code_forced_pair(k, frame, entry(entries.bits, i), entry(entries.bits, i + 1));
        put_pair(labels, entries.places, i, p.v, p.w);
        k = p.next;
    }
}

// Codes the pairs of the entries from `from` on: the free pairs, then the last two. The label of an entry goes to its place. The loop
// counts pairs: a step of 2 over the entries takes a test more. Called by proved code only.
pub fn code_from(c: Coder, frame: &[u8], entries: Entries, from: usize, labels: &mut [u16])
    requires { Placed entries.bits.now entries.places.now labels.old × CodeNeeds c entries.bits.now from frame.now (labels_at entries.places.now labels.old) }
    ensures { CodesFrom c entries.entry.bits.now from frame.now (labels_at entries.entry.places.now labels.old) (labels_at entries.entry.places.now labels.new) }
{
    let steps = Steps::new();
    let masks = Masks::new();
    let mut state = StateNumber::from(c.state);
    let mut at = c.at;
    let free = (entries.bits.len() - from).saturating_sub(4) / 2;
    for n in 0..free {
        let i = from + 2 * n;
        let x = entry(entries.bits, i);
        let y = entry(entries.bits, i + 1);
        let p = code_free_pair(frame, at, state, x, y, &steps, &masks);
        put_pair(labels, entries.places, i, p.v, p.w);
        state = p.next;
        at += x + y - 1;
    }
    code_forced_pairs(state, at, frame, entries, from + 2 * free, labels);
}
