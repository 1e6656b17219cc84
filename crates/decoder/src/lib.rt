// The trellis code decoded: labels back to a frame's bits. Exact reading checks each pair against the code; labels along a path through the
// trellis need no check. Proved code alone calls what has a `requires`.
#![tactic(auto)]

ghost use Rattle.std.specs.Prelude.{◌≡◌, false, ◌^◌, ◌≤◌, ◌<◌, length, get_or};
ghost use Rattle.frame.specs.Labels.{labels_at, Placed, Rising};
ghost use Rattle.g9932.specs.Sizes.{most_tones};
ghost use Rattle.g9932.specs.Order.{Wide, pair};
ghost use Rattle.g9932.specs.Trellis.{taken, obeys_code};
ghost use Rattle.decoder.specs.Reading.{first_reader, decoded_of, word_by, taken_number, ReadPairNeeds, ReadsPair, ReadPairsNeeds, ReadsFrom, ReadLabelNeeds, ReadsPairs, ReadsLabels, CollectsPairs};

use frame::BitWriter;
use frame::by_place::{label_at, place_at};
use g9932::{Entries, TrellisState};
use trellis::{entry, label, zero_state};

// The word that a pair's labels imply: u0 to u3 and, as a number, u4 upward.
#[derive(Clone, Copy)]
pub struct PairWord {
    pub u0: bool,
    pub u1: bool,
    pub u2: bool,
    pub u3: bool,
    pub high: u32,
}

// The word of the labels of a pair, v having x bits. The bounds of a pair's counts are clauses, not types: `Wide` says them of all entries,
// and each pair's come from there.
fn decode_word(v: u32, w: u32, x: usize) -> PairWord
    requires { (2 ≤ x) × (x ≤ 15) × (v < 2 ^ 15) × (w < 2 ^ 15) }
    ensures { result ≡ decoded_of v w x }
{
    let v0 = v % 2 == 1;
    let v1 = v / 2 % 2 == 1;
    let w0 = w % 2 == 1;
    let w1 = w / 2 % 2 == 1;
    PairWord {
        u0: ((v0 ^ v1) ^ w0) ^ w1,
        u1: v0 ^ v1,
        u2: v0 ^ w0,
        u3: v0,
        high: v / 4 + ((w / 4) << (x - 2)),
    }
}

// Whether a pair obeys the code.
fn obeys_code(s: TrellisState, forced: bool, u: PairWord) -> bool
    ensures { result ≡ obeys_code forced s (word_by u) }
{
    if forced {
        return (u.u0 == s.s0) & (u.u1 == s.s1 ^ s.s3) & (u.u2 == s.s2);
    }
    u.u0 == s.s0
}

// How many bits a pair takes from the frame.
fn taken_count(forced: bool, x: usize, y: usize) -> usize
    requires { (2 ≤ x) × (x ≤ 15) × (2 ≤ y) × (y ≤ 15) }
    ensures { (result ≡ taken forced (pair x y)) × (result ≤ 29) }
{
    if forced {
        return x + y - 3;
    }
    x + y - 1
}

// The frame bits of a word with x at least 2, as a number.
fn taken_number(forced: bool, u: PairWord) -> u32
    requires { u.high < 2 ^ 26 }
    ensures { result ≡ taken_number forced u }
{
    let free = u32::from(u.u3) + 2 * u.high;
    if forced {
        return free;
    }
    label(u.u1, u.u2, free)
}

// The reader between two pairs: the state, and the writer of frame bits.
#[derive(Clone, Copy)]
pub struct Reader {
    pub state: TrellisState,
    pub writer: BitWriter,
}

// Reads a pair with x at least 2, by its labels: the reader after it, or nothing where it is checked and breaks the code.
fn read_pair<const CHECK: bool>(
    c: Reader,
    forced: bool,
    x: usize,
    y: usize,
    v: u32,
    w: u32,
    frame: &mut [u8],
) -> Option<Reader>
    requires { (2 ≤ x) × (x ≤ 15) × (2 ≤ y) × (y ≤ 15) × ReadPairNeeds c (pair x y) v w frame.old }
    ensures { ReadsPair CHECK c forced (pair x y) v w frame.old result frame.new }
{
    let u = decode_word(v, w, x);
    let breaks = CHECK & !obeys_code(c.state, forced, u);
    let t = c.state.step(u.u1, u.u2, u.u3);
    let count = taken_count(forced, x, y);
    let writer = c.writer.put(frame, count, taken_number(forced, u));
    if breaks {
        return None;
    }
    Some(Reader {
        state: t.next,
        writer,
    })
}

// Reads a first pair with x = 0, which has no label v, likewise.
fn read_first<const CHECK: bool>(
    writer: BitWriter,
    y: usize,
    w: u32,
    frame: &mut [u8],
) -> Option<Reader>
    requires { (2 ≤ y) × (y ≤ 15) × ReadPairNeeds (first_reader writer) (pair 0 y) 0 w frame.old }
    ensures { ReadsPair CHECK (first_reader writer) false (pair 0 y) 0 w frame.old result frame.new }
{
    let w0 = w % 2 == 1;
    let w1 = w / 2 % 2 == 1;
    if CHECK && w0 ^ w1 {
        return None;
    }
    let t = zero_state().step(false, w0, false);
    let after = writer.put(frame, y - 1, u32::from(w0) + 2 * (w / 4));
    Some(Reader {
        state: t.next,
        writer: after,
    })
}

// The label of an entry, from its place.
fn entry_label(labels: &[u16], places: &[u16], i: usize) -> u32
    requires { (i < length places.now) × Rising places.now (length labels.now) }
    ensures { result ≡ get_or (labels_at places.now labels.now) i 0 }
{
    u32::from(label_at(labels, place_at(places, i)))
}

// Reads the pairs of the entries from `from` on: the writer after the last, or the first that is checked and breaks the code. The pair
// that begins at entry i is pair (i + 1) / 2. The loop counts pairs: a step of 2 over the entries takes a test more.
fn read_from<const CHECK: bool>(
    c: Reader,
    labels: &[u16],
    entries: Entries,
    from: usize,
    frame: &mut [u8],
) -> Result<BitWriter, usize>
    requires { Wide entries.bits.now × (length entries.bits.now ≤ most_tones) × Placed entries.bits.now entries.places.now labels.now × ReadPairsNeeds c entries.bits.now from (labels_at entries.places.now labels.now) frame.old }
    ensures { ReadsFrom CHECK c entries.entry.bits.now from (labels_at entries.entry.places.now labels.now) frame.old result frame.new }
{
    let mut k = c;
    for n in 0..(entries.bits.len() - from) / 2 {
        let i = from + 2 * n;
        let forced = entries.bits.len() - i < 6;
        let x = entry(entries.bits, i);
        let y = entry(entries.bits, i + 1);
        let v = entry_label(labels, entries.places, i);
        let w = entry_label(labels, entries.places, i + 1);
        match read_pair::<CHECK>(k, forced, x, y, v, w, frame) {
            Some(next) => k = next,
            None => return Err((i + 1) / 2),
        }
    }
    Ok(k.writer)
}

// Reads all pairs likewise. A first pair has x = 0 where the count of entries is odd.
fn read_pairs<const CHECK: bool>(
    writer: BitWriter,
    labels: &[u16],
    entries: Entries,
    frame: &mut [u8],
) -> Result<BitWriter, usize>
    requires { Placed entries.bits.now entries.places.now labels.now × ReadLabelNeeds writer entries.bits.now (labels_at entries.places.now labels.now) frame.old }
    ensures { ReadsPairs CHECK writer entries.entry.bits.now (labels_at entries.entry.places.now labels.now) frame.old result frame.new }
{
    if entries.bits.len() % 2 == 0 {
        let reader = Reader {
            state: zero_state(),
            writer,
        };
        return read_from::<CHECK>(reader, labels, entries, 0, frame);
    }
    let y = entry(entries.bits, 0);
    let w = entry_label(labels, entries.places, 0);
    match read_first::<CHECK>(writer, y, w, frame) {
        Some(reader) => read_from::<CHECK>(reader, labels, entries, 1, frame),
        None => Err(0),
    }
}

// Reads the labels of the entries back, each from its place: the first pair that breaks the code, or else the writer behind which the
// frame's bits are put. Called by proved code only.
pub fn read_labels(
    writer: BitWriter,
    labels: &[u16],
    entries: Entries,
    frame: &mut [u8],
) -> Result<BitWriter, usize>
    requires { Placed entries.bits.now entries.places.now labels.now × ReadLabelNeeds writer entries.bits.now (labels_at entries.places.now labels.now) frame.old }
    ensures { ReadsLabels writer entries.entry.bits.now (labels_at entries.entry.places.now labels.now) frame.old result frame.new }
{
    read_pairs::<true>(writer, labels, entries, frame)
}

// The frame bits of labels that obey the code, as those along a path through the trellis do, put behind those that a writer has put.
// Nothing is tested, so that the compiler leaves out the states, and no `Err` comes. Called by proved code only.
pub fn collect_pairs(
    writer: BitWriter,
    labels: &[u16],
    entries: Entries,
    frame: &mut [u8],
) -> BitWriter
    requires { Placed entries.bits.now entries.places.now labels.now × ReadLabelNeeds writer entries.bits.now (labels_at entries.places.now labels.now) frame.old }
    ensures { CollectsPairs writer entries.entry.bits.now (labels_at entries.entry.places.now labels.now) frame.old result frame.new }
{
    read_pairs::<false>(writer, labels, entries, frame).unwrap_or(writer)
}
