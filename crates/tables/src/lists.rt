// Refusals 1 to 6: the sizes, the tone table, and the bit and gain tables by index.
// Only this crate's proved code calls these functions, and shows what a `requires` asks; `check_lists` has none.
ghost use Rattle.std.specs.Prelude.{◌≡◌, false, ◌≤◌, length, replicate};
ghost use Rattle.g9932.specs.Sizes.{most_tones};
ghost use Rattle.g9932.specs.Bits.{first};
ghost use Rattle.g9932.specs.Refusals.{size_test, tone_test, twice_test, bits_test, stray_by, stray_test, gain_by, gain_test, index_verdict, list_verdict};
ghost use Rattle.g9932.specs.Answers.{test_of};
ghost use Rattle.tables.specs.Checks.{any_below, index_by, index_fault, Below, marked, trues, Marks};

use g9932::{MOST_TONES, Place, Refusal, Subcarrier, Tables};

// 1 SIZE, of the three lengths.
fn wrong_size(g: usize, gains: usize, nsc: usize) -> bool
    ensures { result ≡ size_test g gains nsc }
{
    g < 1 || MOST_TONES < g || gains != g || nsc < 1 || g < nsc
}

// Does 2 TONE apply to any place? No early exit and no `if`, so that the compiler takes many entries at a time.
fn any_tone_fault(g: usize, tones: &[u16]) -> bool
    requires { g ≤ most_tones }
    ensures { result ≡ any_below (tone_test g tones.now) (length tones.now) }
{
    let end = g as u16;
    let mut any = false;
    for &k in tones {
        any |= end <= k;
    }
    any
}

// 2 TONE: the first place whose entry is G or more. Where the scan finds none there is none to look for.
fn first_tone(g: usize, tones: &[u16]) -> Option<usize>
    requires { g ≤ most_tones }
    ensures { result ≡ first (tone_test g tones.now) (length tones.now) }
{
    if !any_tone_fault(g, tones) {
        return None;
    }
    tones.iter().position(|&k| g <= usize::from(k))
}

// Marks every entry of t. Tables come as they are: what one check has found is a clause of the next, and no type holds it, for a check that
// refuses ends the search.
fn mark_tones(tones: &[u16], seen: &mut [bool; MOST_TONES])
    requires { Below most_tones tones.now }
    ensures { seen.new ≡ marked seen.old tones.now }
{
    for &tone in tones {
        let k = Subcarrier(usize::from(tone));
        seen[k.0] = true;
    }
}

// How many are marked?
#[tactic(auto, unfolding(g9932::specs::Bits::weight))]
fn count_marks(seen: &[bool; MOST_TONES]) -> usize
    requires { length seen.now ≡ most_tones }
    ensures { result ≡ trues seen.now }
{
    let mut n: u16 = 0;
    for &mark in seen {
        n += u16::from(mark);
    }
    usize::from(n)
}

// The first place in t whose entry equals an earlier one. Marks each entry that it passes.
fn first_repeat(tones: &[u16], seen: &mut [bool; MOST_TONES]) -> Option<usize>
    requires clear { seen.old ≡ replicate most_tones false }
    requires below { Below most_tones tones.now }
    ensures { result ≡ first (twice_test tones.now) (length tones.now) }
{
    for (i, &tone) in tones.iter().enumerate() {
        let k = Subcarrier(usize::from(tone));
        if seen[k.0] {
            return Some(i);
        }
        seen[k.0] = true;
    }
    None
}

// 3 TWICE: the first place whose entry equals an earlier one. Marks every entry: as many marks as entries say that none comes
// twice, and only otherwise is a place looked for.
fn first_twice(tones: &[u16], seen: &mut [bool; MOST_TONES]) -> Option<usize>
    requires clear { seen.old ≡ replicate most_tones false }
    requires below { Below most_tones tones.now }
    ensures { (result ≡ first (twice_test tones.now) (length tones.now)) × Marks tones.now seen.new }
{
    mark_tones(tones, seen);
    if count_marks(seen) == tones.len() {
        return None;
    }
    let mut again = [false; MOST_TONES];
    first_repeat(tones, &mut again)
}

// 5 STRAY, of one index.
fn is_stray(seen: bool, bits: u8, gain: u16) -> bool
    ensures { result ≡ stray_by seen bits gain }
{
    !seen & ((0 < bits) | (0 < gain))
}

// 6 GAIN, of one index.
fn is_wrong_gain(bits: u8, gain: u16) -> bool
    ensures { result ≡ gain_by bits gain }
{
    (4095 < gain) | ((0 < bits) & (gain == 0))
}

// Does 4 BITS, 5 STRAY or 6 GAIN apply to an index?
fn is_fault(seen: bool, bits: u8, gain: u16) -> bool
    ensures { result ≡ index_by seen bits gain }
{
    (15 < bits) | (is_stray(seen, bits, gain) | is_wrong_gain(bits, gain))
}

// Does 4 BITS, 5 STRAY or 6 GAIN apply to any index? `seen` marks the members of t. No early exit and no `if`, so that the
// compiler takes many entries at a time.
fn any_index_fault(t: Tables, seen: &[bool; MOST_TONES]) -> bool
    requires size { length t.bits.now ≤ most_tones }
    requires gains { length t.gains.now ≡ length t.bits.now }
    requires marks { Marks t.tones.now seen.now }
    ensures { result ≡ any_below (index_fault t.entry.bits.now t.entry.gains.now t.entry.tones.now) (length t.entry.bits.now) }
{
    let mut any = false;
    for i in 0..t.bits.len() {
        any |= is_fault(seen[i], t.bits[i], t.gains[i]);
    }
    any
}

// 4 BITS: the smallest index with more than 15 bits.
fn first_bits(bits: &[u8]) -> Option<usize>
    ensures { result ≡ first (bits_test bits.now) (length bits.now) }
{
    bits.iter().position(|&b| 15 < b)
}

// 5 STRAY: the smallest index that is not in t and has bits or a gain. `seen` marks the members of t.
fn first_stray(t: Tables, seen: &[bool; MOST_TONES]) -> Option<usize>
    requires size { length t.bits.now ≤ most_tones }
    requires gains { length t.gains.now ≡ length t.bits.now }
    requires marks { Marks t.tones.now seen.now }
    ensures { result ≡ first (stray_test t.entry.bits.now t.entry.gains.now t.entry.tones.now) (length t.entry.bits.now) }
{
    let carried = t.bits.iter().zip(t.gains);
    seen.iter()
        .zip(carried)
        .position(|(&seen, (&bits, &gain))| is_stray(seen, bits, gain))
}

// 6 GAIN: the smallest index with a wrong gain.
fn first_wrong_gain(bits: &[u8], gains: &[u16]) -> Option<usize>
    requires { length gains.now ≡ length bits.now }
    ensures { result ≡ first (gain_test bits.now gains.now) (length bits.now) }
{
    bits.iter()
        .zip(gains)
        .position(|(&bits, &gain)| is_wrong_gain(bits, gain))
}

// Refusals 4 to 6. A pass over all indices accepts; which number applies is looked for only after that. `seen` marks the members of t.
fn check_indices(t: Tables, seen: &[bool; MOST_TONES]) -> Result<(), Refusal>
    requires size { length t.bits.now ≤ most_tones }
    requires gains { length t.gains.now ≡ length t.bits.now }
    requires marks { Marks t.tones.now seen.now }
    ensures { test_of result ≡ index_verdict t.entry.bits.now t.entry.gains.now t.entry.tones.now }
{
    if !any_index_fault(t, seen) {
        return Ok(());
    }
    if let Some(k) = first_bits(t.bits) {
        return Err(Refusal::Bits(Subcarrier(k)));
    }
    if let Some(k) = first_stray(t, seen) {
        return Err(Refusal::Stray(Subcarrier(k)));
    }
    if let Some(k) = first_wrong_gain(t.bits, t.gains) {
        return Err(Refusal::Gain(Subcarrier(k)));
    }
    Ok(())
}

// Refusals 1 to 6.
pub fn check_lists(t: Tables) -> Result<(), Refusal>
    ensures { test_of result ≡ list_verdict t.entry.bits.now t.entry.gains.now t.entry.tones.now }
{
    if wrong_size(t.bits.len(), t.gains.len(), t.tones.len()) {
        return Err(Refusal::Size);
    }
    if let Some(p) = first_tone(t.bits.len(), t.tones) {
        return Err(Refusal::Tone(Place(p)));
    }
    let mut seen = [false; MOST_TONES];
    if let Some(p) = first_twice(t.tones, &mut seen) {
        return Err(Refusal::Twice(Place(p)));
    }
    check_indices(t, &seen)
}
