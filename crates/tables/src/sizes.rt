// Refusals 1 to 8 and the frame size L: after those of the lists, the ones that depend on the mode.
ghost use Rattle.g9932.specs.Sizes.{tables_of};
ghost use Rattle.g9932.specs.Refusals.{mode_verdict, table_verdict};
ghost use Rattle.tables.specs.Counted.{ListsPass};
ghost use Rattle.tables.specs.Modes.{SizedBy};

use super::count_tones;
use super::lists::check_lists;
use g9932::{Mode, Refusal, Tables};

// What the tables make of a frame: L, the entries of b' that are not 0, and the tones that share such an entry with another.
#[derive(Clone, Copy)]
pub struct FrameSize {
    pub size: usize,
    pub entries: usize,
    pub sharers: usize,
}

// Refusals 7 and 8, and L. Its caller shows that refusals 1 to 6 do not apply.
fn size_frame(mode: Mode, bits: &[u8], tones: &[u16]) -> Result<FrameSize, Refusal>
    requires { ListsPass bits.now tones.now }
    ensures { SizedBy (mode_verdict mode bits.now tones.now) mode bits.now tones.now result }
{
    let c = count_tones(bits, tones);
    match mode {
        Mode::Uncoded => Ok(FrameSize {
            size: c.sum,
            entries: c.loaded,
            sharers: 0,
        }),
        Mode::Coded => {
            if c.ones % 2 == 1 {
                return Err(Refusal::Odd);
            }
            let n = c.loaded - c.ones / 2;
            if n < 4 {
                return Err(Refusal::Few);
            }
            Ok(FrameSize {
                size: c.sum - (n + 1) / 2 - 4,
                entries: n,
                sharers: c.ones,
            })
        }
    }
}

// Refusals 1 to 8, and L.
pub fn size_tables(mode: Mode, t: Tables) -> Result<FrameSize, Refusal>
    ensures { SizedBy (table_verdict (tables_of mode t.entry)) mode t.entry.bits.now t.entry.tones.now result }
{
    check_lists(t)?;
    size_frame(mode, t.bits, t.tones)
}
