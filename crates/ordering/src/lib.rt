// Checking the tables, and the re-ordered tables t' and b' (document 01).
#![tactic(auto)]

ghost use Rattle.std.specs.Prelude.{◌≡◌};
ghost use Rattle.g9932.specs.Sizes.{tables_of};
ghost use Rattle.g9932.specs.Refusals.{table_verdict};
ghost use Rattle.g9932.specs.Answers.{verdict_of, Reorders};

use g9932::{Mode, Refusal, Tables};
use order::write_order;
use tables::sizes::size_tables;

mod order; // t' and b'

// Checks the tables and tells L: refusals 1 to 8.
pub fn check_tables(mode: Mode, t: Tables) -> Result<usize, Refusal>
    ensures { verdict_of result ≡ table_verdict (tables_of mode t.entry) }
{
    let frame = size_tables(mode, t)?;
    Ok(frame.size)
}

// Re-orders: refusals 1 to 8 and 10. Where nothing is refused, writes t' and b'; else writes nothing.
pub fn reorder(
    mode: Mode,
    t: Tables,
    tones_out: &mut [u16],
    bits_out: &mut [u8],
) -> Result<usize, Refusal>
    ensures { Reorders (tables_of mode t.entry) tones_out.old bits_out.old result tones_out.new bits_out.new }
{
    let frame = size_tables(mode, t)?;
    if tones_out.len() != t.tones.len() || bits_out.len() != t.tones.len() {
        return Err(Refusal::Room);
    }
    write_order(mode, frame, t.bits, t.tones, tones_out, bits_out);
    Ok(frame.size)
}
