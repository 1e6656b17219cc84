// The plan of a symbol: what its passes need of the tables, made once. By place in t' it has the layout of the tone there; by entry of
// b' that is not 0, the entry's bits and the place of its tone; and the places that draw filler bits.
#![tactic(auto)]

mod filing;

ghost use Rattle.std.specs.Prelude.{◌≡◌};
ghost use Rattle.g9932.specs.Sizes.{tables_of};
ghost use Rattle.plan.specs.Plan.{least_own, empty_room, PlanIs, PlanNeeds, Plans};

use filing::{file_tones, share_entries};
use g9932::{Entries, MOST_TONES, Mode, Place, Refusal, Tables};
use tables::sizes::{FrameSize, size_tables};

// Room for the lists of a plan, long enough for any tables.
#[derive(Drop)]
pub struct Room {
    pub layouts: [u16; MOST_TONES],
    pub entries: [u8; MOST_TONES],
    pub places: [u16; MOST_TONES],
    pub drawing: [u16; MOST_TONES],
}

// A plan: its mode, L, the layouts by place, the bits and the place of each entry, the first of the places that share entries, and the
// places that draw.
#[derive(Clone, Copy)]
pub struct Plan<'a> {
    pub mode: Mode,
    pub size: usize,
    pub layouts: &'a [u16],
    pub entries: Entries<'a>,
    pub shared_from: Place,
    pub drawing: &'a [u16],
}

impl Room {
    pub fn new() -> Self
        ensures { result ≡ empty_room }
    {
        Self {
            layouts: [0; MOST_TONES],
            entries: [0; MOST_TONES],
            places: [0; MOST_TONES],
            drawing: [0; MOST_TONES],
        }
    }
}

// The bits from which on a tone has an entry of its own.
fn least_own(mode: Mode) -> u8
    ensures { result ≡ least_own mode }
{
    match mode {
        Mode::Uncoded => 1,
        Mode::Coded => 2,
    }
}

// Makes the lists of a plan. Its caller shows that refusals 1 to 8 do not apply.
fn file_plan<'a>(mode: Mode, frame: FrameSize, t: Tables, room: &'a mut Room) -> Plan<'a>
    requires { PlanNeeds mode frame t.bits.now t.gains.now t.tones.now }
    ensures { PlanIs (tables_of mode t.entry) result }
{
    let table = constellation::layout_table();
    let at = file_tones(least_own(mode), t, &table, room);
    let pairs = frame.sharers / 2;
    share_entries(pairs, at, table[1], room);
    let count = at.entry + pairs;
    Plan {
        mode,
        size: frame.size,
        layouts: &room.layouts[..t.tones.len()],
        entries: Entries {
            bits: &room.entries[..count],
            places: &room.places[..count],
        },
        shared_from: at.place,
        drawing: &room.drawing[..at.drawing],
    }
}

// Refusals 1 to 8, or the plan, in the lent room.
pub fn plan_tables<'a>(mode: Mode, t: Tables, room: &'a mut Room) -> Result<Plan<'a>, Refusal>
    ensures { Plans (tables_of mode t.entry) result }
{
    let frame = size_tables(mode, t)?;
    Ok(file_plan(mode, frame, t, room))
}
