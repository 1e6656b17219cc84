// Filing the tones of t by place and by entry.
ghost use Rattle.std.specs.Prelude.{◌≡◌};
ghost use Rattle.constellation.specs.Layouts.{layout_list};
ghost use Rattle.g9932.specs.Order.{filter};
ghost use Rattle.g9932.specs.Symbol.{classes_by};
ghost use Rattle.plan.specs.Plan.{is_placed, EmptyNeeds, FilesEmpty, ToneNeeds, FilesTone, Filing, FileNeeds, ShareNeeds, Shares};

use super::Room;
use g9932::{Class, Place, Subcarrier, Tables, Tone};

// Where the next tone goes in each list: lists that grow are arrays with a cursor, for there is no heap.
#[derive(Clone, Copy)]
pub struct Cursors {
    pub place: Place,
    pub entry: usize,
    pub drawing: usize,
}

// Files a tone without data: at its place it has a layout and draws filler bits, monitored or silent.
fn file_empty(layout: u16, at: Cursors, room: &mut Room) -> Cursors
    requires { EmptyNeeds at }
    ensures { FilesEmpty layout at room.old result room.new }
{
    let place = at.place.0;
    room.layouts[place] = layout;
    room.drawing[at.drawing] = place as u16;
    Cursors {
        place: Place(place + 1),
        entry: at.entry,
        drawing: at.drawing + 1,
    }
}

// Files one tone by its class. With data of `least` bits or more it has a place and an entry of its own; with fewer it shares, and is left
// out here.
fn file_tone(tone: Tone, least: u8, at: Cursors, table: &[u16; 16], room: &mut Room) -> Cursors
    requires { ToneNeeds tone.class least at × (table.now ≡ layout_list) }
    ensures { FilesTone least tone.class at room.old result room.new }
{
    let place = at.place.0;
    let entry = at.entry;
    match tone.class {
        Class::Data(bits) => {
            if bits < least {
                return at;
            }
            room.layouts[place] = table[usize::from(bits)];
            room.entries[entry] = bits;
            room.places[entry] = place as u16;
            Cursors {
                place: Place(place + 1),
                entry: entry + 1,
                drawing: at.drawing,
            }
        }
        Class::Monitored => file_empty(table[2], at, room),
        Class::Silent => file_empty(table[0], at, room),
    }
}

// Files the tones of t, all but those that share. Called by proved code only.
pub fn file_tones(least: u8, t: Tables, table: &[u16; 16], room: &mut Room) -> Cursors
    requires { FileNeeds least t.bits.now t.gains.now t.tones.now × (table.now ≡ layout_list) }
    ensures { Filing least (filter (is_placed least) (classes_by t.entry.bits.now t.entry.gains.now t.entry.tones.now)) result room.new }
{
    let mut at = Cursors {
        place: Place(0),
        entry: 0,
        drawing: 0,
    };
    for &tone in t.tones {
        let k = Subcarrier(usize::from(tone));
        let bits = tables::bits_of(t.bits, k);
        let tone = tables::tone_of(bits, tables::gain_of(t.gains, k));
        at = file_tone(tone, least, at, table, room);
    }
    at
}

// Adds `count` entries of 2 bits, each shared by two tones of 1 bit, behind the places and the entries filed. Called by proved code only.
pub fn share_entries(count: usize, at: Cursors, layout: u16, room: &mut Room)
    requires { ShareNeeds count at.place.0 at.entry }
    ensures { Shares layout at.place.0 count at.entry room.old room.new }
{
    for j in 0..count {
        let p = at.place.0 + 2 * j;
        room.layouts[p] = layout;
        room.layouts[p + 1] = layout;
        room.entries[at.entry + j] = 2;
        room.places[at.entry + j] = p as u16;
    }
}
