// The library for C. include/clevisroot.h says in a person's words what each function does.
// The answers come first, then the functions that fill them, then the calls, in the header's order. C has no `Result`, so that each answer
// is a number and what goes with it, and C lends every list by itself.
#![tactic(auto)]

ghost use Rattle.std.specs.Prelude.{◌≡◌, ◌≤◌};
ghost use Rattle.g9932.specs.Sizes.{tables, most_tones, point};
ghost use Rattle.g9932.specs.Refusals.{number_of, place_of, refused, table_verdict};
ghost use Rattle.g9932.specs.Answers.{verdict_of, report_of, mapped_of, map_label, labelled_of, read_point, draw_answer, drawn_of};
ghost use Rattle.g9932.specs.Nearest.{nearest_of, total_in};
ghost use Rattle.g9932.specs.Clip.{clip_check, clip_report_of};
ghost use Rattle.g9932.specs.declared.Mode.TheVariants.{Coded};
ghost use Rattle.clevisroot.specs.CAnswers.{mode_of, answer_of, reported, with_total, nearest_answer, clip_answered, point_answered, label_answered, draw_answered, tally_answered, Small, ReorderAnswered, EncodeAnswered, ReadAnswered, EncodeAtAnswered, ReadAtAnswered, NearestAnswered};
ghost use Rattle.tally.specs.PairReport.{read_as, refused_with, tallied, told_of, new_tally};

use g9932::{ClipTold, Done, FillerBit, Mode, Nearest, Point, Points, Refusal, Refused, Tables};
use tally::{Tally, Uncounted};

// What the calls with tables answer: 0 or the refusal, its place, L and the register.
#[repr(C)]
#[derive(Clone, Copy)]
pub struct SymbolAnswer {
    pub number: u32,
    pub place: u32,
    pub size: u32,
    pub reg: u32,
}

// What reading received points answers: the same, and the total of squared distances.
#[repr(C)]
#[derive(Clone, Copy)]
pub struct NearestAnswer {
    pub number: u32,
    pub place: u32,
    pub size: u32,
    pub reg: u32,
    pub total: u64,
}

// What the clip check answers: 0 or the refusal, its place, which way round the clip is, and the register as it came.
#[repr(C)]
#[derive(Clone, Copy)]
pub struct ClipAnswer {
    pub number: u32,
    pub place: u32,
    pub clip: u32,
    pub reg: u32,
}

// What mapping one label answers.
#[repr(C)]
#[derive(Clone, Copy)]
pub struct PointAnswer {
    pub number: u32,
    pub x: i16,
    pub y: i16,
}

// What reading one point answers.
#[repr(C)]
#[derive(Clone, Copy)]
pub struct LabelAnswer {
    pub number: u32,
    pub label: u32,
}

// What drawing a filler bit answers.
#[repr(C)]
#[derive(Clone, Copy)]
pub struct DrawAnswer {
    pub number: u32,
    pub bit: u32,
    pub reg: u32,
}

// What counting a symbol answers: 0 or the refusal, and the tally to go on with.
#[repr(C)]
#[derive(Clone, Copy)]
pub struct TallyAnswer {
    pub number: u32,
    pub tally: Tally,
}

// 0 is uncoded, anything else coded.
fn mode_of(coded: u8) -> Mode
    ensures { result ≡ mode_of coded }
{
    if coded == 0 {
        return Mode::Uncoded;
    }
    Mode::Coded
}

// A refusal, with the register as it came.
fn refuse(refusal: Refusal, reg: u32) -> SymbolAnswer
    requires { place_of refusal ≤ most_tones }
    ensures { result ≡ answer_of (refused (number_of refusal) (place_of refusal)) reg }
{
    SymbolAnswer {
        number: refusal.number(),
        place: refusal.place() as u32,
        size: 0,
        reg,
    }
}

// The answer of checking and of re-ordering; no register was given.
fn checked(answer: Result<usize, Refusal>) -> SymbolAnswer
    requires { Small (verdict_of answer) }
    ensures { result ≡ answer_of (verdict_of answer) 0 }
{
    match answer {
        Ok(size) => SymbolAnswer {
            number: 0,
            place: 0,
            size: size as u32,
            reg: 0,
        },
        Err(refusal) => refuse(refusal, 0),
    }
}

// The answer of encoding and of reading.
fn answered(answer: Result<Done, Refused>) -> SymbolAnswer
    requires { Small (report_of answer).verdict }
    ensures { result ≡ reported (report_of answer) }
{
    match answer {
        Ok(Done { size, register }) => SymbolAnswer {
            number: 0,
            place: 0,
            size: size as u32,
            reg: register,
        },
        Err(Refused { refusal, register }) => refuse(refusal, register),
    }
}

fn with_total(answer: SymbolAnswer, total: u64) -> NearestAnswer
    ensures { result ≡ with_total answer total }
{
    NearestAnswer {
        number: answer.number,
        place: answer.place,
        size: answer.size,
        reg: answer.reg,
        total,
    }
}

// The answer of reading received points; a refusal has the total 0.
fn nearest_answered(answer: Result<Nearest, Refused>) -> NearestAnswer
    requires { Small (nearest_of answer).verdict }
    ensures { result ≡ nearest_answer (nearest_of answer) (total_in answer) }
{
    match answer {
        Ok(
            Nearest {
                size,
                register,
                total,
            },
        ) => with_total(answered(Ok(Done { size, register })), total),
        Err(Refused { refusal, register }) => with_total(refuse(refusal, register), 0),
    }
}

// The answer of the clip check; a refusal has clip 0.
fn clip_answered(answer: Result<ClipTold, Refused>) -> ClipAnswer
    requires { (clip_report_of answer).place ≤ most_tones }
    ensures { result ≡ clip_answered (clip_report_of answer) }
{
    match answer {
        Ok(ClipTold { clip, register }) => ClipAnswer {
            number: 0,
            place: 0,
            clip: clip.number(),
            reg: register,
        },
        Err(Refused { refusal, register }) => ClipAnswer {
            number: refusal.number(),
            place: refusal.place() as u32,
            clip: 0,
            reg: register,
        },
    }
}

// The answer of mapping one label; a refusal has the point (0, 0).
fn point_answered(answer: Result<Point, Refusal>) -> PointAnswer
    ensures { result ≡ point_answered (mapped_of answer) }
{
    match answer {
        Ok(Point { x, y }) => PointAnswer { number: 0, x, y },
        Err(refusal) => PointAnswer {
            number: refusal.number(),
            x: 0,
            y: 0,
        },
    }
}

// The answer of reading one point; a refusal has label 0.
fn label_answered(answer: Result<u32, Refusal>) -> LabelAnswer
    ensures { result ≡ label_answered (labelled_of answer) }
{
    match answer {
        Ok(label) => LabelAnswer { number: 0, label },
        Err(refusal) => LabelAnswer {
            number: refusal.number(),
            label: 0,
        },
    }
}

// The answer of drawing a filler bit; a refusal has bit 0.
fn draw_answered(answer: Result<FillerBit, Refused>) -> DrawAnswer
    ensures { result ≡ draw_answered (drawn_of answer) }
{
    match answer {
        Ok(FillerBit { bit, register }) => DrawAnswer {
            number: 0,
            bit: u32::from(bit),
            reg: register,
        },
        Err(Refused { refusal, register }) => DrawAnswer {
            number: refusal.number(),
            bit: 0,
            reg: register,
        },
    }
}

// The answer of counting a symbol.
fn tally_answered(answer: Result<Tally, Uncounted>) -> TallyAnswer
    ensures { result ≡ tally_answered (told_of answer) }
{
    match answer {
        Ok(tally) => TallyAnswer { number: 0, tally },
        Err(Uncounted { tally, refusal }) => TallyAnswer {
            number: refusal.number(),
            tally,
        },
    }
}

#[unsafe(no_mangle)]
pub extern "C" fn clevisroot_check(
    coded: u8,
    bits: &[u8],
    gains: &[u16],
    tones: &[u16],
) -> SymbolAnswer
    ensures { result ≡ answer_of (table_verdict (tables (mode_of coded) bits.now gains.now tones.now)) 0 }
{
    let t = Tables { bits, gains, tones };
    checked(ordering::check_tables(mode_of(coded), t))
}

#[unsafe(no_mangle)]
pub extern "C" fn clevisroot_reorder(
    coded: u8,
    bits: &[u8],
    gains: &[u16],
    tones: &[u16],
    reordered_tones: &mut [u16],
    reordered_bits: &mut [u8],
) -> SymbolAnswer
    ensures { ReorderAnswered (tables (mode_of coded) bits.now gains.now tones.now) reordered_tones.old reordered_bits.old result reordered_tones.new reordered_bits.new }
{
    let t = Tables { bits, gains, tones };
    checked(ordering::reorder(mode_of(coded), t, reordered_tones, reordered_bits))
}

#[unsafe(no_mangle)]
pub extern "C" fn clevisroot_encode(
    coded: u8,
    bits: &[u8],
    gains: &[u16],
    tones: &[u16],
    frame: &[u8],
    reg: u32,
    x: &mut [i16],
    y: &mut [i16],
) -> SymbolAnswer
    ensures { EncodeAnswered (tables (mode_of coded) bits.now gains.now tones.now) frame.now reg x.old y.old result x.new y.new }
{
    let t = Tables { bits, gains, tones };
    answered(symbol::encode(mode_of(coded), t, frame, 0, reg, x, y))
}

#[unsafe(no_mangle)]
pub extern "C" fn clevisroot_read(
    coded: u8,
    bits: &[u8],
    gains: &[u16],
    tones: &[u16],
    x: &[i16],
    y: &[i16],
    reg: u32,
    frame: &mut [u8],
) -> SymbolAnswer
    ensures { ReadAnswered (tables (mode_of coded) bits.now gains.now tones.now) x.now y.now reg frame.old result frame.new }
{
    let t = Tables { bits, gains, tones };
    let points = Points { xs: x, ys: y };
    answered(symbol::read(mode_of(coded), t, points, reg, frame, 0))
}

#[unsafe(no_mangle)]
pub extern "C" fn clevisroot_encode_at(
    coded: u8,
    bits: &[u8],
    gains: &[u16],
    tones: &[u16],
    frame: &[u8],
    start: u8,
    reg: u32,
    x: &mut [i16],
    y: &mut [i16],
) -> SymbolAnswer
    ensures { EncodeAtAnswered (tables (mode_of coded) bits.now gains.now tones.now) start frame.now reg x.old y.old result x.new y.new }
{
    let t = Tables { bits, gains, tones };
    answered(symbol::encode(mode_of(coded), t, frame, start, reg, x, y))
}

#[unsafe(no_mangle)]
pub extern "C" fn clevisroot_read_at(
    coded: u8,
    bits: &[u8],
    gains: &[u16],
    tones: &[u16],
    x: &[i16],
    y: &[i16],
    reg: u32,
    frame: &mut [u8],
    start: u8,
) -> SymbolAnswer
    ensures { ReadAtAnswered (tables (mode_of coded) bits.now gains.now tones.now) x.now y.now reg start frame.old result frame.new }
{
    let t = Tables { bits, gains, tones };
    let points = Points { xs: x, ys: y };
    answered(symbol::read(mode_of(coded), t, points, reg, frame, start))
}

#[unsafe(no_mangle)]
pub extern "C" fn clevisroot_read_nearest(
    coded: u8,
    bits: &[u8],
    gains: &[u16],
    tones: &[u16],
    x: &[i16],
    y: &[i16],
    reg: u32,
    frame: &mut [u8],
    start: u8,
    work: &mut [u8],
) -> NearestAnswer
    ensures { NearestAnswered (tables (mode_of coded) bits.now gains.now tones.now) x.now y.now reg start frame.old work.old result frame.new work.new }
{
    let t = Tables { bits, gains, tones };
    let points = Points { xs: x, ys: y };
    nearest_answered(nearest::read(mode_of(coded), t, points, reg, frame, start, work))
}

#[unsafe(no_mangle)]
pub extern "C" fn clevisroot_clip_check(
    bits: &[u8],
    gains: &[u16],
    tones: &[u16],
    x: &[i16],
    y: &[i16],
    reg: u32,
) -> ClipAnswer
    ensures { result ≡ clip_answered (clip_check (tables Coded bits.now gains.now tones.now) x.now y.now reg) }
{
    let t = Tables { bits, gains, tones };
    let points = Points { xs: x, ys: y };
    clip_answered(clip::check(t, points, reg))
}

#[unsafe(no_mangle)]
pub extern "C" fn clevisroot_map_label(bits: u8, label: u32) -> PointAnswer
    ensures { result ≡ point_answered (map_label bits label) }
{
    point_answered(constellation::map_label(bits, label))
}

#[unsafe(no_mangle)]
pub extern "C" fn clevisroot_read_point(bits: u8, x: i16, y: i16) -> LabelAnswer
    ensures { result ≡ label_answered (read_point bits (point x y)) }
{
    label_answered(constellation::read_point(bits, Point { x, y }))
}

#[unsafe(no_mangle)]
pub extern "C" fn clevisroot_plain_map_label(bits: u8, label: u32) -> PointAnswer
    ensures { result ≡ point_answered (map_label bits label) }
{
    point_answered(plain_mapper::map_label(bits, label))
}

#[unsafe(no_mangle)]
pub extern "C" fn clevisroot_plain_read_point(bits: u8, x: i16, y: i16) -> LabelAnswer
    ensures { result ≡ label_answered (read_point bits (point x y)) }
{
    label_answered(plain_mapper::read_point(bits, Point { x, y }))
}

#[unsafe(no_mangle)]
pub extern "C" fn clevisroot_draw(reg: u32) -> DrawAnswer
    ensures { result ≡ draw_answered (draw_answer reg) }
{
    draw_answered(prbs::draw(reg))
}

#[unsafe(no_mangle)]
pub extern "C" fn clevisroot_tally_new() -> Tally
    ensures { result ≡ new_tally }
{
    Tally::new()
}

#[unsafe(no_mangle)]
pub extern "C" fn clevisroot_tally_read(tally: Tally, sent: &[u8], read: &[u8]) -> TallyAnswer
    ensures { result ≡ tally_answered (tallied tally (read_as sent.now read.now)) }
{
    tally_answered(tally.read(sent, read))
}

#[unsafe(no_mangle)]
pub extern "C" fn clevisroot_tally_refused(tally: Tally, sent: &[u8], refusal: u32) -> TallyAnswer
    ensures { result ≡ tally_answered (tallied tally (refused_with sent.now refusal)) }
{
    tally_answered(tally.refused(sent, refusal))
}
