// Is the clip the wrong way round? The first monitored tone in t' tells, and no other point is looked at.
#![tactic(auto)]

ghost use Rattle.std.specs.Prelude.{◌≡◌, length};
ghost use Rattle.g9932.specs.Answers.{test_of};
ghost use Rattle.g9932.specs.Clip.{clip_against, clip_of, clip_check, clip_verdict, clip_report_of};
ghost use Rattle.g9932.specs.Filler.{drawn};
ghost use Rattle.g9932.specs.Points.{point_of};
ghost use Rattle.g9932.specs.Sizes.{tables_of, point, points_of, tone_of};
ghost use Rattle.g9932.specs.Symbol.{classes_by, is_monitored};
ghost use Rattle.g9932.specs.declared.Mode.TheVariants.{Coded};
ghost use Rattle.tables.specs.Checks.{any_below};
ghost use Rattle.clip.specs.Tones.{is_monitored_in, along, look, LookNeeds, TellNeeds};

use g9932::{Clip, ClipTold, Mode, Place, Point, Points, Refusal, Refused, Subcarrier, Tables};

// How far the look along t has come: the place in t' of the next tone that has not 1 bit, and how many silent tones stand before it there.
// No 1-bit tone does.
#[derive(Clone, Copy)]
pub struct Along {
    pub place: Place,
    pub silent: usize,
}

// Whether a tone with these bits and this gain is monitored.
fn is_monitored(bits: u8, gain: u16) -> bool
    ensures { result ≡ is_monitored (tone_of bits gain).class }
{
    (bits == 0) & (0 < gain)
}

// Whether any sub-carrier has 0 bits and a gain. In accepted tables every such one is in t, so that this is whether any tone is monitored.
// No early exit and no `if`, so that the compiler takes many entries at a time. Called by proved code only.
fn any_monitored(bits: &[u8], gains: &[u16]) -> bool
    requires { length gains.now ≡ length bits.now }
    ensures { result ≡ any_below (is_monitored_in bits.now gains.now) (length bits.now) }
{
    let mut any = false;
    for i in 0..bits.len() {
        any |= is_monitored(bits[i], gains[i]);
    }
    any
}

// The first monitored tone in t'. It is the first one in t, for no 1-bit tone is monitored. The counts have no `if`. Called by proved code
// only.
fn look_along(t: Tables) -> Option<Along>
    requires { LookNeeds t.bits.now t.gains.now t.tones.now }
    ensures { result ≡ look (classes_by t.entry.bits.now t.entry.gains.now t.entry.tones.now) (along 0 0) }
{
    let mut place = 0;
    let mut silent = 0;
    for &tone in t.tones {
        let k = Subcarrier(usize::from(tone));
        let b = tables::bits_of(t.bits, k);
        if is_monitored(b, tables::gain_of(t.gains, k)) {
            return Some(Along {
                place: Place(place),
                silent,
            });
        }
        place += usize::from(b != 1);
        silent += usize::from(b == 0);
    }
    None
}

// What the point of a monitored tone tells, by the register before its draws.
fn clip_at(p: Point, register: u32) -> Clip
    ensures { result ≡ clip_against (point_of 2 (drawn 2 register)) (point p.x p.y) }
{
    let filler = constellation::point_of(2, prbs::filler_label(register).label);
    if p == filler {
        return Clip::Straight;
    }
    let opposite = Point {
        x: -filler.x,
        y: -filler.y,
    };
    if p == opposite {
        return Clip::Turned;
    }
    Clip::Neither
}

// What the first monitored tone tells; where there is none, t is not looked along, so that `None` does not come; the answer is the
// definition's all the same. Its caller shows that the tables are accepted and that both lists have NSC entries.
fn tell(t: Tables, points: Points, register: u32) -> Clip
    requires { TellNeeds t.bits.now t.gains.now t.tones.now points.xs.now points.ys.now }
    ensures { result ≡ clip_of (tables_of Coded t.entry) (points_of points.entry) register }
{
    if !any_monitored(t.bits, t.gains) {
        return Clip::CannotTell;
    }
    match look_along(t) {
        None => Clip::CannotTell,
        Some(at) => {
            let p = points.at(at.place);
            clip_at(p, prbs::after_tones(register, at.silent))
        }
    }
}

// Refusals 1 to 8, 10 and 12. The tables are coded.
fn check_inputs(t: Tables, points: Points, register: u32) -> Result<(), Refusal>
    ensures { test_of result ≡ clip_verdict (tables_of Coded t.entry) (length points.entry.xs.now) (length points.entry.ys.now) register }
{
    tables::sizes::size_tables(Mode::Coded, t)?;
    if (points.xs.len() != t.tones.len()) | (points.ys.len() != t.tones.len()) {
        return Err(Refusal::Room);
    }
    if prbs::seed_refused(register) {
        return Err(Refusal::Seed);
    }
    Ok(())
}

// Checks the clip: refusals 1 to 8, 10 and 12. The tables are coded. The register comes back as it was given, whatever the answer. A call
// takes some 8 KiB of stack, no heap and no global.
pub fn check(t: Tables, points: Points, register: u32) -> Result<ClipTold, Refused>
    ensures { clip_report_of result ≡ clip_check (tables_of Coded t.entry) points.entry.xs.now points.entry.ys.now register }
{
    match check_inputs(t, points, register) {
        Err(refusal) => Err(Refused { refusal, register }),
        Ok(()) => {
            let clip = tell(t, points, register);
            Ok(ClipTold { clip, register })
        }
    }
}
