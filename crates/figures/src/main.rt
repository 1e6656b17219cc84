// Prints the bench figures of document 01 as the proved operations work them out, one to a line.
#![tactic(auto)]

mod bench; // the bench tables

use bench::{equal_tones, table_a, table_a_of_twos};
use figure_lines::{half_turn, order, quarter_turn, register, silent, size, written};
use g9932::Mode;
use std::io;

// The point of one label, or the refusal.
fn mapped(rt: &impl Print, bits: u8, label: u32) -> io::Result<()> {
    print!(rt; "\n{bits} bits label {label}:")?;
    print::mapped(rt, constellation::map_label(bits, label))
}

fn labels(rt: &impl Print) -> io::Result<()> {
    mapped(rt, 4, 9)?;
    mapped(rt, 5, 16)?;
    mapped(rt, 5, 24)?;
    mapped(rt, 5, 31)?;
    mapped(rt, 7, 64)?;
    mapped(rt, 7, 67)?;
    mapped(rt, 15, 17407)
}

fn table_a_order(rt: &impl Print) -> io::Result<()> {
    print!(rt; "\ntable A: tones")?;
    table_a(512, |t, _, _| order(rt, t))?;
    print!(rt; "\ntable A:")?;
    table_a(512, |t, _, _| size(rt, Mode::Coded, t))
}

fn table_a_frames(rt: &impl Print) -> io::Result<()> {
    print!(rt; "\ntable A frame 0:")?;
    table_a(512, |t, xs, ys| written(rt, t, 0, xs, ys))?;
    print!(rt; "\ntable A frame 0: register ")?;
    table_a(512, |t, xs, ys| register(rt, t, 0, xs, ys))?;
    print!(rt; "\ntable A frame 1:")?;
    table_a(512, |t, xs, ys| written(rt, t, 1, xs, ys))?;
    print!(rt; "\ntable A frame 32:")?;
    table_a(512, |t, xs, ys| written(rt, t, 32, xs, ys))
}

fn table_a_silent(rt: &impl Print) -> io::Result<()> {
    print!(rt; "\ntable A, gain of 4 is 0: points")?;
    table_a(0, |t, _, _| silent(rt, t))?;
    print!(rt; "\ntable A, gain of 4 is 0, frame 0: register ")?;
    table_a(0, |t, xs, ys| register(rt, t, 0, xs, ys))
}

fn two_bit_tones(rt: &impl Print) -> io::Result<()> {
    print!(rt; "\nfive 2-bit tones coded:")?;
    equal_tones(5, 2, |t, _, _| size(rt, Mode::Coded, t))?;
    print!(rt; "\nfive 2-bit tones coded, frame 1:")?;
    equal_tones(5, 2, |t, xs, ys| written(rt, t, 1, xs, ys))?;
    print!(rt; "\nthree 2-bit tones coded:")?;
    equal_tones(3, 2, |t, _, _| size(rt, Mode::Coded, t))?;
    print!(rt; "\nfour 2-bit tones coded:")?;
    equal_tones(4, 2, |t, _, _| size(rt, Mode::Coded, t))
}

fn one_tone(rt: &impl Print) -> io::Result<()> {
    print!(rt; "\none 1-bit tone coded:")?;
    equal_tones(1, 1, |t, _, _| size(rt, Mode::Coded, t))?;
    print!(rt; "\none 1-bit tone uncoded:")?;
    equal_tones(1, 1, |t, _, _| size(rt, Mode::Uncoded, t))
}

fn large_tables(rt: &impl Print) -> io::Result<()> {
    print!(rt; "\n4096 tones of 15 bits coded:")?;
    equal_tones(4096, 15, |t, _, _| size(rt, Mode::Coded, t))?;
    print!(rt; "\n4096 tones of 15 bits uncoded:")?;
    equal_tones(4096, 15, |t, _, _| size(rt, Mode::Uncoded, t))
}

fn half_turns(rt: &impl Print) -> io::Result<()> {
    print!(rt; "\ntable A, tone 4 monitored")?;
    table_a(512, |t, xs, ys| half_turn(rt, t, xs, ys))?;
    print!(rt; "\nfive 2-bit tones, none monitored, N odd")?;
    equal_tones(5, 2, |t, xs, ys| half_turn(rt, t, xs, ys))?;
    print!(rt; "\nfour 2-bit tones, none monitored, N even")?;
    equal_tones(4, 2, |t, xs, ys| half_turn(rt, t, xs, ys))?;
    print!(rt; "\ntable A, gain of 4 is 0, none monitored, N even")?;
    table_a(0, |t, xs, ys| half_turn(rt, t, xs, ys))
}

// A table of each kind: by it goes what refuses a quarter turn, and where.
fn quarter_turns(rt: &impl Print) -> io::Result<()> {
    print!(rt; "\ntable A, two 1-bit tones, tone 4 monitored")?;
    table_a(512, |t, xs, ys| quarter_turn(rt, t, xs, ys))?;
    print!(rt; "\ntable A, 2 bits on 3 and 6, no 1-bit tone, tone 4 monitored")?;
    table_a_of_twos(|t, xs, ys| quarter_turn(rt, t, xs, ys))?;
    print!(rt; "\nfive 2-bit tones, none monitored, N odd")?;
    equal_tones(5, 2, |t, xs, ys| quarter_turn(rt, t, xs, ys))?;
    print!(rt; "\nfour 2-bit tones, none monitored, N 4")?;
    equal_tones(4, 2, |t, xs, ys| quarter_turn(rt, t, xs, ys))?;
    print!(rt; "\nsix 2-bit tones, none monitored, N even and above 4")?;
    equal_tones(6, 2, |t, xs, ys| quarter_turn(rt, t, xs, ys))
}

fn main(rt: HostRuntime) -> io::Result<()> {
    print!(&rt; "bench figures")?;
    table_a_order(&rt)?;
    table_a_frames(&rt)?;
    table_a_silent(&rt)?;
    two_bit_tones(&rt)?;
    one_tone(&rt)?;
    labels(&rt)?;
    large_tables(&rt)?;
    print!(&rt; "\nhalf a turn: frame 0 written, every point turned, read")?;
    half_turns(&rt)?;
    print!(&rt; "\na quarter turn: frame 0 written, every point turned, read")?;
    quarter_turns(&rt)?;
    print!(&rt; "\n")
}
