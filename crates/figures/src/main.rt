// Compares the engine's arithmetic with the worked figures of source document 004, and with those that document 01 takes from it: a line for
// each, and their count.
#![tactic(auto)]

mod extension;
mod figure;
mod worked;

use decimal::round::half_up;
use extension::found_rate;
use figure::{COUNT, Figure, Work, figure_at};
use std::io;
use worked::worked;

// What a figure is.
fn write_name(rt: &impl Print, w: Work) -> io::Result<()> {
    match w {
        Work::Price(a, b) => print!(rt; ": settlement price of 100 "),
        Work::Cash(a, b, c) => print!(rt; ": settlement cash "),
        Work::Indexed(a, b, c, d) => print!(rt; ": indexed payment "),
        Work::Present(a, b, c) => print!(rt; ": present value "),
        Work::Variation(a, b) => print!(rt; ": variation margin "),
        Work::Interest(a, b, c) => print!(rt; ": interest "),
        Work::Withholding(a, b, c) => print!(rt; ": withholding "),
        Work::SecondLeg(a, b, c) => print!(rt; ": second leg "),
    }
}

// A price shows its hundredths, an amount is in whole lira.
fn write_figure(rt: &impl Print, w: Work, n: u64) -> io::Result<()> {
    if let Work::Price(a, b) = w {
        print!(rt; "{}.{:02}", n / 100, n % 100)
    } else {
        print!(rt; "{n}")
    }
}

// As 004 rounds it: a price to the kurus, an amount to the lira.
fn rounded(w: Work, n: u64) -> u64 {
    if let Work::Price(a, b) = w {
        return n;
    }
    half_up(n, 100)
}

// One line, and whether the figures agree.
fn compare(rt: &impl Print, f: Figure) -> io::Result<bool> {
    let work = f.1;
    let engine = rounded(work, worked(work));
    print!(rt; "line {}", f.0)?;
    write_name(rt, work)?;
    write_figure(rt, work, f.2)?;
    print!(rt; ", engine ")?;
    write_figure(rt, work, engine)?;
    if engine == f.2 {
        println!(rt; ", agrees")?;
        return Ok(true);
    }
    println!(rt; ", differs")?;
    Ok(false)
}

// Four digits behind the point.
fn write_fraction(rt: &impl Print, n: u64) -> io::Result<()> {
    print!(rt; ".{:04}", n % 10_000)
}

// The bootstrap of 004: it discounts by simple interest, where its other examples compound, and leaves the rate open.
fn write_extension(rt: &impl Print) -> io::Result<()> {
    let value = worked(Work::Present(500_000_000, 105_000, 170)) / 10_000;
    let rate = found_rate();
    print!(rt;
        "line 318: present value of 5 by simple interest 4.767, engine {}",
        value / 10_000
    )?;
    write_fraction(rt, value)?;
    print!(rt;
        "\nline 319: rate of day 350 left open, engine {}",
        rate / 10_000
    )?;
    write_fraction(rt, rate)?;
    println!(rt; "%")
}

// The last line.
fn write_count(rt: &impl Print, agreed: u64) -> io::Result<()> {
    println!(rt; "{COUNT} figures, {agreed} agree")
}

fn main(rt: HostRuntime) -> io::Result<()> {
    let mut agreed: u64 = 0;
    for i in 0..COUNT {
        agreed += u64::from(compare(&rt, figure_at(i))?);
    }
    write_extension(&rt)?;
    write_count(&rt, agreed)
}
