// Brings up a plain chip three times in a row, and then a stack of layers over a plain and an image chip, and prints
// what it found.
// The plain chip may be erased once, so the passes find its blocks blank, then used, then worn.
#![tactic(auto)]

mod stack;

use bringup::check::check_flash;
use bringup::probe::probe_refusals;
use bringup::report::{BlockOutcome, Summary};
use chips::image::ImageChip;
use chips::plain::PlainChip;
use flash::block::PhysicalBlock;
use flash::device::Flash;
use flash::geometry::Geometry;
use stack::check_stack;
use std::io;

// Prints a line for each block, and a summary.
// The four meet here alone: a struct of them would be made only to be taken apart.
fn print_report(
    rt: &HostRuntime,
    name: &str,
    outcomes: &[BlockOutcome; 256],
    summary: Summary,
) -> io::Result<()> {
    for (number, outcome) in outcomes.iter().enumerate().take(summary.blocks as usize) {
        println!(rt; "block {number}: {outcome}")?;
    }
    println!(rt; "{name}: {summary}")
}

// Prints the numbers of the refusals that a probe meets, on one line. No `Display`: an array of options is the library's.
fn print_refusals<F: Flash>(rt: &HostRuntime, flash: &mut F) -> io::Result<()> {
    print!(rt; "refused:")?;
    for refusal in probe_refusals(flash) {
        match refusal {
            Some(refusal) => print!(rt; " {}", u8::from(refusal))?,
            None => print!(rt; " -")?,
        }
    }
    println!(rt; "")
}

// Checks a flash and tries its refusals, and prints what came of it.
fn bring_up<F: Flash>(rt: &HostRuntime, name: &str, flash: &mut F) -> io::Result<()> {
    let Geometry {
        pages,
        size,
        endurance,
        ..
    } = flash.geometry();
    println!(rt; "{name}: {pages} pages of {size} bytes a block, endurance {endurance}")?;
    let mut outcomes = [BlockOutcome::Worn; 256];
    let summary = check_flash(flash, &mut outcomes);
    print_report(rt, name, &outcomes, summary)?;
    print_refusals(rt, flash)
}

fn main(rt: HostRuntime) -> io::Result<()> {
    let geometry = Geometry {
        blocks: 2,
        pages: 4,
        size: 16,
        endurance: 1,
    };
    let mut memory = [0u8; 128];
    let mut chip = PlainChip::new(&mut memory, geometry);
    for _ in 0..3 {
        bring_up(&rt, "plain chip", &mut chip)?;
    }
    let geometry = Geometry {
        blocks: 4,
        ..geometry
    };
    let mut left = [0u8; 256];
    let mut right = [0u8; 272];
    let _ = ImageChip::blank(&mut right, geometry);
    let mut outcomes = [BlockOutcome::Worn; 256];
    let summary = check_stack(
        PlainChip::new(&mut left, geometry),
        &[PhysicalBlock(1)],
        ImageChip::attach(&mut right, geometry),
        &[PhysicalBlock(3)],
        &[PhysicalBlock(0)],
        &mut outcomes,
    );
    print_report(&rt, "stack", &outcomes, summary)
}
