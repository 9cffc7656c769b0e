//! Both buffers of a relay on the same windows, with evictions, filters, windows that go on at the start of a ring's block,
//! and sinks that fail at a call, which shows in how many parts a reply goes out. What has to be printed stands in `stdout`,
//! from outside the program. It stands on `plain_buffer`, `byte_ring`, `relay_core` and the
//! generated windows of `trace_script`.
#![tactic(auto)]

mod show;
mod windows;

use byte_ring::ByteRing;
use plain_buffer::PlainBuffer;
use relay_core::Buffer;
use show::{show_all, show_answer, show_faults, show_numbers};
use std::test::Fail;
use windows::{publish, publish_generated};

// A reply that is asked for: behind this SCN, through this filter, in at most so many bytes.
type Asked = (u64, &'static str, u32);

fn main(rt: HostRuntime) -> Result<(), Fail> {
    run_all::<PlainBuffer>(&rt, "list")?;
    run_all::<ByteRing>(&rt, "circle")
}

fn run_all<B: Buffer + Drop>(rt: &HostRuntime, name: &str) -> Result<(), Fail> {
    println!(rt; "{name}")?;
    few_windows::<B>(rt)?;
    large_windows::<B>(rt)?;
    many_windows::<B>(rt)?;
    generated_windows::<B>(rt)
}

// Two windows of three puts, in the parts that filters leave of them.
fn few_windows<B: Buffer + Drop>(rt: &HostRuntime) -> Result<(), Fail> {
    let mut buffer = B::new(rt.alloc(), 1_048_576, 2)?;
    show_few(rt, &mut buffer)
}

fn show_few<B: Buffer>(rt: &HostRuntime, buffer: &mut B) -> Result<(), Fail> {
    show_answer(rt, buffer, 0, "all", 1_000)?;
    show_two(rt, buffer)?;
    show_evicted(rt, buffer)
}

fn show_two<B: Buffer>(rt: &HostRuntime, buffer: &mut B) -> Result<(), Fail> {
    for scn in [10, 20] {
        publish(rt.alloc(), buffer, scn, 3, 1)?;
    }
    let answers = [
        (0, "all", 177),
        (0, "0%2:1", 129),
        (0, "0%2:0", 1_000),
        (0, "1%2:0", 33),
        (10, "1%2:0", 16),
        (20, "all", 1_000),
    ];
    let parts = [(0, "all", 1_000), (0, "0%2:1", 1_000), (0, "1%2:0", 1_000)];
    show_both(rt, buffer, &answers, &parts)
}

fn show_evicted<B: Buffer>(rt: &HostRuntime, buffer: &mut B) -> Result<(), Fail> {
    show_published(rt, buffer, 30, 1, 5)?;
    show_answers(rt, buffer, &[(9, "all", 1_000), (15, "all", 1_000)])
}

// Windows of which three fit, each of thirty puts of 10,000 bytes. The second one that is kept at the end goes on at the
// start of a ring's block, in the payload of its last put.
fn large_windows<B: Buffer + Drop>(rt: &HostRuntime) -> Result<(), Fail> {
    let mut buffer = B::new(rt.alloc(), 1_048_576, 65_536)?;
    show_large(rt, &mut buffer)
}

fn show_large<B: Buffer>(rt: &HostRuntime, buffer: &mut B) -> Result<(), Fail> {
    for number in 1..9 {
        show_published(rt, buffer, number * 10, 30, 10_000)?;
    }
    let answers = [
        (50, "all", 1_000_000),
        (50, "all", 902_120),
        (60, "0%3:0,1", 1_000_000),
    ];
    let parts = [(50, "all", 1_000_000), (60, "0%10:0,9", 1_000_000)];
    show_both(rt, buffer, &answers, &parts)
}

// 30,000 windows of one put of one byte, of which the newest 4,096 are kept. The 25,576th one goes on at the start of a
// ring's block, after its first byte.
fn many_windows<B: Buffer + Drop>(rt: &HostRuntime) -> Result<(), Fail> {
    let mut buffer = B::new(rt.alloc(), 1_048_576, 4_096)?;
    show_block_start(rt, &mut buffer)?;
    show_newest(rt, &mut buffer)
}

fn show_block_start<B: Buffer>(rt: &HostRuntime, buffer: &mut B) -> Result<(), Fail> {
    publish_each(rt, buffer, 1, 25_601)?;
    let answers = [(25_570, "all", 1_000_000), (25_575, "all", 41)];
    show_both(rt, buffer, &answers, &[(25_575, "all", 41)])
}

fn show_newest<B: Buffer>(rt: &HostRuntime, buffer: &mut B) -> Result<(), Fail> {
    publish_each(rt, buffer, 25_601, 30_001)?;
    show_numbers(rt, buffer)?;
    show_kept(rt, buffer)
}

fn show_kept<B: Buffer>(rt: &HostRuntime, buffer: &B) -> Result<(), Fail> {
    show_answers(rt, buffer, &[(25_903, "all", 82), (25_904, "all", 82)])?;
    show_each(rt, buffer, 25_918, 25_939)?;
    let last = [
        (28_000, "all", 1_000_000),
        (29_999, "all", 1_000_000),
        (30_000, "all", 1_000_000),
    ];
    show_answers(rt, buffer, &last)
}

// 10,000 windows that are made from the number 7, in replies of as many as there may be.
fn generated_windows<B: Buffer + Drop>(rt: &HostRuntime) -> Result<(), Fail> {
    let mut buffer = B::new(rt.alloc(), 16_777_216, 65_536)?;
    publish_generated(rt.alloc(), &mut buffer, 7, 10_000)?;
    show_generated(rt, &buffer)
}

fn show_generated<B: Buffer>(rt: &HostRuntime, buffer: &B) -> Result<(), Fail> {
    show_numbers(rt, buffer)?;
    show_all(rt, buffer, "all")?;
    show_all(rt, buffer, "0%2:0;1*")
}

// Publishes a window, and prints the buffer's floor and tail.
fn show_published<B: Buffer>(
    rt: &HostRuntime,
    buffer: &mut B,
    scn: u64,
    puts: u64,
    size: usize,
) -> Result<(), Fail> {
    publish(rt.alloc(), buffer, scn, puts, size)?;
    show_numbers(rt, buffer)
}

// Publishes a window of one byte at each of these SCNs.
fn publish_each<B: Buffer>(
    rt: &HostRuntime,
    buffer: &mut B,
    from: u64,
    to: u64,
) -> Result<(), Fail> {
    for scn in from..to {
        publish(rt.alloc(), buffer, scn, 1, 1)?;
    }
    Ok(())
}

// Prints what is served behind each of these SCNs.
fn show_each<B: Buffer>(rt: &HostRuntime, buffer: &B, from: u64, to: u64) -> Result<(), Fail> {
    for scn in from..to {
        show_answer(rt, buffer, scn, "all", 41)?;
    }
    Ok(())
}

// Prints replies, and then the parts of others.
fn show_both<B: Buffer>(
    rt: &HostRuntime,
    buffer: &B,
    answers: &[Asked],
    parts: &[Asked],
) -> Result<(), Fail> {
    show_answers(rt, buffer, answers)?;
    show_parts(rt, buffer, parts)
}

fn show_answers<B: Buffer>(rt: &HostRuntime, buffer: &B, asked: &[Asked]) -> Result<(), Fail> {
    for (scn, filter, max) in asked {
        show_answer(rt, buffer, *scn, filter, *max)?;
    }
    Ok(())
}

fn show_parts<B: Buffer>(rt: &HostRuntime, buffer: &B, asked: &[Asked]) -> Result<(), Fail> {
    for (scn, filter, max) in asked {
        show_faults(rt, buffer, *scn, filter, *max)?;
    }
    Ok(())
}
