// Floods what standard input holds, some times over: the library's side of the benchmark in bench/.
//
//     bench_flood ROWS COLS TIMES                  <heights >levels
//     bench_flood NODES OUTLETS NEAR WIDE TIMES    <heights >levels
//
// With three numbers it floods a sheet, with five a ring (ring.rt) whose near levels come first. Heights and levels are
// 16-bit numbers of decimetres, the lower byte first. With other arguments it does nothing.
#![tactic(auto)]

mod memory;
mod ring;
mod subject;

use anyhow::anyhow;
use memory::{Memory, heights};
use std::env;
use std::io::{Read, Write};
use subject::{Cells, Chords, Subject};

// The numbers that the program was given.
fn numbers(rt: &HostRuntime) -> anyhow::Result<Vec<usize>> {
    let mut all = Vec::new(rt.alloc());
    for word in env::args(rt)?.skip(1) {
        all.push(word.parse::<usize>()?)?;
    }
    Ok(all)
}

// Floods as often as it is asked, and prints the levels.
fn run<S: Subject>(
    rt: &HostRuntime,
    subject: &S,
    nodes: usize,
    times: usize,
) -> anyhow::Result<()> {
    let mut memory = Memory::new(rt.alloc(), nodes)?;
    for _ in 0..times {
        subject.flood(&mut memory).map_err(|_| anyhow!("refused"))?;
    }
    let levels = memory.levels(rt.alloc())?;
    rt.stdout().write_all(levels.as_slice())?;
    Ok(())
}

fn main(rt: HostRuntime) -> anyhow::Result<()> {
    let given = numbers(&rt)?;
    let mut bytes = Vec::new(rt.alloc());
    rt.stdin().read_to_end(&mut bytes)?;
    let marks = heights(rt.alloc(), bytes.as_slice())?;
    match given.as_slice() {
        [rows, cols, times] => {
            let nodes = marks.len();
            let cells = Cells {
                rows: *rows,
                cols: *cols,
                marks,
            };
            run(&rt, &cells, nodes, *times)
        }
        [nodes, outlets, near, wide, times] => {
            let chords = Chords {
                nodes: *nodes,
                outlets: *outlets,
                near: *near,
                wide: *wide,
                levels: marks,
            };
            run(&rt, &chords, *nodes, *times)
        }
        _ => Ok(()),
    }
}
