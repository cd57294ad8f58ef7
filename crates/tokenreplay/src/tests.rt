//! The program over objects in memory. The wanted texts were worked out by hand from what a trace and its report are.

use super::replay_main;
use std::alloc::Global;
use std::test::Fail;
use std::thread::Threads;
use tok_base::{Bytes, Items, MemFiles, MemSink, NoGate, Status};

/// One run over the file `a.trace`.
struct Row {
    /// What the row shows.
    shows: &'static str,
    /// The words, with one space between any two; the empty line has none.
    line: &'static str,
    /// The text of `a.trace`.
    trace: &'static str,
    /// The calls at which a write on out fails, and those at which one on report does.
    fails: (&'static [u64], &'static [u64]),
    /// The number of the status.
    code: u8,
    /// What is written on out, and on report.
    texts: (&'static str, &'static str),
}

const TWO_WORKERS: &str =
    "alloctoken-trace 1\nranges 2 64\nmode typehashpointersplit\nworkers 2\na 0 0 0 16\na 1 1 1 8\nf 1 0";

const ROWS: [Row; 10] = [
    Row {
        shows: "two workers, and the last line end is missing",
        line: "a.trace",
        trace: TWO_WORKERS,
        fails: (&[], &[]),
        code: 0,
        texts: (
            "range 0\n0 + 16 0\n1 - 0\nrange 1\n1 + 8 0\ntotal 2 0 1 16\nhalves 16 16\n",
            "",
        ),
    },
    Row {
        shows: "a refusal in a full range, and its place given again",
        line: "a.trace",
        trace: "alloctoken-trace 1\nranges 1 16\nmode typehash\nworkers 1\na 0 0 0 16\na 0 1 0 1\nf 0 0\na 0 2 0 1\n",
        fails: (&[], &[]),
        code: 0,
        texts: (
            "range 0\n0 + 16 0\n0 ! 1\n0 - 0\n0 + 1 0\ntotal 2 1 1 16\n",
            "",
        ),
    },
    Row {
        shows: "a line of another shape",
        line: "a.trace",
        trace: "alloctoken-trace 1\nranges 2 64\nmode typehashpointersplit\nworkers 2\na 0 0 0 16\na 1 1 1 8\nf 1\n",
        fails: (&[], &[]),
        code: 18,
        texts: ("", "trace line 7: Form\n"),
    },
    Row {
        shows: "a name that is freed twice",
        line: "a.trace",
        trace: "alloctoken-trace 1\nranges 2 64\nmode typehashpointersplit\nworkers 2\na 0 0 0 16\na 1 1 1 8\nf 1 0\nf 0 0\n",
        fails: (&[], &[]),
        code: 18,
        texts: ("", "trace line 8: Freed\n"),
    },
    Row {
        shows: "no words",
        line: "",
        trace: TWO_WORKERS,
        fails: (&[], &[]),
        code: 2,
        texts: ("", "usage: tokenreplay FILE\n"),
    },
    Row {
        shows: "two words",
        line: "a.trace a.trace",
        trace: TWO_WORKERS,
        fails: (&[], &[]),
        code: 2,
        texts: ("", "usage: tokenreplay FILE\n"),
    },
    Row {
        shows: "a word that begins as an option",
        line: "--help",
        trace: TWO_WORKERS,
        fails: (&[], &[]),
        code: 2,
        texts: ("", "usage: tokenreplay FILE\n"),
    },
    Row {
        shows: "a file that isn't there",
        line: "b.trace",
        trace: TWO_WORKERS,
        fails: (&[], &[]),
        code: 3,
        texts: ("", "file fault\n"),
    },
    Row {
        shows: "a write of the report fails",
        line: "a.trace",
        trace: TWO_WORKERS,
        fails: (&[0], &[]),
        code: 5,
        texts: ("", ""),
    },
    Row {
        shows: "a write of a refusal's line fails",
        line: "b.trace",
        trace: TWO_WORKERS,
        fails: (&[], &[0]),
        code: 5,
        texts: ("", ""),
    },
];

/// What a run ended with: its status, and what it wrote on out and on report.
#[derive(Drop)]
struct Ended {
    status: Status,
    out: MemSink,
    report: MemSink,
}

fn listed(alloc: Global, line: &str) -> Result<Items<Bytes>, Fail> {
    let mut list = Items::new(alloc);
    if !line.is_empty() {
        for word in line.as_bytes().split(|b| *b == b' ') {
            list.push(Items::from_slice(alloc, word)?)?;
        }
    }
    Ok(list)
}

fn sink(alloc: Global, fails: &[u64]) -> Result<MemSink, Fail> {
    Ok(MemSink::new(alloc, 4096, Items::from_slice(alloc, fails)?).map_err(|_| "no memory")?)
}

fn files(alloc: Global, trace: &str) -> Result<MemFiles, Fail> {
    let mut list = Items::new(alloc);
    list.push((
        Items::from_slice(alloc, b"a.trace")?,
        Items::from_slice(alloc, trace.as_bytes())?,
    ))?;
    Ok(MemFiles::new(list, Items::new(alloc)))
}

fn run<R: Threads + Sync>(rt: &R, alloc: Global, row: &Row) -> Result<Ended, Fail> {
    let words = listed(alloc, row.line)?;
    let mut files = files(alloc, row.trace)?;
    let mut out = sink(alloc, row.fails.0)?;
    let mut report = sink(alloc, row.fails.1)?;
    let status = replay_main(
        rt,
        alloc,
        &words,
        &mut files,
        &mut out,
        &mut report,
        &NoGate,
    );
    Ok(Ended {
        status,
        out,
        report,
    })
}

#[test]
fn each_row_is_answered(rt: HostRuntime) -> Result<(), Fail> {
    for row in ROWS.as_slice() {
        let ended = run(&rt, rt.alloc(), row)?;
        assert_eq!(rt; ended.out.bytes(), row.texts.0.as_bytes(), "{}", row.shows);
        assert_eq!(rt;
            ended.report.bytes(),
            row.texts.1.as_bytes(),
            "{}",
            row.shows
        );
        assert_eq!(rt; ended.status.code(), row.code, "{}", row.shows);
    }
    Ok(())
}
