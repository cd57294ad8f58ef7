//! The program over objects in memory, on the rows of `token_vectors`.

use super::alloctoken_main;
use std::alloc::Global;
use std::test::Fail;
use tok_base::{Bytes, Items, MemFiles, MemSink, Status, Which};
use token_vectors::{REFUSED, REWRITTEN, THREE, TWO};

/// What a run ended with: its status, and what it wrote on out and on report.
#[derive(Drop)]
struct Ended {
    status: Status,
    out: MemSink,
    report: MemSink,
}

fn listed(alloc: Global, line: &str) -> Result<Items<Bytes>, Fail> {
    let mut list = Items::new(alloc);
    if !line.is_empty() {
        for word in line.as_bytes().split(|b| *b == b' ') {
            list.push(Items::from_slice(alloc, word)?)?;
        }
    }
    Ok(list)
}

fn sink(alloc: Global, fails: &[u64]) -> Result<MemSink, Fail> {
    Ok(MemSink::new(alloc, 4096, Items::from_slice(alloc, fails)?).map_err(|_| "no memory")?)
}

fn files(alloc: Global, unit: Bytes) -> Result<MemFiles, Fail> {
    let mut list = Items::new(alloc);
    list.push((Items::from_slice(alloc, b"a.c")?, unit))?;
    Ok(MemFiles::new(list, Items::new(alloc)))
}

/// Runs the program on the words of a line, with one file `a.c`; the sinks fail at the calls that are named.
fn run(
    alloc: Global,
    line: &str,
    unit: Bytes,
    out_fails: &[u64],
    report_fails: &[u64],
) -> Result<Ended, Fail> {
    let words = listed(alloc, line)?;
    let mut files = files(alloc, unit)?;
    let mut out = sink(alloc, out_fails)?;
    let mut report = sink(alloc, report_fails)?;
    let status = alloctoken_main(alloc, &words, &mut files, &mut out, &mut report);
    Ok(Ended {
        status,
        out,
        report,
    })
}

#[test]
fn each_row_is_answered(rt: HostRuntime) -> Result<(), Fail> {
    let alloc = rt.alloc();
    for rows in [REWRITTEN.as_slice(), REFUSED.as_slice()] {
        for row in rows {
            let unit = Items::from_slice(alloc, row.unit.as_bytes())?;
            let ended = run(alloc, row.line, unit, &[], &[])?;
            assert_eq!(rt; ended.out.bytes(), row.out.as_bytes(), "{}", row.shows);
            assert_eq!(rt;
                ended.report.bytes(),
                row.report.as_bytes(),
                "{}",
                row.shows
            );
            assert_eq!(rt; ended.status.code(), row.code, "{}", row.shows);
        }
    }
    Ok(())
}

/// A text: a front, a byte so many times, a middle, another byte so many times, and an end.
fn repeated(alloc: Global, count: usize, parts: (&str, u8, &str, u8, &str)) -> Result<Bytes, Fail> {
    let (front, left, middle, right, end) = parts;
    let mut text = Vec::from_slice(alloc, front.as_bytes())?;
    for _ in 0..count {
        text.push(left)?;
    }
    text.extend_from_slice(middle.as_bytes())?;
    for _ in 0..count {
        text.push(right)?;
    }
    text.extend_from_slice(end.as_bytes())?;
    Ok(Items::from_vec(text))
}

#[test]
fn long_and_deep_units_and_failing_sinks_end_so(rt: HostRuntime) -> Result<(), Fail> {
    let alloc = rt.alloc();
    let deep = ("int a = ", b'(', "1", b')', ";");
    let long = ("", b' ', "", b' ', "");
    let open = ("", b'(', "", b'(', "");
    let stars = ("int ", b'*', "", b'*', "");
    let cases = [
        (deep, 197, Status::Done),
        (deep, 198, Status::TooDeep),
        (deep, 199, Status::TooDeep),
        (deep, 1000, Status::TooDeep),
        (long, 524288, Status::Done),
        (
            ("x", b' ', "", b' ', ""),
            524288,
            Status::TooLong(Which::Unit),
        ),
        (
            (" ", b' ', "", b' ', ""),
            524288,
            Status::TooLong(Which::Unit),
        ),
        (open, 10000, Status::Syntax(0)),
        (stars, 10000, Status::TooDeep),
    ];
    for (i, (parts, count, status)) in cases.iter().enumerate() {
        let unit = repeated(alloc, *count, *parts)?;
        let ended = run(alloc, TWO, unit, &[], &[])?;
        assert!(rt; ended.status == *status, "case {i}");
    }
    for (line, out_fails, report_fails) in [
        (TWO, [0].as_slice(), [].as_slice()),
        ("rewrite", [].as_slice(), [0].as_slice()),
    ] {
        let unit = Items::from_slice(alloc, THREE.as_bytes())?;
        let ended = run(alloc, line, unit, out_fails, report_fails)?;
        assert!(rt; ended.status == Status::WriteFault, "{line}");
        assert!(rt;
            ended.out.bytes().is_empty() && ended.report.bytes().is_empty(),
            "{line}"
        );
    }
    Ok(())
}
