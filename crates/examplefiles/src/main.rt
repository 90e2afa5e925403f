//! Serves each example file as the finder does, and holds its report to the stored one, byte for
//! byte.

#![tactic(auto)]

ghost use Rattle.std.specs.Prelude.{◌≡◌, ◌≤◌, ◌↔◌, [], length, Some, None, IfOk};
ghost use Rattle.console.specs.Fresh.{ServesCaseFile};

use anyhow::{Context, bail};
use console::serve_case_file;
use std::alloc::{AllocError, Global};
use std::fs;
use std::io::BufWriter;

/// The names of the case files in the folder that the program runs in, without the ending, in their
/// order.
fn case_names(rt: &HostRuntime) -> anyhow::Result<Vec<String>> {
    let heap = rt.alloc();
    let mut names = Vec::new(heap);
    for entry in fs::read_dir(rt, ".")? {
        let entry = entry?;
        if let Some(name) = entry.file_name().strip_suffix(".case") {
            names.push(String::from_str(heap, name)?)?;
        }
    }
    names.sort()?;
    Ok(names)
}

/// What the finder reports of a text.
fn finder_report(heap: Global, text: &[u8]) -> anyhow::Result<Vec<u8>>
    ensures { IfOk result (λ report. ServesCaseFile text.now (Some []) (Some report.items)) }
{
    let mut output = BufWriter::new(heap, Vec::new(heap))?;
    serve_case_file(heap, text, &mut output)?;
    Ok(output.into_inner()?)
}

/// How many lines end in these bytes.
fn line_count(bytes: &[u8]) -> usize
    ensures { result ≤ length bytes.now }
{
    bytes.iter().filter(|byte| **byte == b'\n').count()
}

/// The first line, from 1, in which the reports differ; nothing where they are the same.
fn first_difference(report: &[u8], stored: &[u8]) -> Option<usize>
    ensures { (result ≡ None) ↔ (report.now ≡ stored.now) }
{
    if report == stored {
        return None;
    }
    let same = report
        .iter()
        .zip(stored)
        .take_while(|(byte, other)| byte == other)
        .count();
    Some(line_count(&report[..same]) + 1)
}

/// The bytes of a file. Where it can't be read, the error names it.
fn file_bytes(rt: &HostRuntime, path: String) -> anyhow::Result<Vec<u8>> {
    fs::read(rt, path.as_str()).context(path)
}

/// Serves the example file of this name, prints how its report compares, and says whether it is the
/// stored one.
fn try_example(rt: &HostRuntime, name: &str) -> anyhow::Result<bool> {
    let heap = rt.alloc();
    let text = file_bytes(rt, format!(in heap; "{name}.case")?)?;
    let stored = file_bytes(rt, format!(in heap; "{name}.report")?)?;
    let report = finder_report(heap, &text)?;
    let lines = line_count(&report);
    let difference = first_difference(&report, &stored);
    match difference {
        None => println!(rt; "{name}: as stored (lines: {lines})")?,
        Some(line) => println!(rt; "{name}: not as stored in line {line} (lines: {lines})")?,
    }
    Ok(difference.is_none())
}

fn main(rt: HostRuntime) -> anyhow::Result<()> {
    let names = case_names(&rt)?;
    if names.is_empty() {
        bail!("no case file in this folder");
    }
    let mut all_as_stored = true;
    for name in names {
        all_as_stored &= try_example(&rt, name.as_str())?;
    }
    if !all_as_stored {
        bail!("a report is not as stored");
    }
    Ok(())
}
