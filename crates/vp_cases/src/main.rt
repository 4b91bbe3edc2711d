//! Checks `vp_bits` on the vectors of a file, whose results Icarus Verilog computed. Then it runs the cases of the files that its words name: bundles, each with what it must print. A case is a line `## ` with its
//! name, the bundle, a line `==`, and the lines that the bundle must print; after a line `=/=` the bundle's last line lacks its
//! newline. A line `%* COUNT TEXT` of a bundle stands for so many copies of the text, and a newline; of a line `%+ COUNT TEXT` the
//! next line goes on. For each line `%@ USER`, which is no line of the bundle, the user is audited by its script, and a line more is
//! printed, which begins with his name; for each line `%? USER` what he was shown is explained as well, by lines after that. For a line `%!` the diagnostic of the bundle's fault is
//! printed after the line of the fault. After a line `%~`, with limits as ` log=100`, the bundle's third part are events of a world, each answered
//! by a line. Then it runs designs and policies of files on the script of standard input, checks them, reports
//! what users see of them, and audits users. Last it reports the faults of a server whose replies and log do not agree.
#![tactic(auto)]

mod cases;
mod events;
mod vectors;

use crate::cases::{Case, audit_lines, fault_line, read_cases};
use crate::vectors::{Kind, Tally, check_line};
use std::io::{BufRead, BufReader};
use std::rt::Files;
use std::{env, fs, io};
use vp_hub::{HubError, ServerError};
use vp_script::{Failure, SEED_COUNT, audit_files, check_files, run_files, view_files};

/// Prints what came of the lines of a kind.
fn print_tally<R: Print>(rt: &R, kind: &str, tally: &Tally) -> io::Result<()> {
    let lines = tally.lines;
    let results = tally.results;
    let agreeing = tally.agreeing;
    println!(rt; "{kind}: {lines} lines, {results} results, {agreeing} as wanted")
}

/// Checks the vectors of a file, and prints what came of each kind of line.
fn check_vectors<R: AllocGlobal + Files + Print>(rt: &R, file: &str) -> io::Result<()> {
    let alloc = rt.alloc();
    let mut pairs = Tally::new();
    let mut shifts = Tally::new();
    let mut joins = Tally::new();
    let mut parts = Tally::new();
    for line in BufReader::new(alloc, fs::open(rt, file)?)?.lines(alloc) {
        let line = line?;
        let checked = check_line(alloc, line.as_str());
        match checked.kind {
            Some(Kind::Pair) => pairs.add(&checked),
            Some(Kind::Shift) => shifts.add(&checked),
            Some(Kind::Join) => joins.add(&checked),
            Some(Kind::Part) => parts.add(&checked),
            None => {}
        }
    }
    print_tally(rt, "pair", &pairs)?;
    print_tally(rt, "shift", &shifts)?;
    print_tally(rt, "join", &joins)?;
    print_tally(rt, "part", &parts)
}

/// Whether a case prints what it must; what it prints is shown where it does not.
fn is_as_wanted<R: AllocGlobal + Print>(rt: &R, case: &Case) -> io::Result<bool> {
    let printed = case.printed(rt.alloc())?;
    let as_wanted = printed.as_str() == case.wanted.as_str();
    if !as_wanted {
        let name = case.name.as_str();
        let wanted = case.wanted.as_str();
        println!(rt; "{name}\nwanted:\n{wanted}printed:\n{printed}")?;
    }
    Ok(as_wanted)
}

/// Runs the cases of a file, and reports how many print what they must.
fn check_file<R: AllocGlobal + Files + Print>(rt: &R, file: &str) -> io::Result<()> {
    let alloc = rt.alloc();
    let cases = read_cases(alloc, BufReader::new(alloc, fs::open(rt, file)?)?)?;
    let mut agreeing = 0u64;
    for case in &cases {
        if is_as_wanted(rt, case)? {
            agreeing = agreeing.saturating_add(1);
        }
    }
    let count = cases.len();
    println!(rt; "{file}: {count} cases, {agreeing} as wanted")
}

/// Reports a fault, and its diagnostic.
fn print_fault<R: AllocGlobal + Print>(rt: &R, refused: &Failure) -> io::Result<()> {
    rt.print(fault_line(rt.alloc(), refused.code, refused.line)?.as_str())?;
    rt.print(refused.diagnostic.as_str())
}

/// Reports the fault of a server whose hub can't be closed.
fn print_unclosed<R: AllocGlobal + Print>(rt: &R, error: HubError) -> io::Result<()> {
    let error = ServerError::Hub(error);
    print_fault(rt, &Failure::plain(rt.alloc(), error.code(), error.words()))
}

/// Runs a design and a policy of files, and reports the fault that ends the run, if one does.
fn print_run<R: AllocGlobal + Files + Input + Print>(
    rt: &R,
    design: &str,
    policy: &str,
) -> io::Result<()> {
    println!(rt; "{design}, {policy}:")?;
    match run_files(rt, design, policy, SEED_COUNT as u32) {
        Ok(_) => Ok(()),
        Err(refused) => print_fault(rt, &refused),
    }
}

/// Checks a design of a file, and a policy if there is one, and reports the fault, if there is one.
fn print_check<R: AllocGlobal + Files + Print>(
    rt: &R,
    design: &str,
    policy: Option<&str>,
) -> io::Result<()> {
    let named = policy.unwrap_or("no policy");
    println!(rt; "check {design}, {named}:")?;
    match check_files(rt, design, policy) {
        Ok(()) => Ok(()),
        Err(refused) => print_fault(rt, &refused),
    }
}

/// Reports what a user sees of a design under a policy, or the fault for which that is not reported.
fn print_view<R: AllocGlobal + Files + Print>(
    rt: &R,
    design: &str,
    policy: &str,
    user: &str,
) -> io::Result<()> {
    println!(rt; "view {design}, {policy}, {user}:")?;
    match view_files(rt, design, policy, user) {
        Ok(text) => rt.print(text.as_str()),
        Err(refused) => print_fault(rt, &refused),
    }
}

/// Audits a user by the script of standard input over a design and a policy of files.
fn print_audit<R: AllocGlobal + Files + Input + Print>(
    rt: &R,
    design: &str,
    policy: &str,
    user: &str,
) -> io::Result<()> {
    println!(rt; "audit {design}, {policy}, {user}:")?;
    match audit_files(rt, design, policy, user, SEED_COUNT as u32, false) {
        Ok(audited) => rt.print(audit_lines(rt.alloc(), audited)?.as_str()),
        Err(refused) => print_fault(rt, &refused),
    }
}

fn main(rt: HostRuntime) -> io::Result<()> {
    check_vectors(&rt, "vectors.txt")?;
    let words: Vec<String> = env::args(&rt)?.collect(rt.alloc())?;
    for file in words.iter().skip(1) {
        check_file(&rt, file.as_str())?;
    }
    print_run(&rt, "missing.v", "ann.json")?;
    print_run(&rt, "latin.v", "ann.json")?;
    print_run(&rt, "hidden.v", "missing.json")?;
    print_run(&rt, "hidden.v", "ann.json")?;
    print_check(&rt, "latin.v", None)?;
    print_check(&rt, "hidden.v", Some("missing.json"))?;
    print_check(&rt, "hidden.v", None)?;
    print_check(&rt, "hidden.v", Some("ann.json"))?;
    print_view(&rt, "hidden.v", "missing.json", "ann")?;
    print_view(&rt, "hidden.v", "ann.json", "bob")?;
    print_view(&rt, "hidden.v", "ann.json", "ann")?;
    print_audit(&rt, "hidden.v", "missing.json", "ann")?;
    print_audit(&rt, "hidden.v", "ann.json", "bob")?;
    // Standard input has been read to its end.
    print_audit(&rt, "hidden.v", "ann.json", "ann")?;
    print_unclosed(&rt, HubError::Receipt)?;
    print_unclosed(&rt, HubError::Mismatch)
}
