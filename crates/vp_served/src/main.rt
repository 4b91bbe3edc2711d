//! The program: it answers a script of request lines about one design under one policy.
#![tactic(auto)]

mod serving;

use crate::serving::serve_files;
use std::net::{Net, TcpListener, TcpStream};
use std::process::ExitCode;
use std::rt::Files;
use std::sync::Wait;
use std::thread::Threads;
use std::time::Clock;
use std::{env, io};
use vp_audit::Audit;
use vp_cli::{Command, Misuse, VERSION, command};
use vp_hub::Settings;
use vp_script::{
    Audited, Failure, Ran, ServeFault, audit_files, check_files, run_files, run_input, view_files,
};
use vp_text::Text;

/// Prints a text; the status is 0.
fn print_text<R: Print>(rt: &R, text: &Text) -> io::Result<ExitCode> {
    rt.print(text.as_str())?;
    Ok(ExitCode::SUCCESS)
}

/// Prints a fault, and its diagnostic on standard error, also where the fault can't be printed; the status is 1.
fn print_refused<R: Print + Eprint>(rt: &R, refused: &Failure) -> io::Result<ExitCode> {
    let code = refused.code;
    let line = refused.line;
    let printed = println!(rt; "fault {code} line {line}");
    rt.eprint(refused.diagnostic.as_str())?;
    printed?;
    Ok(ExitCode::FAILURE)
}

/// Reports on standard error that memory was missing at some time, if it was.
fn report_memory<R: Eprint>(rt: &R, out_of_memory: bool) -> io::Result<()> {
    if out_of_memory {
        rt.eprint("there was no memory for a line or to let the simulation run on\n")?;
    }
    Ok(())
}

/// Prints the fault that ended a run, if one did; the status is 1 then. That memory was missing is reported on standard error.
fn run_status<R: Print + Eprint>(rt: &R, ran: Result<Ran, Failure>) -> io::Result<ExitCode> {
    match ran {
        Ok(ran) => {
            report_memory(rt, ran.out_of_memory)?;
            Ok(ExitCode::SUCCESS)
        }
        Err(refused) => print_refused(rt, &refused),
    }
}

/// Prints the fault that ended a command, if one did; the status is 1 then.
fn fault_status<R: Print + Eprint>(rt: &R, done: Result<(), Failure>) -> io::Result<ExitCode> {
    match done {
        Ok(()) => Ok(ExitCode::SUCCESS),
        Err(refused) => print_refused(rt, &refused),
    }
}

/// Prints what a user sees, or the fault for which that is not reported; the status is 1 then.
fn view_status<R: Print + Eprint>(rt: &R, view: Result<Text, Failure>) -> io::Result<ExitCode> {
    match view {
        Ok(text) => print_text(rt, &text),
        Err(refused) => print_refused(rt, &refused),
    }
}

/// Prints an audit; the status is 0 where the user was shown what he may know, else 1.
fn print_audit<R: Print>(rt: &R, audit: Audit) -> io::Result<ExitCode> {
    let Audit { same, number } = audit;
    let word = if same { "same" } else { "differs" };
    println!(rt; "{word} {number}")?;
    Ok(if same {
        ExitCode::SUCCESS
    } else {
        ExitCode::FAILURE
    })
}

/// Prints what an audit gives, of which the explanation is reported on standard error, and that memory was missing; or the fault for which
/// there is none. The status is that of the audit, or 1.
fn audit_status<R: Print + Eprint>(
    rt: &R,
    audited: Result<Audited, Failure>,
) -> io::Result<ExitCode> {
    match audited {
        Ok(
            Audited {
                audit,
                explanation,
                out_of_memory,
            },
        ) => {
            if let Some(text) = explanation {
                rt.eprint(text.as_str())?;
            }
            report_memory(rt, out_of_memory)?;
            print_audit(rt, audit)
        }
        Err(refused) => print_refused(rt, &refused),
    }
}

/// Does what the words of the command line ask, and prints the fault that ends it; the status is 1 then, and 2 where they ask nothing.
fn obey<R>(rt: &R, words: &[String]) -> io::Result<ExitCode>
where
    R: AllocGlobal
        + Files
        + Input
        + Print
        + Eprint
        + Net<Listener = TcpListener, Stream = TcpStream>
        + Threads
        + Wait
        + Clock
        + Sync,
{
    let alloc = rt.alloc();
    match command(alloc, words) {
        Ok(
            Command::Run {
                design,
                policy,
                seeds,
            },
        ) => run_status(rt, run_files(rt, design, policy, seeds)),
        Ok(Command::Check { design, policy }) => fault_status(rt, check_files(rt, design, policy)),
        Ok(
            Command::View {
                design,
                policy,
                user,
            },
        ) => view_status(rt, view_files(rt, design, policy, user)),
        Ok(
            Command::Audit {
                design,
                policy,
                user,
                seeds,
                explain,
            },
        ) => audit_status(rt, audit_files(rt, design, policy, user, seeds, explain)),
        Ok(
            Command::Serve {
                design,
                policy,
                port,
                workers,
                sessions,
                keep,
                log,
            },
        ) => {
            let settings = Settings {
                keep,
                version: VERSION,
                ..Settings::new(workers, sessions)
            };
            fault_status(rt, serve_files(rt, design, policy, port, settings, log))
        }
        Ok(Command::Bundle) => run_status(rt, run_input(rt)),
        Ok(Command::Show(text)) => print_text(rt, &text),
        Err(Misuse::BadWords(text)) => {
            rt.eprint(text.as_str())?;
            Ok(ExitCode::from(2))
        }
        Err(Misuse::NoMemory) => print_refused(rt, &Failure::new(alloc, ServeFault::NoMemory)),
    }
}

/// The words of the command line; none when out of memory.
fn words_of(rt: &HostRuntime) -> Option<Vec<String>> {
    env::args(rt).ok()?.collect(rt.alloc()).ok()
}

fn main(rt: HostRuntime) -> io::Result<ExitCode> {
    match words_of(&rt) {
        Some(words) => obey(&rt, &words),
        None => print_refused(&rt, &Failure::new(rt.alloc(), ServeFault::NoMemory)),
    }
}
