//! The command line.

use std::alloc::Global;
use vp_cli::{Command, Misuse, command};

/// The words of a command line.
fn words(alloc: Global, line: &str) -> Vec<String> {
    let mut words = Vec::new(alloc);
    for word in line.split_whitespace() {
        let _pushed = words.push(String::from_str(alloc, word).unwrap_or(String::new(alloc)));
    }
    words
}

/// What a command line asks, in a word.
fn asked(alloc: Global, line: &str) -> &'static str {
    match command(alloc, &words(alloc, line)) {
        Ok(Command::Bundle) => "bundle",
        Ok(
            Command::Run {
                design,
                policy,
                seeds,
            },
        ) if design == "d.v" && policy == "p.json" => match seeds {
            16 => "run",
            0 => "run without a search",
            _ => "run other",
        },
        Ok(
            Command::Check {
                design,
                policy: None,
            },
        ) if design == "d.v" => "check",
        Ok(
            Command::Check {
                design,
                policy: Some(policy),
            },
        ) if design == "d.v" && policy == "p.json" => "check both",
        Ok(
            Command::View {
                design,
                policy,
                user,
            },
        ) if design == "d.v" && policy == "p.json" && user == "ann" => "view",
        Ok(
            Command::Audit {
                design,
                policy,
                user,
                seeds,
                explain,
            },
        ) if design == "d.v" && policy == "p.json" && user == "ann" => match (seeds, explain) {
            (16, true) => "audit explained",
            (16, false) => "audit",
            _ => "audit other",
        },
        Ok(
            Command::Serve {
                design,
                policy,
                port,
                workers,
                sessions,
                keep,
                log,
            },
        ) if design == "d.v" && policy == "p.json" => match (port, workers, sessions, keep, log) {
            (7, 2, 0, false, false) => "serve",
            (7, 2, 0, true, false) => "serve kept",
            (7, 2, 0, false, true) => "serve logged",
            (65_535, 16, 4_294_967_295, false, false) => "serve most",
            _ => "serve other",
        },
        Ok(Command::Show(_)) => "show",
        Err(Misuse::BadWords(_)) => "misuse",
        _ => "other",
    }
}

#[test]
fn command_lines(rt: HostRuntime) {
    let rows: [(&str, &str); 39] = [
        ("vp_served", "bundle"),
        ("vp_served run d.v p.json", "run"),
        ("vp_served run d.v p.json --seeds 16", "run"),
        ("vp_served run d.v p.json --seeds=0", "run without a search"),
        ("vp_served run --seeds 3 d.v p.json", "run other"),
        ("vp_served run d.v p.json --seeds 17", "misuse"),
        ("vp_served run d.v p.json --seeds x", "misuse"),
        ("vp_served audit d.v p.json ann --seeds 0", "audit other"),
        ("vp_served check d.v", "check"),
        ("vp_served check d.v p.json", "check both"),
        ("vp_served view d.v p.json ann", "view"),
        ("vp_served audit d.v p.json ann", "audit"),
        (
            "vp_served audit d.v p.json ann --explain",
            "audit explained",
        ),
        ("vp_served view d.v p.json ann --explain", "misuse"),
        ("vp_served --help", "show"),
        ("vp_served run --help", "show"),
        ("vp_served check --help", "show"),
        ("vp_served view --help", "show"),
        ("vp_served audit --help", "show"),
        ("vp_served --version", "show"),
        ("vp_served run d.v", "misuse"),
        ("vp_served run d.v p.json q", "misuse"),
        ("vp_served check", "misuse"),
        ("vp_served check d.v p.json q", "misuse"),
        ("vp_served view d.v p.json", "misuse"),
        ("vp_served audit d.v p.json", "misuse"),
        ("vp_served audit d.v p.json ann q", "misuse"),
        ("vp_served serve d.v p.json --port 7", "serve"),
        ("vp_served serve d.v p.json --port 7 --keep", "serve kept"),
        ("vp_served serve d.v p.json --port 7 --log", "serve logged"),
        (
            "vp_served serve d.v p.json --port=65535 --workers 16 --sessions 4294967295",
            "serve most",
        ),
        ("vp_served serve --help", "show"),
        ("vp_served serve d.v p.json", "misuse"),
        ("vp_served serve d.v p.json --port 0", "misuse"),
        ("vp_served serve d.v p.json --port 65536", "misuse"),
        ("vp_served serve d.v p.json --port x", "misuse"),
        ("vp_served serve d.v p.json --port=7 --workers=17", "misuse"),
        (
            "vp_served serve d.v p.json --port=7 --sessions=4294967296",
            "misuse",
        ),
        ("vp_served walk", "misuse"),
    ];
    for (line, want) in rows {
        assert_eq!(rt; asked(rt.alloc(), line), want);
    }
}
