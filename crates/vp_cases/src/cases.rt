use crate::events::{answers, limits_of};
use std::alloc::{AllocError, Global};
use std::io;
use std::io::BufRead;
use vp_audit::Audit;
use vp_script::{
    Audited, Ran, SEED_COUNT, ServeFault, audit_script, bundle_refused, run_bundle, run_script,
};
use vp_wire::Counted;
use vp_world::Limits;

/// The count and the text of a line that stands for so many copies of the text, after its mark.
fn copies(line: &str) -> Option<(usize, &str)> {
    let (count, text) = line.split_once(' ')?;
    Some((count.parse().ok()?, text))
}

/// Adds a line to a bundle, or the copies that it stands for: with a newline after them, or with none.
fn add_to(bundle: &mut String, alloc: Global, line: &str) -> Result<(), AllocError> {
    if let Some((count, text)) = line.strip_prefix("%+ ").and_then(copies) {
        return bundle.push_str(&text.repeat(alloc, count)?);
    }
    match line.strip_prefix("%* ").and_then(copies) {
        Some((count, text)) => bundle.push_str(&text.repeat(alloc, count)?)?,
        None => bundle.push_str(line)?,
    }
    bundle.push('\n')
}

/// The design, the policy and the script of a bundle.
fn parts(bundle: &str) -> Option<(&str, &str, &str)> {
    let (design, rest) = bundle.split_once("%%\n")?;
    let (policy, script) = rest.split_once("%%\n")?;
    Some((design, policy, script))
}

/// The line that reports a fault.
pub fn fault_line(alloc: Global, code: u32, line: u32) -> Result<String, AllocError> {
    format!(in alloc; "fault {code} line {line}\n")
}

/// The line that reports an audit.
fn audit_line(alloc: Global, audit: Audit) -> Result<String, AllocError> {
    let Audit { same, number } = audit;
    let word = if same { "same" } else { "differs" };
    format!(in alloc; "{word} {number}\n")
}

/// Adds a line where memory was missing, as in no case it is.
fn add_memory(printed: &mut String, out_of_memory: bool) -> Result<(), AllocError> {
    if out_of_memory {
        return printed.push_str("out of memory\n");
    }
    Ok(())
}

/// The lines that report what an audit gives.
pub fn audit_lines(alloc: Global, audited: Audited) -> Result<String, AllocError> {
    let Audited {
        audit,
        explanation,
        out_of_memory,
    } = audited;
    let mut lines = audit_line(alloc, audit)?;
    if let Some(text) = explanation {
        lines.push_str(text.as_str())?;
    }
    add_memory(&mut lines, out_of_memory)?;
    Ok(lines)
}

/// A user who is audited, and whether what he was shown is explained.
#[derive(Drop)]
struct Audits {
    user: String,
    explain: bool,
}

/// A bundle, the users who are audited by its script, and what it must print.
#[derive(Drop)]
pub struct Case {
    pub name: String,
    bundle: String,
    audits: Vec<Audits>,
    /// So many seeds are tried by each search.
    seeds: u64,
    /// The diagnostic of its fault is printed as well.
    diagnosed: bool,
    /// Its third part are events of a world of these limits, and no script.
    limits: Option<Limits>,
    pub wanted: String,
    in_bundle: bool,
}

impl Case {
    /// A case of which only the name was read.
    fn new(alloc: Global, name: &str) -> Result<Case, AllocError> {
        Ok(Case {
            name: String::from_str(alloc, name)?,
            bundle: String::new(alloc),
            audits: Vec::new(alloc),
            seeds: SEED_COUNT,
            diagnosed: false,
            limits: None,
            wanted: String::new(alloc),
            in_bundle: true,
        })
    }

    /// Takes the next line of the case.
    fn add_line(&mut self, alloc: Global, line: &str) -> Result<(), AllocError> {
        if line == "==" {
            self.in_bundle = false;
        } else if line == "=/=" {
            self.in_bundle = false;
            let _newline = self.bundle.pop();
        } else if !self.in_bundle {
            self.wanted.push_str(line)?;
            self.wanted.push('\n')?;
        } else if line == "%!" {
            self.diagnosed = true;
        } else if let Some(words) = line.strip_prefix("%~") {
            self.limits = Some(limits_of(words));
        } else if let Some(seeds) = line.strip_prefix("%= ") {
            self.seeds = seeds.parse().unwrap_or(SEED_COUNT);
        } else if let Some(user) = line.strip_prefix("%@ ") {
            self.add_audit(alloc, user, false)?;
        } else if let Some(user) = line.strip_prefix("%? ") {
            self.add_audit(alloc, user, true)?;
        } else {
            add_to(&mut self.bundle, alloc, line)?;
        }
        Ok(())
    }

    /// Adds a user who is audited.
    fn add_audit(&mut self, alloc: Global, user: &str, explain: bool) -> Result<(), AllocError> {
        let user = String::from_str(alloc, user)?;
        Ok(self.audits.push(Audits { user, explain })?)
    }

    /// Runs the bundle; its script alone where another number of seeds is tried.
    fn run_into(&self, alloc: Global, writer: &mut Counted<Vec<u8>>) -> Result<Ran, ServeFault> {
        if self.seeds == SEED_COUNT {
            return run_bundle(alloc, self.bundle.as_bytes(), writer);
        }
        let Some((design, policy, script)) = parts(self.bundle.as_str()) else {
            return Err(ServeFault::BadBundle);
        };
        let mut reader = Counted::new(script.as_bytes());
        run_script(
            alloc,
            self.seeds,
            design,
            policy.as_bytes(),
            &mut reader,
            writer,
        )
    }

    /// What the bundle prints: the replies, and the line of the fault that ends it, if one does.
    fn run(&self, alloc: Global) -> Result<String, AllocError> {
        let mut writer = Counted::new(Vec::new(alloc));
        let ran = self.run_into(alloc, &mut writer);
        let mut printed = String::from_utf8_lossy(alloc, &writer.inner)?;
        match ran {
            Ok(ran) => add_memory(&mut printed, ran.out_of_memory)?,
            Err(fault) => {
                printed.push_str(&fault_line(alloc, fault.code(), fault.line())?)?;
                self.diagnose(alloc, &mut printed, fault)?;
            }
        }
        Ok(printed)
    }

    /// Adds the diagnostic of the bundle's fault, if that is asked.
    fn diagnose(
        &self,
        alloc: Global,
        printed: &mut String,
        fault: ServeFault,
    ) -> Result<(), AllocError> {
        if !self.diagnosed {
            return Ok(());
        }
        let refused = bundle_refused(alloc, self.bundle.as_bytes(), fault);
        printed.push_str(refused.diagnostic.as_str())
    }

    /// What the audit of a user by the bundle's script prints.
    fn audit(&self, alloc: Global, audits: &Audits) -> Result<String, AllocError> {
        let Some((design, policy, script)) = parts(self.bundle.as_str()) else {
            let fault = ServeFault::BadBundle;
            return fault_line(alloc, fault.code(), fault.line());
        };
        let mut reader = Counted::new(script.as_bytes());
        let Audits { user, explain } = audits;
        match audit_script(
            alloc,
            self.seeds,
            design,
            policy.as_bytes(),
            user.as_str(),
            *explain,
            &mut reader,
        ) {
            Ok(audited) => audit_lines(alloc, audited),
            Err(fault) => fault_line(alloc, fault.code(), fault.line()),
        }
    }

    /// What its events are answered in a world of these limits.
    fn happen(&self, alloc: Global, limits: Limits) -> Result<String, AllocError> {
        let Some((design, policy, lines)) = parts(self.bundle.as_str()) else {
            return fault_line(
                alloc,
                ServeFault::BadBundle.code(),
                ServeFault::BadBundle.line(),
            );
        };
        answers(alloc, design, policy, limits, lines)
    }

    /// What the bundle prints, and after it the lines for each user who is audited.
    pub fn printed(&self, alloc: Global) -> Result<String, AllocError> {
        if let Some(limits) = self.limits {
            return self.happen(alloc, limits);
        }
        let mut printed = self.run(alloc)?;
        for audits in &self.audits {
            let lines = self.audit(alloc, audits)?;
            printed.push_str(audits.user.as_str())?;
            printed.push_str(": ")?;
            printed.push_str(&lines)?;
        }
        Ok(printed)
    }
}

/// The cases of a reader; what stands before the first is passed over.
pub fn read_cases<R: BufRead + Drop>(alloc: Global, reader: R) -> io::Result<Vec<Case>> {
    let mut cases: Vec<Case> = Vec::new(alloc);
    for line in reader.lines(alloc) {
        let line = line?;
        if let Some(name) = line.strip_prefix("## ") {
            cases.push(Case::new(alloc, name)?)?;
        } else if let Some(case) = cases.last_mut() {
            case.add_line(alloc, line.as_str())?;
        }
    }
    Ok(cases)
}
