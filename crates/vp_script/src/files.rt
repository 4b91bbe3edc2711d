// Scripts, audits, checks and views over files and standard input.
use crate::audits::{Audited, audit_script};
use crate::bundle::run_bundle;
use crate::error::ServeFault;
use crate::failure::{Failure, STANDARD_INPUT, Sources, bundle_refused};
use crate::script::{Ran, run_script};
use crate::sources::{BUNDLE_LIMIT, read_at_most, text_of};
use crate::views::{check_design, check_policy, view_text};
use std::alloc::Global;
use std::io::BufWriter;
use std::rt::Files;
use std::{fs, io};
use vp_design::TEXT_LIMIT;
use vp_text::Text;
use vp_wire::Counted;

/// The bytes of the file of a design or a policy, at most one more than it may have; `ReadFailed` (1602) where it can't be read.
fn file_bytes<R: AllocGlobal + Files>(rt: &R, path: &str) -> Result<Vec<u8>, ServeFault> {
    let file = fs::open(rt, path).map_err(|_| ServeFault::ReadFailed)?;
    read_at_most(rt.alloc(), file, TEXT_LIMIT)
}

/// The bytes of a file, as `file_bytes` reads them; a fault is reported with the name of the file.
fn named_bytes<R: AllocGlobal + Files>(rt: &R, path: &str) -> Result<Vec<u8>, Failure> {
    file_bytes(rt, path).map_err(|fault| Failure::of_file(rt.alloc(), path, fault))
}

/// The text of a design's bytes; a fault is reported with the name of its file.
fn named_text<'a>(alloc: Global, path: &str, bytes: &'a [u8]) -> Result<&'a str, Failure> {
    text_of(bytes, ServeFault::ReadFailed).map_err(|fault| Failure::of_file(alloc, path, fault))
}

/// Reads the file of a design; or reports its first fault.
fn check_design_file<R: AllocGlobal + Files>(rt: &R, path: &str) -> Result<(), Failure> {
    let alloc = rt.alloc();
    let bytes = named_bytes(rt, path)?;
    let text = named_text(alloc, path, &bytes)?;
    let sources = Sources {
        design_name: path,
        design: text,
        policy_name: "",
        policy: &[],
    };
    check_design(alloc, text).map_err(|fault| sources.refused(alloc, fault))
}

/// The files of a design and a policy, as they were read.
#[derive(Drop)]
pub struct SourceFiles<'d, 'p> {
    design_name: &'d str,
    design: Vec<u8>,
    policy_name: &'p str,
    policy: Vec<u8>,
}

impl<'d, 'p> SourceFiles<'d, 'p> {
    /// Reads both files, the design's first; a fault is reported with the name of the file.
    pub fn read<R: AllocGlobal + Files>(
        rt: &R,
        design_name: &'d str,
        policy_name: &'p str,
    ) -> Result<SourceFiles<'d, 'p>, Failure> {
        Ok(SourceFiles {
            design_name,
            design: named_bytes(rt, design_name)?,
            policy_name,
            policy: named_bytes(rt, policy_name)?,
        })
    }

    /// What they hold, with their names; or that the design is no text, or too long.
    pub fn sources(&self, alloc: Global) -> Result<Sources<'_, '_>, Failure> {
        Ok(Sources {
            design_name: self.design_name,
            design: named_text(alloc, self.design_name, &self.design)?,
            policy_name: self.policy_name,
            policy: &self.policy,
        })
    }
}

/// Reads the file of a design, and that of a policy if there is one, as `run_files` does; or reports the first fault.
pub fn check_files<R: AllocGlobal + Files>(
    rt: &R,
    design: &str,
    policy: Option<&str>,
) -> Result<(), Failure> {
    let Some(policy) = policy else {
        return check_design_file(rt, design);
    };
    let alloc = rt.alloc();
    let files = SourceFiles::read(rt, design, policy)?;
    let sources = files.sources(alloc)?;
    check_policy(alloc, sources.design, sources.policy).map_err(|fault| sources.refused(
        alloc, fault,
    ))
}

/// What the user of a name sees of the design of a file under the policy of another; the faults are those of `check_files`, and then
/// those of `view_text`.
pub fn view_files<R: AllocGlobal + Files>(
    rt: &R,
    design: &str,
    policy: &str,
    user: &str,
) -> Result<Text, Failure> {
    let alloc = rt.alloc();
    let files = SourceFiles::read(rt, design, policy)?;
    let sources = files.sources(alloc)?;
    view_text(alloc, sources.design, sources.policy, user).map_err(|fault| sources.refused(
        alloc, fault,
    ))
}

/// Runs the script of standard input over the files of a design and a policy, and searches by so many seeds; a file that can't be
/// read is `ReadFailed` (1602), and then the faults are those of `run_script`.
pub fn run_files<R: AllocGlobal + Files + Input + Print>(
    rt: &R,
    design: &str,
    policy: &str,
    seeds: u32,
) -> Result<Ran, Failure> {
    let alloc = rt.alloc();
    let files = SourceFiles::read(rt, design, policy)?;
    let sources = files.sources(alloc)?;
    let mut reader = Counted::new(rt.reader());
    let mut writer = Counted::new(BufWriter::new(alloc, io::writer(rt)).map_err(|_| Failure::new(
        alloc,
        ServeFault::NoMemory,
    ))?);
    run_script(
        alloc,
        u64::from(seeds),
        sources.design,
        sources.policy,
        &mut reader,
        &mut writer,
    )
    .map_err(|fault| sources.refused(alloc, fault))
}

/// Audits the user of a name by the script of standard input over the files of a design and a policy, whose searches try so many
/// seeds; a file that can't be read is `ReadFailed` (1602), and then the faults are those of `audit_script`.
pub fn audit_files<R: AllocGlobal + Files + Input>(
    rt: &R,
    design: &str,
    policy: &str,
    user: &str,
    seeds: u32,
    explain: bool,
) -> Result<Audited, Failure> {
    let alloc = rt.alloc();
    let files = SourceFiles::read(rt, design, policy)?;
    let sources = files.sources(alloc)?;
    let mut reader = Counted::new(rt.reader());
    audit_script(
        alloc,
        u64::from(seeds),
        sources.design,
        sources.policy,
        user,
        explain,
        &mut reader,
    )
    .map_err(|fault| sources.refused(alloc, fault))
}

/// Runs the bundle of standard input; the faults are those of `run_bundle`, or `ReadFailed` (1602).
pub fn run_input<R: AllocGlobal + Input + Print>(rt: &R) -> Result<Ran, Failure> {
    let alloc = rt.alloc();
    let bundle = read_at_most(alloc, rt.reader(), BUNDLE_LIMIT).map_err(|fault| Failure::of_file(
        alloc,
        STANDARD_INPUT,
        fault,
    ))?;
    let mut writer = Counted::new(BufWriter::new(alloc, io::writer(rt)).map_err(|_| Failure::new(
        alloc,
        ServeFault::NoMemory,
    ))?);
    run_bundle(alloc, &bundle, &mut writer).map_err(|fault| bundle_refused(alloc, &bundle, fault))
}
