ghost use Rattle.std.specs.Prelude.{◌≡◌, slice_get};
ghost use Rattle.vp_expr.specs.Tables.{tables_of};
ghost use Rattle.vp_expr.specs.Changes.{net_at, net_of};

use vp_elab::ObjectId;
use vp_expr::{Checked, Process};

/// The process of a number.
pub fn process_at(checked: &Checked, number: usize) -> Option<Process>
    ensures { result ≡ slice_get (tables_of checked.now).processes number }
{
    checked.tables().processes.as_slice().get(number).copied()
}

/// The net that a process drives.
fn net_of(process: Process) -> Option<ObjectId>
    ensures { result ≡ net_of process }
{
    match process {
        Process::Procedure { .. } => None,
        Process::Assignment { net, .. } | Process::Connection { net, .. } => Some(net),
    }
}

/// The net that the process of a number drives.
pub fn net_at(checked: &Checked, number: usize) -> Option<ObjectId>
    ensures { result ≡ net_at (tables_of checked.now).processes number }
{
    match process_at(checked, number) {
        Some(process) => net_of(process),
        None => None,
    }
}
