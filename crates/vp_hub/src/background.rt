use crate::opens::NamesOpening;
use crate::report::Report;
use crate::service::Service;
use std::sync::Wait;
use std::sync::atomic::Ordering;
use std::thread;
use std::time::{Clock, Duration};
use vp_race::Gate;

/// A thread that finds nothing to do looks again after so many milliseconds.
const REST: u64 = 1;

/// Rests a millisecond, as a thread does that finds nothing to do.
pub(crate) fn rest<R: Clock>(rt: &R) {
    thread::sleep(rt, Duration::from_millis(REST));
}

/// So many events of the simulation happen before it is asked whether the server ends.
const EVENTS_AT_ONCE: u64 = 256;

/// Reports which process goes round in a full time slot, if one does; and whether that was reported.
fn report_round<L: NamesOpening, R: Wait, G: Report>(rt: &R, service: &Service<'_, L, G>) -> bool {
    match service.hub.going_round(rt) {
        Ok(Some(process)) => {
            service.gate.goes_round(process.as_str());
            true
        }
        _ => false,
    }
}

/// Lets the simulation run, until the server ends. Where nothing is left to do it rests for as long as the settings say, or until a call
/// wakes it. A full time slot is reported once.
pub(crate) fn run_simulation<L: NamesOpening, R: Wait + Clock, G: Report>(
    rt: &R,
    service: &Service<'_, L, G>,
) {
    let mut is_reported = false;
    for _ in rt.forever() {
        if service.ending.load(Ordering::SeqCst) {
            break;
        }
        match service.hub.run_sim(rt, EVENTS_AT_ONCE) {
            Ok(ran) if !ran.idle => is_reported = false,
            _ => {
                is_reported = is_reported || report_round(rt, service);
                service
                    .simulation
                    .park_timeout(rt, service.settings.simulation_rest);
            }
        }
    }
}

/// Searches for races, until the server ends.
pub(crate) fn run_worker<L: NamesOpening, R: Wait + Clock, G: Gate>(
    rt: &R,
    service: &Service<'_, L, G>,
) {
    for _ in rt.forever() {
        if service.ending.load(Ordering::SeqCst) {
            break;
        }
        match service.hub.work_once(rt, service.gate) {
            Ok(worked) if worked.job.is_some() => {}
            _ => rest(rt),
        }
    }
}
