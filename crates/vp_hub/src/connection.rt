use crate::client::Client;
use crate::incoming::Incoming;
use crate::opens::NamesOpening;
use crate::outgoing::Outgoing;
use crate::pass::Pass;
use crate::report::Report;
use crate::service::Service;
use crate::talk::Talk;
use std::alloc::Global;
use std::io::BufWriter;
use std::net::TcpStream;
use std::sync::Wait;
use std::sync::atomic::Ordering;
use std::time::Clock;
use vp_race::Gate;
use vp_wire::{Counted, session};

/// Serves a connection to its end, and hands the pass of its session back, if one was opened. That can't be refused, since the pass is out.
pub(crate) fn serve_connection<L: NamesOpening, R: Wait + Clock, G: Gate + Report>(
    rt: &R,
    service: &Service<'_, L, G>,
    stream: TcpStream,
) {
    if let Some(pass) = answer(rt, service, &stream) {
        let _returned = service.hub.hand_back(rt, pass);
    }
    drop(stream);
    service.connections.fetch_sub(1, Ordering::SeqCst);
}

/// From where a client is connected, if that is known.
fn address_of(alloc: Global, stream: &TcpStream) -> String {
    let Ok(address) = stream.peer_addr() else {
        return String::new(alloc);
    };
    match address.to_string(alloc) {
        Ok(text) => text,
        Err(_) => String::new(alloc),
    }
}

/// Answers the lines of a connection, and gives the pass of its session, if one was opened. Where a client takes too long to be known, or
/// reads nothing, the dialogue ends as one whose reader or writer fails.
fn answer<L: NamesOpening, R: Wait + Clock, G: Gate + Report>(
    rt: &R,
    service: &Service<'_, L, G>,
    stream: &TcpStream,
) -> Option<Pass<L>> {
    let settings = service.settings;
    stream.set_nodelay(true).ok()?;
    let address = address_of(service.alloc, stream);
    let talk = Talk::new();
    let incoming = Incoming::new(rt, service, stream, &talk).ok()?;
    let mut client = Client {
        rt,
        service,
        talk: &talk,
        address: address.as_str(),
        user: None,
        denials: 0,
        has_closed: false,
        pass: None,
    };
    let mut reader = Counted::new(incoming);
    let outgoing = Outgoing::new(rt, stream, settings.reading_silence, settings.reading_time);
    let mut writer = Counted::new(BufWriter::new(service.alloc, outgoing).ok()?);
    let _ended = session(service.alloc, &mut reader, &mut writer, &mut client);
    client.report_end();
    client.pass
}
