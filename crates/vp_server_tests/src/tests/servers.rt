//! Servers of worlds of texts.

use crate::tests::hubs::world_with;
use std::alloc::Global;
use std::net::{Ipv4Addr, Net, TcpListener, TcpStream};
use std::sync::Wait;
use std::thread::{Threads, join};
use std::time::{Clock, Duration};
use vp_hub::{Limits, Report, Settings, serve};
use vp_race::Gate;

/// A policy with two users, of whom the second has all rights in the envelope, and an operator.
pub const POLICY: &[u8] = b"{\"operator\":\"op\",\"users\":[\
{\"name\":\"ann\",\"token\":\"t1\",\"open\":\"list+read+watch+put+race\",\"run\":true},\
{\"name\":\"bob\",\"token\":\"t2\",\"open\":\"list+read+watch+put+race\",\
\"grants\":[{\"envelope\":1,\"access\":\"list+read+watch+put+race\"}]}]}";

/// What a server is asked for, but for its version: that is a text of the program's, which no closure of clients outlives.
#[derive(Clone, Copy)]
pub struct Asked {
    workers: u32,
    sessions: u32,
    keep: bool,
    opening_time: Duration,
    reading_silence: Duration,
    reading_time: Duration,
    ended_time: Duration,
    simulation_rest: Duration,
}

impl Asked {
    /// These settings, without the version.
    fn of(settings: Settings) -> Asked {
        Asked {
            workers: settings.workers,
            sessions: settings.sessions,
            keep: settings.keep,
            opening_time: settings.opening_time,
            reading_silence: settings.reading_silence,
            reading_time: settings.reading_time,
            ended_time: settings.ended_time,
            simulation_rest: settings.simulation_rest,
        }
    }

    /// The settings, with an empty version.
    fn settings(self) -> Settings {
        Settings {
            workers: self.workers,
            sessions: self.sessions,
            keep: self.keep,
            opening_time: self.opening_time,
            reading_silence: self.reading_silence,
            reading_time: self.reading_time,
            ended_time: self.ended_time,
            version: "",
            simulation_rest: self.simulation_rest,
        }
    }
}

/// A server on a port of 127.0.0.1.
#[derive(Clone, Copy)]
pub struct Server {
    pub limits: Limits,
    /// Below the ports that the system gives to connections, of which one that was used lately can't be listened on.
    pub port: u16,
    pub asked: Asked,
}

impl Server {
    /// A server whose world has the greatest limits.
    pub fn new(port: u16, settings: Settings) -> Server {
        Server {
            limits: Limits::GREATEST,
            port,
            asked: Asked::of(settings),
        }
    }
}

/// How many entries the log of a server of a text has at its end; or the number of its fault, or 0 where there is no world, or where it can't
/// listen on its port.
fn served<R, G>(rt: &R, alloc: Global, text: &str, server: Server, gate: &G) -> Result<u64, u32>
where
    R: Net<Listener = TcpListener, Stream = TcpStream> + Threads + Wait + Clock + Sync,
    G: Gate + Report + Sync,
{
    let Server {
        limits,
        port,
        asked,
    } = server;
    let Some(world) = world_with(alloc, text, POLICY, limits) else {
        return Err(0);
    };
    let Ok(listener) = TcpListener::bind(rt, (Ipv4Addr::LOCALHOST, port)) else {
        drop(world);
        return Err(0);
    };
    match serve(rt, alloc, world, asked.settings(), &listener, gate) {
        Ok(closed) => {
            let entries = closed.entry_count();
            drop(closed);
            Ok(entries)
        }
        Err(fault) => Err(fault.code()),
    }
}

/// What a server of a text comes to, as `served` reports it, and its clients beside it.
pub fn beside<R, G, C, T>(
    rt: &R,
    alloc: Global,
    text: &str,
    server: Server,
    gate: &G,
    clients: C,
) -> (Result<u64, u32>, T)
where
    R: Net<Listener = TcpListener, Stream = TcpStream> + Threads + Wait + Clock + Sync,
    G: Gate + Report + Sync,
    C: FnOnce() -> T,
    requires clients { C.pre clients }
{
    join(
        rt,
        move || -> Result<u64, u32> { served(rt, alloc, text, server, gate) },
        clients,
    )
}
