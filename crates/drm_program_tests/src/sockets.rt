//! The sessions that a server returns, with its clients in a thread of this process. `tests/test_program.py` and
//! `tests/test_serving.py` show what the server answers.

use crate::comparing::same;
use drm_device::Limits;
use drm_runs::make_device;
use drm_server::{Counts, ServeFault, serve_all};
use drm_sessions::{Session, SessionEnd};
use log::Log;
use std::alloc::Global;
use std::io::{Read, Write};
use std::net::{Net, Shutdown};
use std::os::unix::net::{UnixListener, UnixStream};
use std::process::Abort;
use std::sync::Wait;
use std::test::Fail;
use std::thread::Threads;
use std::{env, fs, io, process, thread};

/// A hello for a node.
const HELLO: [u8; 18] = [0x0e, 0, 0, 0, 0, 1, 1, 0, 0, 0, 0, 0, 0, 0, 0, 0, 0, 0];

/// The paths of the three sockets of a test.
#[derive(Drop)]
struct Places {
    card: String,
    render: String,
    root: String,
}

/// The sockets of a test.
#[derive(Drop)]
struct Sockets {
    card: UnixListener,
    render: UnixListener,
    root: UnixListener,
}

/// The path of a socket of this test.
fn place(rt: &HostRuntime, alloc: Global, name: &str) -> io::Result<String> {
    let folder = env::temp_dir(rt)?;
    let folder = folder.as_path().to_str().unwrap_or("/tmp");
    let id = process::id(rt.process());
    Ok(format!(in alloc; "{folder}/drm_{id}_{name}")?)
}

fn choose_places(rt: &HostRuntime, alloc: Global) -> io::Result<Places> {
    Ok(Places {
        card: place(rt, alloc, "card")?,
        render: place(rt, alloc, "render")?,
        root: place(rt, alloc, "root")?,
    })
}

fn bind(rt: &HostRuntime, places: &Places) -> io::Result<Sockets> {
    Ok(Sockets {
        card: UnixListener::bind(rt, places.card.as_str())?,
        render: UnixListener::bind(rt, places.render.as_str())?,
        root: UnixListener::bind(rt, places.root.as_str())?,
    })
}

fn remove(rt: &HostRuntime, places: &Places) -> io::Result<()> {
    fs::remove_file(rt, places.card.as_str())?;
    fs::remove_file(rt, places.render.as_str())?;
    fs::remove_file(rt, places.root.as_str())
}

/// Opens a client, and returns its connection once the answer is read.
fn open<R: Net>(rt: &R, path: &str) -> io::Result<UnixStream> {
    let mut stream = UnixStream::connect(rt, path)?;
    stream.write_all(&HELLO)?;
    let mut answer = [0; 10];
    stream.read_exact(&mut answer)?;
    Ok(stream)
}

/// Opens three clients of each class, one after the other. All are open before the first one closes, which is the last
/// opened.
fn open_nine<R: Net>(rt: &R, alloc: Global, places: &Places) -> io::Result<()> {
    let card = places.card.as_str();
    let render = places.render.as_str();
    let root = places.root.as_str();
    let mut opened = Vec::new(alloc);
    for path in [card, render, root, root, render, card, render, card, root] {
        opened.push(open(rt, path)?)?;
    }
    for stream in opened.iter().rev() {
        stream.shutdown(Shutdown::Both)?;
    }
    Ok(())
}

/// Serves three connections of each class on a new device. The device stays in the thread that made it.
fn serve<R: Wait + Threads + Log + Sync>(
    rt: &R,
    alloc: Global,
    sockets: Sockets,
) -> Option<Result<Vec<Session>, ServeFault>> {
    let device = make_device(alloc, Limits::PROGRAM)?;
    let counts = Counts {
        cards: 3,
        renders: 3,
        roots: 3,
    };
    let Sockets { card, render, root } = sockets;
    match serve_all(rt, alloc, device, card, render, root, counts) {
        Ok((_device, sessions)) => Some(Ok(sessions)),
        Err(fault) => Some(Err(fault)),
    }
}

/// The clients by class, and in each class in the order of their openings.
const CLIENTS: [u32; 9] = [1, 6, 8, 2, 5, 7, 3, 4, 9];

/// Compares the sessions, each of which ended between frames.
fn check_sessions(rt: &impl Abort, sessions: &[Session]) {
    same(rt, &sessions.len(), &CLIENTS.len(), "sessions");
    for (session, client) in sessions.iter().zip(&CLIENTS) {
        let wanted = Session {
            end: SessionEnd::Ended,
            client: *client,
            steps: 2,
        };
        same(rt, session, &wanted, *client);
    }
}

/// The device serves in one thread while clients talk in another.
#[test]
fn sessions_are_returned_by_class(rt: HostRuntime) -> Result<(), Fail> {
    let alloc: Global = rt.alloc();
    let places = choose_places(&rt, alloc)?;
    let sockets = bind(&rt, &places)?;
    let (opened, served) = thread::join(
        &rt,
        || open_nine(&rt, alloc, &places),
        || serve(&rt, alloc, sockets),
    );
    remove(&rt, &places)?;
    opened?;
    match served {
        Some(Ok(sessions)) => check_sessions(&rt, &sessions),
        _ => return Err("no sessions".into()),
    }
    Ok(())
}
