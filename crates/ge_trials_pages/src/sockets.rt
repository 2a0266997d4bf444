//! The adapters of connections, files and the clock, over the loopback and a file.
//!
//! Both ends of a connection are in one thread: what is read lies there before, but where silence is tried.
use ge_edge::{FileDisk, SystemClock, TcpDialer, TcpDoor, Waits};
use ge_master::Master;
use ge_outside::{Clock, Disk, Door, Failed, Source, write_all};
use ge_serve::serve;
use ge_trials_rows::{area, push_bytes};
use std::alloc::{AllocError, Global};
use std::io;
use std::io::{ErrorKind, Print, Read, Write};
use std::net::{Net, Shutdown, SocketAddr, TcpListener, TcpStream};
use std::time::Duration;

/// A port of the loopback that the system chooses.
const ANY_PORT: &str = "127.0.0.1:0";

/// The port that doors are made with where a listener stands already.
const PORT: u16 = 7000;

/// An hour in seconds, which no trial waits.
const HOUR: u64 = 3600;

/// How long silence is waited for, in milliseconds.
const SILENCE: u64 = 20;

/// How often a peer that has spoken is read: what it said is there at once, or soon.
const TRIES: u32 = 100;

/// What is told of a read that fails.
const FAILED: &str = "failed";

/// The first moment of 2020.
const YEAR_2020: u64 = 1_577_836_800;

// A network on which one listener stands already, whatever port is asked for.
#[derive(Drop)]
struct Standing<'a> {
    rt: &'a HostRuntime,
    listener: &'a TcpListener,
}

impl<'a> Net for Standing<'a> {
    type Stream = TcpStream;

    type Listener = TcpListener;

    fn bind(&self, _addr: SocketAddr) -> io::Result<TcpListener> {
        self.listener.try_clone()
    }

    fn connect(&self, addr: SocketAddr) -> io::Result<TcpStream> {
        TcpStream::connect(self.rt, addr)
    }
}

fn failed() -> io::Error {
    io::Error::from(ErrorKind::Other)
}

/// Bytes as the answers of rows have them.
pub(crate) fn plain(alloc: Global, bytes: &[u8]) -> Result<String, AllocError> {
    let mut text = Vec::new(alloc);
    push_bytes(alloc, &mut text, bytes)?;
    String::from_utf8_lossy(alloc, text.as_slice())
}

fn word(holds: bool) -> &'static str {
    if holds { "yes" } else { "no" }
}

fn hours() -> Waits {
    Waits::new(Duration::from_secs(HOUR), Duration::from_secs(HOUR))
}

// What a link reads where there is room for eight bytes: how many, and the whole room.
fn seen<S: Source>(alloc: Global, link: &mut S) -> Result<String, AllocError> {
    let mut room = [0; 8];
    match link.read(&mut room) {
        Ok(count) => {
            let room = plain(alloc, &room)?;
            format!(in alloc; "{count} {room}")
        }
        Err(Failed) => String::from_str(alloc, FAILED),
    }
}

// What a link reads, and then reads once more.
fn seen_twice<S: Source>(alloc: Global, link: &mut S) -> Result<String, AllocError> {
    let first = seen(alloc, link)?;
    let second = seen(alloc, link)?;
    format!(in alloc; "{first}, then {second}")
}

// What a link reads once a read doesn't fail, if one of many doesn't.
fn seen_at_last<S: Source>(alloc: Global, link: &mut S) -> Result<String, AllocError> {
    for _ in 0..TRIES {
        let answer = seen(alloc, link)?;
        if answer.as_str() != FAILED {
            return Ok(answer);
        }
    }
    String::from_str(alloc, FAILED)
}

// A client that has written some bytes, and writes no more.
fn client(rt: &HostRuntime, listener: &TcpListener, bytes: &[u8]) -> io::Result<TcpStream> {
    let mut stream = TcpStream::connect(rt, listener.local_addr()?)?;
    stream.write_all(bytes)?;
    stream.shutdown(Shutdown::Write)?;
    Ok(stream)
}

// What a peer hears of a dialer, what is read of the peer, and that nobody is reached once nobody listens.
fn tell_dialer(rt: &HostRuntime) -> io::Result<()> {
    let alloc = rt.alloc();
    let listener = TcpListener::bind(rt, ANY_PORT)?;
    let mut door = TcpDialer::new(rt, rt, listener.local_addr()?.port(), hours());
    let mut link = door.accept().map_err(|_| failed())?;
    let (mut peer, _) = listener.accept()?;
    let sent = word(write_all(&mut link, b"asked").is_ok());
    peer.write_all(b"told")?;
    let mut heard = [0; 5];
    peer.read_exact(&mut heard)?;
    drop(peer);
    let heard = plain(alloc, &heard)?;
    let read = seen_twice(alloc, &mut link)?;
    let closed = word(door.close(link).is_ok());
    drop(listener);
    let fails = word(door.accept().is_err());
    println!(rt; "dialer: sent {sent}, heard {heard}, read {read}, closed {closed}, fails {fails}")
}

// What is read of a client by a door that it dialled before.
fn tell_door(rt: &HostRuntime) -> io::Result<()> {
    let alloc = rt.alloc();
    let listener = TcpListener::bind(rt, ANY_PORT)?;
    drop(client(rt, &listener, b"asked")?);
    let net = Standing {
        rt,
        listener: &listener,
    };
    let mut door = TcpDoor::new(&net, rt, PORT, hours());
    let mut link = door.accept().map_err(|_| failed())?;
    let read = seen_twice(alloc, &mut link)?;
    let closed = word(door.close(link).is_ok());
    println!(rt; "door: read {read}, closed {closed}")
}

// Whether a file that is new takes what is written to it.
fn is_written(rt: &HostRuntime, path: &str) -> Result<bool, AllocError> {
    let mut disk = FileDisk::new(rt, String::from_str(rt.alloc(), path)?);
    Ok(
        disk.len() == Ok(0)
            && disk.write_at(0, b"gates and records") == Ok(())
            && disk.write_at(6, b"AND") == Ok(())
            && disk.sync() == Ok(()),
    )
}

// Whether a file has what was written, whole and from its middle on, and ends there.
fn is_kept(rt: &HostRuntime, path: &str) -> Result<bool, AllocError> {
    let mut disk = FileDisk::new(rt, String::from_str(rt.alloc(), path)?);
    let mut bytes = [0; 32];
    let is_whole = disk.read_at(0, &mut bytes) == Ok(17)
        && bytes.as_slice().split_at(17).0 == b"gates AND records".as_slice();
    Ok(
        is_whole
            && disk.read_at(10, &mut bytes) == Ok(7)
            && disk.read_at(40, &mut bytes) == Ok(0)
            && disk.len() == Ok(17),
    )
}

// Whether a file fails whose folder isn't there.
fn has_failed(rt: &HostRuntime, path: &str) -> Result<bool, AllocError> {
    let mut disk = FileDisk::new(rt, String::from_str(rt.alloc(), path)?);
    Ok(disk.len() == Err(Failed) && disk.sync() == Err(Failed))
}

// Whether files keep what is written, and whether the clock is past 2020.
fn tell_files(rt: &HostRuntime, folder: &str) -> io::Result<()> {
    let alloc = rt.alloc();
    let path = format!(in alloc; "{folder}/trial.area")?;
    let kept = word(is_written(rt, path.as_str())? && is_kept(rt, path.as_str())?);
    let path = format!(in alloc; "{folder}/no/such/area")?;
    let fails = word(has_failed(rt, path.as_str())?);
    let past = word(SystemClock::new(rt).now() > YEAR_2020);
    println!(rt; "file kept {kept}, in no folder failed {fails}, clock past 2020 {past}")
}

// The status of a server of two connections over new areas.
fn status_served(rt: &HostRuntime, net: &Standing<'_>) -> io::Result<u8> {
    let alloc = rt.alloc();
    let mut a = area(alloc, b"", 0)?;
    let mut b = area(alloc, b"", 0)?;
    let mut master = match Master::open(alloc, &mut a, &mut b) {
        Ok(master) => master,
        Err(_) => return Err(failed()),
    };
    let mut door = TcpDoor::new(net, rt, PORT, hours());
    let mut clock = SystemClock::new(rt);
    Ok(serve(alloc, &mut master, &mut a, &mut b, &mut door, &mut clock, 2))
}

// How a server ends whose two clients have asked before, and what they read. Of the second reply the length and the end are
// left out, since they depend on whether a run was put in.
fn tell_server(rt: &HostRuntime) -> io::Result<()> {
    let alloc = rt.alloc();
    let listener = TcpListener::bind(rt, ANY_PORT)?;
    let mut first = client(rt, &listener, b"\x00\x00\x00\x15ann staff\nqsub -N a x")?;
    let mut second = client(rt, &listener, b"\x00\x00\x00\x0fann staff\nqstat")?;
    let net = Standing {
        rt,
        listener: &listener,
    };
    let status = status_served(rt, &net)?;
    let mut submitted = [0; 48];
    first.read_exact(&mut submitted)?;
    let mut length = [0; 8];
    second.read_exact(&mut length)?;
    let mut listed = [0; 12];
    second.read_exact(&mut listed)?;
    let (submitted, listed) = (plain(alloc, &submitted)?, plain(alloc, &listed)?);
    println!(rt; "server: status {status}, {submitted}, {listed}..")
}

// What is read of a peer: twice while it says nothing, and once more when it has said a word.
fn tell_silence(rt: &HostRuntime, name: &str, waits: Waits) -> io::Result<()> {
    let alloc = rt.alloc();
    let listener = TcpListener::bind(rt, ANY_PORT)?;
    let mut door = TcpDialer::new(rt, rt, listener.local_addr()?.port(), waits);
    let mut link = door.accept().map_err(|_| failed())?;
    let (mut peer, _) = listener.accept()?;
    let silent = seen_twice(alloc, &mut link)?;
    peer.write_all(b"told")?;
    let spoken = seen_at_last(alloc, &mut link)?;
    println!(rt; "{name}: {silent}, then {spoken}")
}

/// Tells what is seen of the adapters; the file is made in a folder.
pub(crate) fn tell_adapters(rt: &HostRuntime, folder: &str) -> io::Result<()> {
    tell_dialer(rt)?;
    tell_door(rt)?;
    tell_files(rt, folder)?;
    tell_server(rt)?;
    let (short, long) = (Duration::from_millis(SILENCE), Duration::from_secs(HOUR));
    tell_silence(rt, "silence, each wait short", Waits::new(short, long))?;
    tell_silence(rt, "silence, all waits short", Waits::new(long, short))
}
