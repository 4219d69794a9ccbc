//! One connection over the machine's own sockets: a client, the gateway and a backend, each in a thread.

ghost use Rattle.gw_wire.specs.World.{IsAlone};
ghost use Rattle.gw_tcp.specs.TcpView.{tcp_view};

use gw_tcp::{TcpWire, listen};
use gw_top::run_gateway;
use gw_wire::{Addr, Bytes, MemWorld};
use std::alloc::{AllocError, Global};
use std::io;
use std::io::{ErrorKind, Read, Write};
use std::net::{Net, Shutdown, SocketAddr, TcpListener, TcpStream};
use std::os::fd::OwnedFd;
use std::rt::Clock;
use std::test::Fail;
use std::thread::join;
use std::time::Duration;

// Two requests behind one another; the second ends the connection.
const GETS: &[u8] =
    b"GET /none HTTP/1.1\r\nHost: example.com\r\n\r\nGET /hello?x=1 HTTP/1.1\r\nHost: example.com\r\nConnection: close\r\n\r\n";

// What the backend gets of the second.
const PASSED_GET: &[u8] =
    b"GET /hello?x=1 HTTP/1.1\r\nHost: example.com\r\nX-Forwarded-For: 127.0.0.1\r\n\r\n";

const REPLY: &[u8] = b"HTTP/1.1 200 OK\r\nContent-Length: 3\r\n\r\nhi\n";

// How the replies to the two begin and end; between are their dates.
const BEGIN: &[u8] = b"HTTP/1.1 404 Not Found\r\nContent-Length: 14\r\nDate: ";

const MIDDLE: &[u8] =
    b" GMT\r\n\r\n404 Not Found\nHTTP/1.1 200 OK\r\nConnection: close\r\nContent-Length: 3\r\nDate: ";

const END: &[u8] = b" GMT\r\n\r\nhi\n";

// How many bytes a date has before its zone.
const DATE: usize = 25;

// A port that the system chooses.
const ANY_PORT: Addr = Addr {
    local: false,
    ip: [127, 0, 0, 1],
    port: 0,
};

// How long the client and the backend wait for a read, in seconds.
const PATIENCE_S: u64 = 5;

// How many accepts the backend tries, of 100 milliseconds each.
const ACCEPTS: u32 = 50;

// More bytes than either side should get.
const MOST: u64 = 4_096;

// Sends the requests, and reads what comes until the gateway ends the connection.
fn ask<R: Net<Listener = TcpListener, Stream = TcpStream>>(
    rt: &R,
    alloc: Global,
    gateway: SocketAddr,
) -> io::Result<Vec<u8>> {
    let mut stream = TcpStream::connect(rt, gateway)?;
    stream.set_read_timeout(Some(Duration::from_secs(PATIENCE_S)))?;
    stream.write_all(GETS)?;
    let mut heard = Vec::new(alloc);
    stream.take(MOST).read_to_end(&mut heard)?;
    Ok(heard)
}

// Takes one client, answers it once it has sent as many bytes as the request is passed on with, and reads on until it ends the
// connection.
fn answer(alloc: Global, listener: TcpListener) -> io::Result<Vec<u8>> {
    let mut stream = accept(&listener)?;
    stream.set_read_timeout(Some(Duration::from_secs(PATIENCE_S)))?;
    let mut heard = vec![in alloc; 0; PASSED_GET.len()]?;
    stream.read_exact(&mut heard)?;
    stream.write_all(REPLY)?;
    stream.take(MOST).read_to_end(&mut heard)?;
    Ok(heard)
}

// The next client of a listener whose accepts come back after a tick.
fn accept(listener: &TcpListener) -> io::Result<TcpStream> {
    for _ in 0..ACCEPTS {
        match listener.accept() {
            Ok((stream, _)) => return Ok(stream),
            Err(error) => {
                if error.kind() != ErrorKind::WouldBlock {
                    return Err(error);
                }
            }
        }
    }
    Err(io::Error::from(ErrorKind::TimedOut))
}

// Whether these are both replies, each with a date.
fn are_replies(heard: &[u8]) -> bool {
    let middle = BEGIN.len() + DATE;
    let end = middle + MIDDLE.len() + DATE;
    heard.len() == end + END.len()
        && heard.starts_with(BEGIN)
        && heard[middle..].starts_with(MIDDLE)
        && heard[end..].starts_with(END)
}

// A world of this route file, whose listener is the wire's.
fn world<R: Net<Listener = TcpListener, Stream = TcpStream> + Clock + Drop>(
    alloc: Global,
    file: Bytes,
    wire: TcpWire<R>,
) -> Result<MemWorld<TcpWire<R>>, AllocError>
    requires { IsAlone (tcp_view wire) }
{
    let mut files = Vec::new(alloc);
    files.push((Bytes::new(b"routes.json".to_vec(alloc)?), file))?;
    let mut wires = Vec::new(alloc);
    wires.push(wire)?;
    MemWorld::new(alloc, files, Some(wires), true)
}

// The route file that has one backend for all requests.
fn route_file(
    alloc: Global,
    gateway: SocketAddr,
    backend: SocketAddr,
) -> Result<Bytes, AllocError> {
    let text = format!(in alloc;
        "{{\"listen\":\"{gateway}\",\"workers\":1,\"routes\":[{{\"pattern\":\"/hello\",\"backend\":\"http://{backend}\"}}]}}"
    )?;
    Ok(Bytes::new(text.into_bytes()))
}

fn serve_words(alloc: Global) -> Result<Vec<String>, AllocError> {
    let mut words = Vec::new(alloc);
    words.push(String::from_str(alloc, "serve")?)?;
    words.push(String::from_str(alloc, "routes.json")?)?;
    Ok(words)
}

#[test]
fn one_connection(rt: HostRuntime) -> Result<(), Fail> {
    let alloc = rt.alloc();
    let listener = listen(&rt, &ANY_PORT)?;
    let backend = listen(&rt, &ANY_PORT)?;
    let gateway = listener.local_addr()?;
    let file = route_file(alloc, gateway, backend.local_addr()?)?;
    // std has `shutdown` for streams only; the socket beneath is the same
    let ender = TcpStream::from(OwnedFd::from(listener.try_clone()?));
    let mut world = world(alloc, file, TcpWire::new(rt.clone()?, listener, 0, 1))?;
    let words = serve_words(alloc)?;
    let (client_heard, (backend_heard, report)) = join(
        &rt,
        || {
            let heard = ask(&rt, alloc, gateway);
            // the listener ends whatever was heard, or the gateway would wait for ever
            let ended = ender.shutdown(Shutdown::Both);
            heard.and_then(|heard| ended.map(|()| heard))
        },
        || {
            join(
                &rt,
                || answer(alloc, backend),
                || run_gateway(&rt, alloc, words.as_slice(), &mut world),
            )
        },
    );
    assert_eq!(rt; backend_heard?.as_slice(), PASSED_GET);
    assert!(rt; are_replies(&client_heard?));
    assert_eq!(rt; report.status, 8);
    assert_eq!(rt; world.printed(), b"accept failed\n".as_slice());
    assert_eq!(rt; report.workers.len(), 1);
    assert_eq!(rt; report.workers[0].entered, 2);
    Ok(())
}
