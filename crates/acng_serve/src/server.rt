//! The server: loaders, and threads that serve connections.
//!
//! Eight loaders run the downloads that sessions hand over. Up to 64 threads each wait for a connection, serve it, and wait for
//! the next one. The thread that began starts another one as soon as none waits; where one can't be started, it serves a
//! connection itself. While 64 are busy, further connections wait with the system. Where no loader can be started, each
//! session runs its own download. A client that sends nothing for 30 seconds while its request is waited for, or that takes
//! nothing for as long, has failed.
//!
//! This file stands at the edge: that a thread runs, and that a connection comes, no contract says. What a session does is
//! `session`'s, what a loader does is `load`'s. The process is ended from outside; the cache is right after any stop.
ghost use Rattle.std.specs.Prelude.{◌≡◌, true};
ghost use Rattle.std.specs.Thread.{IsSync};
ghost use Rattle.acng_site.specs.Honest.{IsHonest};
ghost use Rattle.acng_remap.specs.Origins.{ServesTargets};

use crate::connection::session;
use crate::crew::Crew;
use crate::held::HeldLink;
use crate::house::House;
use crate::notes::SessionStop;
use acng_base::{HostClock, StdLink};
use acng_conf::Conf;
use acng_fetch::Pool;
use acng_keeper::{BodyFile, Keeper};
use acng_site::{Origin, OriginSlip, Site};
use std::alloc::Global;
use std::io::Read;
use std::net::{Net, Shutdown, TcpListener, TcpStream};
use std::sync::Wait;
use std::thread::Threads;
use std::time::{Clock as TimeSource, Duration};
use std::{io, str, thread};

/// The loaders.
const LOADERS: u32 = 8;

/// How long a client is waited for, in seconds.
const WAIT_SECONDS: u64 = 30;

/// How long a connection that ends waits for more of the client, in seconds, and how many pieces of it are read at most.
const END_SECONDS: u64 = 2;

const END_PIECES: u32 = 64;

/// How long a thread pauses that got no connection, in milliseconds: the system may lack room for one just now.
const PAUSE_MILLIS: u64 = 10;

/// Why a server ended.
#[derive(Clone, Copy, Debug, PartialEq, Eq)]
pub enum ServeEnd {
    /// The address couldn't be bound.
    NotBound,
    /// Memory was refused.
    NoMemory,
}

/// Serves the address and the port of the configuration until the process is ended.
pub fn serve<R, S, K, P, O>(rt: &R, alloc: Global, house: &House<S, K, P>, origin: &O) -> ServeEnd
where
    R: Net<Stream = TcpStream, Listener = TcpListener> + Threads + Wait + TimeSource + Sync,
    S: Site + Send + Sync,
    K: Keeper<Body: BodyFile<Slip: Send> + Send> + Send,
    P: OriginSlip + Send,
    O: Origin<S, Slip = P, Conn: Send> + Sync,
    requires serves { S.tells ≡ true → ServesTargets house.now S.serves }
    requires honest { S.tells ≡ true → IsHonest S.Site }
{
    let listener = match bind(rt, house.conf()) {
        Ok(listener) => listener,
        Err(error) if error.kind() == io::ErrorKind::OutOfMemory => return ServeEnd::NoMemory,
        Err(_) => return ServeEnd::NotBound,
    };
    let Ok(pool) = Pool::new(rt, alloc) else {
        return ServeEnd::NoMemory;
    };
    run::<R, S, K, P, O>(rt, alloc, house, origin, &listener, &pool);
    let _ = pool.retire(alloc, origin, house.desk());
    ServeEnd::NoMemory
}

fn bind<R: Net>(rt: &R, conf: &Conf) -> io::Result<R::Listener> {
    match str::from_utf8(conf.bind()) {
        Ok(host) => TcpListener::bind(rt, (host, conf.port())),
        Err(_) => Err(io::Error::from(io::ErrorKind::InvalidInput)),
    }
}

// The loaders, and the threads that serve connections.
fn run<R, S, K, P, O>(
    rt: &R,
    alloc: Global,
    house: &House<S, K, P>,
    origin: &O,
    listener: &TcpListener,
    pool: &Pool<&R, S, K, P>,
)
where
    R: Net<Stream = TcpStream, Listener = TcpListener> + Threads + Wait + TimeSource + Sync,
    S: Site + Send + Sync,
    K: Keeper<Body: BodyFile<Slip: Send> + Send> + Send,
    P: OriginSlip + Send,
    O: Origin<S, Slip = P, Conn: Send> + Sync,
    requires serves { S.tells ≡ true → ServesTargets house.now S.serves }
    requires honest { S.tells ≡ true → IsHonest S.Site }
{
    let crew = Crew::new();
    let crew = &crew;
    thread::scope(
        thread::scope_env(),
        rt,
        |scope|
            requires { IsSync R.row × (S.tells ≡ true → ServesTargets house.now S.serves) × (S.tells ≡ true → IsHonest S.Site) }
        {
            let mut alone = true;
            for _ in 0..LOADERS {
                let started = scope.spawn(
                    move ||
                        requires { S.tells ≡ true → IsHonest S.Site }
                    { pool.work(alloc, origin, house.desk()) },
                );
                if started.is_ok() {
                    alone = false;
                }
            }
            if alone {
                pool.close();
            }
            for _ in rt.forever() {
                crew.await_call(rt);
                let started = scope.spawn(
                    move ||
                        requires { (S.tells ≡ true → ServesTargets house.now S.serves) × (S.tells ≡ true → IsHonest S.Site) }
                    { serve_all::<R, S, K, P, O>(rt, alloc, house, origin, pool, listener, crew) },
                );
                if started.is_err() {
                    serve_next::<R, S, K, P, O>(rt, alloc, house, origin, pool, listener, crew);
                    crew.leave(rt);
                }
            }
            pool.close();
        },
    );
}

// Serves one connection after another.
fn serve_all<R, S, K, P, O>(
    rt: &R,
    alloc: Global,
    house: &House<S, K, P>,
    origin: &O,
    pool: &Pool<&R, S, K, P>,
    listener: &TcpListener,
    crew: &Crew,
)
where
    R: Net<Stream = TcpStream, Listener = TcpListener> + Wait + TimeSource,
    S: Site,
    K: Keeper,
    P: OriginSlip,
    O: Origin<S, Slip = P>,
    requires serves { S.tells ≡ true → ServesTargets house.now S.serves }
    requires honest { S.tells ≡ true → IsHonest S.Site }
{
    for _ in rt.forever() {
        serve_next::<R, S, K, P, O>(rt, alloc, house, origin, pool, listener, crew);
    }
}

// Waits for a connection and serves it.
fn serve_next<R, S, K, P, O>(
    rt: &R,
    alloc: Global,
    house: &House<S, K, P>,
    origin: &O,
    pool: &Pool<&R, S, K, P>,
    listener: &TcpListener,
    crew: &Crew,
)
where
    R: Net<Stream = TcpStream, Listener = TcpListener> + Wait + TimeSource,
    S: Site,
    K: Keeper,
    P: OriginSlip,
    O: Origin<S, Slip = P>,
    requires serves { S.tells ≡ true → ServesTargets house.now S.serves }
    requires honest { S.tells ≡ true → IsHonest S.Site }
{
    match listener.accept() {
        Ok((stream, _)) => {
            crew.take(rt);
            connect::<R, S, K, P, O>(rt, alloc, house, origin, pool, stream);
            crew.rest(rt);
        }
        Err(_) => thread::sleep(rt, Duration::from_millis(PAUSE_MILLIS)),
    }
}

// One connection. What can't be set up is closed unanswered.
fn connect<R, S, K, P, O>(
    rt: &R,
    alloc: Global,
    house: &House<S, K, P>,
    origin: &O,
    pool: &Pool<&R, S, K, P>,
    stream: TcpStream,
)
where
    R: Net<Stream = TcpStream, Listener = TcpListener> + Wait + TimeSource,
    S: Site,
    K: Keeper,
    P: OriginSlip,
    O: Origin<S, Slip = P>,
    requires serves { S.tells ≡ true → ServesTargets house.now S.serves }
    requires honest { S.tells ≡ true → IsHonest S.Site }
{
    if set_up(&stream).is_err() {
        return;
    }
    let Ok(mut client) = HeldLink::new(alloc, StdLink::new(&stream, &stream)) else {
        return;
    };
    let mut clock = HostClock::new(rt);
    let told = session(rt, alloc, house, origin, pool, &mut clock, &mut client);
    match told.stop {
        SessionStop::ClientFault => {}
        _ => {
            let _ = client.flush();
        }
    }
    let _ = end(&stream);
}

// Sets the limits of a connection.
fn set_up(stream: &TcpStream) -> io::Result<()> {
    let limit = Some(Duration::from_secs(WAIT_SECONDS));
    stream.set_nodelay(true)?;
    stream.set_read_timeout(limit)?;
    stream.set_write_timeout(limit)
}

// Ends a connection so that the client gets all that was written (RFC 9112, section 9.6). A close while bytes of the client
// are unread would throw away what is still on its way. So the output ends first, and what the client has sent is read.
fn end(stream: &TcpStream) -> io::Result<()> {
    stream.shutdown(Shutdown::Write)?;
    stream.set_read_timeout(Some(Duration::from_secs(END_SECONDS)))?;
    let mut piece = [0u8; 16_384];
    let mut input = stream;
    for _ in 0..END_PIECES {
        if input.read(&mut piece)? == 0 {
            return Ok(());
        }
    }
    Ok(())
}
