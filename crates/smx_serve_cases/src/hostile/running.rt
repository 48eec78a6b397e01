//! A proxy beside a centre, and what is tried there, each in threads of their own.
use super::Trial;
use super::playing::play;
use crate::stage::{PATIENCE, Running};
use smx_config::{Config, read};
use smx_serve::Remote;
use std::alloc::Global;
use std::net::{Net, TcpListener, TcpStream};
use std::process::Abort;
use std::rt::Clock;
use std::sync::Wait;
use std::sync::atomic::{AtomicBool, Ordering};
use std::test::Fail;
use std::thread::{Threads, join, sleep};
use std::time::Duration;

impl Trial {
    // The silence of the upstream in milliseconds. A short one ends a link to a centre that never reads;
    // all others have only to end.
    const fn silence(self) -> u64 {
        match self {
            Trial::Deaf => 1_000,
            Trial::Unread | Trial::Clients | Trial::Lying | Trial::Short => PATIENCE,
        }
    }
}

// The text of a configuration at any free port, with eight accounts and one upstream of this silence.
fn text_of(rt: &impl Abort, alloc: Global, silence: u64, port: u16) -> String {
    let mut text = format!(in alloc;
        "listen = \"127.0.0.1:0\"\nclients = 256\n\
         [timers]\nenquire = {silence}\n\
         [limits]\nqueue = 1000\nwindow = 200\nclient = 200\n\
         [[upstream]]\naddress = \"127.0.0.1:{port}\"\nsystem_id = \"proxy\"\npassword = \"pw\"\n"
    )
    .expect(rt, "out of memory");
    for account in 0..8 {
        let more = format!(in alloc;
            "[[account]]\nsystem_id = \"c{account}\"\npassword = \"p\"\n"
        ).expect(rt, "out of memory");
        text.push_str(more.as_str()).expect(rt, "out of memory");
    }
    text
}

fn config_for(rt: &impl Abort, alloc: Global, silence: u64, listener: &TcpListener) -> Config {
    let address = listener
        .local_addr()
        .expect(rt, "the listener has no address");
    let text = text_of(rt, alloc, silence, address.port());
    read(alloc, text.as_str()).expect(rt, "the configuration can't be read")
}

// A listener at any free port, which doesn't wait.
fn listen<R: Net<Listener = TcpListener, Stream = TcpStream> + Abort>(rt: &R) -> TcpListener {
    let listener = TcpListener::bind(rt, "127.0.0.1:0").expect(rt, "no centre can listen");
    listener
        .set_nonblocking(true)
        .expect(rt, "a listener that waits");
    listener
}

// Lets the peers go once the proxy listens.
fn go<R>(rt: &R, alloc: Global, trial: Trial, remote: &Remote)
where
    R: Net<Listener = TcpListener, Stream = TcpStream> + Clock + Threads + Abort + Sync,
{
    for _ in 0..PATIENCE {
        if remote.is_listening() {
            break;
        }
        sleep(rt, Duration::from_millis(1));
    }
    assert!(rt; remote.is_listening(), "the proxy doesn't listen");
    let address = format!(in alloc; "127.0.0.1:{}", remote.port()).expect(rt, "out of memory");
    play(rt, alloc, trial, address.as_str());
}

// Runs a proxy beside a centre, and what is tried there.
pub(crate) fn run<R>(rt: R, alloc: Global, trial: Trial) -> Result<(), Fail>
where
    R: Net<Listener = TcpListener, Stream = TcpStream>
        + Clock
        + Wait
        + Threads
        + Abort
        + AllocGlobal
        + Copy
        + Drop
        + Send
        + Sync
        + 'static,
{
    let listener = listen(&rt);
    let config = config_for(&rt, alloc, trial.silence(), &listener);
    let proxy = Running::of(rt, config)?;
    let over = AtomicBool::new(false);
    join(
        &rt,
        || trial.serve(&rt, alloc, &listener, &over),
        || {
            go(&rt, alloc, trial, &proxy.remote);
            proxy.remote.stop();
            proxy.is_over(&rt);
            over.store(true, Ordering::SeqCst);
        },
    );
    Ok(())
}
