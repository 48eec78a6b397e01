//! The proxy, what it is told on standard input, and who writes its lines.
use crate::config_file::read_again;
use smx_config::{Config, LogForm};
use smx_options::{LogForm as Asked, VERSION};
use smx_serve::{Ended, Log, Notice, ReloadNews, Remote, RunNews, Server, wall};
use std::alloc::Global;
use std::io::{ErrorKind, Read, Write};
use std::net::{Net, TcpListener, TcpStream};
use std::process::ExitCode;
use std::rt::{Clock, Files};
use std::sync::{Arc, Wait};
use std::thread::{Threads, spawn};

/// One octet more than a line of meaning has.
const MOST: usize = 7;

/// What a line asks for.
#[derive(Clone, Copy)]
enum Order {
    Stop,
    Status,
    Reload,
}

// The beginning of a line that comes in. No more of it is kept, however long it gets.
#[derive(Clone, Copy)]
struct Line {
    octets: [u8; MOST],
    count: usize,
}

impl Line {
    const fn new() -> Line {
        Line {
            octets: [0; MOST],
            count: 0,
        }
    }

    // What it asks for, if anything.
    fn order(&self) -> Option<Order> {
        let octets = self.octets.get(..self.count)?;
        let octets = octets.strip_suffix(b"\r").unwrap_or(octets);
        match octets {
            b"stop" => Some(Order::Stop),
            b"status" => Some(Order::Status),
            b"reload" => Some(Order::Reload),
            _ => None,
        }
    }

    // One more octet, which may be the line's end: what it asks for then.
    fn hear(&mut self, octet: u8) -> Option<Order> {
        if octet == b'\n' {
            let order = self.order();
            self.count = 0;
            return order;
        }
        if let Some(place) = self.octets.get_mut(self.count) {
            *place = octet;
        }
        self.count = self.count.saturating_add(1);
        None
    }
}

/// The file of a configuration, and the form of lines that the command line asks for, which counts more
/// than the file's.
#[derive(Drop)]
pub(crate) struct Source {
    pub path: String,
    pub form: Option<Asked>,
}

/// The same configuration, whose lines are written in this form, where one is asked for.
pub(crate) fn logged(config: Config, form: Option<Asked>) -> Config {
    let mut config = config;
    match form {
        Some(Asked::Text) => config.log = LogForm::Text,
        Some(Asked::Json) => config.log = LogForm::Json,
        Some(Asked::Journal) => config.log = LogForm::Journal,
        None => {}
    }
    config
}

// Reads the file again for the proxy. Where it is at fault nothing changes, and that is said.
fn reload<R: Files + Wait + Clock + AllocGlobal>(
    rt: &R,
    remote: &Remote,
    log: &Log,
    source: &Source,
) {
    match read_again(rt, source.path.as_str()) {
        Ok(config) => remote.reload(rt, logged(config, source.form)),
        Err(words) => {
            let words = words.as_deref().unwrap_or("no memory");
            log.tell(rt, wall(rt), Notice::Reload(ReloadNews::NotReloaded(words)));
        }
    }
}

/// Does what lines of standard input ask for: `stop`, `status`, and `reload` of this file. Other lines,
/// whatever octets they have, and the end of input are nothing.
pub(crate) fn heed<R>(rt: &R, remote: &Remote, log: &Log, source: &Source)
where
    R: Input + Files + Wait + Clock + AllocGlobal,
{
    let mut reader = rt.reader();
    let mut buffer = [0u8; 4_096];
    let mut line = Line::new();
    for _ in 0..u64::MAX {
        let count = match reader.read(&mut buffer) {
            Ok(0) => return,
            Ok(count) => count,
            Err(error) if error.kind() == ErrorKind::Interrupted => 0,
            Err(_) => return,
        };
        for octet in buffer.get(..count).unwrap_or(&[]) {
            match line.hear(*octet) {
                Some(Order::Stop) => remote.stop(),
                Some(Order::Status) => remote.tell(),
                Some(Order::Reload) => reload(rt, remote, log, source),
                None => {}
            }
        }
    }
}

/// What is wanted to heed the lines of standard input: the proxy's remote, its log, and the file. None
/// where there is no memory.
pub(crate) fn heard_by(
    alloc: Global,
    server: &Server,
    path: &str,
    form: Option<Asked>,
) -> Option<(Arc<Remote>, Arc<Log>, Source)> {
    let path = String::from_str(alloc, path).ok()?;
    Some((server.remote()?, server.log()?, Source { path, form }))
}

/// Writes a proxy's lines in a thread of its own, which nobody waits for but at the end. False where
/// there is none.
pub(crate) fn is_written<R, W>(rt: R, log: Arc<Log>, errors: W) -> bool
where
    R: Wait + Threads + Copy + Drop + Send + 'static,
    W: Write + Drop + Send + 'static,
{
    let mut errors = errors;
    spawn(&rt, move || log.write_to(&rt, &mut errors)).is_ok()
}

/// Ends a proxy's waits in a thread of its own. False where there is none.
pub(crate) fn is_ticked<R>(rt: R, server: &Server) -> bool
where
    R: Clock + Threads + Copy + Drop + Send + 'static,
{
    match server.remote() {
        Some(remote) => spawn(&rt, move || remote.tick(&rt)).is_ok(),
        None => false,
    }
}

// Serves until the proxy is stopped. Why it ended otherwise is its last line.
fn serve<R>(
    rt: R,
    server: Server,
    config: &Config,
    log: &Log,
    service: Option<Arc<Log>>,
) -> ExitCode
where
    R: Clock + Wait + Net<Listener = TcpListener, Stream = TcpStream> + AllocGlobal + Copy + Drop,
{
    let ended = server.serve(&rt, rt.alloc(), config);
    let is_stopped = ended == Ended::Stopped;
    if !is_stopped {
        log.tell(&rt, wall(&rt), Notice::Run(RunNews::Ended(ended)));
    }
    log.finish(&rt);
    if let Some(lines) = service {
        lines.finish(&rt);
    }
    if is_stopped {
        ExitCode::SUCCESS
    } else {
        ExitCode::FAILURE
    }
}

/// Serves by this configuration, and writes lines there. What a service manager is told is written at
/// the end, too.
pub(crate) fn run<R, W>(
    rt: R,
    server: Server,
    config: &Config,
    errors: W,
    service: Option<Arc<Log>>,
) -> ExitCode
where
    R: Clock
        + Wait
        + Net<Listener = TcpListener, Stream = TcpStream>
        + Threads
        + Eprint
        + AllocGlobal
        + Copy
        + Drop
        + Send
        + 'static,
    W: Write + Drop + Send + 'static,
{
    let (Some(log), Some(lines)) = (server.log(), server.log()) else {
        let _ = eprintln!(rt; "{}", Ended::NoMemory);
        return ExitCode::FAILURE;
    };
    if !is_written(rt, lines, errors) {
        let _ = eprintln!(rt; "{}", Ended::NoThreads);
        return ExitCode::FAILURE;
    }
    log.write_by(&rt, config);
    log.tell(&rt, wall(&rt), Notice::Run(RunNews::Started(VERSION)));
    serve(rt, server, config, &log, service)
}
