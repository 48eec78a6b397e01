//! A proxy whose lines are written to a connection, at whose other end they are asked for.
use crate::stage::{Running, patient};
use smx_config::{Config, read};
use smx_serve::{Log, Remote, Server};
use std::alloc::Global;
use std::io::Read;
use std::net::{Net, TcpListener, TcpStream};
use std::process::Abort;
use std::rt::Clock;
use std::sync::{Arc, Wait};
use std::test::Fail;
use std::thread::{Threads, spawn};

// More octets than a line has.
const MOST: usize = 300;

// Lines, one after another.
#[derive(Drop)]
pub(crate) struct Lines {
    stream: TcpStream,
}

// The two ends of a connection.
fn pair<R>(rt: &R, alloc: Global) -> Result<(TcpStream, TcpStream), Fail>
where
    R: Net<Listener = TcpListener, Stream = TcpStream>,
{
    let listener = TcpListener::bind(rt, "127.0.0.1:0")?;
    let address = format!(in alloc; "{}", listener.local_addr()?)?;
    let reader = TcpStream::connect(rt, address.as_str())?;
    let (writer, _) = listener.accept()?;
    Ok((reader, writer))
}

impl Lines {
    // The lines of this log, which a thread writes until the log is finished.
    pub(crate) fn of<R>(rt: R, log: Arc<Log>) -> Result<Lines, Fail>
    where
        R: Net<Listener = TcpListener, Stream = TcpStream>
            + Wait
            + Threads
            + AllocGlobal
            + Copy
            + Drop
            + Send
            + 'static,
    {
        let (reader, writer) = pair(&rt, rt.alloc())?;
        let mut writer = writer;
        spawn(&rt, move || log.write_to(&rt, &mut writer))?;
        Ok(Lines {
            stream: patient(reader)?,
        })
    }

    // The words of the next line, behind its time and its level. None where none comes any more, or for
    // half a minute.
    pub(crate) fn next(&mut self, alloc: Global) -> Option<String> {
        let line = self.line(alloc)?;
        let (time, rest) = line.as_str().split_once(' ')?;
        let (level, words) = rest.split_once(' ')?;
        let is_level = matches!(level, "info" | "warn" | "error");
        let is_time = time.len() == 24 && time.ends_with('Z');
        if !is_level || !is_time {
            return None;
        }
        String::from_str(alloc, words).ok()
    }

    // The next line without its end.
    fn line(&mut self, alloc: Global) -> Option<String> {
        let mut line = Vec::with_capacity(alloc, MOST).ok()?;
        for _ in 0..MOST {
            let mut octet = [0u8; 1];
            self.stream.read_exact(&mut octet).ok()?;
            let [octet] = octet;
            if octet == b'\n' {
                return String::from_utf8(line).ok();
            }
            line.push(octet).ok()?;
        }
        None
    }

    // The next line has to be this one.
    pub(crate) fn says<R: Abort + AllocGlobal>(&mut self, rt: &R, line: &str) {
        let next = self.next(rt.alloc());
        let next = next.as_deref().unwrap_or("nothing");
        assert!(rt; next == line, "`{next}` was said, and not `{line}`");
    }

    // The next line has to begin and end so, with a number of milliseconds between.
    pub(crate) fn says_time<R: Abort + AllocGlobal>(&mut self, rt: &R, begin: &str, end: &str) {
        let next = self.next(rt.alloc());
        let next = next.as_deref().unwrap_or("nothing");
        let rest = next.strip_prefix(begin).unwrap_or("");
        let time = rest.strip_suffix(end).unwrap_or("").parse::<u64>();
        assert!(rt; time.is_ok(), "`{next}` was said, and not `{begin}..{end}`");
    }

    // No further line comes: the log is finished.
    pub(crate) fn are_over<R: Abort + AllocGlobal>(mut self, rt: &R) {
        let next = self.next(rt.alloc());
        let next = next.as_deref().unwrap_or("");
        assert!(rt;
            next.is_empty(),
            "`{next}` was said, and nothing was left to say"
        );
    }
}

// A proxy that runs, with one upstream and the account alpha.
#[derive(Drop)]
pub(crate) struct Told {
    pub lines: Lines,
    pub remote: Arc<Remote>,
    // The address of the upstream.
    centre: String,
    proxy: Running,
}

// A configuration with this address to listen at and this upstream, and these keys between them.
fn config_of(alloc: Global, listen: &str, keys: &str, centre: &str) -> Result<Config, Fail> {
    let text = format!(in alloc;
        "listen = \"{listen}\"\n{keys}\n[[upstream]]\naddress = \"{centre}\"\nsystem_id = \"proxy\"\npassword = \"pw\"\n[[account]]\nsystem_id = \"alpha\"\npassword = \"p\"\n"
    )?;
    Ok(read(alloc, text.as_str())?)
}

impl Told {
    // Runs it with an upstream at this address and these keys before it, until it listens.
    pub(crate) fn new<R>(rt: R, keys: &str, centre: String) -> Result<Told, Fail>
    where
        R: Net<Listener = TcpListener, Stream = TcpStream>
            + Clock
            + Wait
            + Threads
            + Abort
            + AllocGlobal
            + Copy
            + Drop
            + Send
            + 'static,
    {
        let mut told = Told::at(rt, "127.0.0.1:0", keys, centre)?;
        told.lines.says(&rt, "listening on 127.0.0.1:0");
        Ok(told)
    }

    // The same, where it is to listen at this address.
    pub(crate) fn at<R>(rt: R, listen: &str, keys: &str, centre: String) -> Result<Told, Fail>
    where
        R: Net<Listener = TcpListener, Stream = TcpStream>
            + Clock
            + Wait
            + Threads
            + Abort
            + AllocGlobal
            + Copy
            + Drop
            + Send
            + 'static,
    {
        let config = config_of(rt.alloc(), listen, keys, centre.as_str())?;
        let server = Server::new(&rt, rt.alloc()).expect(&rt, "no server");
        let log = server.log().expect(&rt, "out of memory");
        let lines = Lines::of(rt, server.log().expect(&rt, "out of memory"))?;
        let lookups = server.lookups().expect(&rt, "out of memory");
        spawn(&rt, move || lookups.serve(&rt, 0))?;
        let proxy = Running::told(rt, server, config, Some(log))?;
        let remote = Arc::try_clone(&proxy.remote)?;
        Ok(Told {
            lines,
            remote,
            centre,
            proxy,
        })
    }

    // The next line has to be this one of the upstream.
    pub(crate) fn upstream<R: Abort + AllocGlobal>(
        &mut self,
        rt: &R,
        words: &str,
    ) -> Result<(), Fail> {
        let line = format!(in rt.alloc(); "upstream 0 proxy at {}: {words}", self.centre)?;
        self.lines.says(rt, line.as_str());
        Ok(())
    }

    // The same, and behind it stands in how many milliseconds it is tried again, or what else it is.
    pub(crate) fn upstream_waits<R: Abort + AllocGlobal>(
        &mut self,
        rt: &R,
        words: &str,
        tried: &str,
    ) -> Result<u64, Fail> {
        let alloc = rt.alloc();
        let begin = format!(in alloc;
            "upstream 0 proxy at {}: {words}; it is {tried} again in ",
            self.centre
        )?;
        let line = self.lines.next(alloc);
        let line = line.as_deref().unwrap_or("nothing");
        let rest = line.strip_prefix(begin.as_str()).unwrap_or("");
        let wait = rest.strip_suffix(" ms").unwrap_or("").parse::<u64>();
        Ok(wait.expect(rt, line))
    }

    // The next line has to be this one of a client, over this connection.
    pub(crate) fn client<R: Abort + AllocGlobal>(
        &mut self,
        rt: &R,
        client: &str,
        stream: &TcpStream,
        words: &str,
    ) -> Result<(), Fail> {
        let address = stream.local_addr()?;
        let line = format!(in rt.alloc(); "client {client} at {address}: {words}")?;
        self.lines.says(rt, line.as_str());
        Ok(())
    }

    // The proxy is told to stop, which it says, with nothing under way.
    pub(crate) fn stops<R: Abort + AllocGlobal>(&mut self, rt: &R) {
        self.remote.stop();
        self.lines.says(rt, "stopping");
        self.lines.says(rt, "draining, 0 requests under way");
        self.lines
            .says(rt, "drained: 0 answered, 0 with 0x45 ESME_RSUBMITFAIL");
    }

    // The proxy has ended, and said no more.
    pub(crate) fn is_over<R: Threads + Wait + Abort + AllocGlobal>(self, rt: &R) {
        let Told { lines, proxy, .. } = self;
        proxy.is_over(rt);
        lines.are_over(rt);
    }
}
