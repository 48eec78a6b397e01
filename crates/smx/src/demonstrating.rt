//! The proxy at work over loopback, by the configuration in a file.
use crate::config_file::config_of;
use crate::serving::is_written;
use smx_config::{Account, Config};
use smx_demo::{Demo, NotShown};
use smx_demo_client::MESSAGES;
use smx_serve::{Log, Server};
use std::io::Write;
use std::net::{Net, TcpListener, TcpStream};
use std::process::ExitCode;
use std::rt::{Clock, Files};
use std::sync::{Arc, Wait};
use std::thread::Threads;

// Prints how many messages of each account were answered; whether all were.
fn print_all<R: Print>(rt: &R, accounts: &[Account], counts: &[u32]) -> bool {
    let mut all = true;
    for (index, account) in accounts.iter().enumerate() {
        let count = counts.get(index).copied().unwrap_or(0);
        all = all && count == MESSAGES;
        if println!(rt;
            "{} {count} answered",
            account.system_id.as_str().escape_debug()
        )
        .is_err()
        {
            return false;
        }
    }
    all
}

// Shows the proxy at work, and prints what came of it; whether all was well.
fn show<R>(rt: &R, server: Server, config: Config) -> Result<bool, NotShown>
where
    R: Clock
        + Wait
        + Net<Listener = TcpListener, Stream = TcpStream>
        + Threads
        + Print
        + AllocGlobal
        + Sync,
{
    let demo = Demo::new(rt, rt.alloc(), config)?;
    let counts = demo.run(rt, server)?;
    Ok(print_all(rt, demo.accounts(), &counts))
}

// The proxy, and, where its lines are to be written there, what it says them to.
fn attended<R, W>(rt: R, errors: Option<W>) -> Option<(Server, Option<Arc<Log>>)>
where
    R: Net + Wait + Threads + AllocGlobal + Copy + Drop + Send + 'static,
    W: Write + Drop + Send + 'static,
{
    let server = Server::new(&rt, rt.alloc())?;
    let Some(errors) = errors else {
        return Some((server, None));
    };
    let log = server.log()?;
    let lines = server.log()?;
    if is_written(rt, lines, errors) {
        Some((server, Some(log)))
    } else {
        None
    }
}

/// Runs centres, the proxy and a client for each account by the file with this path, and prints how
/// many of each client's ten messages were answered. The proxy's lines are written there, where that
/// is wanted.
pub(crate) fn run<R, W>(rt: R, path: &str, errors: Option<W>) -> ExitCode
where
    R: Clock
        + Wait
        + Net<Listener = TcpListener, Stream = TcpStream>
        + Threads
        + Files
        + Print
        + Eprint
        + AllocGlobal
        + Copy
        + Drop
        + Send
        + Sync
        + 'static,
    W: Write + Drop + Send + 'static,
{
    let Some(config) = config_of(&rt, path) else {
        return ExitCode::FAILURE;
    };
    let Some((server, log)) = attended(rt, errors) else {
        let _ = eprintln!(rt; "{}", NotShown::NoProxy);
        return ExitCode::FAILURE;
    };
    let shown = show(&rt, server, config);
    if let Some(log) = log {
        log.finish(&rt);
    }
    match shown {
        Ok(true) => ExitCode::SUCCESS,
        Ok(false) => ExitCode::FAILURE,
        Err(reason) => {
            let _ = eprintln!(rt; "{reason}");
            ExitCode::FAILURE
        }
    }
}
