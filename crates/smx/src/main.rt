//! The program: the command line, and the status that it ends with.
#![tactic(auto)]

mod config_file;
mod demonstrating;
mod machine;
mod relaying;
mod serving;
mod watched;

use config_file::config_of;
use smx_options::{Asked, Serving, asked_of, words_of};
use smx_serve::{Ended, Server, is_name};
use std::io::IsTerminal;
use std::process::ExitCode;
use std::thread;

/// The status where `serve` has no configuration to run by: EX_CONFIG of sysexits.h.
const CONFIG: u8 = 78;

fn main(rt: HostRuntime) -> ExitCode {
    let words = match words_of(&rt) {
        Ok(words) => words,
        Err(status) => return status,
    };
    match asked_of(&rt, words.as_slice()) {
        Ok(Asked::Relay(None)) => relaying::run_input(&rt, rt.stdin().is_terminal()),
        Ok(Asked::Relay(Some(path))) => relaying::run_file(&rt, path),
        Ok(Asked::Check(path, is_strict)) => config_file::run(&rt, path, is_strict),
        Ok(Asked::Keys) => config_file::tell_keys(&rt),
        Ok(Asked::Serve(path, how)) => {
            let Some(config) = config_of(&rt, path) else {
                return ExitCode::from(CONFIG);
            };
            let config = serving::logged(config, how.log);
            let Some(mut server) = Server::new(&rt, rt.alloc()) else {
                let _ = eprintln!(rt; "{}", Ended::NoEvents);
                return ExitCode::FAILURE;
            };
            let mut has_threads = serving::is_ticked(rt, &server);
            if how.reads_terminal || !rt.stdin().is_terminal() {
                let heeded = match serving::heard_by(rt.alloc(), &server, path, how.log) {
                    Some((remote, log, source)) => thread::spawn(&rt, move || {
                        serving::heed(&rt, &remote, &log, &source)
                    }).is_ok(),
                    None => false,
                };
                has_threads &= heeded;
            }
            for (lane, upstream) in config.upstream.iter().enumerate() {
                if !is_name(upstream.address.as_str()) {
                    continue;
                }
                if let Some(lookups) = server.lookups() {
                    let served = thread::spawn(&rt, move || lookups.serve(&rt, lane));
                    has_threads &= served.is_ok();
                }
            }
            let mut service = None;
            if how.notifies {
                service = server.service(rt.alloc());
                has_threads &= match server.service(rt.alloc()) {
                    Some(lines) => serving::is_written(rt, lines, rt.stdout()),
                    None => false,
                };
            }
            if !has_threads {
                let _ = eprintln!(rt; "{}", Ended::NoThreads);
                return ExitCode::FAILURE;
            }
            serving::run(rt, server, &config, rt.stderr(), service)
        }
        Ok(Asked::Demo(path, is_verbose)) => {
            let errors = if is_verbose { Some(rt.stderr()) } else { None };
            demonstrating::run(rt, path, errors)
        }
        Ok(Asked::Nothing) => ExitCode::FAILURE,
        Err(status) => status,
    }
}
