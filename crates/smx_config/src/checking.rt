//! What a check of a configuration writes.
ghost use Rattle.std.specs.Prelude.{◌≡◌, ℕ, List, ◌++◌, length, IfOk, OnOk, OnErr, Result, is_ok, string_bytes};
ghost use Rattle.std.specs.Io.KnownBytes.{Appends};
ghost use Rattle.smx_config.specs.declared.fault.ConfigFault.{ConfigFault};
ghost use Rattle.smx_config.specs.Settings.{Settings};
ghost use Rattle.smx_config.specs.Lines.{ReadsAs, fault_line, file_line, line_of, ok_line};

use crate::config::Config;
use crate::fault::ConfigFault;
use crate::file::FileFault;
use crate::reading::read;
use smx_whole_text::{WriteFault, write_text};
use std::alloc::{AllocError, Global};
use std::io::Write;

/// The line where memory is refused, which takes none.
const NO_MEMORY: &str = "fault NoMemory\n";

// The numbers of upstreams and accounts.
fn counts(config: &Config) -> (usize, usize)
    ensures upstreams { result.0 ≡ length config.now.upstream }
    ensures accounts { result.1 ≡ length config.now.account }
{
    (config.upstream.len(), config.account.len())
}

fn ok_line(alloc: Global, upstreams: usize, accounts: usize) -> Result<String, AllocError>
    ensures { IfOk result (λ line. string_bytes line ≡ ok_line upstreams accounts) }
{
    let line = format!(in alloc; "ok {upstreams} {accounts}\n")?;
    Ok(line)
}

fn fault_line(alloc: Global, fault: ConfigFault) -> Result<String, AllocError>
    ensures { IfOk result (λ line. string_bytes line ≡ fault_line fault) }
{
    match fault {
        ConfigFault::NotToml => String::from_str(alloc, "fault NotToml\n"),
        ConfigFault::Listen => String::from_str(alloc, "fault Listen\n"),
        ConfigFault::Numbers => String::from_str(alloc, "fault Numbers\n"),
        ConfigFault::ProxyProtocol => String::from_str(alloc, "fault ProxyProtocol\n"),
        ConfigFault::Log => String::from_str(alloc, "fault Log\n"),
        ConfigFault::Limits => String::from_str(alloc, "fault Limits\n"),
        ConfigFault::Timers => String::from_str(alloc, "fault Timers\n"),
        ConfigFault::Upstreams => String::from_str(alloc, "fault Upstreams\n"),
        ConfigFault::Upstream(index) => format!(in alloc; "fault Upstream {index}\n"),
        ConfigFault::Accounts => String::from_str(alloc, "fault Accounts\n"),
        ConfigFault::Account(index) => format!(in alloc; "fault Account {index}\n"),
        ConfigFault::NoMemory => String::from_str(alloc, NO_MEMORY),
    }
}

/// Writes the line of a text: `ok`, the number of upstreams and that of accounts, or `fault`, the
/// fault's name and its index, if it has one. True for `ok`. The writer isn't flushed.
pub fn check<W: Write>(alloc: Global, text: &str, writer: &mut W) -> Result<bool, WriteFault>
    ensures ok { IfOk result (λ fine. (outcome : Result Settings ConfigFault)
        × ReadsAs text.now outcome × (fine ≡ is_ok outcome)
        × Appends (W.contents writer.old) (W.contents writer.new) (line_of outcome)) }
    ensures err { OnErr result ((outcome : Result Settings ConfigFault) × (front back : List ℕ)
        × ReadsAs text.now outcome × (line_of outcome ≡ front ++ back)
        × Appends (W.contents writer.old) (W.contents writer.new) front) }
{
    let (line, fine) = match read(alloc, text) {
        Ok(config) => {
            let (upstreams, accounts) = counts(&config);
            (ok_line(alloc, upstreams, accounts), true)
        }
        Err(fault) => (fault_line(alloc, fault), false),
    };
    match line {
        Ok(line) => {
            write_text(writer, line.as_bytes())?;
            Ok(fine)
        }
        Err(_) => match reject(FileFault::NoMemory, writer) {
            Ok(()) => Ok(false),
            Err(fault) => Err(fault),
        },
    }
}

/// Writes the line of a file that has no text to check: `fault file`, or `fault NoMemory` where
/// memory was refused.
pub fn reject<W: Write>(fault: FileFault, writer: &mut W) -> Result<(), WriteFault>
    ensures ok { OnOk result (Appends (W.contents writer.old) (W.contents writer.new)
        (file_line fault)) }
    ensures err { OnErr result ((front back : List ℕ) × (file_line fault ≡ front ++ back)
        × Appends (W.contents writer.old) (W.contents writer.new) front) }
{
    let line = match fault {
        FileFault::Failed | FileFault::TooLong | FileFault::NotUtf8 => "fault file\n",
        FileFault::NoMemory => NO_MEMORY,
    };
    write_text(writer, line.as_bytes())
}
