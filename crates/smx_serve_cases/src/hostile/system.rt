//! What the system says of this process.
use std::alloc::Global;
use std::fs::File;
use std::io;
use std::process::Abort;
use std::rt::Files;

// The number behind this word, in a text of lines.
fn number_of(text: &str, word: &str) -> Option<u64> {
    for line in text.lines() {
        if let Some(rest) = line.strip_prefix(word) {
            return rest.split_whitespace().next()?.parse::<u64>().ok();
        }
    }
    None
}

// The most memory that was resident at a time, in units of 1,024 octets.
pub(crate) fn peak<R: Files + Abort>(rt: &R, alloc: Global) -> u64 {
    let file = File::open(rt, "/proc/self/status").expect(
        rt,
        "the system says nothing of the process",
    );
    let text = io::read_to_string(alloc, file).expect(rt, "what the system says can't be read");
    number_of(text.as_str(), "VmHWM:").expect(rt, "the system doesn't say how much memory there is")
}
