//! The words of the command line.
use std::env::FillError;
use std::rt::Env;
use std::{env, io};

pub(crate) fn words_of(rt: &(impl Env + AllocGlobal)) -> io::Result<Vec<String>> {
    Ok(env::args(rt)?.collect(rt.alloc())?)
}

// Whether a word isn't UTF-8, and then says so.
fn is_named<R: Eprint + AllocGlobal>(rt: &R, at: usize, word: &[u8]) -> bool {
    if str::from_utf8(word).is_ok() {
        return false;
    }
    let _ = match String::from_utf8_lossy(rt.alloc(), word) {
        Ok(shown) => eprintln!(rt; "word {at}, {shown}, isn't UTF-8"),
        Err(_) => eprintln!(rt; "word {at} isn't UTF-8"),
    };
    true
}

/// Says which word of the command line, counted from 1, isn't UTF-8, or that they can't be read.
pub(crate) fn say_bad<R: Env + Eprint + AllocGlobal>(rt: &R) {
    let mut octets = [0u8; 4096];
    for at in 1..usize::MAX {
        match rt.arg(at, &mut octets) {
            Ok(count) => {
                if is_named(rt, at, &octets[..count]) {
                    return;
                }
            }
            Err(FillError::TooLong) => {}
            Err(FillError::NotPresent) => break,
        }
    }
    let _ = eprintln!(rt; "the command line can't be read");
}
