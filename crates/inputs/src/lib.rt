// What the programs share: how they open the file that the first argument names, how they write what they print, and how they say what failed.
#![tactic(auto)]

ghost use Rattle.std.specs.Prelude.{◌≡◌, ◌≤◌, IfSome, length, take};

use std::env::{Env, FillError};
use std::io::{Error, ErrorKind};
use std::rt::Files;
use std::{fs, str};

// The system's number of a name that is too long.
const NAME_TOO_LONG: i32 = 36;

// A file that is open, and how many bytes its name has.
#[derive(Drop)]
pub struct Named<F> {
    pub file: F,
    pub length: usize,
}

// An error's words, without the number that std puts behind them.
fn words(said: &str) -> &str {
    said.split_once(" (os error ")
        .map_or(said, |(words, _)| words)
}

// Says what failed, as the caller names it, and why.
pub fn fail<R: Eprint + Alloc>(rt: &R, what: &[u8], why: Error) {
    let name = str::from_utf8(what).unwrap_or("path");
    let _ = match format!(in rt.alloc(); "{why}") {
        Ok(said) => rt.eprintln(format_args!("{name}: {}", words(said.as_str()))),
        Err(_) => rt.eprintln(format_args!("{name}: {why}")),
    };
}

// Whether there is a first argument.
pub fn is_named(rt: &impl Env) -> bool {
    !matches!(rt.arg(1, &mut []), Err(FillError::NotPresent))
}

// Opens the file of a name. std takes text alone as a name.
fn open<R: Files>(rt: &R, name: &[u8]) -> Result<R::File, Error> {
    match str::from_utf8(name) {
        Ok(name) => fs::open(rt, name),
        Err(_) => Err(Error::from(ErrorKind::InvalidFilename)),
    }
}

// Opens the file that the first argument names, its name in the memory lent, or says why it cannot.
pub fn open_named<R: Env + Files + Eprint + Alloc>(
    rt: &R,
    path: &mut [u8],
) -> Option<Named<R::File>>
    ensures within { IfSome result (λ named. named.length ≤ length path.new) }
    ensures taken { IfSome result (λ named. named.length ≡ length (take named.length path.new)) }
{
    let Ok(length) = rt.arg(1, path) else {
        fail(rt, b"path", Error::from_raw_os_error(NAME_TOO_LONG));
        return None;
    };
    match open(rt, &path[..length]) {
        Ok(file) => Some(Named { file, length }),
        Err(why) => {
            fail(rt, &path[..length], why);
            None
        }
    }
}

// Writes the bytes that are put, or says why it cannot. It answers a flag and no Result, since two of its three callers end with it and drop
// the answer: each would need a `let _ =`.
pub fn write_out<R: Print + Eprint + Alloc>(rt: &R, out: &[u8], used: usize) -> bool
    requires { used ≤ length out.now }
{
    match rt.write_all(&out[..used]) {
        Ok(()) => true,
        Err(why) => {
            fail(rt, b"write", why);
            false
        }
    }
}
