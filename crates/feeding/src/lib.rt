// What the feed programs do: read a feed, from the file that the first argument names or else from standard input, a chunk at a time, and write
// what is printed of each chunk before the next is read; then the end state. What is printed of a chunk and of the end state is promised in
// `printing`. No contract can say what is read or written: this is proved safe and ending, and run. The buffers are arrays of fixed lengths, since
// no heap is used.
#![tactic(auto)]

ghost use Rattle.std.specs.Prelude.{◌≡◌, ◌*◌, ◌≤◌, length, IfOk};

use chunks::{keep, whole_lines};
use inputs::{Named, fail, is_named, open_named, write_out};
use printing::Heard;
use printing::ends::put_end;
use receiver::Receiver;
use std::io;
use std::io::Read;
use std::rt::Runtime;

// Something failed, and that it did has been said: nothing is printed any more.
#[derive(Clone, Copy)]
struct Failed;

// 24 times the bytes of the input buffer: the outcomes of a chunk's lines have no more. It stands in a function of its own, since beside other
// facts an array of this length is more than the prover can compute.
fn output() -> [u8; 1572864]
    ensures { 1572864 ≡ length result }
{
    [0; 1572864]
}

// Reads into the buffer after what is held, and answers how many bytes it holds then.
fn read_after(input: &mut impl Read, buf: &mut [u8], held: usize) -> io::Result<usize>
    ensures { IfOk result (λ end. end ≤ length buf.new) }
{
    if held > buf.len() {
        return Ok(0);
    }
    Ok(held + input.read(&mut buf[held..])?)
}

// Takes the lines of a text and writes their outcomes.
fn take_text(
    rt: &impl Runtime,
    heard: &mut Heard,
    text: &[u8],
    out: &mut [u8],
) -> Result<(), Failed>
    requires { 24 * length text.now ≤ length out.old }
{
    let used = heard.take_lines(text, out, 0);
    if !write_out(rt, out, used) {
        return Err(Failed);
    }
    Ok(())
}

// Takes the whole lines among the first bytes of the buffer, keeps the rest, and answers how many bytes those are.
fn take_front(
    rt: &impl Runtime,
    heard: &mut Heard,
    buf: &mut [u8],
    end: usize,
    out: &mut [u8],
) -> Result<usize, Failed>
    requires { (end ≤ length buf.old) × (24 * length buf.old ≤ length out.old) }
{
    let whole = whole_lines(&buf[..end]);
    take_text(rt, heard, &buf[..whole], out)?;
    Ok(keep(buf, whole, end))
}

// Reads once and takes what came; answers how many bytes then wait for their line feed. At the end of the input what is held is the last line,
// and nothing waits any more.
fn take_some(
    rt: &impl Runtime,
    input: &mut impl Read,
    name: &[u8],
    heard: &mut Heard,
    held: usize,
    buf: &mut [u8],
    out: &mut [u8],
) -> Result<Option<usize>, Failed>
    requires { 24 * length buf.old ≤ length out.old }
{
    match read_after(input, buf, held) {
        Ok(end) if end > held => Ok(Some(take_front(rt, heard, buf, end, out)?)),
        Ok(end) => {
            take_text(rt, heard, &buf[..end], out)?;
            Ok(None)
        }
        Err(why) => {
            fail(rt, name, why);
            Err(Failed)
        }
    }
}

// Reads until nothing more is to be read. No input is as many reads long as the turns counted here.
fn take_all(
    rt: &impl Runtime,
    input: &mut impl Read,
    name: &[u8],
    heard: &mut Heard,
    buf: &mut [u8],
    out: &mut [u8],
) -> Result<(), Failed>
    requires { 24 * length buf.old ≤ length out.old }
{
    let mut held = 0;
    for _ in 0..u64::MAX {
        let Some(waiting) = take_some(rt, input, name, heard, held, buf, out)? else {
            break;
        };
        held = waiting;
    }
    Ok(())
}

fn take_feed(rt: &impl Runtime, input: &mut impl Read, name: &[u8]) {
    let mut heard = Heard {
        receiver: Receiver::new(),
        number: 0,
    };
    let mut space = [0u8; 65536];
    let mut print = output();
    let buf: &mut [u8] = &mut space;
    let out: &mut [u8] = &mut print;
    if let Ok(()) = take_all(rt, input, name, &mut heard, buf, out) {
        let used = put_end(&heard.receiver, out, 0);
        write_out(rt, out, used);
    }
}

pub fn take(rt: &impl Runtime) {
    if !is_named(rt) {
        take_feed(rt, &mut rt.reader(), b"stdin");
        return;
    }
    let mut path = [0u8; 4096];
    let Some(Named { mut file, length }) = open_named(rt, &mut path) else {
        return;
    };
    take_feed(rt, &mut file, &path[..length]);
}
