// guardwrite: reads a policy's text on standard input. It writes the policy file to standard output, or one line that says what is wrong to standard
// error, and then nothing to standard output. Proved is what is told of the bytes read (`told`): it is what `specs/Said` says. That the bytes read
// are the reader's next ones is what `fill` of run_input says. Not proved: that standard input is such a reader, and that the bytes handed to `write`
// come out. A read that fails counts as the end of the input.
#![tactic(auto)]

ghost use Rattle.std.specs.Prelude.{◌≡◌, ◌+◌, length};
ghost use Rattle.guardwrite.specs.Said.{most_text, out_room};

use crate::told::{MOST_TEXT, Told, tell};
use file_records::MOST_FILE;
use run_input::read_full;
use std::io;
use std::io::Write;

mod told;

// Room for the longest text, and one byte by which a longer one is known.
fn text_room() -> [u8; MOST_TEXT + 1]
    ensures { most_text + 1 ≡ length result }
{
    [0; MOST_TEXT + 1]
}

// Room for the longest file.
fn file_room() -> [u8; MOST_FILE]
    ensures { out_room ≡ length result }
{
    [0; MOST_FILE]
}

fn main(rt: HostRuntime) -> io::Result<()> {
    let mut text = text_room();
    let mut out = file_room();
    let end = read_full(&mut rt.stdin(), &mut text);
    match tell(&text[..end], &mut out) {
        Told::File(length) => rt.stdout().write_all(&out[..length]),
        Told::Message(length) => rt.stderr().write_all(&out[..length]),
    }
}
