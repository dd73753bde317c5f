// What went wrong with a read or a write, for the line on standard error that tells of it: a stream that keeps its last failure, and the
// line itself, in the system's words.
#![tactic(auto)]

ghost use Rattle.std.specs.Prelude.{◌≡◌, Some, None, IfErr, OnOk};
ghost use Rattle.std.specs.Io.{ReadsAtMost, WritesAtMost};
ghost use Rattle.std.specs.Io.KnownBytes.{Keeps, Appends, WriteAppends, ReadConsumes};

use std::io;
use std::io::{Cursor, Read, Write};

// A stream, and the failure of the last of its reads and writes that failed; none where none did. Its bytes are those of the stream: what
// is read from it was read from the stream, and what is written to it is written to the stream.
#[derive(Drop)]
pub struct Watched<S> {
    stream: S,
    failure: Option<io::Error>,
}

impl<S> Watched<S> {
    // A stream none of whose reads and writes has failed.
    pub fn new(stream: S) -> Watched<S>
        ensures none_yet { result.failure ≡ None }
        ensures same { result.stream ≡ stream }
    {
        Watched {
            stream,
            failure: None,
        }
    }

    // The failure of the last of its reads and writes that failed.
    pub fn failure(&self) -> Option<io::Error>
        ensures { result ≡ self.now.failure }
    {
        self.failure
    }
}

// What a read or a write gave, as it is; where that is a failure, it is kept.
fn kept<T>(failure: &mut Option<io::Error>, given: io::Result<T>) -> io::Result<T>
    ensures same { result ≡ given }
    ensures kept { IfErr given (λ e. failure.new ≡ Some e) }
    ensures calm { OnOk given (failure.new ≡ failure.old) }
{
    if let Err(e) = given {
        *failure = Some(e);
    }
    given
}

impl<S: Read> Read for Watched<S> {
    ghost remaining = { λ w. S.remaining w.stream };

    fn read(&mut self, buf: &mut [u8]) -> io::Result<usize>
        ensures bound { ReadsAtMost result buf.new }
        ensures bytes { ReadConsumes (S.remaining self.old.stream) (S.remaining self.new.stream) result buf.new }
        ensures kept { IfErr result (λ e. self.new.failure ≡ Some e) }
        ensures calm { OnOk result (self.new.failure ≡ self.old.failure) }
    {
        let read = self.stream.read(buf);
        kept(&mut self.failure, read)
    }
}

impl<S: Write> Write for Watched<S> {
    ghost contents = { λ w. S.contents w.stream };

    fn write(&mut self, buf: &[u8]) -> io::Result<usize>
        ensures bound { WritesAtMost result buf.now }
        ensures bytes { WriteAppends (S.contents self.old.stream) (S.contents self.new.stream) result buf.now }
        ensures kept { IfErr result (λ e. self.new.failure ≡ Some e) }
        ensures calm { OnOk result (self.new.failure ≡ self.old.failure) }
    {
        let written = self.stream.write(buf);
        kept(&mut self.failure, written)
    }

    fn flush(&mut self) -> io::Result<()>
        ensures bytes { Keeps (S.contents self.old.stream) (S.contents self.new.stream) }
        ensures kept { IfErr result (λ e. self.new.failure ≡ Some e) }
        ensures calm { OnOk result (self.new.failure ≡ self.old.failure) }
    {
        let flushed = self.stream.flush();
        kept(&mut self.failure, flushed)
    }

    fn write_all(&mut self, buf: &[u8]) -> io::Result<()>
        ensures bytes { OnOk result (Appends (S.contents self.old.stream) (S.contents self.new.stream) buf.now) }
        ensures kept { IfErr result (λ e. self.new.failure ≡ Some e) }
        ensures calm { OnOk result (self.new.failure ≡ self.old.failure) }
    {
        let written = self.stream.write_all(buf);
        kept(&mut self.failure, written)
    }
}

// The bytes that any words of the system fit.
const ROOM: usize = 512;

// Writes a line to standard error: what failed, a colon and the system's words for it, without the number that std puts behind them. A
// line that cannot be written is let go.
fn tell_words(rt: &impl Eprint, what: &str, words: &str) {
    let system = match words.split_once(" (os error ") {
        Some((front, _)) => front,
        None => words,
    };
    let _ = eprintln!(rt; "{what}: {system}");
}

// Writes a line to standard error: what failed, and the system's words for its failure, where there is one.
pub fn tell(rt: &impl Eprint, what: &str, failure: Option<io::Error>) {
    match failure {
        Some(e) => {
            let mut words = Cursor::new([0u8; ROOM]);
            let _ = write!(words, "{e}");
            let n = words.position() as usize;
            let room = words.into_inner();
            let text = room
                .get(..n)
                .and_then(|s| str::from_utf8(s).ok())
                .unwrap_or("");
            tell_words(rt, what, text);
        }
        None => {
            let _ = eprintln!(rt; "{what}");
        }
    }
}
