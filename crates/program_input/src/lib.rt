// The input of a program, read whole into a lent buffer. A read that fails is told from the end of the input.
#![tactic(auto)]

ghost use Rattle.std.specs.Prelude.{◌≡◌, ◌<◌, ◌≤◌, length, IfOk};
ghost use Rattle.program_input.specs.Input.{told, told_within, ReadWithin, ReadFrom, InputRead};

use std::io;
use std::io::Read;

// What a call of read gave: how many bytes, or none at the end of the input; or its failure.
pub fn told(read: io::Result<usize>) -> io::Result<Option<usize>>
    ensures { result ≡ told read }
{
    match read? {
        0 => Ok(None),
        n => Ok(Some(n)),
    }
}

// What a call of read into this buffer gave, as `told`, but never more bytes than the buffer has, whatever count the read gave: how many,
// one at least, or none at the end of the input; or its failure.
pub fn told_within(read: io::Result<usize>, buffer: &[u8]) -> io::Result<Option<usize>>
    ensures told { result ≡ told_within read (length buffer.now) }
    ensures within { ReadWithin (length buffer.now) result }
{
    told(Ok(read?.min(buffer.len())))
}

// Reads once into the slice, which is not empty: how many bytes that gave, one at least, or none at the end of the input; or the read's
// failure. The bytes are the next ones of the input, and stand at the start of the slice.
pub fn read_once<R: Read>(reader: &mut R, rest: &mut [u8]) -> io::Result<Option<usize>>
    requires { 0 < length rest.old }
    ensures within { ReadWithin (length rest.new) result }
    ensures bytes { ReadFrom (R.remaining reader.old) (R.remaining reader.new) rest.new result }
{
    let read = reader.read(rest);
    told_within(read, rest)
}

// Reads until the buffer is full or the input is at its end: how many bytes of the input stand at the start of the buffer, all that there
// are or as many as it holds. Or the failure of a read, and then the buffer holds nothing to go by.
pub fn read_input<R: Read>(reader: &mut R, buffer: &mut [u8]) -> io::Result<usize>
    ensures within { IfOk result (λ n. n ≤ length buffer.new) }
    ensures bytes { IfOk result (λ n. InputRead (R.remaining reader.old) (R.remaining reader.new) buffer.new n) }
{
    let mut done = 0;
    while done < buffer.len() {
        match read_once(reader, &mut buffer[done..])? {
            Some(n) => done += n,
            None => return Ok(done),
        }
    }
    Ok(done)
}
