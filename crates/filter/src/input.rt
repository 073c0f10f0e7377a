// An input as a whole.
ghost use Rattle.std.specs.Prelude.{◌≡◌, ◌≢◌, ◌<◌, ◌≤◌, [], length, take, IsTrue, IfOk, IfErr, IsErrOf, IfSome};
ghost use Rattle.std.specs.Io.KnownBytes.{Consumes, IsAtEnd};

use crate::Trouble;
use std::io::Read;

// Reads until the buffer is full, the input ends or a read fails, and answers how many bytes came. Each turn goes on by as much as came, so
// nothing is counted that a `for` could run over.
fn read_full<R: Read>(input: &mut R, buffer: &mut [u8]) -> usize
    ensures within { result ≤ length buffer.new }
    ensures bytes { Consumes (R.remaining input.old) (R.remaining input.new) (take result buffer.new) }
{
    let mut done = 0;
    while done < buffer.len() {
        match input.read(&mut buffer[done..]) {
            Ok(0) | Err(_) => break,
            Ok(n) => done += n,
        }
    }
    done
}

// Whether the input is at its end: a read that fails, or that still finds a byte, says that it is not.
fn at_end<R: Read>(input: &mut R) -> bool
    ensures { IsTrue result → Consumes (R.remaining input.old) (R.remaining input.new) [] × IsAtEnd (R.remaining input.new) }
{
    let mut one = [0u8; 1];
    matches!(input.read(&mut one), Ok(0))
}

// The whole input, at the front of the buffer, and how many bytes it has: fewer than the buffer. One that fills the buffer is too long.
pub fn read_whole<R: Read>(input: &mut R, buffer: &mut [u8]) -> Result<usize, Trouble>
    ensures within { IfOk result (λ n. n < length buffer.new) }
    ensures whole { IfOk result (λ n. IfSome (R.remaining input.old) (λ bytes. take n buffer.new ≡ bytes)) }
    ensures full { IsErrOf result Trouble.TooLong → Consumes (R.remaining input.old) (R.remaining input.new) buffer.new }
    ensures trouble { IfErr result (λ trouble. trouble ≢ Trouble.Writing) }
{
    let n = read_full(input, buffer);
    if n == buffer.len() {
        Err(Trouble::TooLong)
    } else if at_end(input) {
        Ok(n)
    } else {
        Err(Trouble::Reading)
    }
}

// As much of the input as the buffer has room for, at the front of the buffer, and how many bytes that is. Where that is not the whole buffer
// it is the whole input.
pub fn read_front<R: Read>(input: &mut R, buffer: &mut [u8]) -> Result<usize, Trouble>
    ensures within { IfOk result (λ n. n ≤ length buffer.new) }
    ensures front { IfOk result (λ n. IfSome (R.remaining input.old) (λ bytes. take n buffer.new ≡ take (length buffer.new) bytes)) }
    ensures trouble { IfErr result (λ trouble. trouble ≡ Trouble.Reading) }
{
    match read_whole(input, buffer) {
        Err(Trouble::TooLong) => Ok(buffer.len()),
        read => read,
    }
}
