// Reading a file whole.
ghost use Rattle.std.specs.Prelude.{◌≡◌, ℕ, ◌<◌, ◌≤◌, Some, length, take, IfSome};
ghost use Rattle.std.specs.Counts.{IsPrefixLen};
ghost use Rattle.std.specs.Io.KnownBytes.{Consumes, IsAtEnd};
ghost use Rattle.print.specs.File.{IsSize};

use std::fs::File;
use std::io::Read;
use std::rt::Files;

// A file's size, by whether it was opened, the bytes that were read and what one read behind them gave. There is none where the file is not read
// to its end.
fn file_size(opened: bool, size: usize, behind: Option<usize>) -> Option<usize>
    ensures { IsSize opened size behind result }
{
    if !opened {
        return None;
    }
    match behind {
        Some(0) => Some(size),
        // There is more.
        Some(_) => None,
        // The read failed, as each of a folder does.
        None => None,
    }
}

// Reads until the buffer is full, the input ends or a read fails, and answers how many bytes stand at the buffer's start. The loop goes by
// bytes and not by turns, so that it is a `while`.
fn read_full<R: Read>(reader: &mut R, to: &mut [u8]) -> usize
    ensures within { IsPrefixLen result to.new }
    ensures bytes { Consumes (R.remaining reader.old) (R.remaining reader.new) (take result to.new) }
{
    let mut done: usize = 0;
    while done < to.len() {
        match reader.read(&mut to[done..]) {
            Ok(n) => {
                if n == 0 {
                    break;
                }
                done += n;
            }
            Err(_) => break,
        }
    }
    done
}

// What one more read gives: how many bytes, of one at most, or nothing where it fails.
fn read_behind<R: Read>(reader: &mut R) -> Option<usize>
    ensures ended { result ≡ Some 0 → IsAtEnd (R.remaining reader.old) }
    ensures more { IfSome result (λ n. 0 < n → IfSome (R.remaining reader.old) (λ xs. 0 < length xs)) }
{
    let mut more = [0u8; 1];
    reader.read(&mut more).ok()
}

// Reads what was opened, of at most as many bytes as the buffer has, and answers how many there are, if it is read to its end.
fn read_open<R: Read>(reader: &mut R, to: &mut [u8]) -> Option<usize>
    ensures within { IfSome result (λ size. IsPrefixLen size to.new) }
    ensures whole { IfSome result (λ size. IfSome (R.remaining reader.old) (λ xs. take size to.new ≡ xs)) }
{
    let size = read_full(reader, to);
    file_size(true, size, read_behind(reader))
}

// The same of a file of at most so many bytes, and answers how many are handed on: one that is not read to its end is handed on as one that is longer.
// Within the limit stands only what the read behind the bytes found ended.
fn read_handed<R: Read>(reader: &mut R, limit: usize, to: &mut [u8]) -> usize
    requires { limit < length to.old }
    ensures within { IsPrefixLen result to.new }
    ensures whole { result ≤ limit → IfSome (R.remaining reader.old) (λ xs. take result to.new ≡ xs) }
{
    read_open(reader, to).unwrap_or(limit + 1)
}

// Reads a file of at most so many bytes, and answers how many it has. A file that can't be read or is longer is handed on as one that is
// longer: `limit + 1` bytes. Where the open fails nothing is read.
pub(crate) fn read_file<R: Files>(rt: &R, path: &str, limit: usize, to: &mut [u8]) -> usize
    requires { limit < length to.old }
    ensures { IsPrefixLen result to.new }
{
    match File::open(rt, path) {
        Ok(mut file) => read_handed(&mut file, limit, to),
        Err(_) => file_size(false, 0, None).unwrap_or(limit + 1),
    }
}
