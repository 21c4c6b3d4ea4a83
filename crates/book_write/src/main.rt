// The book writer: a route book on standard input; on standard output its text, each M line with its S lines, then the R lines, in book
// order; of a book that is refused the checker's line. Like the book checker it reads no more of its input than tells that a text is too
// long, and takes no words. Where a read fails it prints nothing, since the front of a book may be a book; that, and an output that was not
// written whole, it says on standard error.
#![tactic(auto)]

ghost use Rattle.std.specs.Prelude.{◌≡◌, ◌≤◌, suc, length, IfOk};
ghost use Rattle.record.specs.Limits.{text_limit};
ghost use Rattle.reading.specs.Written.{most_written};

use book_streams::{ENOUGH, has_words, send_answer};
use book_writer::MOST_WRITTEN;
use record::BOOK_WORDS;
use std::io;
use std::io::{ErrorKind, Read};
use streams::write_first;

// The input, as far as there is room for it: how many bytes, or the error of a read that fails. It asks for a byte more than a text may
// have, no more and no less, so that ENOUGH can be no other number.
fn read_input<R: Read>(input: &mut R, text: &mut [u8]) -> io::Result<usize>
    requires { length text.old ≡ suc text_limit }
    ensures { IfOk result (λ n. n ≤ length text.new) }
{
    let mut size: usize = 0;
    while size < text.len() {
        let more = input.read(&mut text[size..])?;
        if more == 0 {
            return Ok(size);
        }
        size += more;
    }
    Ok(size)
}

// The text of a book that was taken, by way of a room that has space for any: it asks for just as many bytes as no text has more of,
// so that the constant can be no other number. An answer without an error says that all of the text was written.
fn send_text(rt: &impl Print, book: &[u32; BOOK_WORDS], room: &mut [u8]) -> io::Result<()>
    requires { length room.old ≡ most_written }
{
    match book_writer::write(book, &mut *room) {
        Ok(count) => write_first(rt, &*room, count as usize),
        Err(_) => Err(io::Error::from(ErrorKind::Other)),
    }
}

// What is printed of a text. An answer without an error says that all of it was written.
fn rewrite(rt: &impl Print, text: &[u8]) -> io::Result<()> {
    let mut words = [0u32; BOOK_WORDS];
    let answer = book::read(text, &mut words);
    if answer.is_ok() {
        let mut room = [0u8; MOST_WRITTEN];
        return send_text(rt, &words, &mut room);
    }
    send_answer(rt, answer)
}

fn main(rt: HostRuntime) {
    if has_words(&rt) {
        let _ = rt.eprintln("book_write: the book comes on standard input: book_write < FILE");
        return;
    }
    let mut text = [0u8; ENOUGH];
    match read_input(&mut rt.stdin(), &mut text) {
        Ok(size) => {
            if let Err(e) = rewrite(&rt, &text[..size]) {
                let _ = eprintln!(rt; "book_write: not all of the output was written: {e}");
            }
        }
        Err(e) => {
            let _ = eprintln!(rt; "book_write: standard input could not be read: {e}");
        }
    }
}
