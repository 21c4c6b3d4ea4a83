// The book checker: a route book on standard input; on standard output `ok` and its counts, or `no`, the refusal and its line. It
// reads no more of its input than tells that a text is too long. It takes no words, so that a file's name given as one is
// not answered with the `ok` of an empty input.
#![tactic(auto)]

use book_streams::{ENOUGH, has_words, send_answer};
use streams::read_full;

fn main(rt: HostRuntime) {
    if has_words(&rt) {
        let _ = rt.eprintln("book_check: the book comes on standard input: book_check < FILE");
        return;
    }
    let mut text = [0u8; ENOUGH];
    let size = read_full(&mut rt.stdin(), &mut text);
    let mut words = [0u32; record::BOOK_WORDS];
    let answer = book::read(&text[..size], &mut words);
    let _ = send_answer(&rt, answer);
}
