// The reader of a route book: a text to the words of a book, or to a refusal with its line. `read` is the call for users; it has no
// `requires`, and whatever text and words are lent it says what it answers and what the words are then (specs/Answered.antt).
// It asks the gateway's checker for the verdict on the routes; `answer_judged` goes from a verdict, whoever gave it, to the answer.
#![tactic(auto)]

ghost use Rattle.answers.specs.Numbers.{said};
ghost use Rattle.books.specs.Book.{Book};
ghost use Rattle.reading.specs.Taken.{froms, tos};
ghost use Rattle.tables.specs.Adding.{OfBook, Holds};
ghost use Rattle.verdict.specs.Verdicts.{Judged};
ghost use Rattle.book.specs.Answered.{Answered};
ghost use Rattle.book.specs.Judging.{JudgedBy};

use answers::{Answer, Counts, Refusal, Refused};
use record::{BOOK_WORDS, TEXT_LIMIT, first};
use taking::{route_line, take_lines};
use verdict::Verdict;

// The gateway's checker's verdict on the routes of a book.
fn verdict_on(book: &[u32; BOOK_WORDS]) -> Verdict
    requires { OfBook book.now }
    ensures { (b : Book) → Holds book.now b → Judged (froms b.routes) (tos b.routes) result }
{
    let count = record::route_count(book) as usize;
    let froms = record::froms(book);
    let tos = record::tos(book);
    gateway_checker::judge(first(froms, count), first(tos, count))
}

// The answer to a text whose lines have passed, by a verdict on its routes.
pub fn answer_judged(text: &[u8], book: &mut [u32; BOOK_WORDS], verdict: Verdict) -> Answer
    requires { JudgedBy text.now book.old verdict }
    ensures { Answered text.now (said result) book.new }
{
    match verdict {
        Verdict::Loop(i) => {
            record::clear(book);
            Err(Refused {
                why: Refusal::ClosedChain,
                line: route_line(text, i),
            })
        }
        Verdict::Doubling(i) => {
            record::clear(book);
            Err(Refused {
                why: Refusal::TwoChains,
                line: route_line(text, i),
            })
        }
        Verdict::Sound => Ok(Counts {
            messages: record::message_count(&*book),
            signals: record::signal_count(&*book),
            routes: record::route_count(&*book),
        }),
    }
}

// A text into the words, whatever they were: those of its book, or the empty book where it is refused.
pub fn read(text: &[u8], book: &mut [u32; BOOK_WORDS]) -> Answer
    ensures { Answered text.now (said result) book.new }
{
    record::clear(&mut *book);
    if text.len() > TEXT_LIMIT {
        return Err(Refused {
            why: Refusal::TooLong,
            line: 0,
        });
    }
    take_lines(text, &mut *book)?;
    let verdict = verdict_on(&*book);
    answer_judged(text, book, verdict)
}
