// The kinds of line that say two numbers. Two columns side by side have a line of a kind for each pair of their entries.
ghost use Rattle.std.specs.Prelude.{◌≡◌, ℕ, [], ◌∷◌, ◌≤◌, length};
ghost use Rattle.line.specs.declared.Line.{Line};
ghost use Rattle.reading.specs.Written.{lines_text};
ghost use Rattle.printing.specs.Put.{Put};
ghost use Rattle.line_writer.specs.Fitting.{LinesFit};
ghost use Rattle.book_writer.specs.ShownLines.{signal_line_of, route_line_of, pair_line_limit};
ghost use Rattle.std.proofs.Common.{arith};
ghost use Rattle.books.specs.Book.{placement};
ghost use Rattle.reading.proofs.LineLengths.{route_short};
ghost use Rattle.reading.proofs.TextLengths.{signals_few};

use line_writer::{put_route, put_signal, route_length, signal_length};

// A kind of line that two numbers make.
pub trait PairLine {
    ghost line: { ℕ → ℕ → Line };

    // How many bytes it has.
    fn length(first: u32, second: u32) -> u32
        ensures { result ≡ length (lines_text (line first second ∷ [])) };

    // Writes it at a place, and answers the place after it.
    fn put(out: &mut [u8], at: usize, first: u32, second: u32) -> usize
        requires { LinesFit out.old at (line first second ∷ []) }
        ensures { Put out.old at (lines_text (line first second ∷ [])) out.new result };

    // Whatever the numbers, it is no longer than this.
    ghost short: { (first second : ℕ) → length (lines_text (line first second ∷ [])) ≤ pair_line_limit };
}

// The S line of a signal, by its number and its start.
pub struct SignalLine;

impl PairLine for SignalLine {
    ghost line = { signal_line_of };

    fn length(number: u32, start: u32) -> u32 {
        signal_length(number, start)
    }

    fn put(out: &mut [u8], at: usize, number: u32, start: u32) -> usize {
        put_signal(out, at, number, start)
    }

    ghost short = { λ n s. Prim.omega (arith, signals_few (placement n s ∷ [])) };
}

// The R line of a route, by the places that it leads from and to.
pub struct RouteLine;

impl PairLine for RouteLine {
    ghost line = { route_line_of };

    fn length(from: u32, to: u32) -> u32 {
        route_length(from, to)
    }

    fn put(out: &mut [u8], at: usize, from: u32, to: u32) -> usize {
        put_route(out, at, from, to)
    }

    ghost short = { route_short };
}
