//! The lines of an input.

ghost use Rattle.std.specs.Prelude.{◌≡◌, ◌+◌, ◌<◌, ◌==◌, ◌^◌, ◌∷◌, length};
ghost use Rattle.std.specs.List.{position};
ghost use Rattle.std.specs.Str.Lines.{lines, strip_carriage_return};

use memchr::memchr;

/// A line of an input, without its end.
#[derive(Clone, Copy, PartialEq, Eq)]
pub struct Line<'a> {
    /// The number of the line, counted from 1.
    pub number: usize,
    pub bytes: &'a [u8],
}

/// The lines of an input, in order.
///
/// A line ends with a line feed, which the last line may lack. A carriage return just before a line feed is dropped.
#[derive(Clone, Copy)]
pub struct Lines<'a> {
    rest: &'a [u8],
    number: usize,
    ghost fits: { number + length rest.now < 2 ^ 64 },
}

impl<'a> Lines<'a> {
    ghost use Rattle.resolve.specs.Lines.{lines_left, numbered_lines};

    pub fn new(input: &'a [u8]) -> Lines<'a>
        ensures { lines_left result ≡ numbered_lines 1 input.now }
    {
        Lines {
            rest: input,
            number: 0,
        }
    }
}

impl<'a> Iterator for Lines<'a> {
    ghost use Rattle.std.specs.Iterator.{YieldsFirstBy, item_count};
    ghost use Rattle.resolve.specs.Lines.{lines_left};

    type Item = Line<'a>;

    ghost next_gives = { YieldsFirstBy (λ line. (line.number, line.bytes.now)) lines_left };

    ghost remaining = { item_count lines_left };

    fn next(&mut self) -> Option<Line<'a>> {
        if self.rest.is_empty() {
            return None;
        }
        let (bytes, rest) = cut_first_line(self.rest);
        self.rest = rest;
        self.number += 1;
        let number = self.number;
        Some(Line { number, bytes })
    }
}

/// Returns the first line without its end, and the rest.
#[tactic(auto, using(crate::proofs::LinesLemmas::cuts))]
fn cut_first_line(bytes: &[u8]) -> (&[u8], &[u8])
    requires { 0 < length bytes.now }
    ensures lines { lines bytes.now ≡ result.0.now ∷ lines result.1.now }
    ensures shorter { length result.1.now < length bytes.now }
{
    match position_of_line_feed(bytes) {
        Some(end) => (without_carriage_return(&bytes[..end]), &bytes[end + 1..]),
        None => (bytes, &[]),
    }
}

fn position_of_line_feed(bytes: &[u8]) -> Option<usize>
    ensures { result ≡ position (λ byte. byte == 10) bytes.now }
{
    memchr(b'\n', bytes)
}

fn without_carriage_return(line: &[u8]) -> &[u8]
    ensures { result.now ≡ strip_carriage_return line.now }
{
    match line {
        [front @ .., b'\r'] => front,
        _ => line,
    }
}

#[cfg(test)]
mod tests;
