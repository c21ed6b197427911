// The lines of a plan's text, each written behind the one before. There is no heap: the text is a
// fixed room of the example, and how much of it is written is a field beside it, as of each table
// there; so they go along as two.
use crate::example::Example;
use crate::fields::{number, rest, word};

// Appends bytes to the text, and answers its length; what has no room is left out.
fn append(text: &mut [u8], written: usize, bytes: &[u8]) -> usize {
    let at = written.min(text.len());
    let count = bytes.len().min(text.len() - at);
    text[at..at + count].copy_from_slice(&bytes[..count]);
    at + count
}

fn append_line(text: &mut [u8], written: usize, line: &[u8]) -> usize {
    let end = append(text, written, line);
    append(text, end, b"\n")
}

// Appends a line, some number of times.
fn append_lines(text: &mut [u8], written: usize, line: &[u8], times: u64) -> usize {
    let mut end = written;
    for _ in 0..times {
        end = append_line(text, end, line);
    }
    end
}

// text TEXT: some bytes. line TEXT: a line. repeat N TEXT: a line N times. byte N: the byte N.
// A line that begins with a bracket stands for itself; any other is a comment.
fn write_line(text: &mut [u8], written: usize, line: &[u8]) -> usize {
    let fields = rest(line);
    match word(line) {
        b"text" => append(text, written, fields),
        b"line" => append_line(text, written, fields),
        b"repeat" => append_lines(text, written, rest(fields), number(fields)),
        b"byte" => append(text, written, &[(number(fields) % 256) as u8]),
        _ => match line {
            [b'(' | b')', ..] => append_line(text, written, line),
            _ => written,
        },
    }
}

pub(crate) fn write(example: &mut Example, line: &[u8]) {
    example.text_length = write_line(&mut example.text, example.text_length, line);
}
