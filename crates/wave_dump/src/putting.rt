//! The lines of a dump, as they are put and sent.
ghost use Rattle.std.specs.Prelude.{◌≡◌, ◌+◌, ◌<◌, [], ◌∷◌, ◌++◌, map, decimal};
ghost use Rattle.wave_dump.specs.Codes.{code_of, first_digit, digits};
ghost use Rattle.wave_dump.specs.Comments.{escaped, escaped_byte, comment};
ghost use Rattle.wave_dump.specs.Dumps.{time_line, entry_line};
ghost use Rattle.wave_dump.specs.Values.{letter, value_start, value_line};

use crate::entries::Entry;
use crate::pen::Pen;
use itoa::Buffer;
use ports::Sink;
use ternary::Tern;

/// How many digits there are in codes.
const DIGITS: usize = 94;

// Writes the line of a time.
pub(crate) fn write_time<S: Sink + Drop>(pen: &mut Pen<S>, time: u64)
    ensures text { pen.new.text ≡ pen.old.text ++ time_line time }
    ensures before { pen.new.before ≡ pen.old.before }
{
    pen.put(b"#");
    put_number(pen, time);
    pen.put(b"\n");
    pen.send_line();
}

// Writes the line of a value, of the entry with this number.
pub(crate) fn write_value<S: Sink + Drop>(pen: &mut Pen<S>, number: usize, value: &[Tern])
    ensures text { pen.new.text ≡ pen.old.text ++ value_line number value.now }
    ensures before { pen.new.before ≡ pen.old.before }
{
    put_value_start(pen, value);
    put_code(pen, number);
    pen.put(b"\n");
    pen.send_line();
}

// Puts what stands before the code in a value's line.
fn put_value_start<S: Sink + Drop>(pen: &mut Pen<S>, value: &[Tern])
    ensures text { pen.new.text ≡ pen.old.text ++ value_start value.now }
    ensures before { pen.new.before ≡ pen.old.before }
{
    if let [only] = value {
        return pen.put(letter_of(*only));
    }
    pen.put(b"b");
    put_letters(pen, value);
    pen.put(b" ");
}

// Writes the line of an entry with this number.
pub(crate) fn write_entry<S: Sink + Drop>(pen: &mut Pen<S>, number: usize, entry: &Entry)
    ensures text { pen.new.text ≡ pen.old.text ++ entry_line number entry.now.entry }
    ensures before { pen.new.before ≡ pen.old.before }
{
    pen.put(b"$var wire ");
    put_number(pen, entry.nodes().len() as u64);
    pen.put(b" ");
    put_code(pen, number);
    pen.put(b" ");
    put_escaped(pen, entry.name());
    pen.put(b" $end\n");
    pen.send_line();
}

// Writes a line of the run as a comment.
pub(crate) fn write_comment<S: Sink + Drop>(pen: &mut Pen<S>, text: &[u8])
    ensures text { pen.new.text ≡ pen.old.text ++ comment text.now }
    ensures before { pen.new.before ≡ pen.old.before }
{
    pen.put(b"$comment ");
    put_escaped(pen, text);
    pen.put(b" $end\n");
    pen.send_line();
}

// Puts a text with a backslash before each of its words that begins with `$`.
fn put_escaped<S: Sink + Drop>(pen: &mut Pen<S>, text: &[u8])
    ensures text { pen.new.text ≡ pen.old.text ++ escaped text.now }
    ensures before { pen.new.before ≡ pen.old.before }
{
    let mut begins = true;
    for &byte in text {
        put_byte(pen, begins, byte);
        begins = byte == b' ';
    }
}

// Puts a byte of a text, at which a word may begin.
fn put_byte<S: Sink + Drop>(pen: &mut Pen<S>, begins: bool, byte: u8)
    ensures text { pen.new.text ≡ pen.old.text ++ escaped_byte begins byte }
    ensures before { pen.new.before ≡ pen.old.before }
{
    if begins && byte == b'$' {
        pen.put(b"\\$")
    } else {
        pen.put(&[byte])
    }
}

// Puts the code of the entry with this number.
fn put_code<S: Sink + Drop>(pen: &mut Pen<S>, number: usize)
    ensures text { pen.new.text ≡ pen.old.text ++ code_of number }
    ensures before { pen.new.before ≡ pen.old.before }
{
    let mut rest = number;
    while rest >= DIGITS {
        put_digit(pen, rest % DIGITS);
        rest /= DIGITS;
    }
    put_digit(pen, rest)
}

// Puts a digit of a code.
fn put_digit<S: Sink + Drop>(pen: &mut Pen<S>, digit: usize)
    requires { digit < digits }
    ensures text { pen.new.text ≡ pen.old.text ++ (first_digit + digit) ∷ [] }
    ensures before { pen.new.before ≡ pen.old.before }
{
    pen.put(&[b'!' + digit as u8])
}

// Puts a number.
fn put_number<S: Sink + Drop>(pen: &mut Pen<S>, number: u64)
    ensures text { pen.new.text ≡ pen.old.text ++ decimal number }
    ensures before { pen.new.before ≡ pen.old.before }
{
    let mut buffer = Buffer::new();
    pen.put(buffer.format(number).as_bytes())
}

// Puts the letters of states.
fn put_letters<S: Sink + Drop>(pen: &mut Pen<S>, states: &[Tern])
    ensures text { pen.new.text ≡ pen.old.text ++ map letter states.now }
    ensures before { pen.new.before ≡ pen.old.before }
{
    for &state in states {
        pen.put(letter_of(state));
    }
}

// The letter of a state.
fn letter_of(state: Tern) -> &'static [u8]
    ensures { result.now ≡ letter state ∷ [] }
{
    match state {
        Tern::Zero => b"0",
        Tern::One => b"1",
        Tern::Unk => b"x",
    }
}
