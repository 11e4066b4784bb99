// The text of a game: its lines, their words, and the decimals among them.
#![tactic(auto)]

ghost use Rattle.std.specs.Prelude.{◌≡◌, pos};
ghost use Rattle.std.specs.Float.{binary32};
ghost use Rattle.std.specs.Float.Ieee.{of_int};
ghost use Rattle.lines.specs.Words.{is_blank, stops, end_from, digits_with, shape_with_digit, shape_with, word_at, words_from, spelt, is_nan, is_number, scale_of, value_of};

/// A part of a line, which is looked for to its end.
#[derive(Clone, Copy, Debug, PartialEq, Eq)]
pub enum Part {
    /// The line itself.
    Line,
    /// Its words: a comment ends them too.
    Words,
    /// One word: a blank ends it too.
    OneWord,
    /// Some blanks: a word or a comment ends them.
    Blanks,
}

/// The shape of a word that may be a number: digits, a minus perhaps before them, a point perhaps among them.
#[derive(Clone, Copy, Debug, PartialEq, Eq)]
pub enum Shape {
    /// Nothing yet.
    Empty,
    /// A whole number.
    Whole,
    /// A minus.
    Minus,
    /// Digits behind a minus.
    Signed,
    /// A point behind digits.
    Point,
    /// A digit behind the point.
    OnePlace,
    /// Two digits behind it.
    TwoPlaces,
    /// Three digits behind it.
    ThreePlaces,
    /// No number.
    Bad,
}

/// A word of a line: its first byte and the place behind it, which are the same where the line has no more words; and its shape and digits as a decimal.
#[derive(Clone, Copy, Debug, PartialEq, Eq)]
pub struct Word {
    pub start: usize,
    pub end: usize,
    pub shape: Shape,
    pub digits: u32,
}

// The most that the digits of a decimal may say before one more: all together stay below 2^24, so that binary32 holds them exactly.
const MOST_DIGITS: u32 = 1_600_000;

#[tactic(auto, unfolding(crate::specs::Words::is_blank))]
fn is_blank(b: u8) -> bool
    ensures { result ≡ is_blank b }
{
    matches!(b, b' ' | b'\t' | b'\r')
}

#[tactic(auto, unfolding(crate::specs::Words::stops))]
fn stops(b: u8, part: Part) -> bool
    ensures { result ≡ stops b part }
{
    match part {
        Part::Line => b == b'\n',
        Part::Words => b == b'\n' || b == b'#',
        Part::OneWord => b == b'\n' || b == b'#' || is_blank(b),
        Part::Blanks => !is_blank(b),
    }
}

/// The first place from `from` on where such a part ends, or the text's end.
pub fn find(text: &[u8], from: usize, part: Part) -> usize
    ensures { result ≡ end_from part text.now from }
{
    for at in from..text.len() {
        if stops(text[at], part) {
            return at;
        }
    }
    from.max(text.len())
}

#[tactic(auto, unfolding(crate::specs::Words::digits_with))]
fn digits_with(digits: u32, b: u8) -> u32
    ensures { result ≡ digits_with digits b }
{
    if digits <= MOST_DIGITS && b.is_ascii_digit() {
        digits * 10 + u32::from(b - b'0')
    } else {
        digits
    }
}

// A digit more: three stand behind the point at most.
#[tactic(auto, unfolding(crate::specs::Words::shape_with_digit))]
fn shape_with_digit(shape: Shape) -> Shape
    ensures { result ≡ shape_with_digit shape }
{
    match shape {
        Shape::Empty | Shape::Whole => Shape::Whole,
        Shape::Minus | Shape::Signed => Shape::Signed,
        Shape::Point => Shape::OnePlace,
        Shape::OnePlace => Shape::TwoPlaces,
        Shape::TwoPlaces => Shape::ThreePlaces,
        Shape::ThreePlaces | Shape::Bad => Shape::Bad,
    }
}

#[tactic(auto, unfolding(crate::specs::Words::shape_with, crate::specs::Words::shape_with_minus, crate::specs::Words::shape_with_point))]
fn shape_with(shape: Shape, digits: u32, b: u8) -> Shape
    ensures { result ≡ shape_with shape digits b }
{
    match (b, shape) {
        (b'0'..=b'9', _) if digits <= MOST_DIGITS => shape_with_digit(shape),
        (b'-', Shape::Empty) => Shape::Minus,
        (b'.', Shape::Whole | Shape::Signed) => Shape::Point,
        _ => Shape::Bad,
    }
}

/// The next word of a line.
pub fn next_word(text: &[u8], from: usize) -> Word
    ensures { result ≡ word_at text.now from }
{
    let start = find(text, from, Part::Blanks);
    let mut shape = Shape::Empty;
    let mut digits = 0;
    for end in start..text.len() {
        let b = text[end];
        if stops(b, Part::OneWord) {
            return Word {
                start,
                end,
                shape,
                digits,
            };
        }
        shape = shape_with(shape, digits, b);
        digits = digits_with(digits, b);
    }
    Word {
        start,
        end: start.max(text.len()),
        shape,
        digits,
    }
}

/// How many words a line has from a place on, and 1,024 where there are more.
pub fn count_words(text: &[u8], from: usize) -> usize
    ensures { result ≡ words_from 1024 text.now from }
{
    let mut at = from;
    for count in 0..1024 {
        let w = next_word(text, at);
        if w.start == w.end {
            return count;
        }
        at = w.end;
    }
    1024
}

/// The bytes of a word of the text.
#[tactic(auto, unfolding(crate::specs::Words::spelt))]
pub fn spelt<'a>(text: &'a [u8], w: Word) -> &'a [u8]
    ensures { result.now ≡ spelt text.now w }
{
    text.get(w.start..w.end).unwrap_or(&[])
}

fn is_nan(text: &[u8], w: Word) -> bool
    ensures { result ≡ is_nan text.now w }
{
    spelt(text, w) == b"nan".as_slice()
}

/// Whether a word is a number or `nan`.
#[tactic(auto, unfolding(crate::specs::Words::is_number, crate::specs::Words::is_decimal))]
pub fn is_number(text: &[u8], w: Word) -> bool
    ensures { result ≡ is_number text.now w }
{
    is_nan(text, w)
        || !matches!(
            w.shape,
            Shape::Empty | Shape::Minus | Shape::Point | Shape::Bad
        )
}

#[tactic(auto, unfolding(crate::specs::Words::scale_of))]
fn scale(shape: Shape) -> f32
    ensures { result ≡ of_int binary32 (pos (scale_of shape)) }
{
    match shape {
        Shape::OnePlace => 10.0,
        Shape::TwoPlaces => 100.0,
        Shape::ThreePlaces => 1000.0,
        _ => 1.0,
    }
}

/// The binary32 number nearest to a decimal: both sides of the division are exact, so that it alone rounds.
#[tactic(auto, unfolding(crate::specs::Words::value_of))]
pub fn value(text: &[u8], w: Word) -> f32
    ensures { result ≡ value_of text.now w }
{
    if is_nan(text, w) {
        return f32::NAN;
    }
    let x = std::num::nearest_u32_to_f32(w.digits) / scale(w.shape);
    if text.get(w.start) == Some(&b'-') {
        -x
    } else {
        x
    }
}
