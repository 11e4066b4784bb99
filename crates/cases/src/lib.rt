// The reader of the oracle's lists: text as a sequence of numbers, by the format of oracle/README.md.
#![tactic(auto)]

ghost use Rattle.std.specs.Prelude.{◌≡◌, ℕ, ◌≤◌, ◌<◌, length, drop, map, IfSome};
ghost use Rattle.cases.specs.declared.Mode.TheVariants.{Between};
ghost use Rattle.cases.specs.Text.{fault_number, separates, after, skipped, digit_of, digits_of, token_at, faulted, word_at, size_at, area_of, words_at, float_of, floats_at, behind, first, Gives};

/// What can go wrong in the reading of a list.
#[derive(Clone, Copy, PartialEq, Eq)]
pub enum Fault {
    /// The text ended where a number was asked for.
    Ended,
    /// A number was 2^32 or more.
    TooLarge,
    /// A byte belongs to no list.
    Strange,
    /// A number was one that the format does not allow there.
    Unexpected,
}

/// A place in a list, the numbers read up to it with their sum modulo 2^32, and what went wrong
/// first.
#[derive(Clone, Copy)]
pub struct Cursor {
    pub at: usize,
    pub count: u32,
    pub sum: u32,
    pub fault: Option<Fault>,
}

/// The value of some digits, and the place behind them.
#[derive(Clone, Copy)]
pub struct Digits {
    pub value: u64,
    pub at: usize,
}

/// What was read of a list, and the place behind it.
#[derive(Clone, Copy)]
pub struct Read<T> {
    pub value: T,
    pub cursor: Cursor,
}

/// What stands next in a list: a number with the place behind it; the end; a number of 2^32 or more;
/// or a byte that belongs to no list. The last two have their place.
#[derive(Clone, Copy)]
pub enum Token {
    Number(u32, Cursor),
    End(Cursor),
    TooLarge(usize),
    Strange(usize),
}

// Whether a byte is of a label or white space.
#[tactic(auto, unfolding(crate::specs::Text::separates, crate::specs::Text::within))]
fn separates(b: u8) -> bool
    ensures { result ≡ separates b }
{
    matches!(b, b'a'..=b'z' | b'A'..=b'Z' | b'_' | b'-' | b' ' | b'\t'..=b'\r')
}

// Where a text stands between two numbers.
#[derive(Clone, Copy)]
enum Mode {
    Between,
    Comment,
}

// Where the text stands behind the byte, which is between no numbers where it is neither a separator nor in a comment.
#[tactic(auto, unfolding(crate::specs::Text::after))]
fn after(mode: Mode, b: u8) -> Option<Mode>
    ensures { result ≡ after mode b }
{
    match mode {
        Mode::Comment if b == b'\n' => Some(Mode::Between),
        Mode::Comment => Some(Mode::Comment),
        Mode::Between if b == b'#' => Some(Mode::Comment),
        Mode::Between => separates(b).then_some(Mode::Between),
    }
}

// The place of the first byte from `start` on that is neither a separator nor in a comment.
fn skip(text: &[u8], start: usize) -> usize
    ensures { result ≡ skipped Between (drop start text.now) start }
{
    let mut mode = Mode::Between;
    for at in start..text.len() {
        match after(mode, text[at]) {
            Some(next) => mode = next,
            None => return at,
        }
    }
    start.max(text.len())
}

// The digit that a byte is.
#[tactic(auto, unfolding(crate::specs::Text::digit_of, crate::specs::Text::within))]
fn digit_of(b: u8) -> Option<u64>
    ensures value { result ≡ digit_of b }
    ensures upper_bound { IfSome result (λ d. d < 10) }
{
    b.is_ascii_digit().then(|| u64::from(b - b'0'))
}

// The value of the digits from `start` on; one that has reached 2^32 is read no further.
fn read_digits(text: &[u8], start: usize) -> Digits
    ensures { result ≡ digits_of 0 (drop start text.now) start }
{
    let mut value: u64 = 0;
    for at in start..text.len() {
        let Some(digit) = digit_of(text[at]) else {
            return Digits { value, at };
        };
        if value >= 0x1_0000_0000 {
            return Digits { value, at };
        }
        value = value * 10 + digit;
    }
    Digits {
        value,
        at: start.max(text.len()),
    }
}

/// What stands next in the text of a list. A number read is counted, and added to the sum.
#[tactic(auto, unfolding(crate::specs::Text::token_at, crate::specs::Text::token_from, crate::specs::Text::token_of, crate::specs::Text::counted, crate::specs::Text::ended))]
pub fn next_number(text: &[u8], c: Cursor) -> Token
    ensures { result ≡ token_at text.now c }
{
    let start = skip(text, c.at);
    if text.len() <= start {
        return Token::End(Cursor { at: start, ..c });
    }
    let d = read_digits(text, start);
    if d.at == start {
        return Token::Strange(start);
    }
    if d.value >= 0x1_0000_0000 {
        return Token::TooLarge(start);
    }
    let number = d.value as u32;
    Token::Number(
        number,
        Cursor {
            at: d.at,
            count: c.count.wrapping_add(1),
            sum: c.sum.wrapping_add(number),
            fault: c.fault,
        },
    )
}

/// The number that is printed for what went wrong, and 0 where nothing did.
#[tactic(auto, unfolding(crate::specs::Text::fault_number))]
pub fn fault_number(fault: Option<Fault>) -> u32
    ensures { result ≡ fault_number fault }
{
    match fault {
        None => 0,
        Some(Fault::Ended) => 1,
        Some(Fault::TooLarge) => 2,
        Some(Fault::Strange) => 3,
        Some(Fault::Unexpected) => 4,
    }
}

/// Room for the text of a list.
pub fn room() -> [u8; 524288]
    ensures { 524288 ≡ length result }
{
    [0; 524288]
}

/// The place where a list starts.
pub fn start() -> Cursor
    ensures { result ≡ first }
{
    Cursor {
        at: 0,
        count: 0,
        sum: 0,
        fault: None,
    }
}

/// The cursor with a fault, where it has none yet.
#[tactic(auto, unfolding(crate::specs::Text::faulted))]
pub fn faulted(c: Cursor, fault: Fault) -> Cursor
    ensures { result ≡ faulted c fault }
{
    Cursor {
        fault: c.fault.or(Some(fault)),
        ..c
    }
}

/// The next number; 0 where there is none or something went wrong before, which the cursor says.
#[tactic(auto, unfolding(crate::specs::Text::word_at, crate::specs::Text::word_of))]
pub fn read_word(text: &[u8], c: Cursor) -> Read<u32>
    ensures { result ≡ word_at text.now c }
{
    if c.fault.is_some() {
        return Read {
            value: 0,
            cursor: c,
        };
    }
    let fault = match next_number(text, c) {
        Token::Number(value, cursor) => return Read { value, cursor },
        Token::End(_) => Fault::Ended,
        Token::TooLarge(_) => Fault::TooLarge,
        Token::Strange(_) => Fault::Strange,
    };
    Read {
        value: 0,
        cursor: faulted(c, fault),
    }
}

/// The next number as a length of at most `most`; a larger one is a fault.
#[tactic(auto, unfolding(crate::specs::Text::size_at, crate::specs::Text::size_of))]
pub fn read_size(text: &[u8], c: Cursor, most: usize) -> Read<usize>
    ensures value { result ≡ size_at most text.now c }
    ensures value_le_most { result.value ≤ most }
{
    let w = read_word(text, c);
    let value = w.value as usize;
    let cursor = w.cursor;
    if value <= most {
        return Read { value, cursor };
    }
    Read {
        value: 0,
        cursor: faulted(cursor, Fault::Unexpected),
    }
}

/// The product of two lengths, and 0 where one of them is over 65,536.
#[tactic(auto, unfolding(crate::specs::Text::area_of))]
pub fn area(a: usize, b: usize) -> usize
    ensures value { result ≡ area_of a b }
    ensures upper_bound { result ≤ 4294967296 }
{
    if a > 65536 || b > 65536 {
        return 0;
    }
    a * b
}

/// Passes the next `n` numbers.
pub fn pass(text: &[u8], c: Cursor, n: usize) -> Cursor
    ensures { result ≡ behind n text.now c }
{
    let mut cursor = c;
    for _ in 0..n {
        if cursor.fault.is_some() {
            return cursor;
        }
        cursor = read_word(text, cursor).cursor;
    }
    cursor
}

/// Fills the slice with what `of` makes of the next numbers.
pub fn read_all<T: Copy, F: Fn(u32) -> T>(text: &[u8], c: Cursor, out: &mut [T], of: F) -> Cursor
    requires { F.IsAlwaysCallable of }
    ensures out_after { (made : ℕ → T) → Gives (F.post of) made
        → out.new ≡ map made (words_at (length out.old) text.now c) }
    ensures value { result ≡ behind (length out.old) text.now c }
{
    let mut cursor = c;
    for i in 0..out.len() {
        let w = read_word(text, cursor);
        out[i] = of(w.value);
        cursor = w.cursor;
    }
    cursor
}

/// Fills the slice with the next numbers.
pub fn read_words(text: &[u8], c: Cursor, out: &mut [u32]) -> Cursor
    ensures out_after { out.new ≡ words_at (length out.old) text.now c }
    ensures value { result ≡ behind (length out.old) text.now c }
{
    read_all(text, c, out, |word| word)
}

/// The float of some bits, and 0.0 where they are a NaN's.
#[tactic(auto, unfolding(crate::specs::Text::float_of))]
pub fn float(bits: u32) -> f32
    ensures { result ≡ float_of bits }
{
    if bits % 0x8000_0000 > 0x7F80_0000 {
        return 0.0;
    }
    f32::from_bits(bits)
}

/// Fills the slice with the next numbers, as the bits of floats.
pub fn read_floats(text: &[u8], c: Cursor, out: &mut [f32]) -> Cursor
    ensures out_after { out.new ≡ floats_at (length out.old) text.now c }
    ensures value { result ≡ behind (length out.old) text.now c }
{
    read_all(text, c, out, float)
}
