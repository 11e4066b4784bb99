// The common ground of the replays: the next case of a list, our numbers beside a list's, and lent buffers looked at after a call.
#![tactic(auto)]

ghost use Rattle.std.specs.Prelude.{◌≡◌, length, drop};
ghost use Rattle.cases.specs.Text.{words_at, behind};
ghost use Rattle.replays.specs.Compare.{apart, holds_only, is_zero, all_zero};
ghost use Rattle.replays.specs.Next.{unexpected, end_at, case_at};

use cases::{Cursor, Fault, Read, Token};

#[tactic(auto, unfolding(crate::specs::Next::unexpected))]
fn unexpected(c: Cursor) -> Read<Option<u32>>
    ensures { result ≡ unexpected c }
{
    Read {
        value: None,
        cursor: cases::faulted(c, Fault::Unexpected),
    }
}

// The list's end: the number of cases, and nothing more.
#[tactic(auto, unfolding(crate::specs::Next::end_at, crate::specs::Next::closed))]
fn list_end(text: &[u8], c: Cursor, passed: u32) -> Read<Option<u32>>
    ensures { result ≡ end_at text.now passed c }
{
    let total = cases::read_word(text, c);
    let cursor = total.cursor;
    if total.value != passed {
        return unexpected(cursor);
    }
    match cases::next_number(text, cursor) {
        Token::End(_) => Read {
            value: None,
            cursor,
        },
        _ => unexpected(cursor),
    }
}

/// Reads the number and the kind of the next case, after `passed` cases: the kind is 1 to 6, and there is none where the list ends or something went wrong, which the
/// cursor says.
#[tactic(auto, unfolding(crate::specs::Next::case_at, crate::specs::Next::case_from, crate::specs::Next::of_kind))]
pub fn next_case(text: &[u8], c: Cursor, passed: u32) -> Read<Option<u32>>
    ensures { result ≡ case_at text.now passed c }
{
    let number = cases::read_word(text, c);
    let behind = number.cursor;
    if behind.fault.is_some() {
        return Read {
            value: None,
            cursor: behind,
        };
    }
    if number.value == 0 {
        return list_end(text, behind, passed);
    }
    if number.value != passed.wrapping_add(1) {
        return unexpected(behind);
    }
    let kind = cases::read_size(text, behind, 6);
    if kind.value == 0 {
        return unexpected(kind.cursor);
    }
    Read {
        value: Some(kind.value as u32),
        cursor: kind.cursor,
    }
}

/// Compares our numbers with the next of a list: the first place where they differ, and the place behind.
pub fn compare(text: &[u8], c: Cursor, ours: &[u32]) -> Read<Option<usize>>
    ensures at_value { result.value ≡ apart ours.now (words_at (length ours.now) text.now c) }
    ensures cursor_value { result.cursor ≡ behind (length ours.now) text.now c }
{
    let mut cursor = c;
    for (i, &x) in ours.iter().enumerate() {
        let w = cases::read_word(text, cursor);
        cursor = w.cursor;
        if w.value != x {
            return Read {
                value: Some(i),
                cursor: cases::pass(text, cursor, ours.len() - i - 1),
            };
        }
    }
    Read {
        value: None,
        cursor,
    }
}

fn holds_only(xs: &[u32], value: u32) -> bool
    ensures { result ≡ holds_only value xs.now }
{
    xs.iter().all(|x| *x == value)
}

/// Whether every place from `from` on holds `value`.
pub fn all_words(xs: &[u32], from: usize, value: u32) -> bool
    ensures { result ≡ holds_only value (drop from xs.now) }
{
    // not `skip(from)`, which steps over each place in front
    from >= xs.len() || holds_only(&xs[from..], value)
}

/// Whether every place holds 0.0, and not -0.0.
pub fn all_zero(xs: &[f32]) -> bool
    ensures { result ≡ all_zero xs.now }
{
    xs.iter().all(|x| is_zero(*x))
}

#[tactic(auto, unfolding(crate::specs::Compare::is_zero))]
fn is_zero(x: f32) -> bool
    ensures { result ≡ is_zero x }
{
    !x.is_nan() && x.to_bits() == 0
}
