// A lent page that a program fills before it prints it: what it says can then be stated.
#![tactic(auto)]

ghost use Rattle.std.specs.Prelude.{◌≡◌, take};
ghost use Rattle.pages.specs.Page.{labelled, Puts};

/// Puts bytes on the page from a place on, and answers the place behind them. What the page has no room for is left away.
pub fn put(page: &mut [u8], at: usize, bytes: &[u8]) -> usize
    ensures { Puts at bytes.now page.old result page.new }
{
    let start = at.min(page.len());
    let long = bytes.len().min(page.len() - start);
    page[start..start + long].copy_from_slice(&bytes[..long]);
    start + long
}

/// Puts a text and a number behind it, in decimal digits.
pub fn put_number(page: &mut [u8], at: usize, label: &[u8], n: usize) -> usize
    ensures { Puts at (labelled label.now n) page.old result page.new }
{
    let mut digits = [0u8; 20];
    let long = io::decimal(n as u64, &mut digits);
    let place = put(page, at, label);
    put(page, place, &digits[..long])
}

/// Puts a text and a word behind it, in decimal digits.
pub fn put_word(page: &mut [u8], at: usize, label: &[u8], word: u32) -> usize
    ensures { Puts at (labelled label.now word) page.old result page.new }
{
    put_number(page, at, label, word as usize)
}

/// What a page says up to a place.
pub fn text(page: &[u8], end: usize) -> &[u8]
    ensures { result.now ≡ take end page.now }
{
    &page[..end.min(page.len())]
}
