// Reads a game: games/README.md gives the lines of its file.
#![tactic(auto)]

ghost use Rattle.std.specs.Prelude.{◌≡◌, ℕ, List, Result, Some, slice_index};
ghost use Rattle.lines.specs.declared.Word.{Word};
ghost use Rattle.games.specs.declared.Fault.{Fault};
ghost use Rattle.games.specs.Games.{message, nothing, read_to, wrong, put, whole_of, number_of, numbers_put, ended, name_of, lanes_line, with_params, teach_line, names_line, roots_line, read, point_line, with_counter, with_query, keyword_of, line_read, next_line, file_read};

use lines::{Part, Shape, Word};
use params::SsgParams;
use std::fmt;

/// What can be wrong with a file.
#[derive(Clone, Copy, Debug, PartialEq, Eq)]
pub enum Fault {
    /// A line starts with a word that is none of the six.
    Unknown,
    /// A number is asked for, and here is none.
    NoNumber,
    /// A whole number is asked for.
    NotWhole,
    /// A line has more words than it should.
    More,
    /// The lanes are not named once, before everything that has lanes, or not 1 to 16 of them.
    Lanes,
    /// A counter stands behind a query.
    Late,
    /// There are more counters, queries or roots than there is room for.
    Room,
}

impl fmt::Display for Fault {
    ghost output = { λ f. Some (message f) };

    #[tactic(auto, unfolding(crate::specs::Games::message))]
    fn fmt<W: fmt::Write>(&self, f: &mut fmt::Formatter<W>) -> fmt::Result {
        f.write_str(match self {
            Fault::Unknown => "a line starts with lanes, teach, names, roots, counter or query",
            Fault::NoNumber => {
                "a number of at most three places behind the point, or nan, should stand"
            }
            Fault::NotWhole => "a whole number should stand",
            Fault::More => "the line should end",
            Fault::Lanes => "1 to 16 lanes are named once, before everything that has lanes",
            Fault::Late => "counters stand before queries",
            Fault::Room => "there is no room for more: 320 counters and queries, 64 roots",
        })
    }
}

/// What is wrong with a file, and the game as far as it is read: its line and place are those of what is wrong.
#[derive(Clone, Copy, Debug, PartialEq)]
pub struct Wrong {
    pub game: Game,
    pub fault: Fault,
}

// The first words of lines.
#[derive(Clone, Copy, Debug, PartialEq, Eq)]
enum Keyword {
    Lanes,
    Teach,
    Names,
    Roots,
    Counter,
    Query,
}

// The places of the whole numbers of a game: 64 roots, the three sizes of `teach`, the number of `names`, and where the names of 320 counters and queries stand.
const SIZES: usize = 64;

const K: usize = 67;

const PLACES: usize = 68;

/// A game as its file says: how much of all there is, the parameters, the place of the lanes' names; the line and the place up to which it is read.
#[derive(Clone, Copy, Debug, PartialEq)]
pub struct Game {
    pub dimension: usize,
    pub n: usize,
    pub asked: usize,
    pub roots: usize,
    pub k: usize,
    pub params: SsgParams,
    pub title: usize,
    pub line: usize,
    pub place: usize,
}

fn nothing() -> Game
    ensures { result ≡ nothing }
{
    Game {
        dimension: 0,
        n: 0,
        asked: 0,
        roots: 0,
        k: 1,
        params: SsgParams::default(),
        title: 0,
        line: 1,
        place: 0,
    }
}

// The game read up to a place.
fn read_to(g: Game, place: usize) -> Game
    ensures { result ≡ read_to g place }
{
    Game { place, ..g }
}

// What is wrong at a place of the line that is read.
fn wrong_at(g: Game, place: usize, fault: Fault) -> Wrong
    ensures { result ≡ wrong g place fault }
{
    Wrong {
        game: read_to(g, place),
        fault,
    }
}

// A number that a word of a line may be.
trait Number: Copy {
    ghost number: { List ℕ → Word → Result Self Fault };

    fn number(text: &[u8], w: Word) -> Result<Self, Fault>
        ensures { result ≡ number text.now w };
}

impl Number for u32 {
    ghost number = { λ _ w. whole_of w.shape w.digits };

    #[tactic(auto, unfolding(crate::specs::Games::whole_of))]
    fn number(_text: &[u8], w: Word) -> Result<u32, Fault> {
        match w.shape {
            Shape::Whole => Ok(w.digits),
            _ => Err(Fault::NotWhole),
        }
    }
}

impl Number for f32 {
    ghost number = { number_of };

    #[tactic(auto, unfolding(crate::specs::Games::number_of))]
    fn number(text: &[u8], w: Word) -> Result<f32, Fault> {
        if lines::is_number(text, w) {
            Ok(lines::value(text, w))
        } else {
            Err(Fault::NoNumber)
        }
    }
}

// Reads the next words of a line as numbers, to the places from `first` up to `end`.
#[tactic(auto, using(crate::proofs::Laws::numbers))]
fn read_numbers<T: Number>(
    text: &[u8],
    g: Game,
    first: usize,
    end: usize,
    xs: &mut [T],
) -> Result<Game, Wrong>
    ensures { put result xs.new ≡ numbers_put (T.number text.now) text.now g first end xs.old }
{
    let mut at = g.place;
    for i in first..end {
        if i >= xs.len() {
            return Err(wrong_at(g, at, Fault::Room));
        }
        let w = lines::next_word(text, at);
        match T::number(text, w) {
            Ok(x) => xs[i] = x,
            Err(fault) => return Err(wrong_at(g, w.start, fault)),
        }
        at = w.end;
    }
    Ok(read_to(g, at))
}

// The game after a line whose numbers are read: a word that is left over is wrong.
#[tactic(auto, unfolding(crate::specs::Games::ended))]
fn ended(text: &[u8], g: Game) -> Result<Game, Wrong>
    ensures { result ≡ ended text.now g }
{
    let w = lines::next_word(text, g.place);
    if w.start != w.end {
        return Err(wrong_at(g, w.start, Fault::More));
    }
    Ok(g)
}

/// The whole number at a place, and 0 behind the last.
pub fn whole(wholes: &[u32], i: usize) -> usize
    ensures { result ≡ slice_index wholes.now i }
{
    wholes.get(i).map_or(0, |&x| x as usize)
}

/// Where the name of a counter or query stands.
pub fn name_of(wholes: &[u32], node: usize) -> usize
    ensures { result ≡ name_of wholes.now node }
{
    whole(wholes, PLACES.wrapping_add(node))
}

// `lanes NAME..`
#[tactic(auto, unfolding(crate::specs::Games::lanes_line))]
fn lanes_line(text: &[u8], g: Game) -> Result<Game, Wrong>
    ensures { result ≡ lanes_line text.now g }
{
    let count = lines::count_words(text, g.place);
    if g.dimension != 0 || count < 1 || count > 16 {
        return Err(wrong_at(g, g.place, Fault::Lanes));
    }
    Ok(Game {
        dimension: count,
        title: lines::find(text, g.place, Part::Blanks),
        ..g
    })
}

// The game with the sizes and the threshold of a build.
#[tactic(auto, unfolding(crate::specs::Games::with_params))]
fn with_params(g: Game, wholes: &[u32], threshold: f32) -> Game
    ensures { result ≡ with_params g wholes.now threshold }
{
    let params = SsgParams {
        threshold,
        init_k: whole(wholes, SIZES),
        index_size: whole(wholes, SIZES + 1),
        neighbor_neighbor_size: whole(wholes, SIZES + 2),
    };
    Game { params, ..g }
}

// `teach INIT_K INDEX_SIZE NEIGHBOR_NEIGHBOR_SIZE THRESHOLD`: behind the sizes, what is read stands in the game also where the rest of the line is wrong.
#[tactic(auto, unfolding(crate::specs::Games::taught, crate::specs::Games::teach_line))]
fn teach_line(text: &[u8], g: Game, wholes: &mut [u32]) -> Result<Game, Wrong>
    ensures { put result wholes.new ≡ teach_line text.now g wholes.old }
{
    let sizes = read_numbers(text, g, SIZES, K, wholes)?;
    let mut threshold = [0.0f32; 1];
    let r = read_numbers(text, sizes, 0, 1, &mut threshold).and_then(|all| ended(text, all));
    match r {
        Ok(h) => Ok(with_params(h, wholes, threshold[0])),
        Err(w) => Err(Wrong {
            game: with_params(w.game, wholes, threshold[0]),
            ..w
        }),
    }
}

// `names K`: the number stands in the game also where the line is wrong.
#[tactic(auto, unfolding(crate::specs::Games::names_line))]
fn names_line(text: &[u8], g: Game, wholes: &mut [u32]) -> Result<Game, Wrong>
    ensures { put result wholes.new ≡ names_line text.now g wholes.old }
{
    let r = read_numbers(text, g, K, PLACES, wholes).and_then(|number| ended(text, number));
    let k = whole(wholes, K);
    match r {
        Ok(h) => Ok(Game { k, ..h }),
        Err(w) => Err(Wrong {
            game: Game { k, ..w.game },
            ..w
        }),
    }
}

// `roots NODE..`
#[tactic(auto, unfolding(crate::specs::Games::roots_line))]
fn roots_line(text: &[u8], g: Game, wholes: &mut [u32]) -> Result<Game, Wrong>
    ensures { put result wholes.new ≡ roots_line text.now g wholes.old }
{
    let roots = lines::count_words(text, g.place);
    if roots > SIZES {
        return Err(wrong_at(g, g.place, Fault::Room));
    }
    read_numbers(text, Game { roots, ..g }, 0, roots, wholes)
}

// `counter NAME LANE..` and `query NAME LANE..`: the name's place and the lanes, behind all that are there.
#[tactic(auto, unfolding(crate::specs::Games::point_line))]
fn point_line(text: &[u8], g: Game, wholes: &mut [u32], values: &mut [f32]) -> Result<Game, Wrong>
    ensures { read result wholes.new values.new ≡ point_line text.now g wholes.old values.old }
{
    if g.dimension == 0 {
        return Err(wrong_at(g, g.place, Fault::Lanes));
    }
    let i = g.n.wrapping_add(g.asked);
    let slot = PLACES.wrapping_add(i);
    if slot >= wholes.len() {
        return Err(wrong_at(g, g.place, Fault::Room));
    }
    let name = lines::next_word(text, g.place);
    wholes[slot] = (name.start % 65536) as u32;
    let first = cases::area(i, g.dimension);
    let end = first.wrapping_add(g.dimension);
    let r = read_numbers(text, read_to(g, name.end), first, end, values)?;
    ended(text, r)
}

// One counter more: counters stand before queries.
#[tactic(auto, unfolding(crate::specs::Games::with_counter))]
fn with_counter(g: Game, place: usize) -> Result<Game, Wrong>
    ensures { result ≡ with_counter place g }
{
    if g.asked != 0 {
        return Err(wrong_at(g, place, Fault::Late));
    }
    Ok(Game {
        n: g.n.wrapping_add(1),
        ..g
    })
}

// One query more.
fn with_query(g: Game) -> Game
    ensures { result ≡ with_query g }
{
    Game {
        asked: g.asked.wrapping_add(1),
        ..g
    }
}

#[tactic(auto, unfolding(crate::specs::Games::keyword_of))]
fn keyword_of(word: &[u8]) -> Option<Keyword>
    ensures { result ≡ keyword_of word.now }
{
    if word == b"lanes".as_slice() {
        Some(Keyword::Lanes)
    } else if word == b"teach".as_slice() {
        Some(Keyword::Teach)
    } else if word == b"names".as_slice() {
        Some(Keyword::Names)
    } else if word == b"roots".as_slice() {
        Some(Keyword::Roots)
    } else if word == b"counter".as_slice() {
        Some(Keyword::Counter)
    } else if word == b"query".as_slice() {
        Some(Keyword::Query)
    } else {
        None
    }
}

#[tactic(auto, unfolding(crate::specs::Games::line_read, crate::specs::Games::said))]
fn line(text: &[u8], g: Game, wholes: &mut [u32], values: &mut [f32]) -> Result<Game, Wrong>
    ensures { read result wholes.new values.new ≡ line_read text.now g wholes.old values.old }
{
    let w = lines::next_word(text, g.place);
    if w.start == w.end {
        return Ok(g);
    }
    let behind = read_to(g, w.end);
    match keyword_of(lines::spelt(text, w)) {
        Some(Keyword::Lanes) => lanes_line(text, behind),
        Some(Keyword::Teach) => teach_line(text, behind, wholes),
        Some(Keyword::Names) => names_line(text, behind, wholes),
        Some(Keyword::Roots) => roots_line(text, behind, wholes),
        Some(Keyword::Counter) => {
            let r = point_line(text, behind, wholes, values)?;
            with_counter(r, w.end)
        }
        Some(Keyword::Query) => {
            let r = point_line(text, behind, wholes, values)?;
            Ok(with_query(r))
        }
        None => Err(wrong_at(g, w.start, Fault::Unknown)),
    }
}

// The game read up to the start of the next line.
fn next_line(text: &[u8], g: Game) -> Game
    ensures { result ≡ next_line text.now g }
{
    let end = lines::find(text, g.place, Part::Line);
    Game {
        place: end.wrapping_add(1),
        line: g.line.wrapping_add(1),
        ..g
    }
}

/// Reads a whole file, up to the first thing that is wrong. A proved loop has to end: it counts the lines, and stops at more than there are bytes.
#[tactic(auto, using(crate::proofs::Laws::file))]
pub fn read(text: &[u8], wholes: &mut [u32], values: &mut [f32]) -> Result<Game, Wrong>
    ensures { read result wholes.new values.new ≡ file_read text.now wholes.old values.old }
{
    let mut g = nothing();
    for _line in 0..65536usize {
        if g.place >= text.len() {
            return Ok(g);
        }
        let r = line(text, g, wholes, values)?;
        g = next_line(text, r);
    }
    Ok(g)
}
