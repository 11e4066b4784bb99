// Places for the largest game that is read, 320 counters and queries. A contract says how long they are: each is written before it is read.
ghost use Rattle.std.specs.Prelude.{◌≡◌, length};

/// Places for the bytes of a file: one more than a game may have.
pub fn text_room() -> [u8; 65536]
    ensures { 65536 ≡ length result }
{
    [0; 65536]
}

/// Places for the graph of 320 counters.
pub fn graph_room() -> [u32; 20480]
    ensures { 20480 ≡ length result }
{
    [0; 20480]
}

/// Words for its build.
pub fn words_room() -> [u32; 167936]
    ensures { 167936 ≡ length result }
{
    [0; 167936]
}

/// Floats for its build.
pub fn floats_room() -> [f32; 167936]
    ensures { 167936 ≡ length result }
{
    [0.0; 167936]
}

/// Places for the lanes of 320 counters and queries.
pub fn values_room() -> [f32; 5120]
    ensures { 5120 ≡ length result }
{
    [0.0; 5120]
}

/// Words for a search.
pub fn search_words() -> [u32; 2304]
    ensures { 2304 ≡ length result }
{
    [0; 2304]
}

/// Floats for a search.
pub fn search_floats() -> [f32; 2304]
    ensures { 2304 ≡ length result }
{
    [0.0; 2304]
}
