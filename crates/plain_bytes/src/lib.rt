// Passing over the plain bytes of a text, eight at a time. A word holds eight bytes, the first lowest; bit 7 of each of its bytes answers a
// question of that byte, so that one sum or one `&` asks it of all eight.
#![tactic(auto)]

ghost use Rattle.std.specs.Prelude.{ℕ, Bool, ◌≡◌, ◌+◌, ◌*◌, ◌/◌, ◌^◌, ◌≤◌, ◌<◌, length};
ghost use Rattle.std.specs.Int.Count.{count_trailing_zeros};
ghost use Rattle.text.specs.Text.{same};
ghost use Rattle.plain_bytes.specs.Scan.{is_text_run, is_value_run, is_comment_run, is_section_run, is_one, Skips};
ghost use Rattle.plain_bytes.specs.Words.{WordAt, ones, others, plains, stops, text_stops, value_stops, comment_stops, section_stops, one_stops};
ghost use Rattle.plain_bytes.specs.Laws.Finds.{Finds, text-finds, value-finds, comment-finds, section-finds, space-finds, tab-finds};

// The same byte eight times: 1, and bit 7 alone.
const ONES: u64 = 0x0101010101010101;

const TOPS: u64 = 128 * ONES;

// The eight bytes from `at` on.
fn word_at(text: &[u8], at: usize) -> u64
    requires { at + 8 ≤ length text.now }
    ensures { WordAt text.now at result }
{
    u64::from_le_bytes(*text[at..].first_chunk().unwrap())
}

// Bit 7 where a byte of x, below 128, is not c. The bound is a clause and no type: each sum takes the number alone, and `skip` alone tests it.
fn others(x: u64, c: u8) -> u64
    requires { (x < 2 ^ 63) × (c < 128) }
    ensures { result ≡ others c ones x }
{
    (x ^ ((c as u64) * ONES)) + 127 * ONES
}

// Bit 7 where a byte of x, below 128, is at least 32, or 9 or 10.
#[tactic(auto, unfolding(crate::specs::Words::plains))]
fn plains(x: u64) -> u64
    requires { x < 2 ^ 63 }
    ensures { result ≡ plains ones x }
{
    (x + 96 * ONES) | ((x + 119 * ONES) ^ (x + 117 * ONES))
}

// Bit 7 alone, where that of x is not set.
#[tactic(auto, unfolding(crate::specs::Words::stops))]
fn stops(x: u64) -> u64
    ensures { result ≡ stops ones x }
{
    (x & TOPS) ^ TOPS
}

// A run of bytes: which bytes belong to it, and the stops of a word.
pub trait Run {
    ghost is_in: { ℕ → Bool };

    ghost stops_of: { ℕ → ℕ → ℕ };

    // Not 0 where a byte of x, below 128, is not of the run, and 0 below.
    fn stops(x: u64) -> u64
        requires { x < 2 ^ 63 }
        ensures { result ≡ stops_of ones x };

    ghost finds: { Finds stops_of is_in };
}

// The bytes that text holds with nothing to look at.
pub struct TextRun;

impl Run for TextRun {
    ghost is_in = { is_text_run };

    ghost stops_of = { text_stops };

    ghost finds = { text-finds };

    #[tactic(auto, unfolding(crate::specs::Words::text_stops))]
    fn stops(x: u64) -> u64 {
        stops(others(x, 60) & others(x, 38) & others(x, 93) & plains(x))
    }
}

// The same of an attribute's value.
pub struct ValueRun;

impl Run for ValueRun {
    ghost is_in = { is_value_run };

    ghost stops_of = { value_stops };

    ghost finds = { value-finds };

    #[tactic(auto, unfolding(crate::specs::Words::value_stops))]
    fn stops(x: u64) -> u64 {
        stops((x + 88 * ONES) & others(x, 60))
    }
}

// The same of a comment.
pub struct CommentRun;

impl Run for CommentRun {
    ghost is_in = { is_comment_run };

    ghost stops_of = { comment_stops };

    ghost finds = { comment-finds };

    #[tactic(auto, unfolding(crate::specs::Words::comment_stops))]
    fn stops(x: u64) -> u64 {
        stops(others(x, 45) & plains(x))
    }
}

// The same of a section.
pub struct SectionRun;

impl Run for SectionRun {
    ghost is_in = { is_section_run };

    ghost stops_of = { section_stops };

    ghost finds = { section-finds };

    #[tactic(auto, unfolding(crate::specs::Words::section_stops))]
    fn stops(x: u64) -> u64 {
        stops(others(x, 93) & plains(x))
    }
}

// Spaces alone, of which each test takes one step: the bytes that differ from a space are the stops.
pub struct SpaceRun;

impl Run for SpaceRun {
    ghost is_in = { is_one 32 };

    ghost stops_of = { one_stops 32 };

    ghost finds = { space-finds };

    #[tactic(auto, unfolding(crate::specs::Words::one_stops))]
    fn stops(x: u64) -> u64 {
        x ^ (32 * ONES)
    }
}

// Tabs alone.
pub struct TabRun;

impl Run for TabRun {
    ghost is_in = { is_one 9 };

    ghost stops_of = { one_stops 9 };

    ghost finds = { tab-finds };

    #[tactic(auto, unfolding(crate::specs::Words::one_stops))]
    fn stops(x: u64) -> u64 {
        x ^ (9 * ONES)
    }
}

// How many bytes stand below the lowest stop.
fn bytes_below(found: u64) -> usize
    ensures { (result ≡ count_trailing_zeros 64 found / 8) × (result ≤ 8) }
{
    (u64::trailing_zeros(found) / 8) as usize
}

// To a byte that is not of the run, or to a place from which there is no whole word. No `for` over `as_chunks`: with one the tape took up to two hundredths more instructions (the bar: the tape
// is no slower in compare/CALLS.md).
pub fn skip<R: Run>(text: &[u8], at: usize) -> usize
    ensures { Skips R.is_in text.now at result }
{
    let mut i = at;
    if text.len() < at {
        return at;
    }
    while 8 <= text.len() - i {
        let w = word_at(text, i);
        if w & TOPS != 0 {
            return i;
        }
        let found = R::stops(w);
        if found != 0 {
            return i + bytes_below(found);
        }
        i += 8;
    }
    i
}

// Whether two short parts of one length have the same bytes.
fn same_few(x: &[u8], y: &[u8]) -> bool
    requires { length x.now ≡ length y.now }
    ensures { result ≡ same x.now y.now }
{
    for k in 0..x.len() {
        if x[k] != y[k] {
            return false;
        }
    }
    true
}

// Whether two parts of one length have the same bytes, eight at a time. The last eight are looked at together, some of them for the second time.
pub fn same_bytes(x: &[u8], y: &[u8]) -> bool
    requires { length x.now ≡ length y.now }
    ensures { result ≡ same x.now y.now }
{
    if x.len() < 8 {
        return same_few(x, y);
    }
    let mut i = 0;
    while 8 <= x.len() - i {
        if word_at(x, i) != word_at(y, i) {
            return false;
        }
        i += 8;
    }
    let last = x.len() - 8;
    word_at(x, last) == word_at(y, last)
}

// Copies fewer than four bytes.
fn copy_few(out: &mut [u8], bytes: &[u8])
    requires { length out.old ≡ length bytes.now }
    ensures { out.new ≡ bytes.now }
{
    for k in 0..bytes.len() {
        out[k] = bytes[k];
    }
}

// Copies fewer than eight bytes: from four on the first and the last four, some of them twice.
fn copy_short(out: &mut [u8], bytes: &[u8])
    requires { (length out.old ≡ length bytes.now) × (length bytes.now < 8) }
    ensures { out.new ≡ bytes.now }
{
    let n = bytes.len();
    if n < 4 {
        return copy_few(out, bytes);
    }
    out[..4].copy_from_slice(&bytes[..4]);
    out[n - 4..].copy_from_slice(&bytes[n - 4..]);
}

// Copies bytes into a part of their length, eight at a time, the last eight together, some of them twice. std's method does not take its place where the length is known only
// when it runs: it calls memmove there, and of the C library the archive uses memset alone.
pub fn copy_bytes(out: &mut [u8], bytes: &[u8])
    requires { length out.old ≡ length bytes.now }
    ensures { out.new ≡ bytes.now }
{
    let n = bytes.len();
    if n < 8 {
        return copy_short(out, bytes);
    }
    for k in 0..n / 8 {
        out[8 * k..8 * k + 8].copy_from_slice(&bytes[8 * k..8 * k + 8]);
    }
    out[n - 8..].copy_from_slice(&bytes[n - 8..]);
}
