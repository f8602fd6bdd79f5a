// Rules, "Job and answer text" and "The numbers given back": a text, a word of a list and a number's digits, put at the start of a
// lent buffer.
#![tactic(auto)]

ghost use Rattle.std.specs.Prelude.{◌≡◌, ◌+◌, ◌≤◌, ◌<◌, [], ◌∷◌, ◌++◌, length, map};
ghost use Rattle.text.specs.Numbers.{digit_zero, decimal_of};
ghost use Rattle.writing.specs.Writing.{put_length, buffer_of};
ghost use Rattle.writing.specs.Lines.{word_at};

use refusal::Refusal;

mod writer;

pub use writer::Writer;

// How many digits n has: one more than the tens that it is divided by, and one where it is 0.
#[tactic(auto, using(crate::proofs::Digits::length_one, crate::proofs::Digits::power_digits))]
pub fn width(n: u64) -> usize
    ensures { (result ≡ length (decimal_of n)) × (result ≤ 20) }
{
    n.checked_ilog10().map_or(1, |k| k as usize + 1)
}

// Puts a text at the start of buf and answers its length, or 0 where buf is shorter, which then stays as it was: put_length says 0, of an
// empty text too, and so there is no Option. Byte by byte, since the library's copy can become a call of memmove, for which the archive
// for C would have to ask.
#[tactic(auto, using(crate::proofs::Writing::refused_length, crate::proofs::Writing::refused_buffer, crate::proofs::Copying::copied_none, crate::proofs::Copying::copied_next, crate::proofs::Copying::copied_length, crate::proofs::Copying::copied_buffer))]
pub fn put(s: &[u8], buf: &mut [u8]) -> usize
    ensures value { result ≡ put_length buf.old s.now }
    ensures buf_after { buf.new ≡ buffer_of buf.old s.now }
{
    if buf.len() < s.len() {
        return 0;
    }
    for (at, byte) in s.iter().enumerate() {
        buf[at] = *byte;
    }
    s.len()
}

// The word at place k of a list, counted from 0: nothing where there is none.
fn word<'a>(words: &[&'a [u8]], k: usize) -> &'a [u8]
    ensures { result.now ≡ word_at (map (λ w. w.now) words.now) k }
{
    words.get(k).copied().unwrap_or(b"")
}

// The length of that word.
pub fn word_size(words: &[&[u8]], k: usize) -> usize
    ensures { result ≡ length (word_at (map (λ w. w.now) words.now) k) }
{
    word(words, k).len()
}

// Puts that word at the start of buf.
pub fn put_word(words: &[&[u8]], k: usize, buf: &mut [u8]) -> usize
    ensures value { result ≡ put_length buf.old (word_at (map (λ w. w.now) words.now) k) }
    ensures buf_after { buf.new ≡ buffer_of buf.old (word_at (map (λ w. w.now) words.now) k) }
{
    put(word(words, k), buf)
}

// The same for the digits of n: how many there are is worked out first, and they fill the part of buf that is lent on.
// A single one is stored without that.
#[tactic(auto, using(crate::proofs::Digits::one_put, crate::proofs::Digits::digit_buffer))]
pub fn put_number(n: u64, buf: &mut [u8]) -> usize
    ensures value { result ≡ put_length buf.old (decimal_of n) }
    ensures buf_after { buf.new ≡ buffer_of buf.old (decimal_of n) }
{
    if n < 10 && 0 < buf.len() {
        buf[0] = digit(n);
        return 1;
    }
    let digits = width(n);
    if buf.len() < digits {
        return 0;
    }
    fill(n, &mut buf[..digits]);
    digits
}

// A key, a number and the byte that ends it, in one. The digits are put first, into what is left behind the room for the key and before
// that for the last byte: there is at least one, and none is put where they do not fit.
#[tactic(auto, using(crate::proofs::Ended::short_length, crate::proofs::Ended::short_buffer, crate::proofs::Ended::unput_length, crate::proofs::Ended::unput_buffer, crate::proofs::Digits::some_digit, crate::proofs::Ended::put_fits, crate::proofs::Ended::put_inside, crate::proofs::Ended::end_fits, crate::proofs::Ended::put_length_told, crate::proofs::Ended::put_buffer_told))]
fn put_ended_number(key: &[u8], n: u64, end: u8, buf: &mut [u8]) -> usize
    ensures value { result ≡ put_length buf.old (key.now ++ decimal_of n ++ (end ∷ [])) }
    ensures buf_after { buf.new ≡ buffer_of buf.old (key.now ++ decimal_of n ++ (end ∷ [])) }
{
    let value = key.len();
    let room = buf.len();
    if room <= value {
        return 0;
    }
    let digits = put_number(n, &mut buf[value..room - 1]);
    if digits == 0 {
        return 0;
    }
    put(key, &mut buf[..value]);
    let last = value + digits;
    buf[last] = end;
    last + 1
}

// A key, the word at place k of a list and the byte that ends it.
#[tactic(auto, using(crate::proofs::Ended::no_room_length, crate::proofs::Ended::no_room_buffer, crate::proofs::Ended::ended_length, crate::proofs::Ended::ended_part))]
fn put_ended_word(key: &[u8], words: &[&[u8]], k: usize, end: u8, buf: &mut [u8]) -> usize
    ensures value { result ≡ put_length buf.old (key.now ++ word_at (map (λ w. w.now) words.now) k ++ (end ∷ [])) }
    ensures buf_after { buf.new ≡ buffer_of buf.old (key.now ++ word_at (map (λ w. w.now) words.now) k ++ (end ∷ [])) }
{
    let value = key.len();
    let last = value + word(words, k).len();
    if buf.len() <= last {
        return 0;
    }
    put(key, &mut buf[..value]);
    put_word(words, k, &mut buf[value..last]);
    buf[last] = end;
    last + 1
}

// Fills a part that is as long as the digits of n with them, from the last to the first. write! wants memory or a writer that can refuse,
// and iter_mut().rev() does not tell which place holds what.
fn fill(n: u64, part: &mut [u8])
    requires { length part.old ≡ length (decimal_of n) }
    ensures { part.new ≡ decimal_of n }
{
    let mut rest = n;
    for at in (0..part.len()).rev() {
        part[at] = digit(rest % 10);
        rest = rest / 10;
    }
}

// The digit of a number below ten.
fn digit(n: u64) -> u8
    requires { n < 10 }
    ensures { result ≡ digit_zero + n }
{
    b'0' + n as u8
}
