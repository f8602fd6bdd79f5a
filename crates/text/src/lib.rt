// Texts and nothing of jobs: parts of a text, the pieces between a byte, a key or a word of a list where it stands, a number's digits.
#![tactic(auto)]

ghost use Rattle.std.specs.Prelude.{◌≡◌, ◌+◌, ◌≤◌, min, max, [], ◌∷◌, ◌++◌, length, drop, map};
ghost use Rattle.text.specs.Part.{Part};
ghost use Rattle.text.specs.Pieces.{index_of, next_of, start_of};
ghost use Rattle.text.specs.Words.{same_of, agreed_of, opens_of, behind_of, unread, word_from};
ghost use Rattle.text.specs.Numbers.{most_digits, leading_zero, digits_from, numeral_of};

// A word read where it stands: its place in its list, and the place behind it and the byte that ends it. No Option of both: the
// definition word_from gives the end of the text behind a word that does not stand there.
#[derive(Clone, Copy)]
pub struct WordStep {
    pub place: Option<usize>,
    pub next: usize,
}

// The most digits that a number may have.
pub const MOST_DIGITS: usize = 14;

// The part of s from one place up to, and without, another.
pub fn part(s: &[u8], from: usize, to: usize) -> &[u8]
    ensures { Part s.entry from to result }
{
    let end = s.len();
    let start = from.min(end);
    let stop = start.max(to.min(end));
    &s[start..stop]
}

// The place of the first b in s, or the length of s where there is none.
fn first(s: &[u8], b: u8) -> usize
    ensures { result ≡ index_of b s.now }
{
    s.iter().position(|x| *x == b).unwrap_or(s.len())
}

// The place of the first b at a place of s or behind it, or the end of s where there is none; a place behind the end itself. The end and
// no Option: a line that nothing ends runs up to there (line_span of job, wrong_behind of review).
pub fn next(s: &[u8], b: u8, from: usize) -> usize
    ensures { result ≡ next_of b s.now from }
{
    from + first(part(s, from, s.len()), b)
}

// The place at which piece k of s between b begins, counted from 0: the end of s where there are fewer, and no Option, since start_of says
// so.
#[tactic(auto, using(crate::proofs::Splitting::start_first, crate::proofs::Splitting::start_next, crate::proofs::Splitting::start_there))]
pub fn start(s: &[u8], b: u8, k: usize) -> usize
    ensures { result ≡ start_of b s.now k }
{
    let mut from = 0;
    for _ in 0..k {
        let at = next(s, b, from);
        if s.len() <= at {
            return s.len();
        }
        from = at + 1;
    }
    from
}

// How many bytes two texts have in common from their start. Both are cut to the length of the shorter, so that a turn has one end to test.
pub fn agreed(s: &[u8], t: &[u8]) -> usize
    ensures { result ≡ length (agreed_of s.now t.now) }
{
    let both = s.len().min(t.len());
    let pairs = s[..both].iter().zip(&t[..both]);
    pairs.take_while(|(x, y)| x == y).count()
}

// The key stands in s at a place. Keys are constants, for which the compiler folds starts_with; the words of a list are compared by opens.
#[tactic(auto, using(crate::proofs::Front::stands_there, crate::proofs::Front::opens_there))]
fn stands(s: &[u8], at: usize, key: &[u8]) -> bool
    ensures { result ≡ opens_of key.now (drop at s.now) }
{
    part(s, at, s.len()).starts_with(key)
}

// The place behind the key that stands in s at a place: the end of s where it does not stand there, and no Option, since behind_of says
// so. A text and a place in it travel apart from one another, as its definitions have them, and not as a rest of the text.
#[tactic(auto, using(crate::proofs::Front::stands_within, crate::proofs::Front::behind_there, crate::proofs::Front::behind_none))]
pub fn behind(s: &[u8], at: usize, key: &[u8]) -> usize
    ensures { result ≡ behind_of key.now s.now at }
{
    if stands(s, at, key) {
        at + key.len()
    } else {
        s.len()
    }
}

// s opens with a word. A loop, and not the library's starts_with, which the compiler leaves a call at the words of a list: this one is
// folded into the reading of each list.
#[tactic(auto, using(crate::proofs::Front::opens_short, crate::proofs::Front::opening_none, crate::proofs::Front::opening_not, crate::proofs::Front::opening_next, crate::proofs::Front::opening_all))]
fn opens(s: &[u8], word: &[u8]) -> bool
    ensures { result ≡ opens_of word.now s.now }
{
    if s.len() < word.len() {
        return false;
    }
    for (i, x) in word.iter().enumerate() {
        if s[i] != *x {
            return false;
        }
    }
    true
}

// A word stands in s at a place, with the byte that ends it behind it.
fn ends(s: &[u8], at: usize, word: &[u8], end: u8) -> bool
    ensures { result ≡ opens_of (word.now ++ (end ∷ [])) (drop at s.now) }
{
    opens(part(s, at, s.len()), word) && s.get(at + word.len()) == Some(&end)
}

// No word of a list stands there.
fn unread(s: &[u8]) -> WordStep
    ensures { result ≡ unread s.now }
{
    WordStep {
        place: None,
        next: s.len(),
    }
}

// The word of a list that stands in s at a place, with a byte that ends it.
pub fn word_at(words: &[&[u8]], s: &[u8], at: usize, end: u8) -> WordStep
    ensures { result ≡ word_from (map (λ w. w.now) words.now) end s.now at 0 }
{
    for (k, word) in words.iter().enumerate() {
        if ends(s, at, word, end) {
            return WordStep {
                place: Some(k),
                next: at + word.len() + 1,
            };
        }
    }
    unread(s)
}

// The number that s says: 1 to 14 digits, with no leading zero except 0 itself.
#[tactic(auto, using(crate::proofs::Reading::number_long, crate::proofs::Reading::number_empty, crate::proofs::Reading::number_led, crate::proofs::Reading::number_one, crate::proofs::Reading::number_read))]
pub fn number(s: &[u8]) -> Option<u64>
    ensures { result ≡ numeral_of s.now }
{
    match s {
        _ if MOST_DIGITS < s.len() => None,
        [] | [b'0', _, ..] => None,
        _ => digits(s),
    }
}

// The number that the digits of s make.
fn digits(s: &[u8]) -> Option<u64>
    requires { length s.now ≤ most_digits }
    ensures { result ≡ digits_from s.now 0 }
{
    let mut v = 0;
    for &x in s {
        if !x.is_ascii_digit() {
            return None;
        }
        v = v * 10 + u64::from(x - b'0');
    }
    Some(v)
}
