// What a text says at a place, read where it stands: a word of a list, a case of an enum, a number. Each comes with the place behind
// it and the byte that ends it.
ghost use Rattle.std.specs.Prelude.{◌≡◌, map};
ghost use Rattle.text.specs.Words.{word_from};
ghost use Rattle.job.specs.Inner.{told_word, told_case, counted_at};

use units::Coded;

// The place of the word in its list.
pub fn word(s: &[u8], at: usize, words: &[&[u8]], end: u8) -> Option<(usize, usize)>
    ensures { result ≡ told_word (word_from (map (λ w. w.now) words.now) end s.now at 0) }
{
    let step = text::word_at(words, s, at, end);
    Some((step.place?, step.next))
}

// The case at that place.
pub fn case<T: Coded>(s: &[u8], at: usize, words: &[&[u8]], end: u8) -> Option<(T, usize)>
    ensures { result ≡ told_case T.cases (word_from (map (λ w. w.now) words.now) end s.now at 0) }
{
    let (place, next) = word(s, at, words, end)?;
    Some((*T::cases().get(place)?, next))
}

// The number, which a line feed ends.
#[tactic(auto, using(crate::proofs::Valued::number_unended, crate::proofs::Valued::number_unread, crate::proofs::Valued::number_read))]
pub fn number(s: &[u8], at: usize) -> Option<(u64, usize)>
    ensures { result ≡ counted_at s.now at }
{
    let end = text::next(s, b'\n', at);
    if s.len() <= end {
        return None;
    }
    Some((text::number(text::part(s, at, end))?, end + 1))
}
