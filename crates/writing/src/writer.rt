// Rules, "Job and answer text": texts, numbers and words put into a lent buffer, each right behind those before it.
ghost use Rattle.std.specs.Prelude.{◌≡◌, ◌≤◌, length};

// A lent buffer that is written from its start on, and the place up to which it is written.
#[derive(Drop)]
pub struct Writer<'a> {
    pub buf: &'a mut [u8],
    pub at: usize,
    ghost inside: { at ≤ length buf.now },
}

#[tactic(auto, using(crate::proofs::Adding::put_added, crate::proofs::Adding::put_fits, crate::proofs::Adding::put_inside))]
impl<'a> Writer<'a> {
    ghost use Rattle.std.specs.Prelude.{[], ◌∷◌, ◌++◌, map};
    ghost use Rattle.text.specs.Numbers.{decimal_of};
    ghost use Rattle.writing.specs.Lines.{word_at};
    ghost use Rattle.writing.specs.Writer.{so_far, added};

    // One that has written nothing.
    pub fn new(buf: &'a mut [u8]) -> Writer<'a>
        ensures same { result.buf.ghost_name ≡ buf.entry.ghost_name }
        ensures value { so_far result ≡ (buf.old, 0) }
    {
        Writer { buf, at: 0 }
    }

    // Puts a key, the digits of n and the byte that ends them behind what is written, or nothing where they don't fit.
    pub fn number(&mut self, key: &[u8], n: u64, end: u8)
        ensures same { self.new.buf.ghost_name ≡ self.old.buf.ghost_name }
        ensures value { so_far self.new ≡ added (so_far self.old) (key.now ++ decimal_of n ++ (end ∷ [])) }
    {
        self.at += crate::put_ended_number(key, n, end, &mut self.buf[self.at..]);
    }

    // The same with the word at place k of a list.
    pub fn word(&mut self, key: &[u8], words: &[&[u8]], k: usize, end: u8)
        ensures same { self.new.buf.ghost_name ≡ self.old.buf.ghost_name }
        ensures value { so_far self.new ≡ added (so_far self.old) (key.now ++ word_at (map (λ w. w.now) words.now) k ++ (end ∷ [])) }
    {
        self.at += crate::put_ended_word(key, words, k, end, &mut self.buf[self.at..]);
    }
}
