// Rules, "A soil that is not known": a stored job text rewritten in the caller's own buffer, C for U where it reads.
#![tactic(auto)]

ghost use Rattle.std.specs.Prelude.{◌≡◌, map};
ghost use Rattle.rewrite.specs.Rewriting.{c_for_u, rewritten_of};

// C for U, and every other byte as it is.
fn c_for_u(byte: u8) -> u8
    ensures { result ≡ c_for_u byte }
{
    if byte == b'U' { b'C' } else { byte }
}

// Writes C for each U of a text.
fn write_c(text: &mut [u8])
    ensures { text.new ≡ map c_for_u text.old }
{
    for byte in text.iter_mut() {
        *byte = c_for_u(*byte);
    }
}

// A text that reads is rewritten; any other is left as it came.
#[tactic(auto, using(crate::proofs::Changing::rewritten_read, crate::proofs::Changing::rewritten_kept))]
pub fn rewrite(text: &mut [u8])
    ensures { text.new ≡ rewritten_of text.old }
{
    if job::read(text).is_ok() {
        write_c(text);
    }
}
