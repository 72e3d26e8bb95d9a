//! Words at the front of a text.

ghost use Rattle.std.specs.Prelude.{◌≡◌, option_map};
ghost use Rattle.bpf_streams.specs.Words.{behind};

/// What stands behind the word.
pub fn behind<'a>(text: &'a [u8], word: &[u8]) -> Option<&'a [u8]>
    ensures { option_map (λ x. x.now) result ≡ behind word.now text.now }
{
    text.strip_prefix(word)
}
