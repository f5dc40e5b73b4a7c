//! The characters that no name has.

ghost use Rattle.std.specs.Prelude.{◌≡◌};
ghost use Rattle.place_names.specs.Characters.{ends_barred, has_barred};

/// Whether a text in UTF-8 has a character that no name has.
pub(crate) fn has_barred(text: &[u8]) -> bool
    ensures { result ≡ has_barred 0 0 text.now }
{
    let (mut first, mut second) = (0, 0);
    for byte in text {
        if ends_barred(first, second, *byte) {
            return true;
        }
        first = second;
        second = *byte;
    }
    false
}

/// Whether a byte behind two others is the last one of such a character.
fn ends_barred(first: u8, second: u8, byte: u8) -> bool
    ensures { result ≡ ends_barred first second byte }
{
    byte < 32
        || byte == 127
        || second == 194 && byte < 160
        || first == 226 && second == 128 && (byte == 168 || byte == 169)
        || first == 239 && second == 191 && byte > 189
}
