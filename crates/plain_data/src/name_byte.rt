//! The bytes of names.
ghost use Rattle.std.specs.Prelude.{◌≡◌};
ghost use Rattle.plain_data.specs.NameByte.{is_name_byte};

/// Returns whether a byte may be in the name of an attribute or of a tag: an ASCII letter, a digit,
/// `_` or `-` (Shortcode API, get_shortcode_atts_regex).
pub fn is_name_byte(byte: u8) -> bool
    ensures { result ≡ is_name_byte byte }
{
    byte.is_ascii_alphanumeric() || byte == b'_' || byte == b'-'
}
