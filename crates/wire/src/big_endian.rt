//! Numbers of 16 bits as headers have them: high byte first (RFC 791, appendix B).

ghost use Rattle.std.specs.Prelude.{◌≡◌, ◌+◌, ◌/◌, ◌%◌, ◌<◌, length, slice_index};
ghost use Rattle.wire.specs.BigEndian.{be_word_at};
ghost use Rattle.wire.specs.FlowBytes.{be_bytes};

/// The two bytes of a number, high byte first.
pub fn be_bytes(word: u16) -> [u8; 2]
    ensures { result ≡ be_bytes word }
{
    [(word / 256) as u8, (word % 256) as u8]
}

/// The 16-bit number at an index, high byte first.
pub fn word_at(bytes: &[u8], at: usize) -> u16
    requires { at + 1 < length bytes.now }
    ensures word { result ≡ be_word_at at bytes.now }
    ensures high { result / 256 ≡ slice_index bytes.now at }
    ensures low { result % 256 ≡ slice_index bytes.now (at + 1) }
{
    u16::from(bytes[at]) * 256 + u16::from(bytes[at + 1])
}
