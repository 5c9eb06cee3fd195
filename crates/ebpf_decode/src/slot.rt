//! A slot of eight bytes, by its fields.

ghost use Rattle.std.specs.Prelude.{◌≡◌, ◌≤◌, ◌<◌, length};
ghost use Rattle.ebpf_decode.specs.SlotForm.{slot_at, same_slot};

/// The fields of a slot, before they are read as an instruction (RFC 9669, section 3).
#[derive(Clone, Copy, Debug, PartialEq, Eq)]
pub struct CodeSlot {
    /// Class, operation and source, or class, mode and size.
    pub opcode: u8,
    /// The low four bits of the second byte.
    pub dst: u8,
    /// The high four bits of the second byte.
    pub src: u8,
    pub offset: i16,
    pub immediate: i32,
}

impl CodeSlot {
    /// The first slot of the bytes.
    pub(crate) fn of(bytes: &[u8]) -> CodeSlot
        requires { 8 ≤ length bytes.now }
        ensures { result ≡ slot_at bytes.now }
    {
        CodeSlot {
            opcode: bytes[0],
            dst: bytes[1] % 16,
            src: bytes[1] / 16,
            offset: i16::from_le_bytes([bytes[2], bytes[3]]),
            immediate: i32::from_le_bytes([bytes[4], bytes[5], bytes[6], bytes[7]]),
        }
    }

    /// Whether all fields are the same.
    pub(crate) fn is_same(self, other: CodeSlot) -> bool
        ensures { result ≡ same_slot self other }
    {
        self.opcode == other.opcode
            && self.dst == other.dst
            && self.src == other.src
            && self.offset == other.offset
            && self.immediate == other.immediate
    }
}
