//! Linux's numbers that programs and maps speak in: error numbers, update flags, helpers and fields of the context.

ghost use Rattle.std.specs.Prelude.{◌≡◌, pos};
ghost use Rattle.semantics.specs.Linux.{errno_code, errno_of, flags_number, update_flags_of, helper_number, helper_of, changes_map};
ghost use Rattle.semantics.specs.Linux.{helper_asks_worker, field_offset, field_at, field_asks_worker};

/// Why a map refuses a call: Linux's error numbers, which a helper answers negated (bpf(2)).
#[derive(Clone, Copy, Debug, PartialEq, Eq)]
pub enum Errno {
    /// The key is absent: -2.
    NoEntry,
    /// The map is full, or the index is out of range: -7.
    TooBig,
    /// No cell is free: -12.
    NoMemory,
    /// The key is there already: -17.
    Exists,
    /// Unknown flags, or a call that the map does not take: -22.
    Invalid,
}

impl Errno {
    /// The answer for the error: Linux's number, negated.
    pub fn code(self) -> i32
        ensures { result ≡ errno_code self }
    {
        match self {
            Errno::NoEntry => -2,
            Errno::TooBig => -7,
            Errno::NoMemory => -12,
            Errno::Exists => -17,
            Errno::Invalid => -22,
        }
    }

    /// The error of an answer, if it is one of the five.
    pub fn of(code: i32) -> Option<Self>
        ensures { result ≡ errno_of code }
    {
        match code {
            -2 => Some(Errno::NoEntry),
            -7 => Some(Errno::TooBig),
            -12 => Some(Errno::NoMemory),
            -17 => Some(Errno::Exists),
            -22 => Some(Errno::Invalid),
            _ => None,
        }
    }
}

/// Which keys an update may set (bpf(2)).
#[derive(Clone, Copy, Debug, PartialEq, Eq)]
pub enum UpdateFlags {
    /// Any key: 0.
    Any,
    /// Only an absent key: 1.
    NoExist,
    /// Only a present key: 2.
    Exist,
}

impl UpdateFlags {
    /// Linux's number of the flags.
    pub fn number(self) -> u64
        ensures { result ≡ flags_number self }
    {
        match self {
            UpdateFlags::Any => 0,
            UpdateFlags::NoExist => 1,
            UpdateFlags::Exist => 2,
        }
    }

    /// The flags of a number, if it is one of the three.
    pub fn of(number: u64) -> Option<Self>
        ensures { result ≡ update_flags_of number }
    {
        match number {
            0 => Some(UpdateFlags::Any),
            1 => Some(UpdateFlags::NoExist),
            2 => Some(UpdateFlags::Exist),
            _ => None,
        }
    }
}

/// A function of the host that a program may call, by Linux's names.
#[derive(Clone, Copy, Debug, PartialEq, Eq)]
pub enum Helper {
    /// The address of a key's value, or 0: 1.
    MapLookupElem,
    /// Sets the value of a key: 2.
    MapUpdateElem,
    /// Removes a key: 3.
    MapDeleteElem,
    /// The time in nanoseconds: 5.
    KtimeGetNs,
    /// The number of the worker that runs: 8.
    GetSmpProcessorId,
    /// Moves the start of the packet: 44.
    XdpAdjustHead,
}

impl Helper {
    /// Linux's number of the helper.
    pub fn number(self) -> i32
        ensures { result ≡ pos (helper_number self) }
    {
        match self {
            Helper::MapLookupElem => 1,
            Helper::MapUpdateElem => 2,
            Helper::MapDeleteElem => 3,
            Helper::KtimeGetNs => 5,
            Helper::GetSmpProcessorId => 8,
            Helper::XdpAdjustHead => 44,
        }
    }

    /// The helper of a number, if it is one of the six.
    pub fn of(number: i32) -> Option<Self>
        ensures { result ≡ helper_of number }
    {
        match number {
            1 => Some(Helper::MapLookupElem),
            2 => Some(Helper::MapUpdateElem),
            3 => Some(Helper::MapDeleteElem),
            5 => Some(Helper::KtimeGetNs),
            8 => Some(Helper::GetSmpProcessorId),
            44 => Some(Helper::XdpAdjustHead),
            _ => None,
        }
    }

    /// Whether it changes a map.
    pub fn changes_map(self) -> bool
        ensures { result ≡ changes_map self }
    {
        match self {
            Helper::MapLookupElem => false,
            Helper::MapUpdateElem => true,
            Helper::MapDeleteElem => true,
            Helper::KtimeGetNs => false,
            Helper::GetSmpProcessorId => false,
            Helper::XdpAdjustHead => false,
        }
    }

    /// Whether its answer depends on the worker that runs.
    pub fn asks_worker(self) -> bool
        ensures { result ≡ helper_asks_worker self }
    {
        match self {
            Helper::MapLookupElem => false,
            Helper::MapUpdateElem => false,
            Helper::MapDeleteElem => false,
            Helper::KtimeGetNs => false,
            Helper::GetSmpProcessorId => true,
            Helper::XdpAdjustHead => false,
        }
    }
}

/// A field of the context, struct xdp_md, that a program may read: four bytes.
#[derive(Clone, Copy, Debug, PartialEq, Eq)]
pub enum ContextField {
    /// The start of the packet: offset 0.
    Data,
    /// The end of the packet: offset 4.
    DataEnd,
    /// The interface that the frame came in by, always 1: offset 12.
    IngressIfindex,
    /// The queue that the frame came in by, the worker's number: offset 16.
    RxQueueIndex,
}

impl ContextField {
    /// Where the field begins in the context.
    pub fn offset(self) -> i16
        ensures { result ≡ pos (field_offset self) }
    {
        match self {
            ContextField::Data => 0,
            ContextField::DataEnd => 4,
            ContextField::IngressIfindex => 12,
            ContextField::RxQueueIndex => 16,
        }
    }

    /// The field that begins at an offset, if there is one.
    pub fn of(offset: i16) -> Option<Self>
        ensures { result ≡ field_at offset }
    {
        match offset {
            0 => Some(ContextField::Data),
            4 => Some(ContextField::DataEnd),
            12 => Some(ContextField::IngressIfindex),
            16 => Some(ContextField::RxQueueIndex),
            _ => None,
        }
    }

    /// Whether what it holds depends on the worker that runs.
    pub fn asks_worker(self) -> bool
        ensures { result ≡ field_asks_worker self }
    {
        match self {
            ContextField::Data => false,
            ContextField::DataEnd => false,
            ContextField::IngressIfindex => false,
            ContextField::RxQueueIndex => true,
        }
    }
}
