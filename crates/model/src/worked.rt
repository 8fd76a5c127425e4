//! Constants worked out by hand from the format's rules, and the one result that the definitions give each of them.
ghost use Rattle.std.specs.Prelude.{◌≡◌, true};
ghost use Rattle.model.specs.Worked.{all_hold};

/// What a worked constant is about; `first` and `second` are its arguments.
#[derive(Clone, Copy, Debug)]
pub enum Rule {
    /// The fields of a node's first four bytes.
    NodeId,
    NodeSize,
    StartFormat,
    SizeFormat,
    BaseType,
    TopBit,
    /// The reference behind a node's first four bytes, of which the three next bytes are `second`.
    ReferenceStart,
    ReferenceSize,
    /// Whether these four bytes are a terminator.
    IsTerminator,
    /// Whether a node or terminator may follow where `first` bytes are free.
    NodeMayFollow,
    /// How many writes a node makes that does not fit, where `first` bytes are free.
    SpillWrites,
    /// How many entries a log fragment of this size holds, and where its next reference stands.
    LogEntries,
    LogNext,
    /// How many bytes of nodes a list fragment of this size takes.
    NodeRoom,
    /// Whether two fragments of 1,024 bytes from these starts share a byte.
    Overlap,
    /// The refusal of a log that counts a list first so and then so; 0 for none.
    SecondCount,
    /// The refusal of a look to `second` where the count is `first`; 0 for none.
    LookBack,
}

/// A rule, its arguments, and the value it gives.
#[derive(Clone, Copy, Debug)]
pub struct Worked {
    pub rule: Rule,
    pub first: u64,
    pub second: u64,
    pub value: u64,
}

const WORKED: [Worked; 28] = [
    Worked {
        rule: Rule::NodeId,
        first: 0x9500_6C08,
        second: 0,
        value: 8,
    },
    Worked {
        rule: Rule::NodeSize,
        first: 0x9500_6C08,
        second: 0,
        value: 27,
    },
    Worked {
        rule: Rule::StartFormat,
        first: 0x9500_6C08,
        second: 0,
        value: 2,
    },
    Worked {
        rule: Rule::SizeFormat,
        first: 0x9500_6C08,
        second: 0,
        value: 2,
    },
    Worked {
        rule: Rule::BaseType,
        first: 0x9500_6C08,
        second: 0,
        value: 2,
    },
    Worked {
        rule: Rule::TopBit,
        first: 0x9500_6C08,
        second: 0,
        value: 1,
    },
    Worked {
        rule: Rule::ReferenceStart,
        first: 0x9500_6C08,
        second: 0x24_0180,
        value: 3072,
    },
    Worked {
        rule: Rule::ReferenceSize,
        first: 0x9500_6C08,
        second: 0x24_0180,
        value: 288,
    },
    Worked {
        rule: Rule::IsTerminator,
        first: 0x8000_10FF,
        second: 0,
        value: 1,
    },
    Worked {
        rule: Rule::NodeSize,
        first: 0x8000_10FF,
        second: 0,
        value: 4,
    },
    Worked {
        rule: Rule::NodeMayFollow,
        first: 4,
        second: 0,
        value: 1,
    },
    Worked {
        rule: Rule::NodeMayFollow,
        first: 3,
        second: 0,
        value: 0,
    },
    Worked {
        rule: Rule::SpillWrites,
        first: 4,
        second: 0,
        value: 3,
    },
    Worked {
        rule: Rule::SpillWrites,
        first: 3,
        second: 0,
        value: 2,
    },
    Worked {
        rule: Rule::LogEntries,
        first: 1024,
        second: 0,
        value: 126,
    },
    Worked {
        rule: Rule::LogNext,
        first: 1024,
        second: 0,
        value: 1008,
    },
    Worked {
        rule: Rule::LogEntries,
        first: 12,
        second: 0,
        value: 0,
    },
    Worked {
        rule: Rule::LogNext,
        first: 12,
        second: 0,
        value: 0,
    },
    Worked {
        rule: Rule::NodeRoom,
        first: 1024,
        second: 0,
        value: 988,
    },
    Worked {
        rule: Rule::NodeRoom,
        first: 36,
        second: 0,
        value: 0,
    },
    Worked {
        rule: Rule::Overlap,
        first: 1024,
        second: 2048,
        value: 0,
    },
    Worked {
        rule: Rule::Overlap,
        first: 1024,
        second: 2047,
        value: 1,
    },
    Worked {
        rule: Rule::SecondCount,
        first: 3,
        second: 4,
        value: 0,
    },
    Worked {
        rule: Rule::SecondCount,
        first: 3,
        second: 3,
        value: 7,
    },
    Worked {
        rule: Rule::LookBack,
        first: 2,
        second: 0,
        value: 25,
    },
    Worked {
        rule: Rule::LookBack,
        first: 2,
        second: 1,
        value: 0,
    },
    Worked {
        rule: Rule::LookBack,
        first: 2,
        second: 2,
        value: 0,
    },
    Worked {
        rule: Rule::LookBack,
        first: 2,
        second: 3,
        value: 25,
    },
];

/// The worked constants; the definitions give each its value.
#[tactic(auto, unfolding(crate::specs::Examples::computed))]
pub fn worked_constants() -> [Worked; 28]
    ensures { all_hold result ≡ true }
{
    WORKED
}
