//! The forms of the numbers in a node's reference.
ghost use Rattle.std.specs.Prelude.{◌≡◌, ◌*◌, ◌^◌, ◌<◌, ◌≤◌, length};
ghost use Rattle.model.specs.Bytes.{le};
ghost use Rattle.model.specs.References.{start_width, size_width, unit};

/// What a format says of a number: how many bytes it takes, and what it counts in. No such number passes 64 bits.
#[derive(Clone, Copy, PartialEq, Eq, Debug)]
pub(crate) struct Form {
    pub width: usize,
    pub unit: u64,
    ghost few: { width ≤ 8 },
    ghost fits: { unit * 256 ^ width ≤ 2 ^ 64 },
}

// The forms of a start, by the format.
const START_FORMS: [Form; 4] = [
    Form { width: 8, unit: 1 },
    Form { width: 4, unit: 1 },
    Form { width: 2, unit: 8 },
    Form { width: 4, unit: 8 },
];

// The forms of a size, by the format.
const SIZE_FORMS: [Form; 4] = [
    Form { width: 4, unit: 1 },
    Form { width: 8, unit: 1 },
    Form { width: 1, unit: 8 },
    Form { width: 2, unit: 8 },
];

impl Form {
    ghost use Rattle.format.specs.Forms.{IsFormOf};

    // The form of a format; one past 3 counts as 3.
    fn of(forms: &[Form; 4], format: u32) -> Form
        ensures { IsFormOf forms.now format result }
    {
        forms[format.min(3) as usize]
    }

    /// The form of a start in this format.
    #[tactic(auto, using(crate::proofs::FormSteps::said_width, crate::proofs::FormSteps::said_unit))]
    pub(crate) fn of_start(format: u32) -> Form
        ensures width { result.width ≡ start_width format }
        ensures unit { result.unit ≡ unit format }
    {
        Form::of(&START_FORMS, format)
    }

    /// The form of a size in this format.
    #[tactic(auto, using(crate::proofs::FormSteps::said_width, crate::proofs::FormSteps::said_unit))]
    pub(crate) fn of_size(format: u32) -> Form
        ensures width { result.width ≡ size_width format }
        ensures unit { result.unit ≡ unit format }
    {
        Form::of(&SIZE_FORMS, format)
    }

    /// The number in the bytes that it takes.
    pub(crate) fn read(self, bytes: &[u8]) -> u64
        requires { length bytes.now ≡ self.width }
        ensures { result ≡ self.unit * le self.width bytes.now 0 }
    {
        self.unit * number(bytes)
    }
}

/// The number of at most eight bytes, the lowest byte first.
pub(crate) fn number(bytes: &[u8]) -> u64
    requires { length bytes.now ≤ 8 }
    ensures value { result ≡ le (length bytes.now) bytes.now 0 }
    ensures bound { result < 256 ^ length bytes.now }
{
    let mut eight = [0; 8];
    eight[..bytes.len()].copy_from_slice(bytes);
    u64::from_le_bytes(eight)
}
