//! The token of a draft, and what calls answer that take one.
ghost use Rattle.std.specs.Prelude.{◌≡◌};
ghost use Rattle.section.specs.SavingAnswers.{last_draft, owns};

use crate::access::Access;
use refusals::calls::SaveFault;

/// A draft: the mark of its file, and its number among the begins since that was opened.
/// It is spent by commit or abandon; letting it go unspent is refused by the check, and so is its use after it is spent.
#[derive(PartialEq, Eq, Debug)]
pub struct Draft {
    pub(crate) mark: u64,
    pub(crate) number: u64,
}

/// An add gives the draft back, done or refused. A branch tells the ID of the list that it made.
pub struct Added {
    pub draft: Draft,
    pub done: Result<Option<u32>, SaveFault>,
}

/// A commit that is refused gives the draft back.
pub struct NotCommitted {
    pub draft: Draft,
    pub fault: SaveFault,
}

impl Draft {
    /// The mark of its file.
    pub fn mark(&self) -> u64
        ensures { result ≡ self.now.mark }
    {
        self.mark
    }

    /// Its number among the begins since its file was opened.
    pub fn number(&self) -> u64
        ensures { result ≡ self.now.number }
    {
        self.number
    }

    // The draft begun last.
    pub(crate) fn last_of(access: &Access) -> Draft
        ensures { result ≡ last_draft access.now }
    {
        Draft {
            mark: access.mark,
            number: access.begins,
        }
    }

    // Whether it is the draft open in the file of which this is known.
    pub(crate) fn is_open_in(&self, access: &Access) -> bool
        ensures { result ≡ owns access.now self.now }
    {
        access.drafting && self.mark == access.mark && self.number == access.begins
    }

    // The end of a draft: only commit and abandon spend one.
    pub(crate) fn spend(self) {
        let Draft { mark: _, number: _ } = self;
    }
}
