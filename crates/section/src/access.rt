//! What is known of an opened file besides its tables.
ghost use Rattle.std.specs.Prelude.{◌≡◌, ◌*◌, ◌/◌, ◌^◌, ◌<◌, ◌≤◌};
ghost use Rattle.section.specs.Figures.{figures_known};
ghost use Rattle.section.specs.SavingAnswers.{with_draft, without_draft};

use committing::log_end::LogEnd;
use model::types::Header;
use refusals::calls::SaveFault;

/// The mark that the file was opened with; how many drafts were begun since, and whether the last is open; the header's fields;
/// where the log ends; how many fragments there are, and how many bytes these and the header have; and the highest list ID.
#[derive(Clone, Copy, PartialEq, Eq, Debug)]
pub struct Access {
    pub mark: u64,
    pub begins: u64,
    pub drafting: bool,
    pub header: Header,
    pub log: LogEnd,
    pub fragments: usize,
    pub used: u64,
    pub highest: u32,
}

impl Access {
    // With one more draft begun, and open.
    pub(crate) fn with_draft(self) -> Result<Access, SaveFault>
        ensures { result ≡ with_draft self }
    {
        if self.drafting {
            return Err(SaveFault::Busy);
        }
        let begins = self.begins.checked_add(1).ok_or(SaveFault::Last)?;
        Ok(Access {
            begins,
            drafting: true,
            ..self
        })
    }

    // With no draft open.
    pub(crate) fn without_draft(self) -> Access
        ensures { result ≡ without_draft self }
    {
        Access {
            drafting: false,
            ..self
        }
    }

    // The figures of the file, which has so many lists.
    pub(crate) fn figures(&self, lists: usize) -> Figures
        ensures { 1 ≤ self.now.header.end → self.now.used < 2 ^ 57 → result ≡ figures_known self.now lists }
    {
        Figures {
            count: self.header.count,
            end: self.header.end,
            lists,
            fragments: self.fragments,
            percent: percent(self.used, self.header.end),
        }
    }
}

// The whole percent of a file with this end that so many bytes are.
fn percent(used: u64, end: u64) -> u64
    ensures { 1 ≤ end → used < 2 ^ 57 → result ≡ used * 100 / end }
{
    used.saturating_mul(100).checked_div(end).unwrap_or(0)
}

/// The figures of an opened file: its count of finished transactions, its end, and how many lists and fragments it has.
#[derive(Clone, Copy, PartialEq, Eq, Debug)]
pub struct Figures {
    pub count: u32,
    pub end: u64,
    pub lists: usize,
    pub fragments: usize,
    /// The whole percent of the file that is header and fragments, rounded down.
    pub percent: u64,
}
