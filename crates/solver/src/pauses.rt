//! The pauses at which a search reports progress, and whether there is news to report.
//!
//! A line for each new bound would slow down a search with many bounds. So the search pauses whenever its listing has grown by a
//! sixteenth, or by 5,000 states, and has news only where it has grown by a sixteenth: at most a dozen lines for each doubling. The time
//! is looked at in each pause.
ghost use Rattle.std.specs.Prelude.{◌<◌, ◌≤◌, ◌+◌, ◌*◌, ◌/◌, ◌⊎◌, ◌↔◌, IsTrue};

use search::{Search, StateListing};
use search_spaces::GroundListing;

/// The number of listed states at the first pause, at least.
const FIRST_PAUSE: u32 = 1_024;

/// The search pauses when the listing has grown by one part in this many.
const PART: u32 = 16;

/// It lists at most this many states between two pauses, and those of one expansion.
const MOST: u32 = 5_000;

/// The progress of a search that is reported.
#[derive(Clone, Copy)]
pub(crate) struct Milestone {
    /// A lower bound of every plan's cost.
    bound: u64,
    /// The number of listed states.
    listed: usize,
}

impl Milestone {
    /// The search's progress, or `None` if its open list is empty: it is about to end.
    pub(crate) fn of<R>(search: &Search<GroundListing<'_, '_>, R>) -> Option<Milestone> {
        match search.bound() {
            Some(bound) => Some(Milestone {
                bound,
                listed: search.store().len(),
            }),
            None => None,
        }
    }

    /// Whether this is news after the last report: the bound has risen and the listing has grown by a sixteenth, or that has doubled.
    fn is_news_after(self, last: Milestone) -> bool
        ensures { IsTrue result ↔ (((last.bound < self.bound) × (last.listed + last.listed / 16 ≤ self.listed)) ⊎ (last.listed * 2 ≤ self.listed)) }
    {
        last.bound < self.bound && self.has_grown_since(last) || last.listed <= self.listed / 2
    }
}

impl Milestone {
    /// Whether the listing has grown by a sixteenth.
    fn has_grown_since(self, last: Milestone) -> bool
        ensures { IsTrue result ↔ (last.listed + last.listed / 16 ≤ self.listed) }
    {
        last.listed <= self.listed && last.listed / 16 <= self.listed - last.listed
    }
}

/// Whether there is news to report.
pub(crate) fn is_news(last: Option<Milestone>, now: Option<Milestone>) -> bool {
    match (last, now) {
        (_, None) => false,
        (None, Some(_)) => true,
        (Some(last), Some(now)) => now.is_news_after(last),
    }
}

/// The next pause of a search that lists this many states, no later than `last`.
pub(crate) fn next_pause(listed: usize, last: u32) -> u32
    requires { listed < last }
    ensures after { listed < result }
    ensures within { result ≤ last }
{
    let listed = listed as u32;
    let next = listed.saturating_add((listed / PART).min(MOST));
    next.max(FIRST_PAUSE).min(last).max(listed + 1)
}
