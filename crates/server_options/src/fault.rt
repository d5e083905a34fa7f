//! What ends a run of the server.

ghost use Rattle.std.specs.Prelude.{◌≡◌};
ghost use Rattle.server_options.specs.Faults.{status_of, words_of};

use console_text::{ReplayFault, fault_words};

/// Why a run ended.
#[derive(Clone, Copy, Debug, PartialEq, Eq)]
pub enum ServeFault {
    /// The file of peers can't be read, or has a line that can't.
    Peers,
    /// Another process keeps its journal in the file.
    JournalInUse,
    /// The file holds the journal of another network.
    OtherNetwork,
    /// The file holds a journal with another number of broadcasts. Both numbers were said.
    OtherBroadcasts,
    /// The file holds no journal.
    NotJournal,
    /// The file has a line that is no event, isn't accepted or is too long. Its number was said.
    JournalLine,
    /// The file can't be read.
    JournalRead,
    /// The file can't be opened, written or synced.
    Journal,
    /// A port can't be listened on.
    Listen,
    /// The receipts of the desks aren't the journal's entries.
    Settle,
    /// The lines of the operator ended so.
    Lines(ReplayFault),
}

impl ServeFault {
    /// What is said of it on standard error.
    pub fn words(self) -> &'static [u8]
        ensures { result.now ≡ words_of self }
    {
        match self {
            ServeFault::Peers => b"cbc: peers fault\n",
            ServeFault::JournalInUse => b"cbc: journal in use\n",
            ServeFault::OtherNetwork => b"cbc: journal of another network\n",
            ServeFault::OtherBroadcasts => b"",
            ServeFault::NotJournal => b"cbc: not a journal\n",
            ServeFault::JournalLine => b"",
            ServeFault::JournalRead => b"cbc: journal read fault\n",
            ServeFault::Journal => b"cbc: journal fault\n",
            ServeFault::Listen => b"cbc: listen fault\n",
            ServeFault::Settle => b"cbc: settle fault\n",
            ServeFault::Lines(fault) => fault_words(fault),
        }
    }

    /// The exit status after it: 3 where a file isn't as it has to be, and 4 where the kept file is of another network or number of
    /// broadcasts; neither is any better after another start. 5 where the machine refuses the disk or a port, and 1 after any other.
    pub fn status(self) -> u8
        ensures { result ≡ status_of self }
    {
        match self {
            ServeFault::Peers | ServeFault::NotJournal | ServeFault::JournalLine => 3,
            ServeFault::OtherNetwork | ServeFault::OtherBroadcasts => 4,
            ServeFault::JournalRead | ServeFault::Journal | ServeFault::Listen => 5,
            ServeFault::JournalInUse | ServeFault::Settle | ServeFault::Lines(_) => 1,
        }
    }
}
