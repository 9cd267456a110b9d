// The seven messages.

ghost use Rattle.std.specs.Prelude.{◌≡◌, ◌%◌, ◌≤◌, length};

use layout::format::Header;
use values::decision::{Outcome, Proposal, Vote};

// A content as a frame holds it: 9 bytes for each read, 8 for each write, and at most four of each.
// The fields are private: only reading a frame, or a content, makes one.
#[derive(Clone, Copy)]
pub struct Parts<'a> {
    pub(crate) second: u32,
    pub(crate) reads: &'a [u8],
    pub(crate) writes: &'a [u8],
    ghost few_reads: { length reads.now ≤ 36 },
    ghost few_writes: { length writes.now ≤ 32 },
    ghost whole_reads: { length reads.now % 9 ≡ 0 },
    ghost whole_writes: { length writes.now % 8 ≡ 0 },
}

#[derive(Clone, Copy)]
pub enum Message<'a> {
    // P: asks for a vote.
    Prepare {
        transaction: u32,
        sender: u32,
        content: Parts<'a>,
    },
    // V: the vote.
    Voted {
        transaction: u32,
        sender: u32,
        vote: Vote,
    },
    // A: proposes an outcome in a view.
    Accept {
        transaction: u32,
        sender: u32,
        view: u32,
        outcome: Outcome,
        content: Option<Parts<'a>>,
    },
    // B: the proposal of the view is accepted.
    Accepted {
        transaction: u32,
        sender: u32,
        view: u32,
    },
    // D: tells the outcome.
    Decide {
        transaction: u32,
        sender: u32,
        outcome: Outcome,
        content: Option<Parts<'a>>,
    },
    // C: asks for a report in a new view.
    ChangeView {
        transaction: u32,
        sender: u32,
        view: u32,
    },
    // R: the report.
    Report {
        transaction: u32,
        sender: u32,
        view: u32,
        vote: Option<Vote>,
        accepted: Option<Proposal>,
        content: Option<Parts<'a>>,
    },
}

impl<'a> Parts<'a> {
    pub fn second(&self) -> u32
        ensures { result ≡ self.now.second }
    {
        self.second
    }

    // The bytes of the reads, 9 for each.
    pub fn reads(&self) -> &'a [u8]
        ensures { result ≡ self.now.reads }
    {
        self.reads
    }

    // The bytes of the writes, 8 for each.
    pub fn writes(&self) -> &'a [u8]
        ensures { result ≡ self.now.writes }
    {
        self.writes
    }
}

impl<'a> Message<'a> {
    ghost use Rattle.frame.specs.Messages.{accepted_number, accepted_view, header, parts};

    // The letter of the kind.
    pub fn kind(&self) -> char
        ensures { result ≡ (header self.now).kind }
    {
        match self {
            Message::Prepare { .. } => 'P',
            Message::Voted { .. } => 'V',
            Message::Accept { .. } => 'A',
            Message::Accepted { .. } => 'B',
            Message::Decide { .. } => 'D',
            Message::ChangeView { .. } => 'C',
            Message::Report { .. } => 'R',
        }
    }

    // The part of a frame that holds the content.
    pub fn parts(&self) -> Option<Parts<'a>>
        ensures { result ≡ parts self.now }
    {
        match self {
            Message::Prepare { content, .. } => Some(*content),
            Message::Accept { content, .. }
            | Message::Decide { content, .. }
            | Message::Report { content, .. } => *content,
            _ => None,
        }
    }

    // The transaction and the sender.
    fn parties(&self) -> (u32, u32)
        ensures transaction { result.0 ≡ (header self.now).transaction }
        ensures sender { result.1 ≡ (header self.now).sender }
    {
        match self {
            Message::Prepare {
                transaction,
                sender,
                ..
            }
            | Message::Voted {
                transaction,
                sender,
                ..
            }
            | Message::Accept {
                transaction,
                sender,
                ..
            }
            | Message::Accepted {
                transaction,
                sender,
                ..
            }
            | Message::Decide {
                transaction,
                sender,
                ..
            }
            | Message::ChangeView {
                transaction,
                sender,
                ..
            }
            | Message::Report {
                transaction,
                sender,
                ..
            } => (*transaction, *sender),
        }
    }

    fn view(&self) -> u32
        ensures { result ≡ (header self.now).view }
    {
        match self {
            Message::Accept { view, .. }
            | Message::Accepted { view, .. }
            | Message::ChangeView { view, .. }
            | Message::Report { view, .. } => *view,
            _ => 0,
        }
    }

    // The number of the vote or the outcome.
    fn code(&self) -> u32
        ensures { result ≡ (header self.now).code }
    {
        match self {
            Message::Voted { vote, .. } => u32::from(*vote),
            Message::Accept { outcome, .. } | Message::Decide { outcome, .. } => {
                u32::from(*outcome)
            }
            Message::Report { vote, .. } => Vote::number(*vote),
            _ => 0,
        }
    }

    fn accepted(&self) -> Option<Proposal>
        ensures number { accepted_number result ≡ (header self.now).accepted }
        ensures view { accepted_view result ≡ (header self.now).accepted_view }
    {
        match self {
            Message::Report { accepted, .. } => *accepted,
            _ => None,
        }
    }

    // The letter of the kind, and the numbers between it and the content.
    pub fn header(&self) -> Header
        ensures { result ≡ header self.now }
    {
        let (transaction, sender) = self.parties();
        let accepted = self.accepted();
        Header {
            kind: self.kind(),
            transaction,
            sender,
            view: self.view(),
            code: self.code(),
            accepted: accepted.map_or(0, |proposal| u32::from(proposal.outcome)),
            accepted_view: accepted.map_or(0, |proposal| proposal.view),
        }
    }
}
