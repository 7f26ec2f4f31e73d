ghost use Rattle.std.specs.Prelude.{◌≡◌};
ghost use Rattle.gs_msg.specs.Kinds.{name_of, named};

/// The kind of a message.
#[derive(Clone, Copy, Debug, PartialEq, Eq)]
pub enum Kind {
    Call,
    Reply,
    Create,
    Advance,
    Promised,
    Unpromised,
    Grant,
    Renew,
    Renewed,
    Push,
    Edit,
    Forward,
    Ack,
    Nack,
    Done,
    Fetch,
    Bytes,
    CopyOut,
    CopyIn,
    MakeCopy,
    Report,
    Drop,
    Bad,
    Epoch,
    Learned,
    Behind,
}

/// Every kind.
const KINDS: [Kind; 26] = [
    Kind::Call,
    Kind::Reply,
    Kind::Create,
    Kind::Advance,
    Kind::Promised,
    Kind::Unpromised,
    Kind::Grant,
    Kind::Renew,
    Kind::Renewed,
    Kind::Push,
    Kind::Edit,
    Kind::Forward,
    Kind::Ack,
    Kind::Nack,
    Kind::Done,
    Kind::Fetch,
    Kind::Bytes,
    Kind::CopyOut,
    Kind::CopyIn,
    Kind::MakeCopy,
    Kind::Report,
    Kind::Drop,
    Kind::Bad,
    Kind::Epoch,
    Kind::Learned,
    Kind::Behind,
];

impl Kind {
    /// The word that `hold on` takes.
    pub fn name(self) -> &'static str
        ensures { result.now ≡ name_of self }
    {
        match self {
            Kind::Call => "call",
            Kind::Reply => "reply",
            Kind::Create => "create",
            Kind::Advance => "advance",
            Kind::Promised => "promised",
            Kind::Unpromised => "unpromised",
            Kind::Grant => "grant",
            Kind::Renew => "renew",
            Kind::Renewed => "renewed",
            Kind::Push => "push",
            Kind::Edit => "edit",
            Kind::Forward => "forward",
            Kind::Ack => "ack",
            Kind::Nack => "nack",
            Kind::Done => "done",
            Kind::Fetch => "fetch",
            Kind::Bytes => "bytes",
            Kind::CopyOut => "copyout",
            Kind::CopyIn => "copyin",
            Kind::MakeCopy => "makecopy",
            Kind::Report => "report",
            Kind::Drop => "drop",
            Kind::Bad => "bad",
            Kind::Epoch => "epoch",
            Kind::Learned => "learned",
            Kind::Behind => "behind",
        }
    }

    /// The kind of a word, if it is one's.
    pub fn named(text: &str) -> Option<Kind>
        ensures { result ≡ named text.now }
    {
        KINDS.iter().copied().find(|kind| kind.name() == text)
    }
}
