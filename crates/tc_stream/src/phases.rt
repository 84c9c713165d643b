// Which part of a document is read.
ghost use Rattle.std.specs.Prelude.{◌≡◌};
ghost use Rattle.tc_stream.specs.Phases as after;

/// Which part of a document is read (XML 1.0, 2.1, [1]; 2.8, [22]).
#[derive(Clone, Copy)]
pub(crate) enum Phase {
    /// Nothing, not even a byte order mark.
    Mark,
    /// An XML declaration may come.
    Front,
    /// A document type declaration may come.
    Prolog,
    /// The root element must come.
    Root,
    /// The root element is open.
    Content,
    /// The root element has ended.
    End,
}

impl Phase {
    /// What is read behind what is no XML declaration.
    pub(crate) fn past_front(self) -> Phase
        ensures { result ≡ after.past_front self }
    {
        match self {
            Phase::Mark => Phase::Mark,
            Phase::Front => Phase::Prolog,
            Phase::Prolog => Phase::Prolog,
            Phase::Root => Phase::Root,
            Phase::Content => Phase::Content,
            Phase::End => Phase::End,
        }
    }
}
