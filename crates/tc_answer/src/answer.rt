// Answers, in memory.
ghost use Rattle.std.specs.Prelude.{◌≡◌, ◌++◌, IfOk, codes, decimal};
ghost use Rattle.std.specs.List.{flat_map};
ghost use Rattle.tc_model.specs.Printed.{printed};
ghost use Rattle.tc_model.specs.Views as see;
ghost use Rattle.tc_model.specs.Views.{trees};
ghost use Rattle.tc_answer.specs.Answers as a;
ghost use Rattle.tc_answer.specs.AnswersSeen.{text as see_text};
ghost use Rattle.tc_decide.specs.Rejections.{rejection};
ghost use Rattle.tc_answer.specs.SpotsSeen.{spot_uses};
ghost use Rattle.tc_decide.specs.RowCounts.{row_count};
ghost use Rattle.tc_answer.specs.Lines.{line, limit_word, limit_line, count_word, namespace_text};

use crate::buffer::Buffer;
use crate::spots::{count_dead, put_places, put_spots, status_by_dead};
use crate::status::Status;
use std::alloc::Global;
use tc_base::limits::{
    LONGEST_FILE, LONGEST_TAG, MOST_NAMES, MOST_OPEN, MOST_SHOWN_NODES, MOST_WORK,
};
use tc_base::{Limit, NoMemory, Place};
use tc_decide::limits::LONGEST_CERTIFICATE;
use tc_decide::{Rejection, RowCount, SpotTold};
use tc_model::Node;
use tc_read::Reason;

/// The text of an answer.
#[derive(Drop)]
pub enum Text {
    /// A text that needs no memory.
    Fixed(&'static [u8]),
    /// A text that was put together.
    Made(Vec<u8>),
}

impl Text {
    ghost use Rattle.tc_answer.specs.AnswersSeen.{text};

    pub fn as_bytes(&self) -> &[u8]
        ensures { result.now ≡ text self.now }
    {
        match self {
            Text::Fixed(bytes) => bytes,
            Text::Made(bytes) => bytes.as_slice(),
        }
    }
}

/// A status, and the lines that are written with it.
#[derive(Drop)]
pub struct Answer {
    pub status: Status,
    pub text: Text,
}

/// The word of the limit on what is counted of rows.
fn word_of_count(count: RowCount) -> &'static str
    ensures { result.now ≡ count_word (row_count count) }
{
    match count {
        RowCount::Trees => "trees",
        RowCount::Hedges => "hedges",
        RowCount::Outputs => "outputs",
    }
}

/// The word of a limit.
fn word_of(kind: Limit) -> &'static str
    ensures { result.now ≡ limit_word kind }
{
    match kind {
        Limit::Pattern => "pattern",
        Limit::Depth => "depth",
        Limit::Elements => "elements",
        Limit::States => "states",
        Limit::Symbols => "symbols",
        Limit::Predicates => "predicates",
        Limit::Ancestors => "ancestors",
        Limit::Selects => "selects",
        Limit::Calls => "calls",
        Limit::Entries => "entries",
    }
}

/// The answer by the pieces of its text.
fn answer_of(alloc: Global, status: Status, pieces: &[&str]) -> Result<Answer, NoMemory>
    ensures { IfOk result (λ said. (said.status ≡ status)
        × (see_text said.text ≡ flat_map (λ piece. piece.now) pieces.now)) }
{
    let text = pieces.concat(alloc)?;
    Ok(Answer {
        status,
        text: Text::Made(text.into_bytes()),
    })
}

/// The answer that a limit is passed, by its word and its number.
fn over(alloc: Global, word: &str, number: u32) -> Result<Answer, NoMemory>
    ensures { IfOk result
        (λ said. (said.status ≡ Status.Limit) × (see_text said.text ≡ limit_line word.now number)) }
{
    let mut digits = itoa::Buffer::new();
    answer_of(
        alloc,
        Status::Limit,
        &["limit ", word, " ", digits.format(number), "\n"],
    )
}

/// The answer that the text of an operand is refused, by the two parts of the reason's words.
fn refused_by<'w>(
    alloc: Global,
    name: &'w str,
    front: &'w str,
    word: &'w str,
    place: u32,
) -> Result<Answer, NoMemory>
    ensures { IfOk result (λ said. (said.status ≡ Status.Refused)
        × (see_text said.text
        ≡ line (codes "refused " ++ name.now ++ codes " " ++ (front.now ++ word.now)
        ++ codes " at " ++ decimal place))) }
{
    let mut digits = itoa::Buffer::new();
    answer_of(
        alloc,
        Status::Refused,
        &[
            "refused ",
            name,
            " ",
            front,
            word,
            " at ",
            digits.format(place),
            "\n",
        ],
    )
}

/// The answer that a certificate isn't one, by the number of a line, the rule that fails there, and what stands behind it.
fn rejected_at<'w>(
    alloc: Global,
    number: u32,
    rule: &'w str,
    behind: &'w str,
) -> Result<Answer, NoMemory>
    ensures { IfOk result (λ said. (said.status ≡ Status.No)
        × (see_text said.text
        ≡ line (codes "rejected " ++ (decimal number ++ (rule.now ++ behind.now))))) }
{
    let mut digits = itoa::Buffer::new();
    answer_of(
        alloc,
        Status::No,
        &["rejected ", digits.format(number), rule, behind, "\n"],
    )
}

/// The answer that a certificate isn't one, by the number of a line, and the name of the element around its lists.
fn rejected_around<'w>(
    alloc: Global,
    number: u32,
    uri: &'w str,
    local: &'w str,
) -> Result<Answer, NoMemory>
    ensures { IfOk result (λ said. (said.status ≡ Status.No)
        × (see_text said.text
        ≡ line (codes "rejected "
        ++ (decimal number ++ (codes " wrap " ++ (namespace_text uri.now ++ local.now)))))) }
{
    if uri.is_empty() {
        return rejected_at(alloc, number, " wrap ", local);
    }
    let mut digits = itoa::Buffer::new();
    answer_of(
        alloc,
        Status::No,
        &[
            "rejected ",
            digits.format(number),
            " wrap {",
            uri,
            "}",
            local,
            "\n",
        ],
    )
}

/// The answer by a text with trees in it.
fn showing(
    alloc: Global,
    status: Status,
    front: &[u8],
    shown: &[Node<'_>],
    behind: &[u8],
) -> Result<Answer, NoMemory>
    ensures { IfOk result (λ said. (said.status ≡ status)
        × (see_text said.text ≡ front.now ++ (printed (trees shown.now) ++ behind.now))) }
{
    let mut text = Buffer::new(alloc);
    text.put_shown(front, shown, behind)?;
    Ok(Answer {
        status,
        text: Text::Made(text.into_bytes()),
    })
}

impl Answer {
    ghost use Rattle.tc_answer.specs.AnswersSeen.{Says};

    /// How the program is called.
    pub fn usage() -> Answer
        ensures { Says result a.usage }
    {
        Answer {
            status: Status::Usage,
            text: Text::Fixed(
                b"usage: check|prove [--limit N] IN OUT SHEET; verify IN OUT SHEET CERT; run SHEET DOC; valid SCHEMA DOC; demo N; upgrade CERT; dead IN SHEET; include A B; same A B; valid --stream N SCHEMA DOC\n",
            ),
        }
    }

    /// A file cannot be read.
    pub fn cannot_read(alloc: Global, name: &str) -> Result<Answer, NoMemory>
        ensures { IfOk result (λ said. Says said (a.cannot_read name.now)) }
    {
        answer_of(alloc, Status::ReadFault, &["cannot read ", name, "\n"])
    }

    /// A file has more bytes than a file may have.
    pub fn file_limit(alloc: Global) -> Result<Answer, NoMemory>
        ensures { IfOk result (λ said. Says said a.file_limit) }
    {
        over(alloc, "file", LONGEST_FILE as u32)
    }

    /// Every result is valid, and there are so many rows of trees, of lists of trees, and sets of pairs in them.
    pub fn safe(alloc: Global, trees: u32, hedges: u32, outputs: u32) -> Result<Answer, NoMemory>
        ensures { IfOk result (λ said. Says said (a.safe trees hedges outputs)) }
    {
        let mut tree_digits = itoa::Buffer::new();
        let mut hedge_digits = itoa::Buffer::new();
        let mut output_digits = itoa::Buffer::new();
        answer_of(
            alloc,
            Status::Yes,
            &[
                "safe trees ",
                tree_digits.format(trees),
                " hedges ",
                hedge_digits.format(hedges),
                " outputs ",
                output_digits.format(outputs),
                "\n",
            ],
        )
    }

    /// There are more rows, or sets of pairs in them, than there may be.
    pub fn rows_limit(alloc: Global, count: RowCount, number: u32) -> Result<Answer, NoMemory>
        ensures { IfOk result (λ said. Says said (a.rows_limit (row_count count) number)) }
    {
        over(alloc, word_of_count(count), number)
    }

    /// All documents whose results aren't valid are too large to be shown.
    pub fn counterexample_limit(alloc: Global) -> Result<Answer, NoMemory>
        ensures { IfOk result (λ said. Says said a.counterexample_limit) }
    {
        over(alloc, "counterexample", MOST_SHOWN_NODES)
    }

    /// The text of a certificate.
    pub fn certificate(text: Vec<u8>) -> Answer
        ensures { Says result (a.certificate text.items) }
    {
        Answer {
            status: Status::Yes,
            text: Text::Made(text),
        }
    }

    /// The text of a certificate has more bytes than a certificate may have.
    pub fn certificate_limit(alloc: Global) -> Result<Answer, NoMemory>
        ensures { IfOk result (λ said. Says said a.certificate_limit) }
    {
        over(alloc, "certificate", LONGEST_CERTIFICATE)
    }

    /// The certificate is one.
    pub fn accepted() -> Answer
        ensures { Says result a.accepted }
    {
        Answer {
            status: Status::Yes,
            text: Text::Fixed(b"accepted\n"),
        }
    }

    /// The certificate isn't one, and why.
    pub fn rejected(alloc: Global, why: Rejection<'_>) -> Result<Answer, NoMemory>
        ensures { IfOk result (λ said. Says said (a.rejected (rejection why.entry))) }
    {
        match why {
            Rejection::Form(line) => rejected_at(alloc, line, " form", ""),
            Rejection::Fit(line) => rejected_at(alloc, line, " fit", ""),
            Rejection::Empty => Ok(Answer {
                status: Status::No,
                text: Text::Fixed(b"rejected 0 empty\n"),
            }),
            Rejection::Text => Ok(Answer {
                status: Status::No,
                text: Text::Fixed(b"rejected 0 text\n"),
            }),
            Rejection::Append(line, other) => {
                let mut digits = itoa::Buffer::new();
                rejected_at(alloc, line, " append ", digits.format(other))
            }
            Rejection::Wrap(line, name) => rejected_around(alloc, line, name.uri, name.local),
            Rejection::Root(line) => rejected_at(alloc, line, " root", ""),
        }
    }

    /// A schema is included in another, and there are so many rows of its trees, and of its lists of trees.
    pub fn included(alloc: Global, trees: u32, hedges: u32) -> Result<Answer, NoMemory>
        ensures { IfOk result (λ said. Says said (a.included trees hedges)) }
    {
        let mut tree_digits = itoa::Buffer::new();
        let mut hedge_digits = itoa::Buffer::new();
        answer_of(
            alloc,
            Status::Yes,
            &[
                "included trees ",
                tree_digits.format(trees),
                " hedges ",
                hedge_digits.format(hedges),
                "\n",
            ],
        )
    }

    /// A document is valid for the first of two schemas alone, so that it isn't included in the second.
    pub fn not_included(alloc: Global, document: &[Node<'_>]) -> Result<Answer, NoMemory>
        ensures { IfOk result (λ said. Says said (a.not_included (trees document.now))) }
    {
        showing(
            alloc,
            Status::No,
            b"not-included\ndocument ",
            document,
            b"\n",
        )
    }

    /// The same documents are valid for two schemas.
    pub fn equal() -> Answer
        ensures { Says result a.equal }
    {
        Answer {
            status: Status::Yes,
            text: Text::Fixed(b"same\n"),
        }
    }

    /// A document is valid for the first of two schemas alone.
    pub fn first_only(alloc: Global, document: &[Node<'_>]) -> Result<Answer, NoMemory>
        ensures { IfOk result (λ said. Says said (a.first_only (trees document.now))) }
    {
        showing(
            alloc,
            Status::No,
            b"different\nfirst-only ",
            document,
            b"\n",
        )
    }

    /// A document is valid for the second of two schemas alone.
    pub fn second_only(alloc: Global, document: &[Node<'_>]) -> Result<Answer, NoMemory>
        ensures { IfOk result (λ said. Says said (a.second_only (trees document.now))) }
    {
        showing(
            alloc,
            Status::No,
            b"different\nsecond-only ",
            document,
            b"\n",
        )
    }

    /// What is told of each rule, named body and branch of a stylesheet, and how many of them are dead.
    pub fn spots(alloc: Global, told: &[SpotTold<'_>]) -> Result<Answer, NoMemory>
        ensures { IfOk result (λ said. Says said (a.spots (spot_uses told.now))) }
    {
        let dead = count_dead(told);
        let mut text = Buffer::new(alloc);
        put_spots(&mut text, told)?;
        put_places(&mut text, told.len(), dead)?;
        Ok(Answer {
            status: status_by_dead(dead),
            text: Text::Made(text.into_bytes()),
        })
    }

    /// The text of an operand is refused at a place.
    pub fn refused(
        alloc: Global,
        name: &str,
        reason: Reason,
        place: Place,
    ) -> Result<Answer, NoMemory>
        ensures { IfOk result (λ said. Says said (a.refused name.now reason (see.place place))) }
    {
        let (front, word) = reason.words();
        refused_by(alloc, name, front, word, place.0)
    }

    /// A limit is passed, which has this number.
    pub fn limit(alloc: Global, kind: Limit, number: u32) -> Result<Answer, NoMemory>
        ensures { IfOk result (λ said. Says said (a.over_limit kind number)) }
    {
        over(alloc, word_of(kind), number)
    }

    /// The document is valid.
    pub fn valid() -> Answer
        ensures { Says result a.is_valid }
    {
        Answer {
            status: Status::Yes,
            text: Text::Fixed(b"valid\n"),
        }
    }

    /// The document isn't valid.
    pub fn invalid() -> Answer
        ensures { Says result a.is_invalid }
    {
        Answer {
            status: Status::No,
            text: Text::Fixed(b"invalid\n"),
        }
    }

    /// A tag of a document that comes in pieces has too many bytes.
    pub fn tag_limit(alloc: Global) -> Result<Answer, NoMemory>
        ensures { IfOk result (λ said. Says said a.tag_limit) }
    {
        over(alloc, "tag", LONGEST_TAG as u32)
    }

    /// The names of the open elements of a document that comes in pieces have too many bytes.
    pub fn names_limit(alloc: Global) -> Result<Answer, NoMemory>
        ensures { IfOk result (λ said. Says said a.names_limit) }
    {
        over(alloc, "names", MOST_NAMES as u32)
    }

    /// The result of a run, by its text.
    pub fn written(text: Vec<u8>) -> Result<Answer, NoMemory>
        ensures { IfOk result (λ said. (said.status ≡ Status.Yes)
            × (see_text said.text ≡ line text.items)) }
    {
        let mut line = text;
        line.push(b'\n')?;
        Ok(Answer {
            status: Status::Yes,
            text: Text::Made(line),
        })
    }

    /// A run instantiates and puts out too much.
    pub fn work_limit(alloc: Global) -> Result<Answer, NoMemory>
        ensures { IfOk result (λ said. Says said a.work_limit) }
    {
        over(alloc, "work", MOST_WORK)
    }

    /// Too many bodies and instructions of a run stand within one another.
    pub fn open_limit(alloc: Global) -> Result<Answer, NoMemory>
        ensures { IfOk result (λ said. Says said a.open_limit) }
    {
        over(alloc, "open", MOST_OPEN)
    }

    /// A valid document has these trees as its result, and they aren't valid.
    pub fn not_safe(
        alloc: Global,
        document: &[Node<'_>],
        output: &[Node<'_>],
    ) -> Result<Answer, NoMemory>
        ensures { IfOk result
            (λ said. Says said (a.unsafe (trees document.now) (trees output.now))) }
    {
        let mut text = Buffer::new(alloc);
        text.put_shown(b"unsafe\ndocument ", document, b"\noutput ")?;
        text.put_shown(b"", output, b"\n")?;
        Ok(Answer {
            status: Status::No,
            text: Text::Made(text.into_bytes()),
        })
    }

    /// A valid document has a result that isn't valid, and that is too large to be shown.
    pub fn not_safe_large(alloc: Global, shown: &[Node<'_>]) -> Result<Answer, NoMemory>
        ensures { IfOk result (λ said. Says said (a.unsafe_large (trees shown.now))) }
    {
        showing(
            alloc,
            Status::No,
            b"unsafe\ndocument ",
            shown,
            b"\noutput-too-large\n",
        )
    }
}
