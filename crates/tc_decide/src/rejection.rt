// Why a text is no certificate.
use tc_model::Name;

/// The first rule of certificates that fails. Lines have the numbers of a certificate's text, from 1.
#[derive(Clone, Copy)]
pub enum Rejection<'w> {
    /// The text isn't a certificate's: the first line that isn't as it must be.
    Form(u32),
    /// The first line with a number out of range, or with a list of another length.
    Fit(u32),
    /// The row of no tree isn't listed.
    Empty,
    /// The row of a text isn't listed.
    Text,
    /// The row of the lists of a line with a tree of another line behind them isn't listed.
    Append(u32, u32),
    /// The row of an element of this name around the lists of a line isn't listed.
    Wrap(u32, Name<'w>),
    /// The trees of a line may be whole documents, and their results aren't valid.
    Root(u32),
}
