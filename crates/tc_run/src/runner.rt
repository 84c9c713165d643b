// What a run reads: the rules of a stylesheet, the symbols of names, and the numbered elements of a document.
use crate::letters::Lettered;
use tc_alpha::Alphabet;
use tc_rules::Rules;

/// The rules of a stylesheet over the symbols of an alphabet, and the children of the elements that have a number.
#[derive(Clone, Copy)]
pub(crate) struct Runner<'r, 'b> {
    pub(crate) rules: &'r Rules<'b>,
    pub(crate) alphabet: &'r Alphabet,
    pub(crate) numbered: &'r [&'b [Lettered<'b>]],
}
