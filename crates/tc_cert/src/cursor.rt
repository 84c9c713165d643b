// The place in a text of which some lines were read.
ghost use Rattle.std.specs.Prelude.{◌≡◌, ◌≤◌, ◌<◌, ◌+◌, length};
ghost use Rattle.tc_base.specs.declared.limits.TheConstants.{LONGEST_FILE};

use crate::rows::Style;

/// A text of which some lines were read.
#[derive(Drop)]
pub(crate) struct Reader<'t> {
    /// The lines that were not.
    pub(crate) rest: &'t [u8],
    pub(crate) style: Style,
    /// How many lines were read.
    pub(crate) lines: u32,
    ghost short: { lines + length rest.now ≤ LONGEST_FILE },
}

impl<'t> Reader<'t> {
    /// Goes on behind a line.
    pub(crate) fn pass(&mut self, rest: &'t [u8])
        requires { length rest.now < length self.old.rest.now }
        ensures rest { self.new.rest.now ≡ rest.now }
        ensures lines { self.new.lines ≡ self.old.lines + 1 }
        ensures style { self.new.style ≡ self.old.style }
    {
        self.rest = rest;
        self.lines += 1;
    }
}
