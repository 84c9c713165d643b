// What follows a `<` tells which item begins with it (XML 1.0, 2.5 to 2.8, 3.1).
ghost use Rattle.std.specs.Prelude.{◌≡◌, ◌≢◌, ◌≤◌, ◌+◌, ◌∷◌, encode_utf8, IfErr, IsTrue, OnOk};
ghost use Rattle.tc_stream.specs.Counted.{is_counted};
ghost use Rattle.tc_stream.specs.Parts as kinds;
ghost use Rattle.tc_stream.specs.Reading.{FaultsAtChar, ReadsChar};
ghost use Rattle.tc_stream.specs.Stands.{IsReading};

use crate::doctypes::Doctype;
use crate::faults::StreamFault;
use crate::parts::{Mark, Part};
use crate::phases::Phase;
use crate::reader::Reader;
use crate::reading::malformed;
use tc_base::Place;
use tc_scan::{is_ncname_char, is_ncname_start};
use tc_tags::{Room, push_char};

/// Keeps the first characters of a tag alone: its `<` and this one.
fn keep_first(tag: &mut Room, next: char)
    requires { 5 ≤ tag.old.most }
    ensures most { tag.new.most ≡ tag.old.most }
    ensures bytes { tag.new.bytes.items ≡ 0x3C ∷ encode_utf8 next }
{
    tag.keep(0);
    tag.push(b'<');
    push_char(tag, next);
}

/// What has begun behind the whole of a mark.
fn begun_by(mark: Mark) -> Part
    ensures part { result ≡ kinds.begun_by mark }
    ensures counted { IsTrue (is_counted result) }
{
    match mark {
        Mark::Comment => Part::Comment(0),
        Mark::Cdata => Part::Cdata(0),
        Mark::Doctype => Part::Doctype(Doctype::Begun),
    }
}

impl Reader<'_> {
    /// Tells by the character behind a `<` what has begun.
    pub(crate) fn read_markup(&mut self, next: char) -> Result<(), StreamFault>
        requires ready { IsReading self.old }
        requires part { self.old.part ≡ Part.Markup }
        ensures ok { OnOk result (ReadsChar self.old self.new next) }
        ensures fault { IfErr result (λ e. FaultsAtChar self.old next e) }
    {
        if next == '!' {
            self.part = Part::Marked;
            return Ok(());
        }
        if next == '?' {
            self.part = Part::Target(None);
            return Ok(());
        }
        if next == '/' {
            return self.begin_end_tag(next);
        }
        self.begin_tag(next)
    }

    /// Begins an end tag with the slash behind a `<`.
    fn begin_end_tag(&mut self, slash: char) -> Result<(), StreamFault>
        requires ready { IsReading self.old }
        requires part { self.old.part ≡ Part.Markup }
        requires is_slash { slash ≡ 0x2F }
        ensures ok { OnOk result (ReadsChar self.old self.new slash) }
        ensures fault { IfErr result (λ e. FaultsAtChar self.old slash e) }
    {
        match self.phase {
            Phase::Content => {
                keep_first(&mut self.tag, slash);
                self.part = Part::EndTag;
                Ok(())
            }
            _ => Err(malformed(self.no_item())),
        }
    }

    /// Begins a start tag or an empty-element tag with the first character of its name, where one may stand. Where
    /// elements stand too deep only its name is read.
    fn begin_tag(&mut self, next: char) -> Result<(), StreamFault>
        requires ready { IsReading self.old }
        requires part { self.old.part ≡ Part.Markup }
        requires no_mark { next ≢ 0x21 }
        requires no_target { next ≢ 0x3F }
        requires no_slash { next ≢ 0x2F }
        ensures ok { OnOk result (ReadsChar self.old self.new next) }
        ensures fault { IfErr result (λ e. FaultsAtChar self.old next e) }
    {
        if let Phase::End = self.phase {
            return Err(malformed(self.begun));
        }
        if !is_ncname_start(next) {
            return Err(malformed(self.no_tag()));
        }
        if self.elements.is_full() {
            self.part = Part::DeepName;
            return Ok(());
        }
        keep_first(&mut self.tag, next);
        self.part = Part::Tag(None);
        Ok(())
    }

    /// Reads on in the name of a start tag with which elements stand too deep: a name is one of any length.
    pub(crate) fn read_deep_name(&mut self, next: char) -> Result<(), StreamFault>
        requires ready { IsReading self.old }
        requires part { self.old.part ≡ Part.DeepName }
        ensures ok { OnOk result (ReadsChar self.old self.new next) }
        ensures fault { IfErr result (λ e. FaultsAtChar self.old next e) }
    {
        if is_ncname_char(next) {
            return Ok(());
        }
        if next == ':' {
            self.part = Part::DeepPrefix;
            return Ok(());
        }
        Err(StreamFault::TooDeep(Place(self.begun)))
    }

    /// Reads the first character behind the prefix of such a name.
    pub(crate) fn read_deep_local(&mut self, next: char) -> Result<(), StreamFault>
        requires ready { IsReading self.old }
        requires part { self.old.part ≡ Part.DeepPrefix }
        ensures ok { OnOk result (ReadsChar self.old self.new next) }
        ensures fault { IfErr result (λ e. FaultsAtChar self.old next e) }
    {
        if is_ncname_start(next) {
            return Err(StreamFault::TooDeep(Place(self.begun)));
        }
        Err(malformed(self.begun))
    }

    /// Where reading stops at a `<` with which nothing begins: before the root element it is read as that of a tag.
    pub(crate) fn no_item(&self) -> u32
        ensures { result ≤ self.now.begun + 1 }
    {
        match self.phase {
            Phase::Content => self.begun,
            Phase::End => self.begun,
            _ => self.begun + 1,
        }
    }

    /// Where reading stops at a `<` behind which no name begins.
    pub(crate) fn no_tag(&self) -> u32
        ensures { result ≤ self.now.begun + 1 }
    {
        if let Phase::End = self.phase {
            return self.begun;
        }
        if self.elements.is_full() {
            return self.begun;
        }
        self.begun + 1
    }

    /// Tells by the character behind `<!` what has begun.
    pub(crate) fn read_marked(&mut self, next: char) -> Result<(), StreamFault>
        requires ready { IsReading self.old }
        requires part { self.old.part ≡ Part.Marked }
        ensures ok { OnOk result (ReadsChar self.old self.new next) }
        ensures fault { IfErr result (λ e. FaultsAtChar self.old next e) }
    {
        match Mark::begun(self.phase, next) {
            Some(mark) => {
                let phase = self.phase.past_front();
                self.phase = phase;
                self.part = Part::Mark(mark, 3);
                Ok(())
            }
            None => Err(malformed(self.no_item())),
        }
    }

    /// Reads on in a mark.
    pub(crate) fn read_mark(&mut self, mark: Mark, count: u8, next: char) -> Result<(), StreamFault>
        requires ready { IsReading self.old }
        requires part { self.old.part ≡ Part.Mark mark count }
        ensures ok { OnOk result (ReadsChar self.old self.new next) }
        ensures fault { IfErr result (λ e. FaultsAtChar self.old next e) }
    {
        let Some(more) = mark.next(count, next) else {
            return Err(malformed(self.no_item()));
        };
        if mark.is_whole(more) {
            let part = begun_by(mark);
            self.part = part;
            return Ok(());
        }
        self.part = Part::Mark(mark, more);
        Ok(())
    }
}
