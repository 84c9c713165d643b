// Laws of the definitions.
ghost use Rattle.tc_cert.specs.Fronts.{OneFirstFault, TextHasNoFault};
ghost use Rattle.tc_cert.specs.Readings.{OneData, WrittenIsRead};
ghost use Rattle.tc_cert.specs.Unambiguous.{OneHedge, OneOutput, OneTree};

/// The law of lines: no line of version 1 is that of two outputs or of two rows.
pub fn law_of_lines()
    ensures outputs { OneOutput }
    ensures trees { OneTree }
    ensures hedges { OneHedge }
{}

/// The law of faults: of any bytes one line at most is the first that isn't as it must be, and none where they are the
/// text of a certificate.
pub fn law_of_faults()
    ensures one { OneFirstFault }
    ensures none { TextHasNoFault }
{}

/// The law of texts: bytes, no more than a file may have, are the text of one certificate at most.
pub fn law_of_texts()
    ensures { OneData }
{}

/// The law of writing: what is written of formed data, where it is no more than a file may have, is the text of that data
/// and of no other, so that reading gives it back.
pub fn law_of_writing()
    ensures { WrittenIsRead }
{}
