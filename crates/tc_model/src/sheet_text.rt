// Laws of stylesheets as XML.
ghost use Rattle.tc_model.specs.SheetTextLaws.{HasOneListOfTemplates, HasOneSheet, HasOneSheetFault, HasNoSheet};

/// Laws of stylesheets as XML (XSLT 1.0, 2 to 9): a raw tree spells one list of templates at most and means one
/// stylesheet at most, also where it has a fault; of its calls it has one fault at most, at one place, and where
/// it has one it isn't the text of a stylesheet.
pub fn law_of_sheet_texts()
    ensures written { HasOneListOfTemplates }
    ensures one { HasOneSheet }
    ensures fault { HasOneSheetFault }
    ensures none { HasNoSheet }
{}
