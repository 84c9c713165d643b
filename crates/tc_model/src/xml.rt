// Laws of XML texts.
ghost use Rattle.tc_model.specs.XmlTextLaws.{HasOneRawTree, HasLawfulRawTree, HasDocument, HasOneRefusal, HasNoTreeWhereRefused, HasTreeOrRefusal, IsRefusedForMore};

/// Laws of XML texts (XML 1.0, Fifth Edition; Namespaces in XML 1.0). A text has at most one raw tree. Its
/// names, texts and namespace names are lawful, and no place in it is past the text's length. Stripped it
/// is a document. It is refused for one construct at one place at most, and then it has no raw tree. One that is
/// read with references to other entities, or with elements of any depth, has that raw tree or is refused for one of
/// these; and where such a one is refused, it is for one of these.
pub fn law_of_xml_texts()
    ensures one { HasOneRawTree }
    ensures lawful { HasLawfulRawTree }
    ensures document { HasDocument }
    ensures refusal { HasOneRefusal }
    ensures no_tree { HasNoTreeWhereRefused }
    ensures readable { HasTreeOrRefusal }
    ensures more { IsRefusedForMore }
{}
