//! The tests of what texts are read to, by public calls alone: characters, fronts of texts, documents, schemas, declarations of
//! elements, stylesheets, paths, what is printed, the normal form, and the stores and sinks that they are read from and written to.
#![tactic(auto)]

#[cfg(test)]
mod characters;
#[cfg(test)]
mod compact_syntax;
#[cfg(test)]
mod constructs;
#[cfg(test)]
mod dtd_schemas;
#[cfg(test)]
mod dtd_texts;
#[cfg(test)]
mod fronts;
#[cfg(test)]
mod lists;
#[cfg(test)]
mod normal_form;
#[cfg(test)]
mod paths;
#[cfg(test)]
mod printed;
#[cfg(test)]
mod raw_sheets;
#[cfg(test)]
mod repeated;
#[cfg(test)]
mod sheet_texts;
#[cfg(test)]
mod simplified;
#[cfg(test)]
mod stores;
#[cfg(test)]
mod xml_texts;
