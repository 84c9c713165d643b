// Where states of moves go on a node, found out once for all ancestor states above it.
ghost use Rattle.std.specs.Prelude.{◌<◌};
ghost use Rattle.tc_model.specs.Letters.{IsLetter};
ghost use Rattle.tc_rules.specs.Kept.{told};
ghost use Rattle.tc_rules.specs.RulesView.{move_count};
ghost use Rattle.tc_rows.specs.Triples.{Triple, predicates};
ghost use Rattle.tc_beh.specs.Above.{letter_of};
ghost use Rattle.tc_beh.specs.Leads.{IsLead, AreLeads};
ghost use Rattle.tc_beh.specs.Stands.{IsRulesIn};

use crate::above::Letter;
use tc_rules::{Kind, Rules};

/// Where a state of a move above a node goes on it.
#[derive(Clone, Copy)]
pub(crate) struct Lead {
    /// Whether it hits the node.
    pub(crate) hits: bool,
    /// The state for what stands below the node. There is none where no hit comes any more.
    pub(crate) below: Option<u32>,
}

/// Where no state goes.
pub(crate) const NOWHERE: Lead = Lead {
    hits: false,
    below: None,
};

/// Where a state goes on a node of a letter.
fn lead_of(rules: &Rules<'_>, letter: Letter, state: u32) -> Lead
    requires letter { (x : Triple) × IsRulesIn x rules.now
        × IsLetter x.symbols (predicates x) (letter_of letter) }
    requires state { state < move_count (told rules.now) }
    ensures { IsLead rules.now letter state result }
{
    let hits = rules.sel_hits(state, letter.kind, letter.marks);
    let below = match letter.kind {
        Kind::Elem(sym) => rules.sel_step(state, sym, letter.marks),
        Kind::Text => None,
    };
    Lead { hits, below }
}

/// Leaves where each state goes on a node of a letter, by its number.
pub(crate) fn put_leads(rules: &Rules<'_>, letter: Letter, leads: &mut [Lead])
    requires { (x : Triple) × IsRulesIn x rules.now
        × IsLetter x.symbols (predicates x) (letter_of letter) }
    ensures { AreLeads rules.now letter leads.new }
{
    for state in 0..rules.moves() {
        if (state as usize) < leads.len() {
            leads[state as usize] = lead_of(rules, letter, state);
        }
    }
}

/// Where a state goes on a node of a letter, by what was left of it.
pub(crate) fn lead_at(rules: &Rules<'_>, letter: Letter, leads: &[Lead], state: u32) -> Lead
    requires letter { (x : Triple) × IsRulesIn x rules.now
        × IsLetter x.symbols (predicates x) (letter_of letter) }
    requires leads { AreLeads rules.now letter leads.now }
    requires state { state < move_count (told rules.now) }
    ensures { IsLead rules.now letter state result }
{
    match leads.get(state as usize) {
        Some(lead) => *lead,
        None => lead_of(rules, letter, state),
    }
}
