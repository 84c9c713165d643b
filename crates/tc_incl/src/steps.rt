// Where the rows of lists of trees lead.
use tc_sets::Set;

/// Where trees lead some states of a schema, and what is matched around them.
#[derive(Drop)]
pub struct Steps {
    /// The states to which a text leads.
    pub(crate) text: Set,
    /// The states to which an element leads by each element pattern, in order.
    pub(crate) elements: Vec<Set>,
    /// The element patterns of which the content accepts in one of the states.
    pub(crate) taken: Set,
}

/// The same for two schemas.
#[derive(Drop)]
pub struct BothSteps {
    pub(crate) first: Steps,
    pub(crate) second: Steps,
}
