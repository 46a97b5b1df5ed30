/// The form of complaints.
#[derive(Clone, Copy, Debug, PartialEq, Eq)]
pub enum Form {
    /// A line of text for each.
    Text,
    /// A JSON object on a line for each.
    Json,
}
