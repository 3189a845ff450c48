// Where an opening is.

/// A text that is read as a whole.
#[derive(Clone, Copy, Debug, PartialEq, Eq)]
pub enum Text {
    Setup,
    Features,
    Program,
    /// The key of the record's seals.
    Key,
    Record,
}

/// What an opening asks for next.
#[derive(Clone, Copy, Debug, PartialEq, Eq)]
pub enum Stage {
    /// The place of a file that is named, by the number of its option, and its number on its device.
    Placing(usize),
    Numbering(usize),
    /// The record is locked.
    HoldingRecord,
    /// Whether the features file may be locked, and then it is.
    LookingFeatures,
    HoldingFeatures,
    /// Likewise for the file of reported contacts.
    LookingContacts,
    HoldingContacts,
    /// A text is opened, and read to its end.
    Opening(Text),
    Reading(Text),
    /// What the setup lacks for the program is said.
    Warning,
    /// The stop file.
    Peeking,
    /// The record gets the text that the run continues from.
    Filling,
    /// What comes first is said.
    Telling,
    /// The answer is awaited: its first byte, and the one after a CR.
    Confirming,
    Returning,
    /// The run may begin.
    Ready,
    /// Nothing is begun: the files that are locked are as they were.
    DiscardingFeatures,
    DiscardingContacts,
    DiscardingRecord,
    /// Why is said.
    Ending,
    Exiting,
}
