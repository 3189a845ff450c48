use crate::features::Touch;
use fixed_um::{Name, Point};

/// What a statement commands (ISO 22093). Statements that command nothing leave no step.
#[derive(Debug, Drop)]
pub enum Step {
    /// A move to a position in the axes of the selected frame (`GOTO`).
    Goto(Point),
    /// The block of the feature of this name begins (`MEAS`).
    Begin(Name),
    /// A touch (`PTMEAS`), always between a `Begin` and its `End`.
    Touch(Touch),
    /// A tool is selected (`SNSLCT`).
    Tool(Name),
    /// A stored frame is selected: the place of its zero point in machine axes (`RECALL/D`).
    Recall(Point),
    /// The block ends (`ENDMES`).
    End,
}
