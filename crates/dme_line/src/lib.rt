//! The wire of a measuring machine (I++ DME Interface version 1): commands, responses, point texts and
//! error texts, as values and as the bytes of one line without its end.
//!
//! - `tags`, `commands`: `Tag`; `Command`, its `Kind`, `Csy`
//! - `writing`, `reading`: `write_command` and the end of a line; `read_command` and `LineFault`
//! - `responses`, `text`: `Response`, `Mark`, `Text`, and their lines; `cut_response` copies no text
//! - `points`, `homed`: the texts of data lines; `errors`: `ErrorNumber` and the line of an error
//! - `tokens`, `arguments`, `places`, `settings`, `lengths`: the steps by which arguments are read
//! - `appending`: texts where there is room for them; `front`: bytes compared as one word
//! - `laws`: what holds of these texts: each is read in one way, and what is written reads back
#![tactic(auto)]

mod appending;
mod arguments;
pub mod commands;
pub mod errors;
mod front;
pub mod homed;
pub mod laws;
mod lengths;
mod places;
pub mod points;
pub mod reading;
pub mod responses;
mod settings;
pub mod tags;
pub mod text;
mod tokens;
pub mod writing;

pub use commands::{Command, Csy, Kind};
pub use errors::{ERROR_MAX, ErrorNumber, write_error, write_error_reserved};
pub use homed::{HOMED_MAX, NotHomedText, read_homed, write_homed, write_homed_reserved};
pub use points::{NotPoint, POINT_MAX, read_point, write_point, write_point_reserved};
pub use reading::{LineFault, read_command};
pub use responses::{
    DATA_MAX, HOMED_DATA_MAX, Mark, MarkSlice, NotResponse, RESPONSE_MAX, Response, ResponseSlice,
    cut_response, read_response, write_complete_reserved, write_data, write_data_reserved,
    write_homed_data, write_homed_data_reserved, write_received_reserved, write_response,
    write_response_reserved,
};
pub use tags::Tag;
pub use text::Text;
pub use writing::{
    COMMAND_MAX, LINE_END_LENGTH, write_command, write_command_reserved, write_line_end_reserved,
};
