// What the words of a command line ask for.

use deviations::{Form, TableOptions};
use program_lowering::Answer;
use program_review::Topic;

/// What the words of a command line ask for, with its values.
#[derive(Debug, Drop)]
pub enum Order {
    /// Print the command lines of a program's plan.
    Check(Subject),
    /// Run a program on a simulated machine by a schedule, and print the report.
    Simulate(Simulation),
    /// Say in which runs of the server's contacts the client's features were measured.
    Audit(Audit),
    /// Say likewise of a record: in which runs of the reported contacts its features were measured.
    AuditRecord(Recorded),
    /// Run a program on a simulated machine over one connection to itself, and print the report.
    Loop(Loop),
    /// Be the server of a simulated machine, and print the contacts that it made.
    Serve(Service),
    /// Run a program on the machine of a server, and print the report.
    Run(Run),
    /// Say what a refusal means and what to do about it.
    Explain(Topic),
    /// Print how far the measured points of features lie from their nominal points, or the text of one of the two ledgers of a record.
    Export(Export),
    /// List everything that stands between a program and its run.
    Review(Review),
    /// Print what a server told, by the bytes that both ends of a connection sent.
    Ledger(Ledger),
    /// Print which line of either end first breaks a rule of the interface, by the bytes that both sent.
    Judge(Judge),
    /// Stand between a client and a server, and write what the server reports.
    Watch(Watch),
    /// Write the flat program that a program stands for.
    Lower(Lower),
    /// Print the page of a part.
    Report(PartReport),
    /// Print statistics over the parts of a batch.
    Summary(BatchSummary),
}

/// The program that an order is about. All that `check` needs.
#[derive(Debug, Drop)]
pub struct Subject {
    /// The file of the machine's setup, whose frames the program may recall; `-` is standard input.
    pub setup: Option<String>,
    /// Whether a line that is refused is shown, with what is wrong with it.
    pub explain: bool,
    /// The file of the program; `-` is standard input.
    pub program: String,
}

/// The values of `simulate`.
#[derive(Debug, Drop)]
pub struct Simulation {
    /// The file of the machine's setup; `-` is standard input.
    pub setup: String,
    /// The file of the schedule; `-` is standard input.
    pub schedule: String,
    /// How many commands may be open at once, from 1 to 16.
    pub window: u8,
    /// Whether each line that either side writes is shown.
    pub trace: bool,
    /// Whether a line that is refused is shown, with what is wrong with it.
    pub explain: bool,
    /// The file of the program; `-` is standard input.
    pub program: String,
}

/// The values of `audit`.
#[derive(Debug, Drop)]
pub struct Audit {
    /// The file of the machine's setup; `-` is standard input.
    pub setup: String,
    /// The file of the features that the client holds; `-` is standard input.
    pub features: String,
    /// The file of the contacts that the server made; `-` is standard input.
    pub contacts: String,
    /// Whether a line that is refused is shown, with what is wrong with it.
    pub explain: bool,
    /// The file of the program; `-` is standard input.
    pub program: String,
}

/// A record of the program. All that `audit` needs of it.
#[derive(Debug, Drop)]
pub struct Recorded {
    /// The file of the record; `-` is standard input.
    pub record: String,
    /// The file of the key of its seals, if they are to be judged; `-` is standard input.
    pub seal_key: Option<String>,
    /// The program.
    pub subject: Subject,
}

/// The values of `loop`.
#[derive(Debug, Drop)]
pub struct Loop {
    /// The file of the machine's setup; `-` is standard input.
    pub setup: String,
    /// How many commands may be open at once, from 1 to 16.
    pub window: u8,
    /// Whether it reports how far it is.
    pub progress: bool,
    /// Whether each line that either side writes is shown.
    pub trace: bool,
    /// Whether a line that is refused is shown, with what is wrong with it.
    pub explain: bool,
    /// The file of the program; `-` is standard input.
    pub program: String,
}

/// The values of `serve`.
#[derive(Debug, Drop)]
pub struct Service {
    /// The file of the machine's setup; `-` is standard input.
    pub setup: String,
    /// The address that is listened on, 127.0.0.1 if none is named.
    pub listen: Option<String>,
    /// The port that is listened on, at least 1.
    pub port: u16,
    /// How many connections are served, one after the other, from 1 to 4,000,000,000, which are all that can be numbered.
    pub connections: u32,
    /// The file that the contacts are written to; `-` is a file of that name.
    pub contacts: Option<String>,
    /// Whether it reports how far it is.
    pub progress: bool,
    /// Whether each line that either side writes is shown.
    pub trace: bool,
    /// The file that these lines are added to, with their times; `-` is a file of that name.
    pub log: Option<String>,
    /// How many seconds the other end may be silent if something is due from it, from 1 to 86,400; no limit if none are named.
    pub timeout: Option<u32>,
    /// The file that ends it when it appears.
    pub stop: Option<String>,
    /// Whether a line that is refused is shown, with what is wrong with it.
    pub explain: bool,
}

/// The values of `run`.
#[derive(Debug, Drop)]
pub struct Run {
    /// The file of the machine's setup; `-` is standard input.
    pub setup: String,
    /// The server's host, as a name or as an address.
    pub host: String,
    /// The server's port, at least 1.
    pub port: u16,
    /// How many commands may be open at once, from 1 to 16.
    pub window: u8,
    /// The file of the features that are there already, to which they are written in the end; `-` is a file of that name.
    pub features: Option<String>,
    /// The file of the run's record, if one is named or its folder is; `-` is a file of that name.
    pub record: Option<String>,
    /// Which part is measured, as the record has it: 1 to 64 printable bytes.
    pub part: Option<String>,
    /// Who operates the machine, as the record has it with what else is known of the run: 1 to 64 printable bytes.
    pub operator: Option<String>,
    /// The file of the key under which the record is sealed, if it is.
    pub seal_key: Option<String>,
    /// The file that the contacts which the server reports are written to; `-` is a file of that name.
    pub contacts: Option<String>,
    /// Whether it reports how far it is.
    pub progress: bool,
    /// Whether each line that either side writes is shown.
    pub trace: bool,
    /// The file that these lines are added to, with their times; `-` is a file of that name.
    pub log: Option<String>,
    /// How many seconds the other end may be silent if something is due from it, from 1 to 86,400; no limit if none are named.
    pub timeout: Option<u32>,
    /// How many seconds it tries to connect, from 1 to 86,400; once if none are named.
    pub wait: Option<u32>,
    /// The file that ends it when it appears.
    pub stop: Option<String>,
    /// Whether it shows what comes first, and waits for an empty line before anything moves.
    pub confirm: bool,
    /// Whether it waits at each text for the operator between features until an empty line is read.
    pub pause: bool,
    /// Whether a line that is refused is shown, with what is wrong with it.
    pub explain: bool,
    /// The file of the program; `-` is standard input.
    pub program: String,
}

/// A form in which a record is printed.
#[derive(Clone, Copy, Debug, PartialEq, Eq)]
pub enum RecordForm {
    /// What was measured, in one of the forms of features.
    Table(Form),
    /// The text of a features file.
    Features,
    /// The text of a contacts file.
    Contacts,
}

/// What an export prints, and the file of it; `-` is standard input.
#[derive(Debug, Drop)]
pub enum Measured {
    /// The features that were measured.
    Features(Form, String),
    /// A record.
    Record(RecordForm, String),
}

/// The values of `export`.
#[derive(Debug, Drop)]
pub struct Export {
    /// What is printed.
    pub measured: Measured,
    /// How a table is written.
    pub table: TableOptions,
    /// The file of the limits that the points are compared with; `-` is standard input.
    pub limits: Option<String>,
    /// The program.
    pub subject: Subject,
}

/// The values of `review`.
#[derive(Debug, Drop)]
pub struct Review {
    /// Whether findings are printed as JSON, for other programs, or as lines.
    pub is_json: bool,
    /// The file of the machine's setup, whose frames the program may recall; `-` is standard input.
    pub setup: Option<String>,
    /// The file of the program; `-` is standard input.
    pub program: String,
}

/// The values of `ledger`.
#[derive(Debug, Drop)]
pub struct Ledger {
    /// The file of the bytes that the client sent; `-` is standard input.
    pub up: String,
    /// The file of the bytes that the server sent; `-` is standard input.
    pub down: String,
    /// The number of the connection, from 1 to 4,000,000,000.
    pub connection: u32,
}

/// The values of `judge`.
#[derive(Debug, Drop)]
pub struct Judge {
    /// The file of the bytes that the client sent; `-` is standard input.
    pub up: String,
    /// The file of the bytes that the server sent; `-` is standard input.
    pub down: String,
}

/// The values of `watch`.
#[derive(Debug, Drop)]
pub struct Watch {
    /// The port that is listened on, at least 1.
    pub listen: u16,
    /// The server's host, as a name or as an address.
    pub host: String,
    /// The server's port, at least 1.
    pub port: u16,
    /// The file that is written; `-` is a file of that name.
    pub told: String,
    /// The folder that the bytes of both ends of each connection are kept in.
    pub record_bytes: Option<String>,
    /// How many connections are relayed, one after the other, from 1 to 4,000,000,000, which are all that can be numbered.
    pub connections: u32,
    /// Whether each line that either side writes is shown.
    pub trace: bool,
    /// The file that these lines are added to, with their times; `-` is a file of that name.
    pub log: Option<String>,
    /// How many seconds both ends may be silent, from 1 to 86,400; no limit if none are named.
    pub timeout: Option<u32>,
}

/// The values of `lower`.
#[derive(Debug, Drop)]
pub struct Lower {
    /// Whether statements on clearing are left out.
    pub no_clearing: bool,
    /// Whether the machine corrects for temperature.
    pub compensated: bool,
    /// Whether what the operator would measure is left out.
    pub skip_manual: bool,
    /// Whether alignments select the stored frames of their names.
    pub stored_frames: bool,
    /// Whether inner circles and cylinders without touches are given even ones.
    pub even_touches: bool,
    /// The answers to what the program asks for.
    pub answers: Vec<Answer>,
    /// The program.
    pub subject: Subject,
}

/// The values of `report`.
#[derive(Debug, Drop)]
pub struct PartReport {
    /// The file of the limits that the points are compared with; `-` is standard input.
    pub limits: Option<String>,
    /// The record of the part.
    pub recorded: Recorded,
}

/// The form of a summary.
#[derive(Clone, Copy, Debug, PartialEq, Eq)]
pub enum SummaryForm {
    /// Text.
    Text,
    /// Comma-separated values.
    Csv,
    /// A page of HTML.
    Html,
}

/// The values of `summary`.
#[derive(Debug, Drop)]
pub struct BatchSummary {
    /// What is printed.
    pub form: SummaryForm,
    /// The file of the machine's setup, whose frames the program may recall; `-` is standard input.
    pub setup: Option<String>,
    /// The file of the limits that the points are compared with; `-` is standard input.
    pub limits: Option<String>,
    /// The file of the key of the records' seals, if they are to stand for all of them; `-` is standard input.
    pub seal_key: Option<String>,
    /// The file of the program; `-` is standard input.
    pub program: String,
    /// The files of the records; `-` is standard input.
    pub records: Vec<String>,
}
